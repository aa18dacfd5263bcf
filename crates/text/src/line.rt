// The line of an answer: a point's numbers with single spaces between them, or a refusal's number alone.
// It is made in a vector of fixed room, and laid into the page as a whole. (`write!` would not do: no clause says
// that it succeeds where there is room.)
ghost use Rattle.std.specs.Prelude.{◌≡◌, ◌++◌, ◌+◌, ◌≤◌, length};
ghost use Rattle.arrayvec.specs.ArrayVec.{array_vec_len};
ghost use Rattle.buffer.specs.Page.{laid, behind};
ghost use Rattle.text.specs.Digits.{decimal};
ghost use Rattle.text.specs.Line.{number, point_text, point_line, refusal_line};

use crate::hexadecimal::{bits_of, hex};
use answers::Values;
use arrayvec::ArrayVec;
use buffer::put_bytes;

// The longest line: 1 + 4 x 17 + 1 bytes, a count of ten digits and a newline.
const LONGEST: usize = 81;

type Line = ArrayVec<u8, LONGEST>;

// Pushes bytes that the line has room for.
fn push_bytes(line: &mut Line, bytes: &[u8])
    requires { array_vec_len line.old + length bytes.now ≤ LONGEST }
    ensures { line.new.items ≡ line.old.items ++ bytes.now }
{
    let _ = line.try_extend_from_slice(bytes);
}

// Pushes a space and the bits of x.
#[tactic(auto, unfolding(crate::specs::Line::number))]
fn push_number(line: &mut Line, x: f64)
    requires { array_vec_len line.old + 17 ≤ LONGEST }
    ensures text { line.new.items ≡ line.old.items ++ number x }
    ensures len { array_vec_len line.new ≡ array_vec_len line.old + 17 }
{
    line.push(b' ');
    push_bytes(line, &hex(bits_of(x)));
}

// Pushes n's digits.
#[tactic(auto, using(crate::proofs::Tens::decimal_is))]
fn push_decimal(line: &mut Line, n: u32)
    requires { array_vec_len line.old + 10 ≤ LONGEST }
    ensures text { line.new.items ≡ line.old.items ++ decimal n }
    ensures len { array_vec_len line.new ≤ array_vec_len line.old + 10 }
{
    let mut digits = itoa::Buffer::new();
    push_bytes(line, digits.format(n).as_bytes());
}

// A point's numbers: its status 0, x, y, z, clearance and count.
#[tactic(auto, using(crate::proofs::Tens::status), unfolding(crate::specs::Line::point_text))]
fn point_text(v: Values) -> Line
    ensures text { result.items ≡ point_text v.x v.y v.z v.clearance v.count }
    ensures len { array_vec_len result ≤ 80 }
{
    let mut line = Line::new();
    line.push(b'0');
    push_number(&mut line, v.x);
    push_number(&mut line, v.y);
    push_number(&mut line, v.z);
    push_number(&mut line, v.clearance);
    line.push(b' ');
    push_decimal(&mut line, v.count);
    line
}

// Puts a point's numbers: its status 0, x, y, z, clearance and count.
pub fn put_point(v: Values, at: usize, page: &mut [u8]) -> usize
    ensures value { result ≡ behind at (point_text v.x v.y v.z v.clearance v.count) page.old }
    ensures page_after { page.new ≡ laid at (point_text v.x v.y v.z v.clearance v.count) page.old }
{
    let text = point_text(v);
    put_bytes(text.as_slice(), at, page)
}

// Puts a point's numbers and a newline. (What it shares with `put_point` is `point_text`, and no more is left.)
#[tactic(auto, unfolding(crate::specs::Line::point_line))]
pub fn point_line(v: Values, at: usize, page: &mut [u8]) -> usize
    ensures value { result ≡ behind at (point_line v.x v.y v.z v.clearance v.count) page.old }
    ensures page_after { page.new ≡ laid at (point_line v.x v.y v.z v.clearance v.count) page.old }
{
    let mut line = point_text(v);
    line.push(b'\n');
    put_bytes(line.as_slice(), at, page)
}

// Puts a refusal's number and a newline.
#[tactic(auto, unfolding(crate::specs::Line::refusal_line))]
pub fn refusal_line(number: u32, at: usize, page: &mut [u8]) -> usize
    ensures value { result ≡ behind at (refusal_line number) page.old }
    ensures page_after { page.new ≡ laid at (refusal_line number) page.old }
{
    let mut line = Line::new();
    push_decimal(&mut line, number);
    line.push(b'\n');
    put_bytes(line.as_slice(), at, page)
}
