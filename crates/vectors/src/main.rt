// Runs `root` and `round` over the vectors of data/ and counts the answers that differ. A vector is a
// line of 34 bytes: the argument's bits, a space, the answer's bits, a newline, in capital hexadecimal
// digits. The hardware's square root and Rust's f64::round made the answers (rust/oracle,
// make_vectors). Every NaN counts as the same. A file that is short changes the output; one that is missing
// or cannot be read leaves no line, is said on standard error, and ends the program with status 1.
// That the constants of `leaves` have their bits is proved, and tried when the program starts.
#![tactic(auto)]

ghost use Rattle.std.specs.Prelude.{◌≡◌, ◌<◌, ◌≤◌, ◌==◌, ◌↔◌, IfOk, IsTrue, length, take, to_bits};
ghost use Rattle.std.specs.Float.{binary64};
ghost use Rattle.std.specs.Io.{ReadsAtMost};
ghost use Rattle.std.specs.Io.KnownBytes.{Consumes, IsAtEnd};
ghost use Rattle.std.specs.List.{list_all};

use leaves::constants;
use std::fs;
use std::io::{self, Read};
use std::num::{f64_from_bits_with_nan, f64_to_bits_with_nan};
use std::process::ExitCode;
use std::rt::Files;

const LINE: usize = 34;

// A proved loop has to end: this is more than either file has.
const MOST_LINES: u64 = 3000;

// How many vectors were read, and how many of them came out wrong.
#[derive(Clone, Copy)]
struct Tally {
    read: u64,
    wrong: u64,
}

// The value of a capital hexadecimal digit. std's `from_str_radix` refuses a line with another byte, which here
// counts as a digit.
fn digit(b: u8) -> u64
    ensures { result < 16 }
{
    if b < 65 {
        u64::from(b % 16)
    } else {
        u64::from((b - 55) % 16)
    }
}

// The number of these digits.
fn number(digits: &[u8]) -> u64 {
    digits.iter().fold(0, |n, b| n << 4 | digit(*b))
}

// Whether x is y; every NaN is the same.
fn is_same(x: f64, y: f64) -> bool
    ensures { IsTrue result ↔ (x ≡ y) }
{
    f64_to_bits_with_nan(x) == f64_to_bits_with_nan(y)
}

// Reads until the buffer is full or the file ends. Answers how many bytes it put at the buffer's start.
#[tactic(auto, using(cases::proofs::Buffers::read_more))]
fn read_full<R: Read>(file: &mut R, buffer: &mut [u8]) -> io::Result<usize>
    ensures bound { ReadsAtMost result buffer.new }
    ensures bytes { IfOk result (λ n. Consumes (R.remaining file.old) (R.remaining file.new) (take n buffer.new)) }
    ensures end { IfOk result (λ n. n < length buffer.new → IsAtEnd (R.remaining file.new)) }
{
    let mut n = 0;
    // No `for`: a turn goes on by as many bytes as the file gave, and it ends where the file gives none.
    while n < buffer.len() {
        match file.read(&mut buffer[n..])? {
            0 => break,
            more => n += more,
        }
    }
    Ok(n)
}

// Reads a line, and says whether the answer for its argument is its answer; of a file that has ended, nothing. Here and
// below, that the closure which is handed over may be called is required. (A trait's function asks nothing, but each
// leaf would be a type.)
fn run_line<F: Fn(f64) -> f64, R: Read>(leaf: F, file: &mut R) -> io::Result<Option<bool>>
    requires { F.IsAlwaysCallable leaf }
{
    let mut line = [0u8; LINE];
    if read_full(file, &mut line)? < LINE {
        return Ok(None);
    }
    let x = f64_from_bits_with_nan(number(&line[..16]));
    let answer = f64_from_bits_with_nan(number(&line[17..33]));
    Ok(Some(is_same(leaf(x), answer)))
}

fn run_lines<F: Fn(f64) -> f64, R: Read>(leaf: F, file: &mut R) -> io::Result<Tally>
    requires { F.IsAlwaysCallable leaf }
{
    let mut wrong = 0;
    for read in 0..MOST_LINES {
        match run_line(&leaf, file)? {
            Some(is_right) => wrong += u64::from(!is_right),
            None => return Ok(Tally { read, wrong }),
        }
    }
    Ok(Tally {
        read: MOST_LINES,
        wrong,
    })
}

// Runs the vectors of a file, and writes how many there were and how many came out wrong.
fn run_file<F: Fn(f64) -> f64>(rt: &(impl Files + Print), name: &str, leaf: F) -> io::Result<()>
    requires { F.IsAlwaysCallable leaf }
{
    let mut file = fs::open(rt, name)?;
    let tally = run_lines(leaf, &mut file)?;
    println!(rt; "{name}: {} vectors, {} wrong", tally.read, tally.wrong)
}

// Whether the file was run and its line written; else it says on standard error what failed. (replay has such a pair:
// what both share is the opening of a file, and `cases::is_run`.)
fn is_run<F: Fn(f64) -> f64>(rt: &(impl Files + Print + Eprint), name: &str, leaf: F) -> bool
    requires { F.IsAlwaysCallable leaf }
{
    cases::is_run(rt, name, run_file(rt, name, leaf))
}

// Whether each number has the bits beside it.
fn have_bits(numbers: &[(f64, u64)]) -> bool
    ensures { result ≡ list_all (λ p. to_bits binary64 p.0 == p.1) numbers.now }
{
    numbers
        .iter()
        .all(|(x, bits)| f64_to_bits_with_nan(*x) == *bits)
}

// The bits that stand beside the constants in leaves/src/constants.rt.
fn constants_have_their_bits() -> bool
    ensures { IsTrue result }
{
    have_bits(&[
        (constants::PI, 0x400921FB54442D18),
        (constants::TAU, 0x401921FB54442D18),
        (constants::DEVIATION_LIMIT, 0x3F60624DD2F1A9FC),
        (constants::SCALE_LIMIT, 0x3D719799812DEA11),
        (constants::JOIN_LIMIT, 0x3F1A36E2EB1C432D),
        (constants::CLEARANCE_LIMIT, 0x3F847AE147AE147B),
        (constants::PHYSICAL_LIMIT, 0x3E7AD7F29ABCAF48),
        (constants::MICRO, 0x3EB0C6F7A0B5ED8D),
        (constants::END_LIMIT, 0x3EE4F8B588E368F1),
        (constants::PARALLEL, 0x3E112E0BE826D695),
        (constants::DEGENERATE_LIMIT, 0x3C32725DD1D243AC),
    ])
}

// What failed is said in the program's own words, so `main` answers no `Result`.
fn main(rt: HostRuntime) -> ExitCode {
    let are_right = constants_have_their_bits();
    let root = is_run(&rt, "root", |x| leaves::root(x));
    let round = is_run(&rt, "round", |x| leaves::round(x));
    if are_right && root && round {
        ExitCode::SUCCESS
    } else {
        ExitCode::FAILURE
    }
}
