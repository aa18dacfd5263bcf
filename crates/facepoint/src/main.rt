// Reads one plane sheet from standard input and prints the plane pick's answer as one line: `0`, x, y, z and
// clearance as bits, and the count; or a refusal's number alone. More than 65,536 bytes of input are a 1.
// Where the input cannot be read there is no answer and no line; that, and a line that cannot be written, is
// said on standard error, and the program then ends with status 1.
#![tactic(auto)]

ghost use Rattle.std.specs.Prelude.{◌≡◌, ◌<◌, IfOk, length, take};
ghost use Rattle.std.specs.Io.{ReadsAtMost};
ghost use Rattle.std.specs.Io.KnownBytes.{Consumes, IsAtEnd};
ghost use Rattle.answers.specs.Answers.{paper};
ghost use Rattle.facepoint.specs.Answer.{answer_to};
ghost use Rattle.facepoint.specs.Line.{line_of};

use answers::{Answer, Refusal};
use std::io::{self, Read};
use std::process::ExitCode;
use thiserror::Error;

// The longest input that is taken for a sheet.
const MOST_BYTES: usize = 65536;

// One byte more shows that an input is longer.
const ROOM: usize = MOST_BYTES + 1;

// The longest line: a point whose count has ten digits.
const LINE: usize = 81;

// What failed, and why.
#[derive(Clone, Copy, Debug, Error)]
enum Failure {
    #[error("standard input: {0}")]
    Input(io::Error),
    #[error("standard output: {0}")]
    Output(io::Error),
}

// Reads until the buffer is full or the file ends. Answers how many bytes it put at the buffer's start.
#[tactic(auto, using(cases::proofs::Buffers::read_more))]
fn read_full<R: Read>(file: &mut R, buffer: &mut [u8]) -> io::Result<usize>
    ensures bound { ReadsAtMost result buffer.new }
    ensures bytes { IfOk result (λ n. Consumes (R.remaining file.old) (R.remaining file.new) (take n buffer.new)) }
    ensures end { IfOk result (λ n. n < length buffer.new → IsAtEnd (R.remaining file.new)) }
{
    let mut n = 0;
    // No `for`: a turn goes on by as many bytes as the file gave, and it ends where the file gives none.
    while n < buffer.len() {
        match file.read(&mut buffer[n..])? {
            0 => break,
            more => n += more,
        }
    }
    Ok(n)
}

// The plane pick of the input, or 1 where it is too long.
#[tactic(auto, using(answers::proofs::Calls::calls), unfolding(crate::specs::Answer::answer_to))]
fn answer_to(input: &[u8]) -> Answer
    ensures { paper result ≡ answer_to input.now }
{
    if MOST_BYTES < input.len() {
        return Err(Refusal::Length);
    }
    picker::plane_pick(input)
}

// Puts an answer's line at the start of the page, and gives it.
#[tactic(auto, using(text::proofs::Lines::text_first), unfolding(crate::specs::Line::line_of))]
fn put_line<'a>(answer: Answer, page: &'a mut [u8; LINE]) -> &'a [u8]
    ensures { result.now ≡ line_of answer }
{
    let n = match answer {
        Ok(v) => text::point_line(v, 0, page),
        Err(refusal) => text::refusal_line(u32::from(refusal), 0, page),
    };
    &page[..n]
}

fn print_line(rt: &impl Print, answer: Answer) -> io::Result<()> {
    let mut page = [0u8; LINE];
    rt.write_all(put_line(answer, &mut page))
}

// Reads the sheet and prints the answer's line.
fn run<R: Read>(rt: &impl Print, input: &mut R) -> Result<(), Failure> {
    let mut buffer = [0u8; ROOM];
    let n = read_full(input, &mut buffer).map_err(Failure::Input)?;
    print_line(rt, answer_to(&buffer[..n])).map_err(Failure::Output)
}

// What failed is said in the program's own words, so `main` answers no `Result`.
fn main(rt: HostRuntime) -> ExitCode {
    match run(&rt, &mut rt.stdin()) {
        Ok(()) => ExitCode::SUCCESS,
        Err(failure) => {
            let _ = eprintln!(rt; "facepoint: {failure}");
            ExitCode::FAILURE
        }
    }
}
