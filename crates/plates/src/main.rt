// Writes what is answered for each plate of data/plates. A plate is its name in 32 bytes, with spaces behind
// it; its call, the sheet's length, the phase and the list's length (u32 each); the sheet; and of image pick
// the images (f64), all big-endian. Its line is the name, the status, of a point also x, y, z and clearance
// as bits and the count, and of the chart a number that every place of the list goes into. rust/oracle made
// the plates and says their lines (make_plates). A missing file leaves no line, and a file that is cut off
// or broken ends with the line `broken`. Where the file cannot be read, or a line cannot be written, that is
// said on standard error, and the program ends with status 1.
#![tactic(auto)]

ghost use Rattle.std.specs.Prelude.{◌≡◌, ℕ, ◌-◌, ◌<◌, ◌≤◌, length, take, get_or};
ghost use Rattle.text.specs.Digits.{hexadecimal};
ghost use Rattle.plates.specs.Answer.{answer_text};

mod reading;

use answers::Answer;
use cases::{Head, MOST_BYTES, MOST_NUMBERS, MOST_PLACES, RecordError, UNWRITTEN};
use chart::Phase;
use std::fs;
use std::io::{self, Read};
use std::process::ExitCode;
use std::rt::Files;

const NAME_SIZE: usize = 32;

// A proved loop has to end: this is more than the file has.
const MOST_PLATES: u64 = 10000;

#[derive(Clone, Copy, Debug, PartialEq, Eq)]
enum Call {
    Chart,
    ImagePick,
    PlanePick,
}

// The call of a number, as a plate has it.
impl TryFrom<u32> for Call {
    type Error = RecordError;

    fn try_from(number: u32) -> Result<Call, RecordError> {
        match number {
            0 => Ok(Call::Chart),
            1 => Ok(Call::ImagePick),
            2 => Ok(Call::PlanePick),
            _ => Err(RecordError::Broken),
        }
    }
}

// What stands before a plate's sheet. Whether a call has the number is asked when the sheet is read.
#[derive(Clone, Copy)]
struct Plate {
    name: [u8; NAME_SIZE],
    call: u32,
    head: Head,
}

// The bytes before the spaces at the end.
fn before_spaces(name: &[u8]) -> &[u8]
    ensures front { result.now ≡ take (length result.now) name.now }
    ensures spaces { (k : ℕ) → length result.now ≤ k → k < length name.now → get_or name.now k 0 ≡ 32 }
    ensures last { 0 < length result.now → get_or name.now (length result.now - 1) 0 ≡ 32 → ⊥ }
{
    let last = name.iter().rposition(|b| *b != b' ');
    &name[..last.map_or(0, |k| k + 1)]
}

// Puts an answer's numbers at the start of the page, and gives them. (facepoint's `put_line` puts a whole line, with
// its newline.)
#[tactic(auto, using(text::proofs::Lines::text_first), unfolding(crate::specs::Answer::answer_text))]
fn put_answer<'a>(answer: Answer, page: &'a mut [u8; 80]) -> &'a [u8]
    ensures text { result.now ≡ answer_text answer }
    ensures bound { length result.now ≤ 80 }
{
    let n = match answer {
        Ok(v) => text::put_point(v, 0, page),
        Err(refusal) => text::put_decimal(u32::from(refusal), 0, page),
    };
    &page[..n]
}

// The sixteen digits of a sum.
#[tactic(auto, using(text::proofs::Lines::sixteen_digits))]
fn sum_text(sum: u64) -> [u8; 16]
    ensures { result ≡ hexadecimal sum }
{
    let mut page = [0u8; 16];
    text::put_hex(sum, 0, &mut page);
    page
}

// Writes a plate's line; `sum` is that of the chart's list.
fn print_line(rt: &impl Print, name: &[u8], answer: Answer, sum: Option<u64>) -> io::Result<()> {
    let mut page = [0u8; 80];
    rt.write_all(before_spaces(name))?;
    rt.write_all(b": ")?;
    rt.write_all(put_answer(answer, &mut page))?;
    if let Some(sum) = sum {
        rt.write_all(b" ")?;
        rt.write_all(&sum_text(sum))?;
    }
    rt.write_all(b"\n")
}

// The next plate of a file; none where the file has ended.
fn next_plate<R: Read>(file: &mut R) -> Result<Option<Plate>, RecordError> {
    let mut name = [0u8; NAME_SIZE];
    match reading::read_full(file, &mut name)? {
        0 => return Ok(None),
        NAME_SIZE => {}
        _ => return Err(RecordError::Broken),
    }
    let mut call = [0u8; 4];
    reading::read_whole(file, &mut call)?;
    let head = reading::read_head(file)?.ok_or(RecordError::Broken)?;
    Ok(Some(Plate {
        name,
        call: u32::from_be_bytes(call),
        head,
    }))
}

// Reads a plate's sheet and images, makes its call and writes its line. The file says which of three calls that is, so
// one `match` chooses. There is no heap, so the lists have the sizes of the longest, here as in replay.
fn run_plate<R: Read>(rt: &impl Print, file: &mut R, plate: Plate) -> Result<(), RecordError> {
    let mut sheet = [0u8; MOST_BYTES];
    let mut list = [0.0f64; MOST_PLACES];
    let mut numbers = [0u8; MOST_NUMBERS];
    let head = plate.head;
    let phase = Phase::from(head.phase);
    let sheet = &mut sheet[..head.bytes];
    let list = &mut list[..head.places];
    reading::read_whole(file, sheet)?;
    let (answer, sum) = match Call::try_from(plate.call)? {
        Call::Chart => {
            cases::fill(list, UNWRITTEN);
            let answer = chart::chart(sheet, phase, list);
            (answer, Some(cases::check_sum(list)))
        }
        Call::ImagePick => {
            let numbers = &mut numbers[..8 * head.places];
            reading::read_whole(file, numbers)?;
            cases::load(list, numbers);
            (picker::image_pick(sheet, phase, list), None)
        }
        Call::PlanePick => (picker::plane_pick(sheet), None),
    };
    Ok(print_line(rt, &plate.name, answer, sum)?)
}

fn run_plates<R: Read>(rt: &impl Print, file: &mut R) -> Result<(), RecordError> {
    for _ in 0..MOST_PLATES {
        let Some(plate) = next_plate(file)? else {
            break;
        };
        run_plate(rt, file, plate)?;
    }
    Ok(())
}

fn run_file(rt: &(impl Files + Print), name: &str) -> io::Result<()> {
    let mut file = fs::open(rt, name)?;
    match run_plates(rt, &mut file) {
        Ok(()) => Ok(()),
        Err(RecordError::Broken) => rt.write_all(b"broken\n"),
        Err(RecordError::Io(error)) => Err(error),
    }
}

// What failed is said in the program's own words, so `main` answers no `Result`.
fn main(rt: HostRuntime) -> ExitCode {
    let name = "plates";
    if cases::is_run(&rt, name, run_file(&rt, name)) {
        ExitCode::SUCCESS
    } else {
        ExitCode::FAILURE
    }
}
