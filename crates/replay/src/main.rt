// Replays the recorded calls of data/, a file for each of the nine, and counts the answers that differ from
// the record. A record is the size of its front, a whole number and the list's length (u32 each), the front,
// and then what the call leaves: status (u32), x, y, z and clearance (f64), count (u32), and every place of
// the list (f64), all big-endian. The front is the sheet and the whole number the phase, and the list is the
// chart's output or image pick's images; plane pick has none. A call after the picker has its numbers (f64)
// in front and list:
//
// | call | front | whole number | list |
// |---|---|---|---|
// | sample_parameter | | n | a, b |
// | direction | | | points |
// | spherical_triangle | centre | sense | radius, then sides |
// | point_on | u axis, then normal | length of the u axis | corners |
// | cylinder_point | heights | | angles |
// | placed | transform | | point |
//
// rust/oracle made the files (make_replay, make_replay_after). A file that is cut off or broken has one wrong
// answer more. One that is missing or cannot be read leaves no line, is said on standard error, and ends the
// program with status 1.
#![tactic(auto)]

ghost use Rattle.std.specs.Prelude.{◌≡◌, ◌+◌, ◌<◌, ◌≤◌};
ghost use Rattle.replay.specs.Recorded.{recorded};

mod reading;

use answers::{Answer, IntoValues, Refusal, Values};
use cases::{
    Head, MOST_BYTES, MOST_NUMBERS, MOST_PLACES, RecordError, UNWRITTEN, is_shown, u32_at, u64_at,
};
use chart::Phase;
use std::fs;
use std::io::{self, Read};
use std::process::ExitCode;
use std::rt::Files;

// A proved loop has to end: this is more than a file has.
const MOST_RECORDS: u64 = 100000;

// The longest front of a call after the picker.
const MOST_FRONT: usize = 1024;

// What a call left: its answer, and whether its list is the record's.
#[derive(Clone, Copy)]
struct Left {
    answer: Answer,
    is_list_right: bool,
}

// What a record showed: whether the answer is a point, and whether all is the record's.
#[derive(Clone, Copy)]
struct Outcome {
    is_point: bool,
    is_right: bool,
}

// How many records were read, how many of the answers are points, and how many are wrong.
#[derive(Clone, Copy)]
struct Tally {
    read: u64,
    points: u64,
    wrong: u64,
    ghost points_bound: { points ≤ read },
    ghost wrong_bound: { wrong ≤ read },
}

impl Tally {
    fn count(&mut self, outcome: Outcome)
        requires { self.old.read < MOST_RECORDS }
        ensures { self.new.read ≡ self.old.read + 1 }
    {
        self.read += 1;
        self.points += u64::from(outcome.is_point);
        self.wrong += u64::from(!outcome.is_right);
    }
}

// What stands beside a refusal.
const ZEROS: Values = Values {
    x: 0.0,
    y: 0.0,
    z: 0.0,
    clearance: 0.0,
    count: 0,
};

// The answer of a call as the five numbers beside a status.
fn as_values<T: IntoValues>(answer: Result<T, Refusal>) -> Answer {
    answer.map(|value| value.into_values())
}

// Whether the recorded answer has these numbers.
#[tactic(auto, unfolding(crate::specs::Recorded::recorded))]
fn is_recorded(answer: &[u8; 40], status: u32, given: Values) -> bool
    ensures { result ≡ recorded answer.now status given.x given.y given.z given.clearance given.count }
{
    u32_at(answer, 0) == status
        && u32_at(answer, 36) == given.count
        && is_shown(given.x, u64_at(answer, 4))
        && is_shown(given.y, u64_at(answer, 12))
        && is_shown(given.z, u64_at(answer, 20))
        && is_shown(given.clearance, u64_at(answer, 28))
}

impl Left {
    // What a record showed whose answer has these bytes. (`answers::put` makes of an answer what C reads, with the
    // count as an f64; a record has it as a u32.)
    fn held_against(self, answer: &[u8; 40]) -> Outcome {
        let (status, given) = match self.answer {
            Ok(values) => (0, values),
            Err(refusal) => (u32::from(refusal), ZEROS),
        };
        Outcome {
            is_point: self.answer.is_ok(),
            is_right: self.is_list_right && is_recorded(answer, status, given),
        }
    }
}

// Reads what stands behind a record's head, and makes its call. Here and below, that the closure which is handed over
// may be called is required. (A trait's function asks nothing, but each of the nine calls would be a type. The lists
// stand in a function of their own: beside the head's reading they were cleared twice.)
fn run_call<F: Fn(&[u8], u32, &mut [f64], &[u8]) -> Result<Left, RecordError>, R: Read>(
    file: &mut R,
    head: Head,
    call: F,
) -> Result<Outcome, RecordError>
    requires { F.IsAlwaysCallable call }
{
    let mut sheet = [0u8; MOST_BYTES];
    let mut answer = [0u8; 40];
    let mut numbers = [0u8; MOST_NUMBERS];
    let mut list = [0.0f64; MOST_PLACES];
    let Head {
        bytes,
        phase,
        places,
    } = head;
    let sheet = &mut sheet[..bytes];
    let list = &mut list[..places];
    let numbers = &mut numbers[..8 * places];
    reading::read_whole(file, sheet)?;
    reading::read_whole(file, &mut answer)?;
    reading::read_whole(file, numbers)?;
    let left = call(sheet, phase, list, numbers)?;
    Ok(left.held_against(&answer))
}

// Reads a record and makes its call; of a file that has ended, nothing.
fn run_record<F: Fn(&[u8], u32, &mut [f64], &[u8]) -> Result<Left, RecordError>, R: Read>(
    file: &mut R,
    call: F,
) -> Result<Option<Outcome>, RecordError>
    requires { F.IsAlwaysCallable call }
{
    match reading::read_head(file)? {
        Some(head) => Ok(Some(run_call(file, head, call)?)),
        None => Ok(None),
    }
}

fn run_records<F: Fn(&[u8], u32, &mut [f64], &[u8]) -> Result<Left, RecordError>, R: Read>(
    file: &mut R,
    call: F,
) -> io::Result<Tally>
    requires { F.IsAlwaysCallable call }
{
    let mut tally = Tally {
        read: 0,
        points: 0,
        wrong: 0,
    };
    for _ in 0..MOST_RECORDS {
        match run_record(file, &call) {
            Ok(Some(outcome)) => tally.count(outcome),
            Ok(None) => break,
            Err(RecordError::Broken) => {
                tally.count(Outcome {
                    is_point: false,
                    is_right: false,
                });
                break;
            }
            Err(RecordError::Io(error)) => return Err(error),
        }
    }
    Ok(tally)
}

// Loads the numbers of a call's front, eight bytes each, and makes the call. A front above the longest is broken.
fn with_front<F: Fn(&[f64], u32, &[f64]) -> Result<Answer, RecordError>>(
    bytes: &[u8],
    whole: u32,
    list: &[f64],
    call: &F,
) -> Result<Answer, RecordError>
    requires { F.IsAlwaysCallable call.now }
{
    let mut front = [0.0f64; MOST_FRONT];
    let front = front.get_mut(..bytes.len() / 8).ok_or(RecordError::Broken)?;
    cases::load(front, bytes);
    call(front, whole, list)
}

// Replays the records of a file, and writes how many there were, how many of the answers are points and how
// many are wrong.
fn run_file<F: Fn(&[u8], u32, &mut [f64], &[u8]) -> Result<Left, RecordError>>(
    rt: &(impl Files + Print),
    name: &str,
    call: F,
) -> io::Result<()>
    requires { F.IsAlwaysCallable call }
{
    let mut file = fs::open(rt, name)?;
    let tally = run_records(&mut file, call)?;
    println!(rt;
        "{name}: {} answers, {} points, {} wrong",
        tally.read, tally.points, tally.wrong
    )
}

// Whether the file was replayed and its line written; else it says on standard error what failed. (vectors has such a
// pair: see there.)
fn is_run<F: Fn(&[u8], u32, &mut [f64], &[u8]) -> Result<Left, RecordError>>(
    rt: &(impl Files + Print + Eprint),
    name: &str,
    call: F,
) -> bool
    requires { F.IsAlwaysCallable call }
{
    cases::is_run(rt, name, run_file(rt, name, call))
}

// The same of a call that is lent its list to read.
fn is_run_with_list<F: Fn(&[u8], u32, &[f64]) -> Result<Answer, RecordError>>(
    rt: &(impl Files + Print + Eprint),
    name: &str,
    call: F,
) -> bool
    requires { F.IsAlwaysCallable call }
{
    is_run(rt, name, |sheet, phase, list, numbers| {
        cases::load(list, numbers);
        Ok(Left {
            answer: call(sheet, phase, list)?,
            is_list_right: true,
        })
    })
}

// The same of a call after the picker, whose numbers stand in front and list.
fn is_run_with_front<F: Fn(&[f64], u32, &[f64]) -> Result<Answer, RecordError>>(
    rt: &(impl Files + Print + Eprint),
    name: &str,
    call: F,
) -> bool
    requires { F.IsAlwaysCallable call }
{
    is_run_with_list(
        rt,
        name,
        |bytes, whole, list| with_front(bytes, whole, list, &call),
    )
}

// Replays the calls of the picker.
fn is_picker_run(rt: &(impl Files + Print + Eprint)) -> bool {
    let chart = is_run(rt, "chart", |sheet, phase, list, numbers| {
        cases::fill(list, UNWRITTEN);
        let answer = chart::chart(sheet, Phase::from(phase), list);
        let is_list_right = cases::wrong_places(list, numbers) == 0;
        Ok(Left {
            answer,
            is_list_right,
        })
    });
    let image_pick = is_run_with_list(rt, "image_pick", |sheet, phase, images| {
        Ok(picker::image_pick(sheet, Phase::from(phase), images))
    });
    let plane_pick = is_run_with_list(
        rt,
        "plane_pick",
        |sheet, _, _| Ok(picker::plane_pick(sheet)),
    );
    chart && image_pick && plane_pick
}

// Replays the calls after the picker.
fn is_after_run(rt: &(impl Files + Print + Eprint)) -> bool {
    let sample_parameter = is_run_with_front(rt, "sample_parameter", |_, n, list| match list {
        [a, b] => Ok(as_values(steps::sample_parameter(*a, *b, n))),
        _ => Err(RecordError::Broken),
    });
    let direction = is_run_with_front(rt, "direction", |_, _, points| {
        Ok(as_values(steps::edge_direction(points)))
    });
    let triangle = is_run_with_front(rt, "spherical_triangle", |centre, sense, list| match list {
        [radius, sides @ ..] => {
            let answer = triangle::spherical_triangle_of(centre, *radius, sense, sides);
            Ok(as_values(answer))
        }
        [] => Err(RecordError::Broken),
    });
    let point_on = is_run_with_front(rt, "point_on", |front, n, corners| {
        let (axis, normal) = front
            .split_at_checked(n as usize)
            .ok_or(RecordError::Broken)?;
        Ok(as_values(vertex_fallback::point_on(axis, normal, corners)))
    });
    let cylinder_point = is_run_with_front(rt, "cylinder_point", |heights, _, angles| {
        Ok(as_values(round_fallback::cylinder_point(heights, angles)))
    });
    let placed = is_run_with_front(rt, "placed", |transform, _, point| {
        Ok(as_values(steps::placed(transform, point)))
    });
    sample_parameter && direction && triangle && point_on && cylinder_point && placed
}

// What failed is said in the program's own words, so `main` answers no `Result`.
fn main(rt: HostRuntime) -> ExitCode {
    let picker = is_picker_run(&rt);
    let after = is_after_run(&rt);
    if picker && after {
        ExitCode::SUCCESS
    } else {
        ExitCode::FAILURE
    }
}
