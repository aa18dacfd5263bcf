// The list of five numbers in which a call's result stands over the C convention.
ghost use Rattle.std.specs.Prelude.{◌≡◌};
ghost use Rattle.answers.specs.Answers.{told_by};
ghost use Rattle.answers.specs.Returned.{returned, returned_of};

use crate::outcomes::IntoValues;
use crate::refusal::Numbered;

// x, y, z, clearance, count.
pub const RESULT_LENGTH: usize = 5;

// Puts an answer's five numbers into the list, zeros beside a refusal, and gives its status, a number, since C reads
// it. A list of another length stays as it is, and the status is 1.
#[tactic(auto, unfolding(crate::specs::Returned::returned_of, crate::specs::Returned::five, crate::specs::Answers::told_by))]
pub fn put<T: IntoValues, E: Numbered>(answer: Result<T, E>, list: &mut [f64]) -> u32
    ensures { returned result list.new ≡ returned_of (told_by T.numbers E.number answer) list.old }
{
    if list.len() != RESULT_LENGTH {
        return 1;
    }
    match answer {
        Ok(value) => {
            let v = value.into_values();
            list.copy_from_slice(&[v.x, v.y, v.z, v.clearance, v.count as f64]);
            0
        }
        Err(refusal) => {
            list.fill(0.0);
            refusal.number()
        }
    }
}
