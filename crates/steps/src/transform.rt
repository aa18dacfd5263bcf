// A point by a body's transform.
ghost use Rattle.std.specs.Prelude.{◌≡◌, ◌+◌, ◌<◌, length};
ghost use Rattle.answers.specs.Answers.{position_paper};
ghost use Rattle.steps.specs.Placed.{row_at, placed_at, placed_of};

use answers::{Refusal, is_missing, is_place_beyond};
use leaves::constants::GREATEST_FINITE;
use space::Place;

// One coordinate: the translation, then the three products.
#[tactic(auto, unfolding(crate::specs::Placed::row_at, crate::specs::Placed::row))]
fn row_at(transform: &[f64], at: usize, p: Place) -> f64
    requires { at + 3 < length transform.now }
    ensures { result ≡ row_at transform.now at p }
{
    transform[at + 3] + transform[at] * p.x + transform[at + 1] * p.y + transform[at + 2] * p.z
}

#[tactic(auto, unfolding(crate::specs::Placed::placed_at))]
fn placed_at(transform: &[f64], p: Place) -> Place
    requires { 11 < length transform.now }
    ensures { result ≡ placed_at transform.now p }
{
    Place {
        x: row_at(transform, 0, p),
        y: row_at(transform, 4, p),
        z: row_at(transform, 8, p),
    }
}

// The point where the transform puts it: three rows of four numbers, the last of each the translation; 24: a
// coordinate is not finite.
#[tactic(auto, using(answers::proofs::Present::present, answers::proofs::Calls::calls), unfolding(crate::specs::Placed::placed_of, crate::specs::Placed::any_not_finite))]
pub fn placed(transform: &[f64], point: &[f64]) -> Result<Place, Refusal>
    ensures { position_paper result ≡ placed_of transform.now point.now }
{
    if is_missing(12, GREATEST_FINITE, transform) || is_missing(3, GREATEST_FINITE, point) {
        return Err(Refusal::Argument);
    }
    let p = placed_at(transform, space::place_at(point, 0));
    if is_place_beyond(GREATEST_FINITE, p) {
        return Err(Refusal::NotFinite);
    }
    Ok(p)
}
