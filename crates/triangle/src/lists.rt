// The triangle on flat lists, as the host has them.
ghost use Rattle.std.specs.Prelude.{◌≡◌, ◌+◌, ◌<◌, length, get_or, true, false, MatchResult};
ghost use Rattle.std.specs.Float.Ieee.{eq};
ghost use Rattle.leaves.specs.Constants.{one};
ghost use Rattle.answers.specs.declared.refusal.Refusal.TheVariants.{Argument};
ghost use Rattle.std.specs.Float.{nan};
ghost use Rattle.answers.specs.Answers.{position_paper};
ghost use Rattle.triangle.specs.Lists.{no_flag, coordinates, side_from, triangle_lists_of};

use crate::arcs::spherical_triangle;
use answers::Refusal;
use sides::{Side, Sphere};
use space::Place;

// Numbers of a side.
const SIDE_LENGTH: usize = 19;

// A flag is 0 or 1; another number is a number missing.
#[tactic(auto, unfolding(crate::specs::Lists::no_flag))]
fn flag(x: f64) -> Result<bool, Refusal>
    ensures { MatchResult result (λ b. (no_flag x ≡ false) × (b ≡ eq x one)) (λ e. (no_flag x ≡ true) × (e ≡ Argument)) }
{
    if x == 1.0 {
        Ok(true)
    } else if x == 0.0 {
        Ok(false)
    } else {
        Err(Refusal::Argument)
    }
}

fn coordinates_at(list: &[f64], at: usize) -> [f64; 3]
    requires { at + 2 < length list.now }
    ensures { result ≡ coordinates list.now at }
{
    [list[at], list[at + 1], list[at + 2]]
}

// The side whose nineteen numbers begin at `at`.
#[tactic(auto, unfolding(crate::specs::Lists::side_from))]
fn side_at(sides: &[f64], at: usize) -> Result<Side, Refusal>
    requires { at + 18 < length sides.now }
    ensures { MatchResult result (λ side. (no_flag (get_or sides.now (at + 6) nan) ≡ false) × (side ≡ side_from sides.now at)) (λ e. (no_flag (get_or sides.now (at + 6) nan) ≡ true) × (e ≡ Argument)) }
{
    Ok(Side {
        ends: [coordinates_at(sides, at), coordinates_at(sides, at + 3)],
        reversed: flag(sides[at + 6])?,
        circle: Sphere {
            centre: space::place_at(sides, at + 7),
            radius: sides[at + 10],
        },
        range: [sides[at + 11], sides[at + 12]],
        evaluated: [
            coordinates_at(sides, at + 13),
            coordinates_at(sides, at + 16),
        ],
    })
}

// The triangle: the centre's three numbers, and nineteen of each side, its two ends, the reversed flag,
// the circle's centre and radius, the range's two ends and the two evaluated ends.
#[tactic(auto, using(answers::proofs::Calls::calls), unfolding(crate::specs::Lists::triangle_lists_of, crate::specs::Lists::lists_wrong))]
pub fn spherical_triangle_of(
    centre: &[f64],
    radius: f64,
    sense: u32,
    sides: &[f64],
) -> Result<Place, Refusal>
    ensures { position_paper result ≡ triangle_lists_of centre.now radius sense sides.now }
{
    if centre.len() != 3 || sides.len() != 3 * SIDE_LENGTH {
        return Err(Refusal::Argument);
    }
    let sphere = Sphere {
        centre: space::place_at(centre, 0),
        radius,
    };
    let sides = [
        side_at(sides, 0)?,
        side_at(sides, SIDE_LENGTH)?,
        side_at(sides, 2 * SIDE_LENGTH)?,
    ];
    spherical_triangle(sphere, sense, sides)
}
