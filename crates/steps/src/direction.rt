// The direction test in `edge_points` of uv.rs.
ghost use Rattle.std.specs.Prelude.{◌≡◌};
ghost use Rattle.answers.specs.Answers.{direction_numbers, direction_paper};
ghost use Rattle.steps.specs.Direction.{keeps_of, directed, direction_of};

use answers::{Direction, Refusal, is_missing};
use leaves::constants::{GREATEST_FINITE, JOIN_LIMIT};
use space::Place;

// Whether both images lie nearer to the ends than 1e-4.
#[tactic(auto, using(leaves::proofs::ConstantBits::join_limit_bits), unfolding(crate::specs::Direction::keeps_of))]
fn keeps(front: Place, back: Place, start: Place, end: Place) -> bool
    ensures { result ≡ keeps_of front back start end }
{
    space::distance(front, start) < JOIN_LIMIT && space::distance(back, end) < JOIN_LIMIT
}

#[tactic(auto, unfolding(crate::specs::Direction::directed, crate::specs::Direction::reverses_of))]
fn direct(front: Place, back: Place, start: Place, end: Place) -> Direction
    ensures { direction_numbers result ≡ directed front back start end }
{
    let reverse = space::distance(back, start) < space::distance(front, start);
    let keep = if reverse {
        keeps(back, front, start, end)
    } else {
        keeps(front, back, start, end)
    };
    Direction { reverse, keep }
}

// Whether to reverse a coedge's points, and whether to keep them. `points` holds twelve numbers: the first
// image, the last image, the start, the end.
#[tactic(auto, using(answers::proofs::Calls::calls), unfolding(crate::specs::Direction::direction_of))]
pub fn edge_direction(points: &[f64]) -> Result<Direction, Refusal>
    ensures { direction_paper result ≡ direction_of points.now }
{
    if is_missing(12, GREATEST_FINITE, points) {
        return Err(Refusal::Argument);
    }
    Ok(direct(
        space::place_at(points, 0),
        space::place_at(points, 3),
        space::place_at(points, 6),
        space::place_at(points, 9),
    ))
}
