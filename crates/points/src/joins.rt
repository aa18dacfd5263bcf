// Rule 4 and check 13: whether a join of the ring is too wide.
ghost use Rattle.std.specs.Prelude.{◌≡◌};
ghost use Rattle.points.specs.Joins.{gap_u, join, wide, ring_open};

use crate::turns::turns;
use leaves::constants::{JOIN_LIMIT, TAU};
use sheet::Point;

// A difference in u, less whole turns on a periodic chart.
#[tactic(auto, unfolding(crate::specs::Joins::gap_u))]
fn gap_u(periodic: bool, d: f64) -> f64
    ensures { result ≡ gap_u periodic d }
{
    if periodic { d - turns(d, TAU) } else { d }
}

// Whether the join from a to b is above the limit.
#[tactic(auto, using(leaves::proofs::ConstantBits::join_limit_bits), unfolding(crate::specs::Joins::wide, crate::specs::Joins::gap))]
fn is_wide(periodic: bool, scale: Point, a: Point, b: Point) -> bool
    ensures { result ≡ wide periodic scale.u scale.v (join a b) }
{
    JOIN_LIMIT < leaves::hypot(gap_u(periodic, a.u - b.u) / scale.u, (a.v - b.v) / scale.v)
}

// Whether a join of the ring is above the limit. Of each point a mark says whether its coedge begins with it.
pub fn is_open(periodic: bool, scale: Point, marks: &[bool], ring: &[Point]) -> bool
    ensures { result ≡ ring_open periodic scale.u scale.v marks.now ring.now }
{
    let Some((_first_mark, marks_behind)) = marks.split_first() else {
        return false;
    };
    let Some((first, rest)) = ring.split_first() else {
        return false;
    };
    let last = rest.last().copied().unwrap_or(*first);
    let mut seams = ring.iter().zip(rest).zip(marks_behind);
    is_wide(periodic, scale, *first, last)
        || seams.any(|((before, p), opens)| *opens && is_wide(periodic, scale, *before, *p))
}
