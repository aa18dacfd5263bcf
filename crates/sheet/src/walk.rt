// The checks of the rings and their numbers.
ghost use Rattle.std.specs.Prelude.{◌≡◌, ◌&&◌, ◌≤◌, drop};
ghost use Rattle.std.specs.Float.Ieee.{le, lt};
ghost use Rattle.leaves.specs.Constants.{plus_zero, deviation_limit};
ghost use Rattle.answers.specs.Lists.{any_of};
ghost use Rattle.answers.specs.Limits.{beyond};
ghost use Rattle.sheet.specs.Layout.{numbers, sheet_of};
ghost use Rattle.sheet.specs.Checks.{coedge_wrong, point_wrong, ring_wrong, coedges_wrong};

use crate::fields::{MOST_COEDGES, number};
use crate::outline::{Coedge, Ring, rings};
use crate::point::Point;
use answers::is_beyond;
use leaves::constants::DEVIATION_LIMIT;

// 2^20, for a chart coordinate or the origin.
pub(crate) const COORDINATE_LIMIT: f64 = 1048576.0;

// Whether any of `count` numbers from `from` on is beyond the limit.
pub(crate) fn any_beyond(limit: f64, s: &[u8], from: usize, count: usize) -> bool
    requires { (from ≤ 100) × (count ≤ 9) }
    ensures { result ≡ any_of (beyond limit) (numbers count (drop from s.now)) }
{
    (0..count).any(|k| is_beyond(limit, number(s, from + 8 * k)))
}

// Check 7 of a point.
#[tactic(auto, unfolding(crate::specs::Checks::point_wrong))]
fn point_wrong(p: Point) -> bool
    ensures { result ≡ point_wrong p }
{
    is_beyond(COORDINATE_LIMIT, p.u) || is_beyond(COORDINATE_LIMIT, p.v)
}

// Not below 0, and below the limit.
#[tactic(auto, using(leaves::proofs::ConstantBits::deviation_limit_bits))]
fn is_deviation(x: f64) -> bool
    ensures { result ≡ (le plus_zero x && lt x deviation_limit) }
{
    0.0 <= x && x < DEVIATION_LIMIT
}

// Check 7 of a coedge.
#[tactic(auto, unfolding(crate::specs::Checks::coedge_wrong))]
fn coedge_wrong(coedge: Coedge) -> bool
    ensures { result ≡ coedge_wrong coedge.entry }
{
    !is_deviation(coedge.deviation()) || coedge.points().any(point_wrong)
}

// Check 7 of a ring.
fn ring_wrong(ring: Ring) -> bool
    ensures { result ≡ ring_wrong ring.entry }
{
    ring.coedges().any(coedge_wrong)
}

// Check 6 of the rings.
pub(crate) fn coedges_wrong(s: &[u8]) -> bool
    ensures { result ≡ coedges_wrong (sheet_of s.now).rings }
{
    let mut total: usize = 0;
    for ring in rings(s) {
        let count = ring.coedge_count();
        if count == 0 {
            return true;
        }
        total += count;
    }
    MOST_COEDGES < total
}

// Check 7 of the rings.
pub(crate) fn rings_wrong(s: &[u8]) -> bool
    ensures { result ≡ any_of ring_wrong (sheet_of s.now).rings }
{
    rings(s).any(ring_wrong)
}
