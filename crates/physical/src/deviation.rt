// The greatest deviation, and what 15 asks of the physical clearance by it.
ghost use Rattle.std.specs.Prelude.{◌≡◌};
ghost use Rattle.sheet.specs.Layout.{sheet_of};
ghost use Rattle.physical.specs.Physical.{deviates, greatest_deviation, physical_least};

use leaves::constants::PHYSICAL_LIMIT;
use sheet::Ring;

// The larger of `most` and the deviations of a ring's coedges.
fn larger_deviation(most: f64, ring: Ring) -> f64
    ensures { result ≡ deviates most ring.entry }
{
    ring.coedges().fold(most, |found, coedge| {
        leaves::larger_of(found, coedge.deviation())
    })
}

// The greatest deviation of all rings.
fn greatest_deviation(s: &[u8]) -> f64
    ensures { result ≡ greatest_deviation (sheet_of s.now).rings }
{
    sheet::rings(s).fold(0.0, larger_deviation)
}

// The larger of 8 x greatest deviation and 1e-7: a physical clearance has to be above it.
pub(crate) fn least_clearance(s: &[u8]) -> f64
    ensures { result ≡ physical_least (sheet_of s.now).rings }
{
    leaves::larger_of(greatest_deviation(s) * 8.0, PHYSICAL_LIMIT)
}
