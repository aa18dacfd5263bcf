// The segments of rings in one list.
ghost use Rattle.std.specs.Prelude.{◌≡◌, map};
ghost use Rattle.answers.specs.Lists.{over};
ghost use Rattle.points.specs.Segments.{segments};
ghost use Rattle.clearance.specs.Clearance.{laid};

use points::Segment;
use sheet::{MOST_POINTS, ORIGIN, Point, SMALL_POINTS};

// The segments of the largest accepted sheet: as many as its points.
pub const MOST_SEGMENTS: usize = MOST_POINTS;

// Those of a sheet of at most 16 coedges, as nearly every face's is: they are worked out in small arrays, so
// that little is cleared.
pub const SMALL_SEGMENTS: usize = SMALL_POINTS;

// What stands in a list before its segments do.
pub const NO_SEGMENT: Segment = Segment {
    a: ORIGIN,
    b: ORIGIN,
};

// The segment as it is laid: on a periodic chart its end moved by whole turns to be near its start.
#[tactic(auto, unfolding(crate::specs::Clearance::laid))]
fn laid(period: Option<f64>, s: Segment) -> Segment
    ensures { result ≡ laid period s }
{
    match period {
        Some(period) => s.gained(period),
        None => s,
    }
}

// The segments of a ring over the front of `list`, whose tail keeps its contents; a list that is too
// short for them stays as it is. (An index in a zip's place: of what is written through a zip, no clause of it speaks.)
pub fn lay(period: Option<f64>, ring: &[Point], list: &mut [Segment])
    ensures { list.new ≡ over (map (laid period) (segments ring.now)) list.old }
{
    if list.len() < ring.len() {
        return;
    }
    for (k, s) in points::segments(ring).enumerate() {
        list[k] = laid(period, s);
    }
}
