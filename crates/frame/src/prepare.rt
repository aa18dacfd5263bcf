// Rules 1 and 2 on every ring: the record of a sheet's rings, each behind the one before it. It is their moved points,
// for each point whether its coedge begins with it, and where each ring's end; it knows no bytes.
ghost use Rattle.std.specs.Prelude.{◌≡◌, length};
ghost use mathlib.Core.List.{flatten, flat_map};
ghost use Rattle.sheet.specs.Content.{ring_points};
ghost use Rattle.sheet.specs.Layout.{sheet_of};
ghost use Rattle.points.specs.Joins.{opens};
ghost use Rattle.points.specs.Unroll.{moved_ring};
ghost use Rattle.frame.specs.Framing.{moved_rings, point_count};
ghost use Rattle.frame.specs.Parts.{ends_from};

use points::Phase;
use sheet::{Kind, Point, Ring};

// The moved points of a ring, over a list that has room for just them.
fn move_ring(kind: Kind, phase: Phase, ring: &Ring, points: &mut [Point])
    requires { length points.old ≡ length (ring_points ring.now) }
    ensures { points.new ≡ moved_ring kind phase (ring_points ring.now) }
{
    points::read(ring, points);
    points::unroll(kind, phase, points);
}

// Reads and moves the rings of a sheet. (An index in a zip's place: of what is written through a zip, no clause of it
// speaks.)
pub(crate) fn prepare(
    s: &[u8],
    phase: Phase,
    points: &mut [Point],
    marks: &mut [bool],
    ends: &mut [usize],
)
    requires { (length points.old ≡ point_count (sheet_of s.now)) × (length marks.old ≡ point_count (sheet_of s.now)) × (length ends.old ≡ length (sheet_of s.now).rings) }
    ensures { (points.new ≡ flatten (moved_rings (sheet_of s.now) phase)) × (marks.new ≡ flat_map opens (sheet_of s.now).rings) × (ends.new ≡ ends_from 0 (moved_rings (sheet_of s.now) phase)) }
{
    let kind = sheet::kind_of(s);
    let mut from = 0;
    for (k, ring) in sheet::rings(s).enumerate() {
        let to = from + ring.point_count();
        move_ring(kind, phase, &ring, &mut points[from..to]);
        points::mark(&ring, &mut marks[from..to]);
        ends[k] = to;
        from = to;
    }
}
