// Rules 5 to 9 in a frame: the chosen grid point, from the covered grid points and the segments of all rings.
ghost use Rattle.std.specs.Prelude.{◌≡◌, ◌≤◌, length, take};
ghost use mathlib.Core.List.{flatten};
ghost use Rattle.clearance.specs.SegmentLists.{laid_rings};
ghost use Rattle.frame.specs.Parts.{rings_in, Packed};
ghost use Rattle.chart.specs.Chart.{candidate, normalised_by, period_of};

use clearance::NO_SEGMENT;
use frame::{Frame, Rings};
use inside::GRID_POINTS;
use points::Segment;
use search::Candidate;
use sheet::{MOST_POINTS, ORIGIN, Point, SMALL_POINTS, Sense};

// The rings of a sheet: nothing lies between them. They are at most 256, more than a sheet has, as in
// coverage/src/covering.rt, and their points at most 2176, as many as the largest sheet has.
#[derive(Clone, Copy)]
pub(crate) struct SheetRings<'a> {
    pub rings: Rings<'a>,
    ghost packed: { Packed rings.ends.now rings.points.now },
    ghost points_bound: { length rings.points.now ≤ 2176 },
    ghost ends_bound: { length rings.ends.now ≤ 256 },
}

// P where the chart is periodic.
fn period_of(f: Frame) -> Option<f64>
    ensures { result ≡ period_of f }
{
    if f.periodic { Some(f.period) } else { None }
}

// The segments of all rings, one ring behind the other, over the front of a list that has room for them.
// It answers how many they are.
fn lay_rings(period: Option<f64>, rings: Rings, list: &mut [Segment]) -> usize
    requires { length (flatten (rings_in rings)) ≤ length list.old }
    ensures { (result ≤ length list.old) × (take result list.new ≡ laid_rings period (rings_in rings.entry)) }
{
    let mut at = 0;
    for ring in rings {
        let next = at + ring.len();
        clearance::lay(period, ring, &mut list[at..next]);
        at = next;
    }
    at
}

// The grid point chosen from the normalised rings. `list` has room for their segments.
fn chosen_from(f: Frame, sense: Sense, normalised: SheetRings, list: &mut [Segment]) -> Candidate
    requires { (length (flatten (rings_in normalised.rings)) ≤ length list.old) × (length list.old ≤ 2176) }
    ensures { result ≡ candidate f sense (rings_in normalised.entry.rings) }
{
    let rings = normalised.rings;
    let mut covered = [false; GRID_POINTS];
    coverage::cover(f, sense, rings, &mut covered);
    let n = lay_rings(period_of(f), rings, list);
    search::choose(period_of(f), &list[..n], &covered)
}

// The grid point chosen in a frame. `normal` has room for just the normalised points, `list` for their segments. It is
// kept apart from `chosen_within`: in one function the search was slower by a tenth.
fn chosen_over(
    f: Frame,
    sense: Sense,
    moved: SheetRings,
    normal: &mut [Point],
    list: &mut [Segment],
) -> Candidate
    requires { (length moved.rings.points.now ≡ length normal.old) × (length moved.rings.points.now ≤ length list.old) × (length list.old ≤ 2176) }
    ensures { result ≡ candidate f sense (normalised_by f (rings_in moved.entry.rings)) }
{
    points::normalise_into(f.least, f.scale, moved.rings.points, normal);
    let rings = Rings {
        points: normal,
        ends: moved.rings.ends,
    };
    chosen_from(f, sense, SheetRings { rings }, list)
}

// The same, over lists of its own that have room for N points and as many segments. Each call says that N is room
// enough, as at `chart_within`.
fn chosen_within<const N: usize>(f: Frame, sense: Sense, moved: SheetRings) -> Candidate
    requires { (length moved.rings.points.now ≤ N) × (N ≤ 2176) }
    ensures { result ≡ candidate f sense (normalised_by f (rings_in moved.entry.rings)) }
{
    let mut normal = [ORIGIN; N];
    let mut list = [NO_SEGMENT; N];
    let n = moved.rings.points.len();
    chosen_over(f, sense, moved, &mut normal[..n], &mut list)
}

// The same, by the number of points.
pub(crate) fn chosen(f: Frame, sense: Sense, moved: SheetRings) -> Candidate
    ensures { result ≡ candidate f sense (normalised_by f (rings_in moved.entry.rings)) }
{
    if moved.rings.points.len() <= SMALL_POINTS {
        chosen_within::<SMALL_POINTS>(f, sense, moved)
    } else {
        chosen_within::<MOST_POINTS>(f, sense, moved)
    }
}
