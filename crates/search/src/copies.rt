// On a periodic chart the points of a column are measured from copies of the segments, moved by whole turns
// (rule 8). A segment's turns go up with the column, so a copy that is the same at two columns is the same
// between them. It is worked out once and serves up to a column that was asked; in all a segment has one
// copy or two.
ghost use Rattle.std.specs.Prelude.{◌≡◌, map, ◌+◌, ◌≤◌, length};
ghost use Rattle.points.specs.Grid.{part as part_of};
ghost use Rattle.search.specs.Copies.{same, same_ends, regular, Serving, Ready};
ghost use Rattle.clearance.specs.Clearance.{shifted_to};

use points::{ColumnTest, Segment, column_ahead, part};
use sheet::Point;

// The segment's copy for the points at u.
#[tactic(auto, unfolding(clearance::specs::Clearance::shifted_to))]
fn copy_at(period: f64, u: f64, s: Segment) -> Segment
    ensures { result ≡ shifted_to period u s }
{
    let offset = points::whole_turns(u - s.middle(), period);
    Segment {
        a: Point {
            u: s.a.u + offset,
            ..s.a
        },
        b: Point {
            u: s.b.u + offset,
            ..s.b
        },
    }
}

// Whether x and y are the same, and not 0, where a sign would not show.
#[tactic(auto, unfolding(crate::specs::Copies::same))]
fn is_same(x: f64, y: f64) -> bool
    ensures { result ≡ same x y }
{
    x == y && x != 0.0
}

// Whether two copies of a segment have the same ends.
#[tactic(auto, unfolding(crate::specs::Copies::same_ends))]
fn are_same(x: Segment, y: Segment) -> bool
    ensures { result ≡ same_ends x y }
{
    is_same(x.a.u, y.a.u) && is_same(x.b.u, y.b.u)
}

// Whether both ends go up with the column: the turns do, and the ends are numbers.
#[tactic(auto, unfolding(crate::specs::Copies::regular))]
fn is_regular(period: f64, s: Segment) -> bool
    ensures { result ≡ regular period s }
{
    points::keeps_order(period, s.middle()) && points::is_number(s.a.u) && points::is_number(s.b.u)
}

// The copy of a segment at a column.
#[derive(Clone, Copy)]
struct ColumnCopy {
    period: f64,
    segment: Segment,
    column: u32,
    copy: Segment,
    ghost is_copy: { copy ≡ shifted_to period (part_of column) segment },
}

// Whether the copy at column m is the same.
impl ColumnTest for ColumnCopy {
    ghost holds = { λ it m. same_ends it.copy (shifted_to it.period (part_of m) it.segment) };

    fn holds_at(self, m: u32) -> bool {
        are_same(self.copy, copy_at(self.period, part(m), self.segment))
    }
}

impl ColumnCopy {
    fn new(period: f64, column: u32, segment: Segment) -> ColumnCopy
        ensures { (result.period ≡ period) × (result.column ≡ column) × (result.segment ≡ segment) }
    {
        ColumnCopy {
            period,
            segment,
            column,
            copy: copy_at(period, part(column), segment),
        }
    }

    // A column from its own on up to which the copy serves: the last one, or one that is found by halves. (The turns of
    // coverage have such a function; what both share is `column_ahead`, and each asks its own whether it may be asked.)
    fn reach(self) -> u32
        ensures { (self.column ≤ result) × Serving self.period self.column result self.segment self.copy }
    {
        if is_regular(self.period, self.segment) {
            column_ahead(self.column, self).unwrap_or(self.column)
        } else {
            self.column
        }
    }
}

// The copies of all segments at column i, over those of the column before: each is left as it is where it still serves,
// up to the column that `until` has for it, else worked out. The search measures from a list of segments, so these
// columns are no part of it, and stand in a list of their own. (Indices in a zip's place: of what is written through a
// zip, no clause of it speaks.)
pub(crate) fn renew(
    period: f64,
    i: u32,
    list: &[Segment],
    until: &mut [u32],
    copies: &mut [Segment],
)
    requires { (length list.now ≡ length copies.old) × (length list.now ≤ length until.old) × Ready period i list.now until.old copies.old }
    ensures { (copies.new ≡ map (shifted_to period (part_of i)) list.now) × Ready period (i + 1) list.now until.new copies.new }
{
    for (k, s) in list.iter().enumerate() {
        if until[k] < i {
            let here = ColumnCopy::new(period, i, *s);
            copies[k] = here.copy;
            until[k] = here.reach();
        }
    }
}
