// Rules 6, 8 and 9: the search over the grid.
ghost use Rattle.std.specs.Prelude.{◌≡◌, false, ◌+◌, ◌≤◌, ◌<◌, length, take};
ghost use Rattle.std.specs.Float.Ieee.{lt};
ghost use Rattle.leaves.specs.Hypot.{hypot_of_key};
ghost use Rattle.leaves.specs.Keys.{Key};
ghost use Rattle.points.specs.Grid.{grid_point};
ghost use Rattle.search.specs.Chosen.{covered_at, clear_to, chosen_among};
ghost use Rattle.search.specs.Copies.{Ready};
ghost use Rattle.search.specs.Search.{start, better, counted, column as column_of};

use crate::candidate::Candidate;
use crate::copies::renew;
use clearance::{MOST_SEGMENTS, NO_SEGMENT, SMALL_SEGMENTS, nearest_of};
use points::{Segment, part};
use sheet::Point;

// The best grid point so far; the key that its clearance is the hypotenuse of; and the place of the segment
// that told of the grid point before, which is a good one to ask first.
#[derive(Clone, Copy)]
struct Leader {
    best: Candidate,
    key: f64,
    last: usize,
    ghost is_key: { Key key },
    ghost clearance_is: { best.clearance ≡ hypot_of_key key },
}

// The grid point (i, j).
#[tactic(auto, unfolding(points::specs::Grid::grid_point))]
fn grid_point(i: u32, j: u32) -> Point
    ensures { result ≡ grid_point i j }
{
    Point {
        u: part(i),
        v: part(j),
    }
}

// Whether the grid point (i, j) is covered.
#[tactic(auto, unfolding(crate::specs::Chosen::covered_at))]
fn is_covered(covered: &[bool], i: u32, j: u32) -> bool
    requires { (1 ≤ i) × (i ≤ 31) × (1 ≤ j) × (j ≤ 31) }
    ensures { result ≡ covered_at covered.now i j }
{
    let k = (i - 1) * 31 + (j - 1);
    covered.get(k as usize).copied().unwrap_or(false)
}

// A grid point goes by its two numbers, as in the definitions, and the marks beside the segments: two lists that the
// call is lent, of which each function here reads what it needs.
impl Leader {
    // Before the first grid point.
    fn nobody() -> Leader
        ensures { result.best ≡ start }
    {
        Leader {
            best: Candidate {
                u: 0.0,
                v: 0.0,
                clearance: 0.0,
                count: 0,
            },
            key: 0.0,
            last: 0,
        }
    }

    // The hypotenuse of a key that is the leader's, or above it.
    fn raised(self, key: f64) -> f64
        requires { lt self.key key ≡ false → key ≡ self.key }
        ensures { result ≡ hypot_of_key key }
    {
        if self.key < key {
            leaves::hypot_of_key(key)
        } else {
            self.best.clearance
        }
    }

    // The covered grid point (i, j) held against the leader.
    fn meet(self, i: u32, j: u32, hint: usize, list: &[Segment]) -> Leader
        requires { self.best.count < 1000 }
        ensures { result.best ≡ counted (better i j (clear_to list.now i j) self.best) }
    {
        let near = nearest_of(grid_point(i, j), self.key, [self.last, hint], list);
        Leader {
            best: self.best.visited(i, j, self.raised(near.key)),
            key: near.key,
            last: near.place,
        }
    }

    // The column i of the grid, j from 1 to 31. `hints` has for each row, counted from 1, the place that told of the
    // column before.
    fn column(self, covered: &[bool], list: &[Segment], i: u32, hints: &mut [usize; 32]) -> Leader
        requires { (1 ≤ i) × (i ≤ 31) × (self.best.count ≤ 930) }
        ensures { (result.best ≡ column_of (covered_at covered.now) (clear_to list.now) self.best i) × (result.best.count ≤ self.best.count + 31) }
    {
        let mut found = self;
        for j in 1..32 {
            if is_covered(covered, i, j) {
                found = found.meet(i, j, hints[j as usize], list);
                hints[j as usize] = found.last;
            }
        }
        found
    }
}

// The whole grid of a chart that is not periodic, i from 1 to 31. Rows and columns go by their numbers, of which the
// definitions speak. `search_periodic` goes so, too, but renews its copies first: one function for both would have to
// lend a list out of a closure.
fn search_plain(covered: &[bool], list: &[Segment]) -> Candidate
    ensures { result ≡ chosen_among None list.now covered.now }
{
    let mut hints = [0; 32];
    let mut found = Leader::nobody();
    for i in 1..32 {
        found = found.column(covered, list, i, &mut hints);
    }
    found.best
}

// The whole grid of a periodic chart: each column is measured from the segments' copies there. `copies` and
// `until`, which notes for each copy a column up to which it serves, have room for those of all segments, and
// none serves yet (0, since columns count from 1: `until < i` asks for both at once).
fn search_periodic(
    period: f64,
    covered: &[bool],
    list: &[Segment],
    until: &mut [u32],
    copies: &mut [Segment],
) -> Candidate
    requires { (length list.now ≡ length copies.old) × (length list.now ≤ length until.old) × Ready period 1 list.now until.old copies.old }
    ensures { result ≡ chosen_among (Some period) list.now covered.now }
{
    let mut hints = [0; 32];
    let mut found = Leader::nobody();
    for i in 1..32 {
        renew(period, i, list, until, copies);
        found = found.column(covered, copies, i, &mut hints);
    }
    found.best
}

// The same, over lists of its own, for at most N segments.
fn search_within<const N: usize>(period: f64, covered: &[bool], list: &[Segment]) -> Candidate
    requires { (length list.now ≤ N) × (N ≤ 2176) }
    ensures { result ≡ chosen_among (Some period) list.now covered.now }
{
    let mut until = [0; N];
    let mut copies = [NO_SEGMENT; N];
    let n = list.len();
    search_periodic(period, covered, list, &mut until, &mut copies[..n])
}

// The grid point chosen from the segments of the list, the first 2176 if it has more, and the number of
// covered ones.
#[tactic(auto, using(std::proofs::lemmas::List::take_min))]
pub fn choose(period: Option<f64>, list: &[Segment], covered: &[bool]) -> Candidate
    ensures { result ≡ chosen_among period (take 2176 list.now) covered.now }
{
    let n = MOST_SEGMENTS.min(list.len());
    let list = &list[..n];
    match period {
        None => search_plain(covered, list),
        Some(period) if n <= SMALL_SEGMENTS => {
            search_within::<SMALL_SEGMENTS>(period, covered, list)
        }
        Some(period) => search_within::<MOST_SEGMENTS>(period, covered, list),
    }
}
