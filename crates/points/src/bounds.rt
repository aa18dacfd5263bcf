// Rule 3: the box, and whether a ring goes around.
ghost use Rattle.std.specs.Prelude.{◌≡◌};
ghost use Rattle.points.specs.Bounds.{box_of, with_point, goes_around};

use leaves::constants::PI;
use sheet::Point;

// The least and the greatest u and v of points.
#[derive(Clone, Copy)]
pub struct Box {
    pub least: Point,
    pub greatest: Point,
}

impl Box {
    // The box of one point more.
    #[tactic(auto, unfolding(crate::specs::Bounds::with_point))]
    fn with_point(self, p: Point) -> Box
        ensures { result ≡ with_point self p }
    {
        Box {
            least: Point {
                u: leaves::smaller_of(self.least.u, p.u),
                v: leaves::smaller_of(self.least.v, p.v),
            },
            greatest: Point {
                u: leaves::larger_of(self.greatest.u, p.u),
                v: leaves::larger_of(self.greatest.v, p.v),
            },
        }
    }
}

// The box of the points; infinities of no points.
pub fn box_of(points: &[Point]) -> Box
    ensures { result ≡ box_of points.now }
{
    let infinity = f64::INFINITY;
    let mut found = Box {
        least: Point {
            u: infinity,
            v: infinity,
        },
        greatest: Point {
            u: -infinity,
            v: -infinity,
        },
    };
    for p in points {
        found = found.with_point(*p);
    }
    found
}

// Whether the ring's first and last u differ by over PI. (A match in place of `is_some_and`: in a closure it would have
// to be shown anew that `ring[0]` is there.)
#[tactic(auto, using(crate::proofs::Ends::around_none, crate::proofs::Ends::around_some))]
pub fn goes_around(ring: &[Point]) -> bool
    ensures { result ≡ goes_around ring.now }
{
    match ring.last() {
        None => false,
        Some(last) => leaves::exceeds(ring[0].u - last.u, PI),
    }
}
