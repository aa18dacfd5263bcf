// Rule 9: the best grid point so far.
ghost use Rattle.std.specs.Prelude.{◌≡◌, ◌<◌};
ghost use Rattle.search.specs.Search.{better, counted};

use points::part;

// The chosen grid point, its clearance, and the number of covered grid points.
#[derive(Clone, Copy)]
pub struct Candidate {
    pub u: f64,
    pub v: f64,
    pub clearance: f64,
    pub count: u32,
}

impl Candidate {
    // The candidate after the covered grid point (i, j) of clearance d: replaced where d is greater, and
    // one more counted.
    #[tactic(auto, unfolding(crate::specs::Search::counted, crate::specs::Search::better))]
    pub(crate) fn visited(self, i: u32, j: u32, d: f64) -> Candidate
        requires { self.count < 1000 }
        ensures { result ≡ counted (better i j d self) }
    {
        let count = self.count + 1;
        if self.clearance < d {
            Candidate {
                u: part(i),
                v: part(j),
                clearance: d,
                count,
            }
        } else {
            Candidate { count, ..self }
        }
    }
}
