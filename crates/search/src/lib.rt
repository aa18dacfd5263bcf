// The search over the grid: rules 6 and 9 on the segments of all rings, in one list, and on a list that tells
// which grid points are covered. What makes it fast, and changes no bit: one root for a grid point that may
// become the best, none for the others; an early stop at a segment that is as near as the best grid point's
// nearest; the segments that stopped the grid points before, first; on a periodic chart the moved ends once a
// sheet, and of each segment one copy or two.
#![tactic(auto)]

mod candidate;
mod copies;
mod leader;

pub use candidate::Candidate;
pub use leader::choose;
