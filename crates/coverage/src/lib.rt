// Rule 7: which grid points the rings of a sheet cover. On a periodic chart the windings of all rings are added
// up, else each ring flips the points inside it.
#![tactic(auto)]

mod column_turns;
mod covering;
mod marks;
mod ring_grid;
mod winding;

pub use covering::cover;
// `inside` stands in the crate of that name; it is a part of rule 7, so it is found here, too.
pub use inside::inside;
pub use ring_grid::{clear, crossing_grid};
