// The chart: from the bytes of a sheet to the chosen grid point and the written points (document 01, "Chart").
// Checks 1 to 8, 9 and 11 to 14 in the table's order; then rules 1 to 9.
#![tactic(auto)]

mod call;
mod choice;
mod grid_point;

pub use call::chart;
pub use grid_point::{Found, find};
pub use points::Phase;
