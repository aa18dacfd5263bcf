// Rule 7 where the chart is not periodic, on one ring: `inside`, at a point and over the whole grid.
#![tactic(auto)]

mod grid_lines;
mod lines;
mod point_in_ring;

pub use lines::{GRID_POINTS, flip_ring};
pub use point_in_ring::{inside, just_one_above};
