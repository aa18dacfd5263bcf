// Rule 3 and the joins: the box of all rings, band and periodic, scales, and the checks 8 and 11 to 13. Chart
// and picks begin at the two functions `check` and `lay_out`, with their own 9 or 10 between them.
#![tactic(auto)]

mod checks;
mod framing;
mod prepare;
mod ring_list;
mod seam;

pub use checks::{check, point_count};
pub use framing::Frame;
pub use ring_list::{Rings, RingsLeft};
pub use seam::lay_out;
