// Single steps of the host, a formula each (document 01, "After the picker"): before the picker the parameter of
// a curve's sample and the direction of an edge's points, after it the point by the body's transform. Every call
// makes every check itself, 16 first, over every number that it is given; a list of another length than the
// call's is a number missing.
#![tactic(auto)]

mod direction;
mod sample;
mod transform;

pub use direction::edge_direction;
pub use sample::sample_parameter;
pub use transform::placed;
