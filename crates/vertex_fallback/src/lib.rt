// The vertex fallback (document 01, "After the picker"): a point inside a planar face, from its corners. The call
// makes every check itself, 16 first, over every number that it is given; a list of another length than the
// call's is a number missing.
#![tactic(auto)]

mod corners;
mod vertices;

pub use vertices::point_on;
