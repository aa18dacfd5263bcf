// The triangle on a sphere (document 01, "After the picker"): a call of its own, which the host makes
// before the chart. It makes every check itself, 16 first, over every number that it is given.
#![tactic(auto)]

mod arcs;
mod lists;

pub use arcs::spherical_triangle;
pub use lists::spherical_triangle_of;
