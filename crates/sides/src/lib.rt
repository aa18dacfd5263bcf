// The sphere and the sides of a triangle on a sphere, held against document 01's refusals 16 and 17.
#![tactic(auto)]

mod checks;
mod side;

pub use checks::{sides_beyond, sides_wrong};
pub use side::{Side, Sphere};
