// Number leaves: the square root, the rounding to a whole number, the hypotenuse and the small
// choices that every layer above stands on. Each public function has an answer for every f64, NaN
// and infinities included, and its contract is an equality with a definition of specs/.
// Only a NaN's bits are free.
#![tactic(auto)]

mod bounds;
pub mod constants;
mod hypotenuse;
mod nearest;
mod remainder;
mod square_root;
mod wrapping;

pub use bounds::{clamp, exceeds, larger_of, smaller_of};
pub use hypotenuse::{hypot, hypot_of_key, hypot3, key};
pub use nearest::round;
pub use square_root::root;
// `turn` is another name of `wrap`.
pub use wrapping::{rem_tau, wrap, wrap as turn};
