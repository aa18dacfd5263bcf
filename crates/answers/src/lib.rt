// What the calls answer or refuse, and the numbers that they are given, held against their limits. Every other crate
// but leaves, space, cases and vectors stands on this one.
#![tactic(auto)]

mod numbers;
mod outcomes;
mod refusal;
mod result;

pub use numbers::{ARGUMENT_LIMIT, any_number_beyond, is_beyond, is_missing, is_place_beyond};
pub use outcomes::{Answer, Direction, IntoValues, Middle, Parameter, Values};
pub use refusal::{Numbered, Refusal};
pub use result::{RESULT_LENGTH, put};
