// Places in space, three numbers each: the helpers of sketch.rs on them (`dot`, `cross`, `unit`), the
// distance, and a place read from a list of numbers. Each has an answer for all numbers.
#![tactic(auto)]

mod places;
mod vectors;

pub use places::{Places, place_at};
pub use vectors::{ORIGIN, Place, cross, distance, dot, length, minus, unit};
