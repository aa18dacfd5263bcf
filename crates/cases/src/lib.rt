// Calls that programs read from a file: the head before each sheet, numbers in bytes, and the
// list that a call is lent, to be filled, held against recorded numbers or added up. Every public function
// has an answer for all arguments.
#![tactic(auto)]

mod big_endian;
mod list;
mod reading;
mod record;

pub use big_endian::{u32_at, u64_at};
pub use list::{UNWRITTEN, check_sum, fill, is_shown, load, wrong_places};
pub use reading::{is_run, read_full, read_head, read_whole};
pub use record::{HEAD_SIZE, Head, MOST_BYTES, MOST_NUMBERS, MOST_PLACES, RecordError, head_of};

#[cfg(test)]
mod tests;
