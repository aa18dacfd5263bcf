// Rule 8: the distance of a point to segments, by the leaves' key; the root of the least is the caller's. The
// segments of all rings stand in one list.
#![tactic(auto)]

mod nearest;
mod segment_list;
mod straight;

pub use nearest::{Near, nearest as nearest_of};
pub use segment_list::{MOST_SEGMENTS, NO_SEGMENT, SMALL_SEGMENTS, lay};
