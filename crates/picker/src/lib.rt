// The picker: the point of a face in space, by the host's images or on the sheet's plane (document 01,
// "Point"). Each call makes every check itself, in the table's order: 1 to 8, image pick's 10, the chart's 11
// to 14, and 15.
#![tactic(auto)]

mod call;
mod images;

pub use call::{image_pick, plane_pick};
