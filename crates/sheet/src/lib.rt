// The sheet: a trimmed face as bytes. Its layout, its fields, and the checks 1 to 7 of document 01's
// table. Every function has an answer for every list of bytes; what a byte or a number past the end
// reads as is said by the definitions of specs/Layout.antt.
#![tactic(auto)]

mod checks;
mod fault;
mod fields;
mod kind;
mod outline;
mod parts;
mod point;
mod sense;
mod walk;

pub use checks::check;
pub use fields::{
    COEDGE_POINTS, MOST_COEDGES, MOST_POINTS, MOST_RINGS, SMALL_POINTS, head_size, kind_of, number,
    ring_count, sense_of,
};
pub use kind::Kind;
pub use outline::{Coedge, CoedgePoints, Coedges, Outline, Ring, rings};
pub use parts::block_size;
pub use point::{ORIGIN, Point};
pub use sense::Sense;
