// The points of one ring: read from the sheet, moved (rules 1 and 2), measured (rules 3 and 4), normalised
// (rule 5), joined by segments (rule 6), written for the host; and rule 6's grid.
#![tactic(auto)]

mod bounds;
mod columns;
mod grid;
mod joins;
mod phase;
mod ring;
mod segment;
mod turns;
mod written;

pub use bounds::{Box, box_of, goes_around};
pub use columns::{ColumnTest, column_ahead};
pub use grid::part;
pub use joins::is_open;
pub use phase::Phase;
pub use ring::{mark, normalise, normalise_into, read, unroll};
pub use segment::{Between, Segment, SegmentsLeft, segments};
pub use turns::{is_number, keeps_order, turns as whole_turns};
pub use written::{phase_angle, write};
