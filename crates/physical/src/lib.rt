// Rule 8 in space and check 15: whether a place is too close to the images of a sheet's rings, which the host
// gives or which lie on the sheet's plane; and the plane stand-in. Every public function has an answer for
// every list.
#![tactic(auto)]

mod closeness;
mod deviation;
mod near_segments;
mod plane_closeness;
mod plane_points;

pub use closeness::too_close;
pub use plane_closeness::is_plane_close;
pub use plane_points::place_on;
