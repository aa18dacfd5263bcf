// The round fallback (document 01, "After the picker"): the middle angle and height of a round face, from those of
// its corners. The call makes every check itself, 16 first, over every number that it is given.
#![tactic(auto)]

mod cylinder;

pub use cylinder::cylinder_point;
