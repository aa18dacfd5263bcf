// The constants of document 01, each with its bits. specs/Constants.antt defines each: PI and TAU by
// their bits, a decimal as its fraction rounded once, with a law that gives the bits.

pub const PI: f64 = 3.141592653589793; // 400921FB54442D18

pub const TAU: f64 = 6.283185307179586; // 401921FB54442D18

// The greatest finite number: a number is finite where its magnitude is at most it.
pub const GREATEST_FINITE: f64 = 1.7976931348623157e308; // 7FEFFFFFFFFFFFFF

// Refusal 7: a deviation is below it.
pub const DEVIATION_LIMIT: f64 = 0.002; // 3F60624DD2F1A9FC

// Refusal 12: a scale is above it.
pub const SCALE_LIMIT: f64 = 1e-12; // 3D719799812DEA11

// Refusal 13: a join is at most it. The direction test: both ends lie nearer than it.
pub const JOIN_LIMIT: f64 = 1e-4; // 3F1A36E2EB1C432D

// Refusal 14: the clearance of the chosen grid point is above it.
pub const CLEARANCE_LIMIT: f64 = 0.01; // 3F847AE147AE147B

// Refusal 15: the physical clearance is above it, and above 8 times the greatest deviation.
pub const PHYSICAL_LIMIT: f64 = 1e-7; // 3E7AD7F29ABCAF48

// Triangle: a circle's centre and radius, as parts of the sphere's radius, and a triple product.
// Round fallback: the spread of the heights, two angles that count as one, and a gap past a half turn.
pub const MICRO: f64 = 1e-6; // 3EB0C6F7A0B5ED8D

// Triangle: an end off the sphere or off its evaluated end, as parts of the radius, and a side's end
// direction off the next side's start.
pub const END_LIMIT: f64 = 1e-5; // 3EE4F8B588E368F1

// PARALLEL of sketch.rs: `unit` serves a vector that is longer.
pub const PARALLEL: f64 = 1e-9; // 3E112E0BE826D695

// Vertex fallback: a corner is degenerate where the cross product of its two edges, dotted with
// itself, is below it.
pub const DEGENERATE_LIMIT: f64 = 1e-18; // 3C32725DD1D243AC
