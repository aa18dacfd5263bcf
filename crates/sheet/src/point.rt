// A point of the chart.

// Its two coordinates.
#[derive(Clone, Copy, Debug, PartialEq)]
pub struct Point {
    pub u: f64,
    pub v: f64,
}

// Zeros, as they stand in a list before its points do.
pub const ORIGIN: Point = Point { u: 0.0, v: 0.0 };
