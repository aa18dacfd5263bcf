// What the host gives of a triangle: the sphere that it lies on, and its sides.
use space::Place;

// A centre and a radius: of the sphere, or of a side's circle.
#[derive(Clone, Copy, Debug, PartialEq)]
pub struct Sphere {
    pub centre: Place,
    pub radius: f64,
}

// A side: its two ends of three coordinates, as the edge has them, whether the coedge runs against the edge, the
// edge's circle, the two ends of its range, and the two ends that the host evaluated.
// The ends are arrays of numbers, not places: document 01 lists the form "two ends by three coordinates".
#[derive(Clone, Copy, Debug, PartialEq)]
pub struct Side {
    pub ends: [[f64; 3]; 2],
    pub reversed: bool,
    pub circle: Sphere,
    pub range: [f64; 2],
    pub evaluated: [[f64; 3]; 2],
}
