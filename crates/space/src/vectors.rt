// Differences, products and lengths, operation by operation as in sketch.rs.
ghost use Rattle.std.specs.Prelude.{◌≡◌};
ghost use Rattle.space.specs.Places.{place_at};
ghost use Rattle.space.specs.Vectors.{minus_of, dot_of, cross_of, distance_of, length_of, unit_serves, over as over_of, unit_of};

use leaves::constants::PARALLEL;

#[derive(Clone, Copy, Debug, PartialEq)]
pub struct Place {
    pub x: f64,
    pub y: f64,
    pub z: f64,
}

impl From<[f64; 3]> for Place {
    ghost from_gives = { λ numbers p. p ≡ place_at numbers 0 };

    fn from(numbers: [f64; 3]) -> Place {
        let [x, y, z] = numbers;
        Place { x, y, z }
    }
}

// Zeros.
pub const ORIGIN: Place = Place {
    x: 0.0,
    y: 0.0,
    z: 0.0,
};

#[tactic(auto, unfolding(crate::specs::Vectors::minus_of))]
pub fn minus(a: Place, b: Place) -> Place
    ensures { result ≡ minus_of a b }
{
    Place {
        x: a.x - b.x,
        y: a.y - b.y,
        z: a.z - b.z,
    }
}

#[tactic(auto, unfolding(crate::specs::Vectors::dot_of))]
pub fn dot(a: Place, b: Place) -> f64
    ensures { result ≡ dot_of a b }
{
    a.x * b.x + a.y * b.y + a.z * b.z
}

#[tactic(auto, unfolding(crate::specs::Vectors::cross_of))]
pub fn cross(a: Place, b: Place) -> Place
    ensures { result ≡ cross_of a b }
{
    Place {
        x: a.y * b.z - a.z * b.y,
        y: a.z * b.x - a.x * b.z,
        z: a.x * b.y - a.y * b.x,
    }
}

// The three-term hypotenuse of a - b.
#[tactic(auto, unfolding(crate::specs::Vectors::distance_of))]
pub fn distance(a: Place, b: Place) -> f64
    ensures { result ≡ distance_of a b }
{
    leaves::hypot3(a.x - b.x, a.y - b.y, a.z - b.z)
}

// The root of v dot v; no hypotenuse.
#[tactic(auto, unfolding(crate::specs::Vectors::length_of))]
pub fn length(v: Place) -> f64
    ensures { result ≡ length_of v }
{
    leaves::root(dot(v, v))
}

// Whether a vector of this length has a unit: it is above PARALLEL and finite.
#[tactic(auto, using(leaves::proofs::ConstantBits::parallel_bits, leaves::proofs::ConstantBits::infinity_bits), unfolding(crate::specs::Vectors::unit_serves))]
fn serves(length: f64) -> bool
    ensures { result ≡ unit_serves length }
{
    PARALLEL < length && length < f64::INFINITY
}

// Each coordinate over the length.
#[tactic(auto, unfolding(crate::specs::Vectors::over))]
fn over(v: Place, length: f64) -> Place
    ensures { result ≡ over_of v length }
{
    Place {
        x: v.x / length,
        y: v.y / length,
        z: v.z / length,
    }
}

// The vector of length one along v, where v is longer than PARALLEL and its length finite.
#[tactic(auto, unfolding(crate::specs::Vectors::unit_of))]
pub fn unit(v: Place) -> Option<Place>
    ensures { result ≡ unit_of v }
{
    let size = length(v);
    serves(size).then(|| over(v, size))
}
