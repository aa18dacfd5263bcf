// The triangle of uv.rs: a minor great-circle triangle has one interior on its oriented side.
ghost use Rattle.std.specs.Prelude.{◌≡◌, map};
ghost use Rattle.space.specs.Places.{place_at};
ghost use Rattle.answers.specs.Answers.{position_paper};
ghost use Rattle.answers.specs.Lists.{any_of};
ghost use Rattle.triangle.specs.Triangle.{towards as towards_of, arc_of, is_gap as is_gap_of, gap_among, plus_of, start_sum, sign_of, outside, no_interior, reach, triangle_among, triangle_of};

use answers::Refusal;
use leaves::constants::{END_LIMIT, MICRO};
use sides::{Side, Sphere, sides_beyond, sides_wrong};
use space::{ORIGIN, Place};

// The directions of a side's two ends from the sphere's centre, in the order of the coedge.
#[derive(Clone, Copy, Debug, PartialEq)]
pub struct Arc {
    pub start: Place,
    pub end: Place,
}

// The direction of an end from the centre.
#[tactic(auto, unfolding(crate::specs::Triangle::towards))]
fn towards(centre: Place, end: [f64; 3]) -> Place
    ensures { result ≡ towards_of centre (place_at end 0) }
{
    space::unit(space::minus(Place::from(end), centre)).unwrap_or(ORIGIN)
}

impl Arc {
    // The directions of a side's ends, after the reversal.
    #[tactic(auto, unfolding(crate::specs::Triangle::arc_of))]
    fn of_side(centre: Place, side: Side) -> Arc
        ensures { result ≡ arc_of centre side }
    {
        let start = towards(centre, side.ends[0]);
        let end = towards(centre, side.ends[1]);
        if side.reversed {
            Arc {
                start: end,
                end: start,
            }
        } else {
            Arc { start, end }
        }
    }

    // Whether the arc ends over 1e-5 from where the next starts.
    #[tactic(auto, using(leaves::proofs::ConstantBits::end_limit_bits), unfolding(crate::specs::Triangle::is_gap))]
    fn is_off(self, next: Arc) -> bool
        ensures { result ≡ is_gap_of self.end next.start }
    {
        END_LIMIT < space::distance(self.end, next.start)
    }

    // Whether p is not clear of the side, on the inner side by the sign.
    #[tactic(auto, using(leaves::proofs::ConstantBits::micro_bits), unfolding(crate::specs::Triangle::outside))]
    fn is_outside(self, sign: f64, p: Place) -> bool
        ensures { result ≡ outside sign p self }
    {
        space::dot(space::cross(self.start, self.end), p) * sign <= MICRO
    }
}

// The directions of the three sides.
fn arcs_of(centre: Place, sides: [Side; 3]) -> [Arc; 3]
    ensures { result ≡ map (arc_of centre) sides }
{
    sides.map(|side| Arc::of_side(centre, side))
}

// 18: a side's end direction is over 1e-5 from the next side's start. (Three by name: the walk from each to the next is
// in points, a crate that this one does not stand on.)
#[tactic(auto, unfolding(crate::specs::Triangle::gap_among))]
fn any_gap(arcs: [Arc; 3]) -> bool
    ensures { result ≡ gap_among arcs }
{
    let [a, b, c] = arcs;
    a.is_off(b) || b.is_off(c) || c.is_off(a)
}

#[tactic(auto, unfolding(crate::specs::Triangle::plus_of))]
fn plus(a: Place, b: Place) -> Place
    ensures { result ≡ plus_of a b }
{
    Place {
        x: a.x + b.x,
        y: a.y + b.y,
        z: a.z + b.z,
    }
}

// The sum of the start directions, from +0.
#[tactic(auto, unfolding(crate::specs::Triangle::start_sum))]
fn start_sum(arcs: [Arc; 3]) -> Place
    ensures { result ≡ start_sum arcs }
{
    arcs.iter().fold(ORIGIN, |sum, arc| plus(sum, arc.start))
}

// +1 forward, -1 reversed.
#[tactic(auto, unfolding(crate::specs::Triangle::sign_of))]
fn sign_of(sense: u32) -> f64
    ensures { result ≡ sign_of sense }
{
    if sense == 1 { 1.0 } else { -1.0 }
}

fn any_outside(sign: f64, p: Place, arcs: [Arc; 3]) -> bool
    ensures { result ≡ any_of (outside sign p) arcs }
{
    arcs.iter().any(|arc| arc.is_outside(sign, p))
}

// 19: sense 0, or p is not clear of a side.
#[tactic(auto, unfolding(crate::specs::Triangle::no_interior))]
fn no_interior(sense: u32, p: Place, arcs: [Arc; 3]) -> bool
    ensures { result ≡ no_interior sense p arcs }
{
    let is_absent = sense == 0;
    is_absent || any_outside(sign_of(sense), p, arcs)
}

// The place on the sphere in the direction p.
#[tactic(auto, unfolding(crate::specs::Triangle::reach, crate::specs::Triangle::reach_of))]
fn on_sphere(sphere: Sphere, p: Place) -> Place
    ensures { result ≡ reach sphere p }
{
    let Sphere { centre, radius } = sphere;
    Place {
        x: centre.x + radius * p.x,
        y: centre.y + radius * p.y,
        z: centre.z + radius * p.z,
    }
}

// 18, 19 and the answer, of the three sides' directions.
#[tactic(auto, using(answers::proofs::Calls::calls), unfolding(crate::specs::Triangle::triangle_among, crate::specs::Triangle::inner_of, crate::specs::Triangle::on_sphere))]
fn among(sphere: Sphere, sense: u32, arcs: [Arc; 3]) -> Result<Place, Refusal>
    ensures { position_paper result ≡ triangle_among sphere sense arcs }
{
    if any_gap(arcs) {
        return Err(Refusal::Gap);
    }
    let p = space::unit(start_sum(arcs)).ok_or(Refusal::NoInterior)?;
    if no_interior(sense, p, arcs) {
        return Err(Refusal::NoInterior);
    }
    Ok(on_sphere(sphere, p))
}

// The middle of a triangle of great-circle arcs: its sphere, the sense, and three sides. The sense is a number,
// 0 absent, 1 forward, 2 reversed, since the call takes any that C gives, and refuses one above 2; a sheet's `Sense` is
// one of a byte.
#[tactic(auto, using(answers::proofs::Calls::calls), unfolding(crate::specs::Triangle::triangle_of))]
pub fn spherical_triangle(sphere: Sphere, sense: u32, sides: [Side; 3]) -> Result<Place, Refusal>
    ensures { position_paper result ≡ triangle_of sphere sense sides }
{
    if sphere.is_wrong(sense) || sides_beyond(&sides) {
        return Err(Refusal::Argument);
    }
    if sides_wrong(sphere, &sides) {
        return Err(Refusal::Sides);
    }
    among(sphere, sense, arcs_of(sphere.centre, sides))
}
