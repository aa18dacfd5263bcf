// The sphere and the sides of a triangle, as `spherical_triangle` of uv.rs checks them.
ghost use Rattle.std.specs.Prelude.{◌≡◌};
ghost use Rattle.space.specs.Places.{place_at};
ghost use Rattle.answers.specs.Limits.{beyond, argument_limit};
ghost use Rattle.answers.specs.Lists.{any_of};
ghost use Rattle.sides.specs.Sides.{sphere_beyond, sphere_wrong, side_beyond, sides_beyond, circle_wrong, end_wrong, side_wrong, sides_wrong};

use crate::side::{Side, Sphere};
use answers::{ARGUMENT_LIMIT, any_number_beyond, is_beyond, is_place_beyond};
use leaves::constants::{END_LIMIT, MICRO, PI};
use space::Place;

// 16, of a side's ends, or of the evaluated ones.
fn ends_beyond(ends: &[[f64; 3]; 2]) -> bool
    ensures { result ≡ any_of (any_of (beyond argument_limit)) ends.now }
{
    ends.iter()
        .any(|end| any_number_beyond(ARGUMENT_LIMIT, end))
}

impl Sphere {
    // 16, of the centre and the radius.
    #[tactic(auto, unfolding(crate::specs::Sides::sphere_beyond, crate::specs::Sides::place_beyond))]
    fn is_beyond(self) -> bool
        ensures { result ≡ sphere_beyond self }
    {
        is_place_beyond(ARGUMENT_LIMIT, self.centre) || is_beyond(ARGUMENT_LIMIT, self.radius)
    }

    // 16, of the sphere.
    #[tactic(auto, unfolding(crate::specs::Sides::sphere_wrong))]
    pub fn is_wrong(self, sense: u32) -> bool
        ensures { result ≡ sphere_wrong self sense }
    {
        self.is_beyond() || !(0.0 < self.radius) || 2 < sense
    }

    // 17: the circle's centre or radius is off the sphere's by over r x 1e-6.
    #[tactic(auto, using(leaves::proofs::ConstantBits::micro_bits), unfolding(crate::specs::Sides::circle_wrong))]
    fn circle_wrong(self, circle: Sphere) -> bool
        ensures { result ≡ circle_wrong self circle }
    {
        let limit = self.radius * MICRO;
        limit < space::distance(circle.centre, self.centre)
            || leaves::exceeds(circle.radius - self.radius, limit)
    }

    // 17: an evaluated end is off its end, or the end off the sphere, by over r x 1e-5, or `unit` fails.
    #[tactic(auto, using(leaves::proofs::ConstantBits::end_limit_bits), unfolding(crate::specs::Sides::end_wrong))]
    fn end_wrong(self, end: [f64; 3], evaluated: [f64; 3]) -> bool
        ensures { result ≡ end_wrong self (place_at end 0) (place_at evaluated 0) }
    {
        let limit = self.radius * END_LIMIT;
        let p = Place::from(end);
        let d = space::minus(p, self.centre);
        limit < space::distance(Place::from(evaluated), p)
            || leaves::exceeds(space::length(d) - self.radius, limit)
            || space::unit(d).is_none()
    }
}

impl Side {
    // 16, of a side.
    #[tactic(auto, unfolding(crate::specs::Sides::side_beyond))]
    fn is_beyond(&self) -> bool
        ensures { result ≡ side_beyond self.now }
    {
        ends_beyond(&self.ends)
            || self.circle.is_beyond()
            || any_number_beyond(ARGUMENT_LIMIT, &self.range)
            || ends_beyond(&self.evaluated)
    }

    // 17, of a side, whose ends are as the edge has them.
    #[tactic(auto, unfolding(crate::specs::Sides::side_wrong, crate::specs::Sides::sweep_wrong))]
    fn is_wrong(&self, sphere: Sphere) -> bool
        ensures { result ≡ side_wrong sphere self.now }
    {
        sphere.circle_wrong(self.circle)
            || leaves::exceeds(self.range[1] - self.range[0], PI)
            || sphere.end_wrong(self.ends[0], self.evaluated[0])
            || sphere.end_wrong(self.ends[1], self.evaluated[1])
    }
}

// 16, of the three sides.
#[tactic(auto, unfolding(crate::specs::Sides::sides_beyond))]
pub fn sides_beyond(sides: &[Side; 3]) -> bool
    ensures { result ≡ sides_beyond sides.now }
{
    sides.iter().any(|side| side.is_beyond())
}

// 17, of the three sides.
#[tactic(auto, unfolding(crate::specs::Sides::sides_wrong))]
pub fn sides_wrong(sphere: Sphere, sides: &[Side; 3]) -> bool
    ensures { result ≡ sides_wrong sphere sides.now }
{
    sides.iter().any(|side| side.is_wrong(sphere))
}
