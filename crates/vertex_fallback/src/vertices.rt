// The vertex fallback of faces.rs, on planes: the centre of the first corner and its two neighbours that
// lies inside the ring of all corners.
ghost use Rattle.std.specs.Prelude.{map, ◌≡◌, ◌/◌, length};
ghost use Rattle.std.specs.List.{find};
ghost use Rattle.space.specs.Places.{triples};
ghost use Rattle.answers.specs.Answers.{position_paper};
ghost use Rattle.vertex_fallback.specs.Vertices.{vertices_wrong, corners_wrong, flattened, serves_of, first_serving, corners_of, point_among, point_on_of};

use crate::corners::{Corner, Corners};
use answers::{ARGUMENT_LIMIT, Refusal, any_number_beyond, is_missing};
use sheet::{ORIGIN, Point};
use space::{Place, Places};

// As document 01 limits them.
const MOST_CORNERS: usize = 128;

// 16: a number of the three lists is missing or beyond 2^20.
#[tactic(auto, unfolding(crate::specs::Vertices::vertices_wrong))]
fn vertices_wrong(u_axis: &[f64], normal: &[f64], corners: &[f64]) -> bool
    ensures { result ≡ vertices_wrong u_axis.now normal.now corners.now }
{
    is_missing(3, ARGUMENT_LIMIT, u_axis)
        || is_missing(3, ARGUMENT_LIMIT, normal)
        || any_number_beyond(ARGUMENT_LIMIT, corners)
}

// 20: not in threes, fewer than 3 corners, or over 128.
#[tactic(auto, unfolding(crate::specs::Vertices::corners_wrong))]
fn corners_wrong(corners: &[f64]) -> bool
    ensures { result ≡ corners_wrong corners.now }
{
    let count = corners.len() / 3;
    corners.len() % 3 != 0 || count < 3 || MOST_CORNERS < count
}

// The axes of the plane.
#[derive(Clone, Copy, Debug, PartialEq)]
pub struct Axes {
    pub u: Place,
    pub v: Place,
}

impl Axes {
    // A place on the axes.
    #[tactic(auto, unfolding(crate::specs::Vertices::flattened))]
    fn flattened(self, p: Place) -> Point
        ensures { result ≡ flattened self.u self.v p }
    {
        Point {
            u: space::dot(p, self.u),
            v: space::dot(p, self.v),
        }
    }

    // Whether the centre of the corner serves: it is not degenerate, and the centre lies inside the ring.
    #[tactic(auto, unfolding(crate::specs::Vertices::serves_of))]
    fn serves(self, ring: &[Point], corner: Corner) -> bool
        ensures { result ≡ serves_of self.u self.v ring.now corner }
    {
        !corner.is_degenerate() && inside::inside(ring, self.flattened(corner.centre()))
    }

    // The corners on the axes, over a list that has room for just them. (`next` in a zip's place: of what is written
    // through a zip, no clause of it speaks.)
    fn flatten(self, corners: &[f64], ring: &mut [Point])
        requires { length ring.old ≡ length corners.now / 3 }
        ensures { ring.new ≡ map (flattened self.u self.v) (triples corners.now) }
    {
        let mut places = Places { list: corners };
        for p in ring.iter_mut() {
            if let Some(place) = places.next() {
                *p = self.flattened(place);
            }
        }
    }

    // The first corner that serves.
    fn first_corner(self, corners: &[f64], ring: &[Point]) -> Option<Corner>
        ensures { result ≡ find (serves_of self.u self.v ring.now) (corners_of (triples corners.now)) }
    {
        Corners::around(corners).find(|corner| self.serves(ring, *corner))
    }

    // The answer, over a list that has room for just the corners on the axes; 21: none serves.
    #[tactic(auto, using(crate::proofs::Serving::found, crate::proofs::Serving::none_found, answers::proofs::Calls::calls), unfolding(crate::specs::Vertices::point_among))]
    fn point_among(self, corners: &[f64], ring: &mut [Point]) -> Result<Place, Refusal>
        requires { length ring.old ≡ length corners.now / 3 }
        ensures { position_paper result ≡ point_among self.u self.v (triples corners.now) }
    {
        self.flatten(corners, ring);
        let corner = self.first_corner(corners, ring).ok_or(Refusal::NoneServes)?;
        Ok(corner.centre())
    }
}

// A point inside a planar face, from its corners.
#[tactic(auto, using(answers::proofs::Calls::calls), unfolding(crate::specs::Vertices::point_on_of))]
pub fn point_on(u_axis: &[f64], normal: &[f64], corners: &[f64]) -> Result<Place, Refusal>
    ensures { position_paper result ≡ point_on_of u_axis.now normal.now corners.now }
{
    if vertices_wrong(u_axis, normal, corners) {
        return Err(Refusal::Argument);
    }
    if corners_wrong(corners) {
        return Err(Refusal::Corners);
    }
    let u = space::place_at(u_axis, 0);
    let axes = Axes {
        u,
        v: space::cross(space::place_at(normal, 0), u),
    };
    let mut ring = [ORIGIN; MOST_CORNERS];
    axes.point_among(corners, &mut ring[..corners.len() / 3])
}
