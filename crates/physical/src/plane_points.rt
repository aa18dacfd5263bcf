// The plane stand-in: (origin + u x u axis) + v x (normal cross u axis).
ghost use Rattle.std.specs.Prelude.{◌≡◌, ◌≤◌, drop};
ghost use Rattle.space.specs.Places.{place_at};
ghost use Rattle.sheet.specs.Layout.{numbers};
ghost use Rattle.physical.specs.Plane.{reached, on_plane};
ghost use Rattle.physical.specs.Stages.{axes_of, on_axes_of};

use sheet::Point;
use space::{Place, cross};

// A plane's origin and its axes; the v axis is normal cross u axis.
#[derive(Clone, Copy)]
pub(crate) struct Axes {
    pub(crate) origin: Place,
    pub(crate) u_axis: Place,
    pub(crate) v_axis: Place,
}

// The three numbers of the sheet that begin at `at`.
fn numbers_at(s: &[u8], at: usize) -> Place
    requires { at ≤ 100000 }
    ensures { result ≡ place_at (numbers 3 (drop at s.now)) 0 }
{
    Place {
        x: sheet::number(s, at),
        y: sheet::number(s, at + 8),
        z: sheet::number(s, at + 16),
    }
}

// One coordinate.
#[tactic(auto, unfolding(crate::specs::Plane::reached))]
fn reach(origin: f64, u: f64, u_axis: f64, v: f64, v_axis: f64) -> f64
    ensures { result ≡ reached origin u u_axis v v_axis }
{
    origin + u * u_axis + v * v_axis
}

impl Axes {
    // Those of the plane whose nine numbers stand behind the head.
    pub(crate) fn of(s: &[u8]) -> Axes
        ensures { result ≡ axes_of (numbers 9 (drop 8 s.now)) }
    {
        let u_axis = numbers_at(s, 32);
        Axes {
            origin: numbers_at(s, 8),
            u_axis,
            v_axis: cross(numbers_at(s, 56), u_axis),
        }
    }

    // The place of a point of the chart.
    pub(crate) fn place(self, p: Point) -> Place
        ensures { result ≡ on_axes_of self p }
    {
        Place {
            x: reach(self.origin.x, p.u, self.u_axis.x, p.v, self.v_axis.x),
            y: reach(self.origin.y, p.u, self.u_axis.y, p.v, self.v_axis.y),
            z: reach(self.origin.z, p.u, self.u_axis.z, p.v, self.v_axis.z),
        }
    }
}

// The place of a point on the plane whose nine numbers stand behind the head of the sheet, whatever its kind.
pub fn place_on(s: &[u8], p: Point) -> Place
    ensures { result ≡ on_plane (numbers 9 (drop 8 s.now)) p }
{
    Axes::of(s).place(p)
}
