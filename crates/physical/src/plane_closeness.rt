// 15 on the sheet's plane. A point's image is made where a segment ends at it, and no list of them is kept.
ghost use Rattle.std.specs.Prelude.{◌≡◌, false, drop};
ghost use mathlib.Core.List.{foldl, map};
ghost use Rattle.sheet.specs.Layout.{numbers, sheet_of};
ghost use Rattle.frame.specs.Parts.{rings_in};
ghost use Rattle.physical.specs.Physical.{too_close};
ghost use Rattle.physical.specs.Plane.{plane_images_of};
ghost use Rattle.physical.specs.Stages.{any_near, image_of};

use crate::deviation::least_clearance;
use crate::near_segments::Reach;
use crate::plane_points::Axes;
use frame::Rings;
use sheet::Point;
use space::Place;

// The image of a ring's point: that of the point which is written for it at phase 0.
fn image(axes: Axes, p: Point) -> Place
    ensures { result ≡ image_of axes p }
{
    axes.place(Point {
        u: p.u,
        v: p.v - points::phase_angle(points::Phase::from(0u32)),
    })
}

// Whether the distance from p to one of the segments between the images of a ring's points is not above the limit.
fn any_image_near(reach: Reach, p: Place, axes: Axes, ring: &[Point]) -> bool
    ensures { result ≡ any_near reach.limit p false (map (image_of axes) ring.now) }
{
    reach.is_ring_near(p, ring.iter().map(|q| image(axes, *q)))
}

// The same of all rings.
fn any_plane_ring_near(reach: Reach, p: Place, axes: Axes, rings: Rings) -> bool
    ensures { result ≡ foldl (any_near reach.limit p) false (map (map (image_of axes)) (rings_in rings.entry)) }
{
    rings
        .into_iter()
        .any(|ring| any_image_near(reach, p, axes, ring))
}

// 15: whether the physical clearance of p is not above larger-of(8 x greatest deviation, 1e-7), by the images on
// the sheet's plane of the rings.
pub fn is_plane_close(s: &[u8], p: Place, rings: Rings) -> bool
    ensures { result ≡ too_close (sheet_of s.now) p (plane_images_of (numbers 9 (drop 8 s.now)) (rings_in rings.entry)) }
{
    match Reach::of(least_clearance(s)) {
        Some(reach) => any_plane_ring_near(reach, p, Axes::of(s), rings),
        None => true,
    }
}
