// 15: the physical clearance, held against the greatest deviation, by the images that the host gives.
ghost use Rattle.std.specs.Prelude.{◌≡◌, false};
ghost use mathlib.Core.List.{foldl};
ghost use Rattle.sheet.specs.Layout.{sheet_of};
ghost use Rattle.physical.specs.Images.{ring_images};
ghost use Rattle.physical.specs.Physical.{too_close};
ghost use Rattle.physical.specs.Stages.{any_near};

use crate::deviation::least_clearance;
use crate::near_segments::Reach;
use space::{Place, Places};

// Whether the distance from p to one of the segments of all rings' images is not above the limit. Images past
// the list's end are none. (Reach and p go side by side: the reach is the sheet's, p is what the call is asked about.)
fn any_ring_near(s: &[u8], reach: Reach, p: Place, images: &[f64]) -> bool
    ensures { result ≡ foldl (any_near reach.limit p) false (ring_images (sheet_of s.now).rings images.now) }
{
    let mut rest = images;
    for ring in sheet::rings(s) {
        let count = 3 * ring.point_count();
        let (own, behind) = rest.split_at(count.min(rest.len()));
        if reach.is_ring_near(p, Places { list: own }) {
            return true;
        }
        rest = behind;
    }
    false
}

// 15: whether the physical clearance of p is not above larger-of(8 x greatest deviation, 1e-7), by the images of
// the rings' points in `images`. (A match in place of `is_none_or`, here and for a plane: tried, the closure's clause
// did not close.)
pub fn too_close(s: &[u8], p: Place, images: &[f64]) -> bool
    ensures { result ≡ too_close (sheet_of s.now) p (ring_images (sheet_of s.now).rings images.now) }
{
    match Reach::of(least_clearance(s)) {
        Some(reach) => any_ring_near(s, reach, p, images),
        None => true,
    }
}
