// 10: the host's images.
ghost use Rattle.std.specs.Prelude.{◌≡◌, ◌*◌, ◌≤◌};
ghost use Rattle.sheet.specs.Layout.{sheet_of};
ghost use Rattle.frame.specs.Framing.{point_count};
ghost use Rattle.picker.specs.ImagePick.{images_wrong};

// 2^30.
const IMAGE_LIMIT: f64 = 1073741824.0;

// 10: a list that is not 3 x (points + 1) long, or an entry beyond the limit.
#[tactic(auto, unfolding(crate::specs::ImagePick::images_wrong))]
pub(crate) fn images_wrong(s: &[u8], images: &[f64]) -> bool
    requires { point_count (sheet_of s.now) ≤ 2176 }
    ensures { result ≡ images_wrong (sheet_of s.now) images.now }
{
    images.len() != 3 * (frame::point_count(s) + 1)
        || answers::any_number_beyond(IMAGE_LIMIT, images)
}
