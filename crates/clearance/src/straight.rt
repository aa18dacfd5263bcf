// Rule 8 on one segment. Distances are compared by the leaves' key; the root of the least is the caller's.
ghost use Rattle.std.specs.Prelude.{◌≡◌};
ghost use Rattle.clearance.specs.Nearest.{key_to};

use points::Segment;
use sheet::Point;

// The key of the distance from the point to the segment.
#[tactic(auto, unfolding(crate::specs::Nearest::key_to, crate::specs::Clearance::residual, crate::specs::Clearance::delta, crate::specs::Clearance::along, crate::specs::Clearance::dot_of))]
pub(crate) fn straight_key(p: Point, s: Segment) -> f64
    ensures { result ≡ key_to p s }
{
    let d_u = s.b.u - s.a.u;
    let d_v = s.b.v - s.a.v;
    let length = d_u * d_u + d_v * d_v;
    let t = if 0.0 < length {
        leaves::clamp(
            ((p.u - s.a.u) * d_u + (p.v - s.a.v) * d_v) / length,
            0.0,
            1.0,
        )
    } else {
        0.0
    };
    leaves::key(p.u - s.a.u - t * d_u, p.v - s.a.v - t * d_v)
}
