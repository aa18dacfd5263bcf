// Rule 8 in space, held against a limit. A segment is told to be far by the key of two coordinates, and
// only a near one costs roots.
ghost use Rattle.std.specs.Prelude.{true, false, not, ◌≡◌, List, is_none, IfSome};
ghost use Rattle.std.specs.Float.{inf};
ghost use Rattle.std.specs.Float.Ieee.{lt};
ghost use Rattle.std.specs.Iterator.{IsFinite, AlwaysYields};
ghost use Rattle.physical.specs.Space.{left as left_of, residual as residual_of};
ghost use Rattle.physical.specs.Stages.{Far, is_near, any_near};

use points::Between;
use space::{Place, dot, minus};

// One coordinate of p - a - t x d.
#[tactic(auto, unfolding(crate::specs::Space::left))]
fn left(from: f64, t: f64, d: f64) -> f64
    ensures { result ≡ left_of from t d }
{
    from - t * d
}

// p - a - t x d: from the segment's nearest point to p.
fn residual(p: Place, s: Between<Place>) -> Place
    ensures { result ≡ residual_of p s }
{
    let d = minus(s.b, s.a);
    let from = minus(p, s.a);
    let length = dot(d, d);
    let share = if 0.0 < length {
        dot(from, d) / length
    } else {
        0.0
    };
    let t = leaves::clamp(share, 0.0, 1.0);
    Place {
        x: left(from.x, t, d.x),
        y: left(from.y, t, d.y),
        z: left(from.z, t, d.z),
    }
}

// A key in x and y that is beyond the limit whatever z is: that of twice the limit, as long as rounding
// leaves it above, else infinity.
fn far_key(limit: f64) -> f64
    requires { lt limit (inf false) ≡ true }
    ensures { Far limit result }
{
    let key = leaves::key(limit + limit, 0.0);
    if limit < leaves::hypot(leaves::hypot_of_key(key), 0.0) {
        key
    } else {
        f64::INFINITY
    }
}

// A limit that a clearance can be above, and a key in x and y that is beyond it whatever z is.
#[derive(Clone, Copy)]
pub(crate) struct Reach {
    pub limit: f64,
    far: f64,
    ghost is_far: { Far limit far },
}

impl Reach {
    // Of a limit; none where no clearance can be above it, which is at most infinity: the least distance starts there.
    #[tactic(auto, using(leaves::proofs::ConstantBits::infinity_bits))]
    pub(crate) fn of(limit: f64) -> Option<Reach>
        ensures none { is_none result ≡ not (lt limit (inf false)) }
        ensures some { IfSome result (λ reach. reach.limit ≡ limit) }
    {
        if limit < f64::INFINITY {
            Some(Reach {
                limit,
                far: far_key(limit),
            })
        } else {
            None
        }
    }

    // Whether the distance from p to the segment is not above the limit. Where the key of the distance in x and y
    // reaches `far`, the distance is above it.
    fn is_near(self, p: Place, s: Between<Place>) -> bool
        ensures { result ≡ is_near self.limit p s }
    {
        let rest = residual(p, s);
        let key = leaves::key(rest.x, rest.y);
        if self.far <= key {
            return false;
        }
        leaves::hypot(leaves::hypot_of_key(key), rest.z) <= self.limit
    }

    // Whether the distance from p to one of the segments that join each of the places to the next, the last to the
    // first, is not above the limit. Those after the first near segment are not asked for.
    #[tactic(auto, using(crate::proofs::Nearness::near_start, crate::proofs::Nearness::near_next))]
    pub(crate) fn is_ring_near<I: Iterator<Item = Place>>(self, p: Place, mut places: I) -> bool
        requires can { I.can_next places }
        requires ends { IsFinite (I.remaining places) }
        ensures { (ring : List Place) → AlwaysYields I.next_gives (λ q. q) places ring
            → result ≡ any_near self.limit p false ring }
    {
        let Some(first) = places.next() else {
            return false;
        };
        let mut a = first;
        for b in places {
            if self.is_near(p, Between { a, b }) {
                return true;
            }
            a = b;
        }
        self.is_near(p, Between { a, b: first })
    }
}
