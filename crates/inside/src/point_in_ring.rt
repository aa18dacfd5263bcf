// Rule 7 on one ring: `inside`.
ghost use Rattle.std.specs.Prelude.{◌≡◌};
ghost use Rattle.std.specs.Bool.{xor};
ghost use Rattle.std.specs.Float.Ieee.{lt};
ghost use Rattle.inside.specs.Inside.{flips, inside_of};
ghost use Rattle.inside.specs.Lines.{cut as cut_of};

use points::Segment;
use sheet::Point;

// Whether just one of two numbers is above a third.
#[tactic(auto, using(crate::proofs::Flips::differs))]
pub fn just_one_above(a: f64, b: f64, x: f64) -> bool
    ensures { result ≡ xor (lt x a) (lt x b) }
{
    (x < a) != (x < b)
}

// The u at which the edge between a and b, the point before it, is at v.
#[tactic(auto, unfolding(crate::specs::Lines::cut))]
pub(crate) fn cut(edge: Segment, v: f64) -> f64
    ensures { result ≡ cut_of edge.a edge.b v }
{
    let a = edge.a;
    let b = edge.b;
    (b.u - a.u) * (v - a.v) / (b.v - a.v) + a.u
}

// Whether the edge between a and b, the point before it, flips `inside` at p.
#[tactic(auto, unfolding(crate::specs::Inside::flips, crate::specs::Lines::cut))]
fn is_flip(p: Point, edge: Segment) -> bool
    ensures { result ≡ flips p edge.a edge.b }
{
    just_one_above(edge.a.v, edge.b.v, p.v) && p.u < cut(edge, p.v)
}

// Whether p is inside the ring.
#[tactic(auto, using(crate::proofs::Flips::differs, crate::proofs::Insides::along_ring))]
pub fn inside(ring: &[Point], p: Point) -> bool
    ensures { result ≡ inside_of ring.now p }
{
    let Some(last) = ring.last() else {
        return false;
    };
    let mut in_so_far = false;
    let mut b = *last;
    for a in ring {
        in_so_far ^= is_flip(p, Segment { a: *a, b });
        b = *a;
    }
    in_so_far
}
