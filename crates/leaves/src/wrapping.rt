// The remainder by TAU, and the wrap of rule 1.
ghost use Rattle.std.specs.Prelude.{◌≡◌};
ghost use Rattle.leaves.specs.Wrap.{rem_tau, wrap_of};

use crate::constants::{PI, TAU};
use crate::remainder::rest;

// x rem TAU, where rem is %, plus TAU if negative: Rust's `rem_euclid` by TAU, which calls the C library's `fmod`.
#[tactic(auto, unfolding(crate::specs::Wrap::rem_tau, crate::specs::Wrap::lifted))]
pub fn rem_tau(x: f64) -> f64
    ensures { result ≡ rem_tau x }
{
    let rest = rest(x);
    if rest < 0.0 { rest + TAU } else { rest }
}

// ((v + PI + PI) rem TAU) - PI, where rem is %, plus TAU if negative.
#[tactic(auto, unfolding(crate::specs::Wrap::wrap_of))]
pub fn wrap(v: f64) -> f64
    ensures { result ≡ wrap_of v }
{
    rem_tau(v + PI + PI) - PI
}
