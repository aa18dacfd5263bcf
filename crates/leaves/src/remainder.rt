// The remainder by TAU: what is left of x when TAU has been taken off as often as it goes, with the sign of x. It is
// exact, and so it is worked out by whole numbers and not by the C library's `fmod`: TAU is TAU_PARTS / 2^50, and
// every f64 from TAU on is a whole number of 2^-50ths (proofs/Remainders.antt).
ghost use Rattle.std.specs.Prelude.{◌≡◌, ◌*◌, ◌%◌, ◌^◌, T, not};
ghost use Rattle.std.specs.Float.{binary64};
ghost use Rattle.std.specs.Float.Ieee.{lt, le, rem};
ghost use Rattle.leaves.specs.Constants.{plus_zero, tau};

use crate::constants::TAU;
use crate::square_root::HIDDEN;

const TAU_PARTS: u64 = 7074237752028440; // TAU in 2^-50ths

const PARTS: f64 = 1125899906842624.0; // 2^50, 4310000000000000

// What is left of number * 2^doublings: the remainder is doubled, and reduced each time.
#[tactic(auto, using(crate::proofs::Remainders::doubled))]
fn parts_left(number: u64, doublings: u64) -> u64
    ensures { result ≡ number * 2 ^ doublings % 7074237752028440 }
{
    let mut left = number % TAU_PARTS;
    for _step in 0..doublings {
        left = left * 2 % TAU_PARTS;
    }
    left
}

// The remainder of an x from TAU on; of an infinity a NaN.
fn rest_from_tau(x: f64) -> f64
    requires { T (le tau x) }
    ensures { result ≡ rem binary64 x tau }
{
    let bits = x.to_bits();
    let field = bits / HIDDEN;
    if field == 2047 {
        return f64::NAN;
    }
    parts_left(HIDDEN + bits % HIDDEN, field - 1025) as f64 / PARTS
}

// The remainder of an x that is not negative; of a NaN a NaN.
#[tactic(auto, using(crate::proofs::Remainders::rem_below_tau))]
fn rest_of_magnitude(x: f64) -> f64
    requires { T (not (lt x plus_zero)) }
    ensures { result ≡ rem binary64 x tau }
{
    if TAU <= x { rest_from_tau(x) } else { x }
}

// x rem TAU, where rem is %.
#[tactic(auto, using(crate::proofs::Remainders::neg_not_below, crate::proofs::Remainders::rem_neg))]
pub(crate) fn rest(x: f64) -> f64
    ensures { result ≡ rem binary64 x tau }
{
    if x < 0.0 {
        -rest_of_magnitude(-x)
    } else {
        rest_of_magnitude(x)
    }
}
