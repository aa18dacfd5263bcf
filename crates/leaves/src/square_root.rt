// The square root of IEEE 754, by binary digits. Document 01 has it worked out here, so the machine's (`f64::sqrt`) is
// not called; the library's root of a whole number (`u128::isqrt`) takes three times as long.
//
// A finite x above 0 is unpacked to significand * 2^(2h) / 2^2096 with 2^52 <= significand < 2^54:
// an odd exponent doubles the significand, a subnormal is shifted up first. The integer root R of
// significand * 2^54 has 54 binary digits, one more than an f64 keeps. R is never a tie: an odd R
// with R * R = significand * 2^54 is impossible, since an odd number has an odd square. So where
// the last digit of R is 1 the exact root is above the half, where it is 0 below it, and rounding
// to nearest, ties to even, is (R + 1) / 2 without its fraction. The answer is never subnormal, and
// (R + 1) / 2 stays below 2^53, so packing is one addition.
ghost use Rattle.std.specs.Prelude.{◌≡◌, ◌-◌, ◌*◌, ◌^◌, ◌<◌, ◌≤◌, T};
ghost use Rattle.std.specs.Float.Ieee.{lt};
ghost use Rattle.leaves.specs.Constants.{plus_zero};
ghost use Rattle.leaves.specs.Engine.{RootOfFraction, root_digits_of, radicand, Started};
ghost use Rattle.leaves.specs.Root.{root_of};

pub(crate) const HIDDEN: u64 = 0x10_0000_0000_0000; // 2^52, the weight of a normal number's leading digit

// The digits of an integer root, and the rest: what is left of the radicand.
#[derive(Clone, Copy)]
pub(crate) struct RootDigits {
    pub root: u64,
    pub rest: u64,
}

// The square root: nearest, ties to even; -0 gives -0, infinity itself; negative or NaN gives a NaN.
pub fn root(x: f64) -> f64
    ensures { result ≡ root_of x }
{
    if x > 0.0 {
        root_above_zero(x)
    } else if x < 0.0 {
        f64::NAN
    } else {
        x
    }
}

// The root of an x above 0.
fn root_above_zero(x: f64) -> f64
    requires { T (lt plus_zero x) }
    ensures { result ≡ root_of x }
{
    let bits = x.to_bits();
    let field = bits / HIDDEN;
    let low = bits % HIDDEN;
    if field == 2047 {
        x
    } else if field == 0 {
        root_of_subnormal(low)
    } else {
        root_of_scaled(HIDDEN + low, field + 1021)
    }
}

// The root of low / 2^1074: the highest set digit is moved to the place of a normal number's leading one.
fn root_of_subnormal(low: u64) -> f64
    requires not_zero { 0 < low }
    requires small { low < 2 ^ 52 }
    ensures { RootOfFraction result low 1074 }
{
    let places = (low.leading_zeros() - 11) as u64;
    root_of_scaled(low << places, 1022 - places)
}

// The root of significand * 2^exponent / 2^2096.
#[tactic(auto, using(crate::proofs::PackedRoots::odd_root))]
fn root_of_scaled(significand: u64, exponent: u64) -> f64
    requires large { 2 ^ 52 ≤ significand }
    requires small { significand < 2 ^ 53 }
    requires exponent_small { exponent < 3068 }
    ensures { RootOfFraction result (significand * 2 ^ exponent) 2096 }
{
    let is_even = exponent % 2 == 0;
    if is_even {
        root_of_even(significand, exponent / 2)
    } else {
        root_of_even(significand * 2, exponent / 2)
    }
}

// The root of significand * 2^(2 half) / 2^2096: 54 digits, the last one rounded away, packed.
fn root_of_even(significand: u64, half: u64) -> f64
    requires large { 2 ^ 52 ≤ significand }
    requires small { significand < 2 ^ 54 - 1 }
    requires half_small { half < 1534 }
    ensures { RootOfFraction result (significand * 2 ^ (2 * half)) 2096 }
{
    let found = digits(0, 54, significand * 2);
    f64::from_bits(half * HIDDEN + (found.root + 1) / 2)
}

// The engine: the digits of the root of the radicand root * root + rest * 2^places / 2 that are still
// to be found, `places` of them. left * 2^place is always twice what is left of the radicand. The
// next digit, of weight w = 2^(place - 1), is 1 where (found + w) * (found + w) is not above the
// radicand, that is where 2 * found + w <= left. The digit is a number that is multiplied and
// shifted, not a branch: half of all digits would be guessed wrong. (What it begins from is three
// numbers and no struct: they stand together in this one call.)
fn digits(root: u64, places: u64, rest: u64) -> RootDigits
    requires { Started root places rest }
    ensures { result ≡ root_digits_of (radicand root places rest) }
{
    let mut found = root;
    let mut left = rest;
    for place in (0..places).rev() {
        let step = found + found + (1 << place);
        let digit = u64::from(step <= left);
        found += digit << place;
        left = (left - step * digit) * 2;
    }
    RootDigits {
        root: found,
        rest: left / 2,
    }
}
