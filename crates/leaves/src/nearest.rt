// Rounding to a whole number. Document 01 has it worked out here, so `f64::round` is not called.
ghost use Rattle.std.specs.Prelude.{◌≡◌, T, from_bits};
ghost use Rattle.std.specs.Float.Ieee.{lt};
ghost use Rattle.std.specs.Float.{binary64};
ghost use Rattle.leaves.specs.Constants.{plus_zero};
ghost use Rattle.leaves.specs.Round.{round_of};

// From here on every f64 is a whole number.
const WHOLE_FROM: f64 = 4503599627370496.0; // 2^52, 4330000000000000

// The nearest whole number, halves away from zero, the sign of zero kept; an infinity itself, a NaN
// a NaN.
pub fn round(x: f64) -> f64
    ensures { result ≡ round_of x }
{
    if x > 0.0 {
        if x < WHOLE_FROM { nearest_whole(x) } else { x }
    } else if x < 0.0 {
        if -x < WHOLE_FROM {
            -nearest_whole(-x)
        } else {
            x
        }
    } else {
        x
    }
}

// The whole part n of 2x tells both the whole part of x and whether a half or more is left: the
// nearest whole number is (n + 1) / 2 without its fraction. Below 2^52 both x + x and the answer
// are exact. (x + 0.5 would be rounded: 0.49999999999999994 + 0.5 is 1.)
fn nearest_whole(x: f64) -> f64
    requires above_zero { T (lt plus_zero x) }
    requires below { T (lt x (from_bits binary64 0x4330000000000000)) }
    ensures { result ≡ round_of x }
{
    let halves = std::num::truncating_f64_to_u64(x + x);
    ((halves + 1) / 2) as f64
}
