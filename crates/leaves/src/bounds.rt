// Smaller-of, larger-of and clamp, as document 01 words them, and a magnitude over a limit. The library's `min` and
// `max` pass a NaN over in either place and may answer either zero, and its `clamp` asks for ends in order.
ghost use Rattle.std.specs.Prelude.{◌≡◌};
ghost use Rattle.leaves.specs.Bounds.{smaller_of, larger_of, clamp_of, exceeds_of};

// The first, unless the second is less: so the first at equality, and beside a NaN.
#[tactic(auto, unfolding(crate::specs::Bounds::smaller_of))]
pub fn smaller_of(a: f64, b: f64) -> f64
    ensures { result ≡ smaller_of a b }
{
    if b < a { b } else { a }
}

// The first, unless the second is greater.
#[tactic(auto, unfolding(crate::specs::Bounds::larger_of))]
pub fn larger_of(a: f64, b: f64) -> f64
    ensures { result ≡ larger_of a b }
{
    if a < b { b } else { a }
}

// Below the low end the low end, above the high end the high end, else the number.
#[tactic(auto, unfolding(crate::specs::Bounds::clamp_of))]
pub fn clamp(x: f64, low: f64, high: f64) -> f64
    ensures { result ≡ clamp_of x low high }
{
    let is_below = x < low;
    let is_above = high < x;
    if is_below {
        low
    } else if is_above {
        high
    } else {
        x
    }
}

// Whether d is over the limit in magnitude.
#[tactic(auto, unfolding(crate::specs::Bounds::exceeds_of))]
pub fn exceeds(d: f64, limit: f64) -> bool
    ensures { result ≡ exceeds_of d limit }
{
    limit < d || limit < -d
}
