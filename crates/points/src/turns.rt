// Whole turns, as rules 2, 4, 7 and 8 take them, and when they go with the order of what is turned.
ghost use Rattle.std.specs.Prelude.{◌≡◌, not};
ghost use Rattle.leaves.specs.Constants.{greatest_finite};
ghost use Rattle.answers.specs.Limits.{beyond};
ghost use Rattle.points.specs.Turns.{keeps_order, turns as turns_of};

use leaves::constants::GREATEST_FINITE;

// The whole turns nearest to x: round(x / period) x period.
#[tactic(auto, unfolding(crate::specs::Turns::turns))]
pub fn turns(x: f64, period: f64) -> f64
    ensures { result ≡ turns_of x period }
{
    leaves::round(x / period) * period
}

// Whether x is finite, and no NaN.
pub fn is_number(x: f64) -> bool
    ensures { result ≡ not (beyond greatest_finite x) }
{
    !answers::is_beyond(GREATEST_FINITE, x)
}

// Whether the turns between mid and a column go with the order of the columns: the period is a number
// above 0, and mid is a number.
#[tactic(auto, unfolding(crate::specs::Turns::keeps_order))]
pub fn keeps_order(period: f64, mid: f64) -> bool
    ensures { result ≡ keeps_order period mid }
{
    0.0 < period && is_number(period) && is_number(mid)
}
