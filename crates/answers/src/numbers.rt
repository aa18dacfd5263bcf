// Numbers held against a limit: one, a place's three, a list's, and those of a list that has to have a length.
ghost use Rattle.std.specs.Prelude.{◌≡◌};
ghost use Rattle.answers.specs.Lists.{any_of};
ghost use Rattle.answers.specs.Limits.{beyond, place_beyond, missing};

use space::Place;

// 2^20, for a number of the triangle and of the fallbacks.
pub const ARGUMENT_LIMIT: f64 = 1048576.0;

// Of magnitude above the limit, infinite, or a NaN.
#[tactic(auto, unfolding(crate::specs::Limits::beyond))]
pub fn is_beyond(limit: f64, x: f64) -> bool
    ensures { result ≡ beyond limit x }
{
    !(-limit <= x && x <= limit)
}

// Whether a coordinate is beyond the limit.
#[tactic(auto, unfolding(crate::specs::Limits::place_beyond))]
pub fn is_place_beyond(limit: f64, p: Place) -> bool
    ensures { result ≡ place_beyond limit p }
{
    is_beyond(limit, p.x) || is_beyond(limit, p.y) || is_beyond(limit, p.z)
}

// Whether any number of a list is beyond the limit.
pub fn any_number_beyond(limit: f64, list: &[f64]) -> bool
    ensures { result ≡ any_of (beyond limit) list.now }
{
    list.iter().any(|x| is_beyond(limit, *x))
}

// Whether the list is not `count` numbers, none of them beyond the limit.
#[tactic(auto, unfolding(crate::specs::Limits::missing))]
pub fn is_missing(count: usize, limit: f64, list: &[f64]) -> bool
    ensures { result ≡ missing count limit list.now }
{
    list.len() != count || any_number_beyond(limit, list)
}
