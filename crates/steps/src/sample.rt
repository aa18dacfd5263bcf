// The parameter of a curve's nth sample.
ghost use Rattle.std.specs.Prelude.{◌≡◌, ◌≤◌};
ghost use Rattle.answers.specs.Answers.{parameter_paper};
ghost use Rattle.steps.specs.Sample.{sample_wrong, between as between_of, sampled as sampled_of, sample_parameter_of};

use answers::{Parameter, Refusal, is_beyond};
use leaves::constants::GREATEST_FINITE;

// SAMPLES of uv.rs.
const SAMPLES: u32 = 16;

// 16: an end is not finite, or n is above 16.
#[tactic(auto, unfolding(crate::specs::Sample::sample_wrong))]
fn sample_wrong(a: f64, b: f64, n: u32) -> bool
    ensures { result ≡ sample_wrong a b n }
{
    is_beyond(GREATEST_FINITE, a) || is_beyond(GREATEST_FINITE, b) || SAMPLES < n
}

// b - a may overflow; the clamp mends it.
#[tactic(auto, unfolding(crate::specs::Sample::between))]
fn between(a: f64, b: f64, n: u32) -> f64
    requires { n ≤ 16 }
    ensures { result ≡ between_of a b n }
{
    leaves::clamp(
        a + (b - a) * (n as f64) / 16.0,
        leaves::smaller_of(a, b),
        leaves::larger_of(a, b),
    )
}

// The ends themselves at 0 and 16: the formula would lose a sign there, or give another bit.
#[tactic(auto, unfolding(crate::specs::Sample::sampled))]
fn sampled(a: f64, b: f64, n: u32) -> f64
    requires { n ≤ 16 }
    ensures { result ≡ sampled_of a b n }
{
    match n {
        0 => a,
        SAMPLES => b,
        _ => between(a, b, n),
    }
}

// a at n = 0, b at n = 16, and the parameter between them for an n between.
// n is a number: the host gives any, and the call itself refuses one above 16. a, b, n are in the order of uv.rs.
#[tactic(auto, using(crate::proofs::Sampling::sample_right, answers::proofs::Calls::calls), unfolding(crate::specs::Sample::sample_parameter_of))]
pub fn sample_parameter(a: f64, b: f64, n: u32) -> Result<Parameter, Refusal>
    ensures { parameter_paper result ≡ sample_parameter_of a b n }
{
    if sample_wrong(a, b, n) {
        return Err(Refusal::Argument);
    }
    Ok(Parameter {
        t: sampled(a, b, n),
    })
}
