// What the calls answer. The paper's six numbers of each are the definitions of specs/Answers.antt.
ghost use Rattle.std.specs.Prelude.{◌≡◌};
ghost use Rattle.answers.specs.Outcome.{Numbers};
ghost use Rattle.answers.specs.Answers.{values_numbers, parameter_numbers, direction_numbers, place_numbers, middle_numbers, valued, yes as yes_of};

use crate::refusal::Refusal;
use space::Place;

// A point with its three coordinates, clearance and count; of the calls after the picker the values answered, and
// zeros behind them.
#[derive(Clone, Copy, Debug, PartialEq)]
pub struct Values {
    pub x: f64,
    pub y: f64,
    pub z: f64,
    pub clearance: f64,
    pub count: u32,
}

// The answer of the chart and of a pick.
pub type Answer = Result<Values, Refusal>;

// A parameter of a curve.
#[derive(Clone, Copy, Debug, PartialEq)]
pub struct Parameter {
    pub t: f64,
}

// Whether to reverse a coedge's points, and whether to keep them.
#[derive(Clone, Copy, Debug, PartialEq, Eq)]
pub struct Direction {
    pub reverse: bool,
    pub keep: bool,
}

// The middle of a round face.
#[derive(Clone, Copy, Debug, PartialEq)]
pub struct Middle {
    pub angle: f64,
    pub height: f64,
}

// What a call answers, as the five numbers beside a status.
pub trait IntoValues: Copy {
    ghost numbers: { Self → Numbers };

    fn into_values(self) -> Values
        ensures { values_numbers result ≡ numbers self };
}

impl IntoValues for Values {
    ghost numbers = { values_numbers };

    fn into_values(self) -> Values {
        self
    }
}

// The values that are answered, and zeros behind them.
fn led_by(x: f64, y: f64, z: f64) -> Values
    ensures { values_numbers result ≡ valued x y z }
{
    Values {
        x,
        y,
        z,
        clearance: 0.0,
        count: 0,
    }
}

fn yes(b: bool) -> f64
    ensures { result ≡ yes_of b }
{
    if b { 1.0 } else { 0.0 }
}

impl IntoValues for Parameter {
    ghost numbers = { parameter_numbers };

    fn into_values(self) -> Values {
        led_by(self.t, 0.0, 0.0)
    }
}

impl IntoValues for Direction {
    ghost numbers = { direction_numbers };

    fn into_values(self) -> Values {
        led_by(yes(self.reverse), yes(self.keep), 0.0)
    }
}

impl IntoValues for Place {
    ghost numbers = { place_numbers };

    fn into_values(self) -> Values {
        led_by(self.x, self.y, self.z)
    }
}

impl IntoValues for Middle {
    ghost numbers = { middle_numbers };

    fn into_values(self) -> Values {
        led_by(self.angle, self.height, 0.0)
    }
}
