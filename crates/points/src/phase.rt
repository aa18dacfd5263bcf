// The chart's phase.
ghost use Rattle.std.specs.Prelude.{◌≡◌, eqb, ltb};

use std::marker::Model;

// The phases by name: at the second v is turned by half. `Unknown` is a number above 1, which check 8 refuses.
#[derive(Clone, Copy, Debug, PartialEq, Eq)]
enum Named {
    First,
    Second,
    Unknown(u32),
}

// The phase of a number, and seen as it.
#[derive(Clone, Copy, Debug)]
pub struct Phase {
    named: Named,
}

impl Model for Phase {
    ghost use Rattle.std.specs.Prelude.{ℕ};
    ghost use Rattle.std.proofs.Common.{ap};
    ghost use Rattle.points.specs.Phases.{phase_number, is_phase, phase_named, phase_again};

    ghost Value = { ℕ };

    ghost view = { λ phase. phase_number phase.named };

    ghost invariant = { λ phase. is_phase phase.named };

    ghost inverse = { λ number. record { named = phase_named number } };

    ghost inverse_ok = { λ phase h. ap (λ named. record { named = named }) (phase_again phase.named h) };
}

impl From<u32> for Phase {
    ghost from_gives = { λ number phase. phase ≡ number };

    #[tactic(auto, unfolding(crate::specs::Phases::phase_number, crate::specs::Phases::is_phase))]
    fn from(number: u32) -> Phase {
        let named = match number {
            0 => Named::First,
            1 => Named::Second,
            _ => Named::Unknown(number),
        };
        Phase { named }
    }
}

impl Phase {
    #[tactic(auto, unfolding(crate::specs::Phases::phase_number, crate::specs::Phases::is_phase))]
    pub fn is_second(self) -> bool
        ensures { result ≡ eqb self 1 }
    {
        matches!(self.named, Named::Second)
    }

    // Neither the first nor the second.
    #[tactic(auto, unfolding(crate::specs::Phases::phase_number, crate::specs::Phases::is_phase))]
    pub fn is_unknown(self) -> bool
        ensures { result ≡ ltb 1 self }
    {
        matches!(self.named, Named::Unknown(_))
    }
}
