// A surface's sense.
ghost use Rattle.std.specs.Prelude.{◌≡◌, eqb, ltb};

use std::marker::Model;

// The senses by name. `Unknown` is a byte above 2, which check 3 refuses.
#[derive(Clone, Copy, Debug, PartialEq, Eq)]
enum Named {
    Absent,
    Forward,
    Reversed,
    Unknown(u8),
}

// The sense of a sheet's byte, and seen as it.
#[derive(Clone, Copy, Debug)]
pub struct Sense {
    named: Named,
}

impl Model for Sense {
    ghost use Rattle.std.specs.Prelude.{ℕ};
    ghost use Rattle.std.proofs.Common.{ap};
    ghost use Rattle.sheet.specs.Senses.{sense_number, is_sense, sense_named, sense_again};

    ghost Value = { ℕ };

    ghost view = { λ sense. sense_number sense.named };

    ghost invariant = { λ sense. is_sense sense.named };

    ghost inverse = { λ number. record { named = sense_named number } };

    ghost inverse_ok = { λ sense h. ap (λ named. record { named = named }) (sense_again sense.named h) };
}

impl From<u8> for Sense {
    ghost from_gives = { λ byte sense. sense ≡ byte };

    #[tactic(auto, unfolding(crate::specs::Senses::sense_number, crate::specs::Senses::is_sense))]
    fn from(byte: u8) -> Sense {
        let named = match byte {
            0 => Named::Absent,
            1 => Named::Forward,
            2 => Named::Reversed,
            _ => Named::Unknown(byte),
        };
        Sense { named }
    }
}

impl Sense {
    #[tactic(auto, unfolding(crate::specs::Senses::sense_number, crate::specs::Senses::is_sense))]
    pub fn is_forward(self) -> bool
        ensures { result ≡ eqb self 1 }
    {
        matches!(self.named, Named::Forward)
    }

    #[tactic(auto, unfolding(crate::specs::Senses::sense_number, crate::specs::Senses::is_sense))]
    pub fn is_reversed(self) -> bool
        ensures { result ≡ eqb self 2 }
    {
        matches!(self.named, Named::Reversed)
    }

    // Neither absent nor forward nor reversed.
    #[tactic(auto, unfolding(crate::specs::Senses::sense_number, crate::specs::Senses::is_sense))]
    pub fn is_unknown(self) -> bool
        ensures { result ≡ ltb 2 self }
    {
        matches!(self.named, Named::Unknown(_))
    }
}
