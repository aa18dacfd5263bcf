// A surface's kind. (Its sense, and the phase of points, have this shape over names of their own: no type is generic
// over the names of an enum.)
ghost use Rattle.std.specs.Prelude.{◌≡◌, ◌||◌, ◌&&◌, eqb, leb, ltb};

use std::marker::Model;

// The kinds by name. `Unknown` is a byte above 6, which check 3 refuses.
#[derive(Clone, Copy, Debug, PartialEq, Eq)]
enum Named {
    Plane,
    Cylinder,
    Cone,
    Sphere,
    Torus,
    Nurbs,
    Other,
    Unknown(u8),
}

// The kind of a sheet's byte, and seen as it.
#[derive(Clone, Copy, Debug)]
pub struct Kind {
    named: Named,
}

impl Model for Kind {
    ghost use Rattle.std.specs.Prelude.{ℕ};
    ghost use Rattle.std.proofs.Common.{ap};
    ghost use Rattle.sheet.specs.Kinds.{kind_number, is_kind, kind_named, kind_again};

    ghost Value = { ℕ };

    ghost view = { λ kind. kind_number kind.named };

    ghost invariant = { λ kind. is_kind kind.named };

    ghost inverse = { λ number. record { named = kind_named number } };

    ghost inverse_ok = { λ kind h. ap (λ named. record { named = named }) (kind_again kind.named h) };
}

impl From<u8> for Kind {
    ghost from_gives = { λ byte kind. kind ≡ byte };

    #[tactic(auto, unfolding(crate::specs::Kinds::kind_number, crate::specs::Kinds::is_kind))]
    fn from(byte: u8) -> Kind {
        let named = match byte {
            0 => Named::Plane,
            1 => Named::Cylinder,
            2 => Named::Cone,
            3 => Named::Sphere,
            4 => Named::Torus,
            5 => Named::Nurbs,
            6 => Named::Other,
            _ => Named::Unknown(byte),
        };
        Kind { named }
    }
}

impl Kind {
    #[tactic(auto, unfolding(crate::specs::Kinds::kind_number, crate::specs::Kinds::is_kind))]
    pub fn is_plane(self) -> bool
        ensures { result ≡ eqb self 0 }
    {
        matches!(self.named, Named::Plane)
    }

    #[tactic(auto, unfolding(crate::specs::Kinds::kind_number, crate::specs::Kinds::is_kind))]
    pub fn is_torus(self) -> bool
        ensures { result ≡ eqb self 4 }
    {
        matches!(self.named, Named::Torus)
    }

    // Cylinders and cones are periodic, whatever their rings are.
    #[tactic(auto, unfolding(crate::specs::Kinds::kind_number, crate::specs::Kinds::is_kind))]
    pub fn is_round(self) -> bool
        ensures { result ≡ (eqb self 1 || eqb self 2) }
    {
        matches!(self.named, Named::Cylinder | Named::Cone)
    }

    // Whether u turns: cylinder, cone, sphere, torus.
    #[tactic(auto, unfolding(crate::specs::Kinds::kind_number, crate::specs::Kinds::is_kind))]
    pub fn turns(self) -> bool
        ensures { result ≡ (leb 1 self && leb self 4) }
    {
        matches!(
            self.named,
            Named::Cylinder | Named::Cone | Named::Sphere | Named::Torus
        )
    }

    // None of the seven.
    #[tactic(auto, unfolding(crate::specs::Kinds::kind_number, crate::specs::Kinds::is_kind))]
    pub fn is_unknown(self) -> bool
        ensures { result ≡ ltb 6 self }
    {
        matches!(self.named, Named::Unknown(_))
    }
}
