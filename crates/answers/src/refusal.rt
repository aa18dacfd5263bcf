// The refusals of document 01's tables, in the order of their numbers.
ghost use Rattle.std.specs.Prelude.{◌≡◌, ℕ};
ghost use Rattle.answers.specs.Outcome.{number_of};

#[derive(Clone, Copy, Debug, PartialEq, Eq)]
pub enum Refusal {
    // 1 to 7: the sheet.
    Length,
    Version,
    Kind,
    RingCount,
    Blocks,
    Coedges,
    Numbers,
    // 8 to 10: the call's own arguments.
    Phase,
    Room,
    Images,
    // 11 to 14: the chart.
    WideBand,
    Narrow,
    OpenJoin,
    NoneClear,
    // 15: the picks.
    TooClose,
    // 16 to 24: the calls after the picker.
    Argument,
    Sides,
    Gap,
    NoInterior,
    Corners,
    NoneServes,
    Heights,
    MiddleUnclear,
    NotFinite,
}

impl From<Refusal> for u32 {
    ghost from_gives = { λ refusal n. n ≡ number_of refusal };

    #[tactic(auto, unfolding(crate::specs::Outcome::number_of))]
    fn from(refusal: Refusal) -> u32 {
        match refusal {
            Refusal::Length => 1,
            Refusal::Version => 2,
            Refusal::Kind => 3,
            Refusal::RingCount => 4,
            Refusal::Blocks => 5,
            Refusal::Coedges => 6,
            Refusal::Numbers => 7,
            Refusal::Phase => 8,
            Refusal::Room => 9,
            Refusal::Images => 10,
            Refusal::WideBand => 11,
            Refusal::Narrow => 12,
            Refusal::OpenJoin => 13,
            Refusal::NoneClear => 14,
            Refusal::TooClose => 15,
            Refusal::Argument => 16,
            Refusal::Sides => 17,
            Refusal::Gap => 18,
            Refusal::NoInterior => 19,
            Refusal::Corners => 20,
            Refusal::NoneServes => 21,
            Refusal::Heights => 22,
            Refusal::MiddleUnclear => 23,
            Refusal::NotFinite => 24,
        }
    }
}

// What has a number as a refusal has one.
pub trait Numbered: Copy {
    ghost number: { Self → ℕ };

    fn number(self) -> u32
        ensures { result ≡ number self };
}

impl Numbered for Refusal {
    ghost number = { number_of };

    fn number(self) -> u32 {
        u32::from(self)
    }
}

// A number by itself: of a refusal that another has numbered.
impl Numbered for u32 {
    ghost number = { λ n. n };

    fn number(self) -> u32 {
        self
    }
}
