// Why something is refused, and where.
#![tactic(auto)]

ghost use Rattle.std.specs.Prelude.{◌≡◌};
ghost use Rattle.refusals.specs.Number.{number_of};

/// Why something is refused: the rows of the list of refusals, in its order.
#[derive(Clone, Copy, Debug, PartialEq, Eq)]
pub enum Reason {
    TooLong,
    CommaOrStop,
    MarkNotHere,
    TooMany,
    BrokenLine,
    OutOfRange,
    WorkOverDeadline,
    WrongPriority,
    NotRising,
    WrongClaims,
    NotProper,
    WrongRoom,
    NotAllowed,
    ClockEnd,
}

// The refusal's number in the list.
impl From<Reason> for u32 {
    ghost from_gives = { λ reason number. number ≡ number_of reason };

    fn from(reason: Reason) -> u32 {
        match reason {
            Reason::TooLong => 1,
            Reason::CommaOrStop => 2,
            Reason::MarkNotHere => 3,
            Reason::TooMany => 10,
            Reason::BrokenLine => 4,
            Reason::OutOfRange => 5,
            Reason::WorkOverDeadline => 7,
            Reason::WrongPriority => 8,
            Reason::NotRising => 6,
            Reason::WrongClaims => 9,
            Reason::NotProper => 13,
            Reason::WrongRoom => 11,
            Reason::NotAllowed => 12,
            Reason::ClockEnd => 14,
        }
    }
}

/// A refusal, with the place of the fault in the text; 0 where there is none.
#[derive(Clone, Copy, Debug, PartialEq, Eq)]
pub struct Refusal {
    pub reason: Reason,
    pub place: usize,
}
