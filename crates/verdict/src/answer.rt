// The answer of the check.
ghost use Rattle.std.specs.Prelude.{◌≡◌};
ghost use Rattle.machine.specs.Promise.{no_state};

use machine::State;

// A state of nothing.
pub fn no_state() -> State
    ensures { result ≡ no_state }
{
    State::NONE
}

// The kind by which an obligation fails: a miss with its position, an overflow, a claim of 0, a claimed
// zone elsewhere, or a broken bound by its two variables.
#[derive(Clone, Copy, Debug, PartialEq, Eq)]
pub enum Fault {
    Late(u32),
    Over,
    Unclaimed,
    Elsewhere,
    Breaks(u32, u32),
}

// How an obligation fails: the fault, and the smallest state at fault.
#[derive(Clone, Copy)]
pub struct Found {
    pub fault: Fault,
    pub state: State,
}

// The obligation that fails: its number, its zone and its place, the fault, and the smallest state at fault.
#[derive(Clone, Copy)]
pub struct Failure {
    pub number: u32,
    pub zone: u32,
    pub place: u32,
    pub fault: Fault,
    pub state: State,
}

// All obligations hold, so many as were tried; or the first that fails. No Result of its own: a failed
// obligation is an answer, and the Err of `check` is a refusal.
#[derive(Clone, Copy)]
pub enum Verdict {
    Accepted(u32),
    Failed(Failure),
}
