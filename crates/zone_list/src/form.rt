// A step of a zone's list by value, and what is told of the whole list.
ghost use Rattle.std.specs.Prelude.{◌≡◌, ℕ, ◌-◌, ◌<◌, get_or};

use home::JobsAhead;

// The positions of new jobs, numbered from 1, and 0 behind them.
pub type Positions = [u32; 4];

// What a step asks: a tick at which the head goes on, or finishes; or an edge, by its number in the file.
#[derive(Clone, Copy)]
pub enum Kind {
    GoOn,
    Finish,
    Edge(u32),
}

// An edge has one position for each task that it releases, as each comes in; none where nothing is released or the release overflows.
// A step is lent by value, in fixed memory: so its positions are an array with a count, and `Formed` says what stands behind.
#[derive(Clone, Copy)]
pub struct Step {
    pub kind: Kind,
    pub positions: Positions,
    pub count: u32,
}

// How many steps the list has, and whether the claims are 0 where 0 is due: it has steps either way.
#[derive(Clone, Copy)]
pub struct Steps {
    pub many: usize,
    pub zeros: bool,
}

// How many jobs are ahead of each new job, as it comes in: a position has one job fewer ahead of it.
pub fn ahead_of(step: Step) -> JobsAhead
    ensures { (k : ℕ) → get_or result k 0 ≡ get_or step.positions k 0 - 1 }
{
    step.positions.map(one_less)
}

// How many jobs are ahead of a position.
pub(crate) fn one_less(position: u32) -> usize
    ensures { result ≡ position - 1 }
{
    position.saturating_sub(1) as usize
}
