// The plain machine: start, tick and edge, one step at a time, and the place of a new job.
#![tactic(auto)]

ghost use Rattle.std.specs.Prelude.{◌≡◌, ◌+◌, ◌-◌, ◌≤◌, ◌<◌};
ghost use Rattle.meaning.specs.Machine.Step.{tick, edge};
ghost use Rattle.machine.specs.Promise.{Stepped, Started, Placing};

mod clocks;
mod judge;
mod listed;
mod queue;
mod seen;
mod stepping;

pub use judge::is_lendable;
use model_table::ModelTable;
pub use queue::tasks_of;
use refusals::Reason;
pub use stepping::start_given;

// The cells of a state's clocks.
const CLOCKS: usize = 4;

// The cells of its queue.
const JOBS: usize = 6;

// How high a clock may be.
const CLOCK_MOST: u32 = 32_000;

// A job: its task, the ticks of work done, and its age in ticks since release.
#[derive(Clone, Copy, Debug, Default, PartialEq, Eq)]
pub struct Job {
    pub task: u32,
    pub done: u32,
    pub age: u32,
}

impl Job {
    // What stands in an unused cell.
    pub const NONE: Job = Job {
        task: 0,
        done: 0,
        age: 0,
    };
}

// The clocks of a state; those that the model lacks are 0.
pub type Clocks = [u32; CLOCKS];

// The jobs of a queue, head first; unused cells are `Job::NONE`.
pub type Jobs = [Job; JOBS];

// A state: a location, the clock values, and a queue, head first. Unused cells are 0.
#[derive(Clone, Copy)]
pub struct State {
    pub location: u32,
    pub clocks: Clocks,
    pub jobs: Jobs,
    pub count: u32,
}

impl State {
    // A state of nothing.
    pub const NONE: State = State {
        location: 0,
        clocks: [0; CLOCKS],
        jobs: [Job::NONE; JOBS],
        count: 0,
    };
}

// What a step came to: it went; a miss, with the first position at fault; an overflow; or why it is refused.
#[derive(Clone, Copy, Debug, PartialEq, Eq)]
pub enum Outcome {
    Went,
    Missed(u32),
    Overflowed,
    Refused(Reason),
}

// A step's reply: what it came to, and the state after it. No `Result`, since a step that is refused gives the state back, as `Stepped` promises.
#[derive(Clone, Copy)]
pub struct Reply {
    pub outcome: Outcome,
    pub state: State,
}

// The place of a new job in a lent list: its position, or an overflow.
#[derive(Clone, Copy, Debug, PartialEq, Eq)]
pub enum Placed {
    At(usize),
    Overflowed,
}

// The start of a model: not proper, with a state of nothing, if the table is none that a text gives.
pub fn start(model: &[u32]) -> Reply
    ensures { Started model.now result }
{
    if judge::is_given(model) {
        return stepping::start_given(&ModelTable { cells: model });
    }
    stepping::refused(State::NONE, Reason::NotProper)
}

// One tick: refused if not proper, then if not allowed, then at the end of a clock; else the state after it, and whether it is a miss.
pub fn tick(model: &[u32], state: State) -> Reply
    ensures { Stepped model.now state tick result }
{
    if judge::is_usable(model, state) {
        return stepping::tick_given(&ModelTable { cells: model }, state);
    }
    stepping::refused(state, Reason::NotProper)
}

// One edge by its number in the file: refused if not proper, then if not allowed; else the state after it, or an overflow.
pub fn edge(model: &[u32], state: State, number: u32) -> Reply
    ensures { Stepped model.now state (edge number) result }
{
    if judge::is_usable(model, state) {
        return stepping::edge_given(&ModelTable { cells: model }, state, number);
    }
    stepping::refused(state, Reason::NotProper)
}

// The place of a new job of a task in a lent list of jobs, one after the other: the walk.
pub fn place(model: &[u32], jobs: &[Job], task: u32) -> Result<Placed, Reason>
    ensures { Placing model.now jobs.now task result }
{
    let mut seen = seen::Seen::begin();
    for &job in jobs {
        seen = seen.look(model, task, job)?;
    }
    listed::finish(model, task, seen)
}
