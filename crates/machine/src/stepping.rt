// The start, a tick and an edge, with a table and a state that may be lent.
ghost use Rattle.std.specs.Prelude.{◌≡◌, map, ℕ, suc, ◌+◌, ◌-◌, ◌<◌, take};
ghost use Rattle.meaning.specs.Machine.Step.{tick, edge, act};
ghost use Rattle.meaning.specs.Machine.Run.{start};
ghost use Rattle.refusals.specs.Number.{number_of};
ghost use Rattle.model_table.specs.Held.{model_of};
ghost use Rattle.machine.specs.Stands.{padded, state_of, held, Lendable};
ghost use Rattle.machine.specs.Promise.{Said, said, told, answered};
ghost use Rattle.machine.specs.BySteps.{moved_said};

use super::clocks::{grow, guard_holds, limits_met, reset, within_end};
use super::queue::{Queue, tasks_of};
use super::{CLOCK_MOST, CLOCKS, Clocks, JOBS, Job, Outcome, Reply, State};
use model_table::ModelTable;
use refusals::Reason;

// A refusal, with the state as it was given.
pub(crate) fn refused(state: State, reason: Reason) -> Reply
    ensures { said result ≡ Said.refused (number_of reason) 0 state }
{
    Reply {
        outcome: Outcome::Refused(reason),
        state,
    }
}

// The state with that location, those clocks and that queue.
fn state_with(location: u32, clocks: Clocks, queue: Queue) -> State
    ensures { result ≡ record { location = location; clocks = clocks; jobs = queue.jobs; count = queue.count } }
{
    let jobs = queue.jobs;
    State {
        location,
        clocks,
        jobs,
        count: queue.count as u32,
    }
}

// An allowed tick, with the clocks after it: work and ages, the head that finishes leaves, and then the miss.
fn ticked(model: &ModelTable, state: State, grown: Clocks) -> Reply
    requires { Lendable (model_of model.now) state × (grown ≡ padded 0 4 (map suc (take (model_of model.now).clocks state.clocks))) }
    ensures { said result ≡ told state (act (model_of model.now) (state_of (model_of model.now) state) tick) }
{
    let jobs = state.jobs;
    let count = state.count as usize;
    let queue = Queue { jobs, count };
    let last = queue.finishes(model);
    let next = queue.served(last);
    let outcome = match next.first_late(model) {
        None => Outcome::Went,
        Some(ahead) => Outcome::Missed((ahead + 1) as u32),
    };
    Reply {
        outcome,
        state: state_with(state.location, grown, next),
    }
}

// A tick: not allowed if the clocks after it break a limit; refused, too, at the end of a clock.
pub(crate) fn tick_given(model: &ModelTable, state: State) -> Reply
    requires { Lendable (model_of model.now) state }
    ensures { said result ≡ answered (model_of model.now) state tick }
{
    let grown = grow(state.clocks, model_table::clocks(model.cells) as usize);
    if !limits_met(model.cells, state.location, grown) {
        return refused(state, Reason::NotAllowed);
    }
    if !within_end(&grown, CLOCK_MOST) {
        return refused(state, Reason::ClockEnd);
    }
    ticked(model, state, grown)
}

// An allowed edge, with the clocks after its resets: its releases, which may overflow.
fn moved(model: &ModelTable, state: State, number: u32, clocks: Clocks) -> Reply
    requires { Lendable (model_of model.now) state }
    ensures { said result ≡ moved_said (model_of model.now) state number clocks }
{
    let jobs = state.jobs;
    let count = state.count as usize;
    let queue = Queue { jobs, count };
    let releases = home::released_by(model, number);
    let tasks = tasks_of(jobs);
    if home::overflows(model, releases.list(), &tasks[..count]) {
        return Reply {
            outcome: Outcome::Overflowed,
            state,
        };
    }
    let location = home::target(model, number, state.location);
    let next = queue.put_all(model, releases.list());
    Reply {
        outcome: Outcome::Went,
        state: state_with(location, clocks, next),
    }
}

// An edge by its number: not allowed if it isn't in the model, leaves another location, or its guard doesn't hold of the clocks before the resets.
pub(crate) fn edge_given(model: &ModelTable, state: State, number: u32) -> Reply
    requires { Lendable (model_of model.now) state }
    ensures { said result ≡ answered (model_of model.now) state (edge number) }
{
    if home::leaves(model, number, state.location) && guard_holds(model, number, state.clocks) {
        return moved(
            model,
            state,
            number,
            reset(model.cells, number, state.clocks),
        );
    }
    refused(state, Reason::NotAllowed)
}

// The start: location 1, all clocks 0, and what is released at the start.
pub fn start_given(model: &ModelTable) -> Reply
    ensures { said result ≡ Said.went (held (start (model_of model.now))) }
{
    let releases = home::start_releases(model);
    let none = Queue {
        jobs: [Job::NONE; JOBS],
        count: 0,
    };
    let queue = none.put_all(model, releases.list());
    Reply {
        outcome: Outcome::Went,
        state: state_with(1, [0; CLOCKS], queue),
    }
}
