// The place of a new job in a lent list of jobs: the answer, of what the walk over the list has found.
ghost use Rattle.std.specs.Prelude.{◌≡◌};
ghost use Rattle.model_table.specs.Held.{model_of};
ghost use Rattle.machine.specs.ByPlace.{Known, position_said, Finished};
ghost use Rattle.machine.specs.Promise.{placed_said};
ghost use Rattle.machine.specs.ByCell.{Tells};

use super::Placed;
use super::judge::is_given;
use super::queue::ahead;
use super::seen::Seen;
use model_table::ModelTable;
use refusals::Reason;

// Is the table one that a text gives, and the task one of its model?
fn is_known(model: &[u32], task: u32) -> bool
    ensures { Tells result (Known model.now task) }
{
    0 < task && task <= model_table::tasks(model) && is_given(model)
}

// Overflow, or the position, of what a walk over all jobs of a right list has found.
fn position(model: &ModelTable, task: u32, seen: Seen) -> Placed
    ensures { placed_said result ≡ position_said (model_of model.now) task seen }
{
    let tasks = &seen.tasks[..seen.count];
    if home::overflows(model, &[task], tasks) {
        return Placed::Overflowed;
    }
    let from = home::first_place(model, task, tasks);
    Placed::At(ahead(&seen.beaten[..seen.count], from) + 1)
}

// The answer, of what a walk over all jobs has found.
pub(crate) fn finish(model: &[u32], task: u32, seen: Seen) -> Result<Placed, Reason>
    ensures { Finished model.now task seen result }
{
    if is_known(model, task)
        && home::fits(&ModelTable { cells: model }, &seen.tasks[..seen.count])
    {
        return Ok(position(&ModelTable { cells: model }, task, seen));
    }
    Err(Reason::NotProper)
}
