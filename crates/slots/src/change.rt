// The slots as a step changes them: without the head, and with new jobs put in.
ghost use Rattle.std.specs.Prelude.{ℕ, ◌+◌, ◌≤◌, ◌<◌, get_or, take};
ghost use mathlib.Core.List.{List, tail};
ghost use Rattle.meaning.specs.Inner.Slots as S;
ghost use Rattle.meaning.specs.Inner.Slots.{slots_of};
ghost use Rattle.meaning.specs.Inner.Places.{insert_slot, insert_slots};
ghost use Rattle.model_table.specs.Held.{model_of};
ghost use Rattle.home.specs.Stands.{order_of, tasks_of};
ghost use Rattle.slots.specs.Stands.{Stand, Stands};

use crate::order::slots_of;
use crate::standing::{Slot, Slots};
use home::{Home, JobsAhead, Releases, inserted, without_first};
use model_table::ModelTable;

// The slots with a new job of the task behind `ahead` others: its running sum is that of the job just ahead, and its age is variable 0.
pub(crate) fn put_in(slots: Slots, ahead: usize, task: u32) -> Slots
    requires stands { Stands slots }
    requires ahead_le_count { (ahead ≤ slots.count) × (slots.count < 6) }
    ensures { (ss : List S.Slot) → Stand ss slots → Stand (insert_slot ahead 0 task ss) result }
{
    let sum = slots.sum_before(ahead);
    let new = Slot { task, sum, age: 0 };
    Slots {
        slots: inserted(slots.slots, slots.count, new, ahead, Slot::NONE),
        count: slots.count + 1,
    }
}

// The slots without the head.
pub fn without_head(slots: Slots) -> Slots
    requires { Stands slots }
    ensures { (ss : List S.Slot) → Stand ss slots → Stand (tail ss) result }
{
    Slots {
        slots: without_first(slots.slots, Slot::NONE),
        count: slots.count.saturating_sub(1),
    }
}

// The slots of a queue order after the first n releases, each with so many jobs ahead of it as it comes in.
pub fn slots_with(
    model: &ModelTable,
    home: Home,
    releases: Releases,
    ahead: JobsAhead,
    n: usize,
) -> Slots
    requires n_le_count { (n ≤ releases.count) × (releases.count ≤ 4) × (home.count + n ≤ 6) }
    requires by_index { (k : ℕ) → k < n → get_or ahead k 0 ≤ home.count + k }
    ensures { Stand (insert_slots (take n (tasks_of releases)) (take n ahead) (slots_of (model_of model.now) (order_of home))) result }
{
    let mut slots = slots_of(model, home);
    for k in 0..n {
        slots = put_in(slots, ahead[k], releases.tasks[k]);
    }
    slots
}
