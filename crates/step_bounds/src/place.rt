// The places of new jobs: each beats none of those ahead of it that it may overtake, and the one that it goes in front of.
ghost use Rattle.std.specs.Prelude.{◌≤◌, ◌<◌, List, get_or, take, Some};
ghost use Rattle.meaning.specs.Machine.Place.{behind};
ghost use Rattle.meaning.specs.Inner.Slots.{Slot, tasks_in, last_sum, slots_of};
ghost use Rattle.meaning.specs.Inner.Tests.{test_at};
ghost use Rattle.meaning.specs.Inner.Places.{place_bounds, position_bounds};
ghost use Rattle.home.specs.Stands.{order_of, tasks_of};
ghost use Rattle.slots.specs.Stands.{no_slot, Stand, Stands};
ghost use Rattle.zone_bounds.specs.Narrowed.{Workable, Narrows};
ghost use Rattle.step_bounds.specs.Tests.{Asks};
ghost use Rattle.step_bounds.specs.Places.{staying, PlaceIn, PlacesIn};
ghost use Rattle.step_bounds.specs.Stepping.{model_of};

use crate::stepping::Stepping;
use crate::tests::{Test, fail, hold};
use bounds::Matrix;
use home::{JobsAhead, Releases, first_place};
use slots::{Slots, slots_with};

impl Stepping<'_> {
    // Does a new job of the task beat the job in slot k?
    fn test_at(self, slots: Slots, task: u32, k: usize) -> Test
        requires stands { Stands slots }
        requires k_lt_count { k < slots.count }
        ensures { (ss : List Slot) → Stand ss slots → Asks (test_at (model_of self.entry) task (last_sum 0 (take k ss)) (get_or ss k no_slot)) result }
    {
        self.test_of(task, slots.sum_before(k), slots.slot(k))
    }

    // A new job beats none of the slots from one on up to another.
    fn beats_none(
        self,
        m: Matrix,
        slots: Slots,
        task: u32,
        first: usize,
        at: usize,
    ) -> Option<Matrix>
        requires stands { Stands slots }
        requires first_le_at { (first ≤ at) × (at ≤ slots.count) }
        requires workable { Workable m }
        ensures { (ss : List Slot) → Stand ss slots → Narrows (staying (test_at (model_of self.entry) task) first at ss) (Some m) result }
    {
        let mut r = m;
        for k in first..at {
            r = fail(r, self.test_at(slots, task, k))?;
        }
        Some(r)
    }

    // A new job of the task has just the first `at` slots ahead of it.
    fn place(self, m: Matrix, slots: Slots, task: u32, at: usize) -> Option<Matrix>
        requires place_in { PlaceIn (model_of self) task at slots }
        requires workable { Workable m }
        ensures { (ss : List Slot) → Stand ss slots → Narrows (place_bounds (test_at (model_of self.entry) task) (behind (model_of self.entry) task (tasks_in ss)) at 0 ss) (Some m) result }
    {
        let count = slots.count;
        let first = first_place(&self.model, task, &slots.tasks()[..count]);
        let r = self.beats_none(m, slots, task, first, at)?;
        if at < count {
            return hold(r, self.test_at(slots, task, at));
        }
        Some(r)
    }

    // The releases, one after the other, have so many jobs ahead of them, each as it comes in.
    pub(crate) fn placed(self, m: Matrix, releases: Releases, ahead: JobsAhead) -> Option<Matrix>
        requires places_in { PlacesIn (model_of self) self.home releases ahead }
        requires workable { Workable m }
        ensures { Narrows (position_bounds (model_of self.entry) (tasks_of releases) (take releases.count ahead) (slots_of (model_of self.entry) (order_of self.entry.home))) (Some m) result }
    {
        let mut r = m;
        for k in 0..releases.count as usize {
            let slots = slots_with(&self.model, self.home, releases, ahead, k);
            r = self.place(r, slots, releases.tasks[k], ahead[k])?;
        }
        Some(r)
    }
}
