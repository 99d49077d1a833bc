// Who beats whom, as a test of two variables. Nowhere else in this crate is the policy looked at.
ghost use Rattle.std.specs.Prelude.{ℕ, ◌<◌, Some};
ghost use Rattle.meaning.specs.Model.{fps, edf, sjf};
ghost use Rattle.meaning.specs.Inner.Tests.{when_true, when_false, test_by, test_at};
ghost use Rattle.slots.specs.Stands.{slot_of};
ghost use Rattle.zone_bounds.specs.Narrowed.{Workable, Narrows};
ghost use Rattle.step_bounds.specs.Stepping.{model_of};
ghost use Rattle.step_bounds.specs.Tests.{test_of, Askable, Asks};

use crate::stepping::Stepping;
use bounds::Matrix;
use model_table::{Policy, deadline, policy, priority, work};
use slots::Slot;
use zone_bounds::{less, negated, within};

// It holds of every valuation, of none, or where the first variable minus the second is at most a number.
#[derive(Clone, Copy)]
pub enum Test {
    Always,
    Never,
    AtMost(usize, usize, i32),
}

impl Stepping<'_> {
    // "FPS: larger priority beats."
    fn rank_test(self, new: u32, queued: Slot) -> Test
        ensures { (a : ℕ) → Asks (test_by fps (model_of self.entry) new a (slot_of queued)) result }
    {
        if priority(self.model.cells, queued.task) < priority(self.model.cells, new) {
            Test::Always
        } else {
            Test::Never
        }
    }

    // "EDF: fewer ticks left to the deadline (D minus age) beats; at equality the larger task number beats."
    fn deadline_test(self, new: u32, queued: Slot) -> Test
        requires { queued.age < 17 }
        ensures { (a : ℕ) → Asks (test_by edf (model_of self.entry) new a (slot_of queued)) result }
    {
        let own = deadline(self.model.cells, new);
        let least = if queued.task < new { own } else { own + 1 };
        let c = less(deadline(self.model.cells, queued.task), least);
        Test::AtMost(queued.age, 0, c)
    }

    // SJF: "its computing time is less than what the queued job still owes, which is C minus done".
    fn work_test(self, new: u32, ahead: usize, queued: Slot) -> Test
        requires { (ahead < 17) × (queued.sum < 17) }
        ensures { Asks (test_by sjf (model_of self.entry) new ahead (slot_of queued)) result }
    {
        let c = less(
            work(self.model.cells, queued.task),
            work(self.model.cells, new) + 1,
        );
        Test::AtMost(queued.sum, ahead, c)
    }

    // Does a new job of a task beat a queued job? The running sum just ahead of it is in the variable `ahead`.
    pub(crate) fn test_of(self, new: u32, ahead: usize, queued: Slot) -> Test
        requires { (ahead < 17) × (queued.sum < 17) × (queued.age < 17) }
        ensures { Asks (test_at (model_of self.entry) new ahead (slot_of queued)) result }
    {
        match policy(self.model.cells) {
            Some(Policy::FixedPriority) => self.rank_test(new, queued),
            Some(Policy::EarliestDeadline) => self.deadline_test(new, queued),
            Some(Policy::ShortestJob) => self.work_test(new, ahead, queued),
            // a right table has one of the three
            None => unreachable!(),
        }
    }
}

// The states of which the test holds.
pub(crate) fn hold(m: Matrix, test: Test) -> Option<Matrix>
    requires askable { Askable test }
    requires workable { Workable m }
    ensures { Narrows (when_true (test_of test)) (Some m) result }
{
    match test {
        Test::Always => Some(m),
        Test::Never => None,
        Test::AtMost(i, j, c) => within(m, i, j, c),
    }
}

// Those of which it does not.
pub(crate) fn fail(m: Matrix, test: Test) -> Option<Matrix>
    requires askable { Askable test }
    requires workable { Workable m }
    ensures { Narrows (when_false (test_of test)) (Some m) result }
{
    match test {
        Test::Always => None,
        Test::Never => Some(m),
        Test::AtMost(i, j, c) => within(m, j, i, negated(c)),
    }
}
