// A tick: the head goes on, or finishes. Its running sum is its done.
ghost use Rattle.std.specs.Prelude.{Some};
ghost use Rattle.meaning.specs.Inner.Slots.{slots_of};
ghost use Rattle.meaning.specs.Inner.StepBounds.{head_goes_on, head_finishes};
ghost use Rattle.home.specs.Stands.{order_of};
ghost use Rattle.zone_bounds.specs.Narrowed.{Workable, Narrows};
ghost use Rattle.step_bounds.specs.Stepping.{model_of};

use crate::stepping::Stepping;
use bounds::Matrix;
use home::sum_at;
use model_table::{clocks, work};
use zone_bounds::{less, within};

impl Stepping<'_> {
    // The head's done is at most C less 2; an empty queue goes on.
    pub(crate) fn head_goes_on(self, m: Matrix) -> Option<Matrix>
        requires workable { Workable m }
        ensures { Narrows (head_goes_on (model_of self.entry) (slots_of (model_of self.entry) (order_of self.entry.home))) (Some m) result }
    {
        if self.home.count == 0 {
            return Some(m);
        }
        let c = less(work(self.model.cells, self.home.tasks[0]), 2);
        within(m, sum_at(clocks(self.model.cells) as usize, 0), 0, c)
    }

    // It is at least C less 1; nothing finishes in an empty queue.
    pub(crate) fn head_finishes(self, m: Matrix) -> Option<Matrix>
        requires workable { Workable m }
        ensures { Narrows (head_finishes (model_of self.entry) (slots_of (model_of self.entry) (order_of self.entry.home))) (Some m) result }
    {
        if self.home.count == 0 {
            return None;
        }
        let c = less(1, work(self.model.cells, self.home.tasks[0]));
        within(m, 0, sum_at(clocks(self.model.cells) as usize, 0), c)
    }
}
