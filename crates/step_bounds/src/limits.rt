// A tick: the clocks after it meet the location's limits.
ghost use Rattle.std.specs.Prelude.{Some};
ghost use Rattle.meaning.specs.Model.{location_at};
ghost use Rattle.meaning.specs.Inner.StepBounds.{limit_bounds};
ghost use Rattle.zone_bounds.specs.Narrowed.{Workable, Narrows};
ghost use Rattle.step_bounds.specs.Stepping.{model_of};

use crate::stepping::Stepping;
use bounds::Matrix;
use model_table::limit;
use zone_bounds::{less, narrow};

impl Stepping<'_> {
    // Each limit of the location: after the tick the clock is 1 more, so before it at most the limit less 1.
    pub(crate) fn limits(self, m: Matrix) -> Option<Matrix>
        requires workable { Workable m }
        ensures { Narrows (limit_bounds (location_at (model_of self.entry) self.entry.home.location).limits) (Some m) result }
    {
        let mut r = Some(m);
        for clock in 1u32..5 {
            if let Some(most) = limit(self.model.cells, self.home.location, clock) {
                r = narrow(r, clock as usize, 0, less(most, 1));
            }
        }
        r
    }
}
