// Properness: "0 ≤ done ≤ C − 1 and 0 ≤ age ≤ D − 1" of each job.
ghost use Rattle.std.specs.Prelude.{◌≤◌, ◌<◌, suc, length, Some};
ghost use Rattle.model_table.specs.Held.{model_of};
ghost use Rattle.meaning.specs.Inner.Slots.{slot, proper_at, proper_bounds};
ghost use Rattle.zone_bounds.specs.Narrowed.{Workable, Narrows};

use crate::narrowing::{narrow, within};
use crate::numbers::less;
use bounds::Matrix;
use home::{sum_ahead, sum_at};
use model_table::{ModelTable, clocks, deadline, work};

// Of the job of a task whose running sum is variable s, behind the running sum in variable a.
fn proper_job(model: &ModelTable, m: Matrix, task: u32, a: usize, s: usize) -> Option<Matrix>
    requires a_bound { (a < 17) × (s < 16) }
    requires workable { Workable m }
    ensures { Narrows (proper_at (model_of model.now) a (slot task s (suc s))) (Some m) result }
{
    let c = less(work(model.cells, task), 1);
    let d = less(deadline(model.cells, task), 1);
    let ordered = within(m, a, s, 0);
    let worked = narrow(ordered, s, a, c);
    narrow(worked, s + 1, 0, d)
}

// Of each job of a queue order, from the head on.
pub(crate) fn proper(model: &ModelTable, m: Matrix, order: &[u32]) -> Option<Matrix>
    requires order_length { length order.now ≤ 6 }
    requires workable { Workable m }
    ensures { Narrows (proper_bounds (model_of model.now) order.now) (Some m) result }
{
    let n = clocks(model.cells) as usize;
    let mut r = m;
    for (k, &task) in order.iter().enumerate() {
        r = proper_job(model, r, task, sum_ahead(n, k), sum_at(n, k))?;
    }
    Some(r)
}
