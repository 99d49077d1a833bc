// A location with a queue order as it is lent: of the model, and unused cells 0; and whether two are one.
ghost use Rattle.std.specs.Prelude.{◌≡◌, ◌↔◌, true, ◌≤◌, length, drop};
ghost use Rattle.model_table.specs.Held.{model_of};
ghost use Rattle.home.specs.Stands.{home_of, RightHome};
ghost use Rattle.home.specs.ByCell.{all_of, all_zero, RightCells};

use crate::queue::fits;
use crate::{Home, Tasks};
use model_table::ModelTable;

// Is each task of the queue order one of the model?
#[tactic(auto, using(model_table::proofs::PartLaws::tasks_is))]
fn are_known(model: &ModelTable, tasks: &[u32]) -> bool
    ensures { result ≡ all_of (length (model_of model.now).tasks) tasks.now }
{
    let known = model_table::tasks(model.cells);
    tasks.iter().all(|task| 0 < *task && *task <= known)
}

// Are the cells behind the first n 0?
fn unused(tasks: Tasks, n: usize) -> bool
    requires { n ≤ 6 }
    ensures { result ≡ all_zero (drop n tasks) }
{
    (n..6).all(|k| tasks[k] == 0)
}

// Is the queue order of tasks of the model, fit to be a queue, and unused cells 0?
fn is_order(model: &ModelTable, home: Home) -> bool
    requires count_bound { home.count ≤ 6 }
    ensures { (result ≡ true) ↔ RightCells (model_of model.now) home.tasks home.count }
{
    let order = home.order();
    are_known(model, order) && fits(model, order) && unused(home.tasks, home.count as usize)
}

// Are the location and the queue order of the model, and unused cells 0?
pub fn is_home(model: &ModelTable, home: Home) -> bool
    ensures { (result ≡ true) ↔ RightHome (model_of model.now) home }
{
    1 <= home.location
        && home.location <= model_table::locations(model.cells)
        && home.count <= 6
        && is_order(model, home)
}

// Are the two one location with one queue order?
pub fn same_home(a: Home, b: Home) -> bool
    requires { (a.count ≤ 6) × (b.count ≤ 6) }
    ensures { (result ≡ true) ↔ (home_of a ≡ home_of b) }
{
    a.location == b.location && a.order() == b.order()
}
