// The slots of a queue order.
ghost use Rattle.std.specs.Prelude.{◌≤◌};
ghost use Rattle.meaning.specs.Inner.Slots.{slots_of};
ghost use Rattle.model_table.specs.Held.{model_of};
ghost use Rattle.home.specs.Stands.{order_of};
ghost use Rattle.slots.specs.Stands.{Stand};

use crate::standing::{Slot, Slots};
use home::Home;
use model_table::ModelTable;

// Each job has two variables, behind those of the jobs ahead of it; all are behind the clocks.
pub fn slots_of(model: &ModelTable, home: Home) -> Slots
    requires count_bound { home.count ≤ 6 }
    ensures { Stand (slots_of (model_of model.now) (order_of home)) result }
{
    let clocks = model_table::clocks(model.cells) as usize;
    let mut slots = [Slot::NONE; 6];
    for (k, task) in home.order().iter().enumerate() {
        let sum = home::sum_at(clocks, k);
        slots[k] = Slot {
            task: *task,
            sum,
            age: sum + 1,
        };
    }
    Slots {
        slots,
        count: home.count as usize,
    }
}
