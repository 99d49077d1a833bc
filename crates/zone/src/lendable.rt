// Which zones may be lent: any other is refusal 13.
ghost use Rattle.std.specs.Prelude.{◌≡◌, ◌↔◌, true};
ghost use Rattle.model_table.specs.Held.{model_of};
ghost use Rattle.zone.specs.Stands.{Lendable};

use crate::Zone;
use crate::entries::right_entries;
use home::{is_home, variables};
use model_table::ModelTable;

// Is it a zone of the model, with bounds of its variables between -32,000 and 32,000, and unused cells 0?
pub fn is_zone(model: &ModelTable, zone: Zone) -> bool
    ensures { (result ≡ true) ↔ Lendable (model_of model.now) zone }
{
    let home = zone.home;
    is_home(model, home) && right_entries(&zone.bounds, variables(model, home.count as usize))
}
