// The matrix of a zone's states.
ghost use Rattle.std.specs.Prelude.{◌≤◌};
ghost use Rattle.meaning.specs.Inner.Slots.{zone_bounds};
ghost use Rattle.model_table.specs.Held.{model_of};
ghost use Rattle.zone_bounds.specs.Entries.{zone_with, Takable};
ghost use Rattle.zone_bounds.specs.Narrowed.{Narrowed};

use crate::Entries;
use crate::properness::proper;
use crate::written::written;
use bounds::{Matrix, top};
use home::Home;
use model_table::ModelTable;

// The states of a zone of this location and queue order: properness, and the bounds that are
// written. None where the zone has no state.
pub fn zone_matrix(model: &ModelTable, home: Home, bounds: Entries) -> Option<Matrix>
    requires count_bound { home.count ≤ 6 }
    requires takable { Takable bounds }
    ensures { Narrowed (zone_bounds (model_of model.now) (zone_with home bounds)) result }
{
    let jobs = proper(model, top(), home.order())?;
    written(jobs, bounds)
}
