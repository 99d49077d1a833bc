// One obligation of a zone: it holds, or it fails with the first kind that applies.
ghost use Rattle.std.specs.Prelude.{ℕ, ◌≤◌};
ghost use Rattle.meaning.specs.Zones.Zone.{Zone};
ghost use Rattle.meaning.specs.Text.ProposalReader as reader;
ghost use Rattle.meaning.specs.Text.ProposalTable as table;
ghost use Rattle.model_table.specs.Held.{model_of};
ghost use Rattle.home.specs.Stands.{home_of};
ghost use Rattle.zone_list.specs.Steps.{step_of, Listed};
ghost use Rattle.zone_table.specs.Sound.{zones_in};
ghost use Rattle.verdict.specs.Judged.{following, ClosedOf, ClosedBy, Judged};

use crate::answer::Found;
use crate::kinds::by_kind;
use bounds::Matrix;
use home::Home;
use model_table::ModelTable;
use step_bounds::step_matrix;
use step_reach::plan_of;
use zone_list::Step;

// The obligation of a step of the list of a zone of this location and queue order, with its claim. `closed` is
// the zone's matrix, which all its steps share. Where no state takes the step, it holds.
pub(crate) fn judge(
    model: &ModelTable,
    zones: &[u32],
    home: Home,
    closed: Option<Matrix>,
    step: Step,
    claim: u32,
) -> Option<Found>
    requires given { reader.Given (model_of model.now) zones.now × (claim ≤ zones_in zones.now) }
    requires closed_by { ClosedBy (model_of model.now) home closed }
    requires listed { Listed (model_of model.now) (home_of home) step }
    ensures { (n x : ℕ) (z : Zone) → ClosedOf (model_of model.now) z home closed → Judged (model_of model.now) (table.decode zones.now) (following n x z (step_of step) claim) result }
{
    let m = step_matrix(model, home, step, closed)?;
    let plan = plan_of(model, home, step);
    by_kind(model, zones, home, &m, plan, step, claim)
}
