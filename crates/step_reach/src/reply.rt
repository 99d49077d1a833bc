// The reply of a zone's step.
ghost use Rattle.meaning.specs.Inner.Sources.{source_bounds};
ghost use Rattle.model_table.specs.Held.{model_of};
ghost use Rattle.home.specs.Stands.{home_of};
ghost use Rattle.zone_list.specs.Steps.{step_of, Listed};
ghost use Rattle.zone_bounds.specs.Narrowed.{Narrowed};
ghost use Rattle.zone.specs.Stands.{zone_of, Lendable};
ghost use Rattle.step_reach.specs.Replies.{RightStep};

use crate::plan::plan_of;
use bounds::{Matrix, remap};
use home::Home;
use model_table::ModelTable;
use step_bounds::step_matrix;
use zone::Zone;
use zone_bounds::zone_matrix;
use zone_list::Step;

// Whether no state takes the step; location and queue order after it; the tightest bounds, that on
// variable i minus variable j at i * 17 + j, and all 0 if no state takes it. The flag stays beside the
// bounds, since `RightReply` asks for both: "if there are none, it says so with all bounds 0".
#[derive(Clone, Copy)]
pub struct StepReply {
    pub empty: bool,
    pub home: Home,
    pub bounds: Matrix,
}

// The states of the zone that take the step, as one matrix; none where no state does.
#[tactic(auto, using(zone::proofs::LendableLaws::lent_takable))]
fn sources(model: &ModelTable, zone: Zone, step: Step) -> Option<Matrix>
    requires lent { Lendable (model_of model.now) zone }
    requires listed { Listed (model_of model.now) (home_of zone.home) step }
    ensures { Narrowed (source_bounds (model_of model.now) (zone_of zone) (step_of step)) result }
{
    let states = zone_matrix(model, zone.home, zone.bounds);
    step_matrix(model, zone.home, step, states)
}

// The step of a zone's list: the states that take it, and their variables moved.
pub(crate) fn stepped(model: &ModelTable, zone: Zone, step: Step) -> StepReply
    requires lent { Lendable (model_of model.now) zone }
    requires listed { Listed (model_of model.now) (home_of zone.home) step }
    ensures { RightStep (model_of model.now) (zone_of zone) (step_of step) result }
{
    let plan = plan_of(model, zone.home, step);
    match sources(model, zone, step) {
        None => StepReply {
            empty: true,
            home: plan.home,
            bounds: [0i32; 289],
        },
        Some(m) => StepReply {
            empty: false,
            home: plan.home,
            bounds: remap(m, plan.variables, plan.from, plan.off),
        },
    }
}
