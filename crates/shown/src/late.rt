// The first position at which a job can be late.
ghost use Rattle.meaning.specs.Zones.Zone.{Zone};
ghost use Rattle.meaning.specs.Zones.Steps.{Step};
ghost use Rattle.model_table.specs.Held.{model_of};
ghost use Rattle.shown.specs.Drawn.{Drawn, DrawnBy, FirstLate};

use bounds::{Matrix, reached};
use home::sum_at;
use model_table::{ModelTable, clocks, deadline};
use step_reach::Plan;

// The first position of the queue after the step at which some state shown has a job whose age is D;
// none where there is no such job.
#[tactic(auto, using(zone_bounds::proofs::LoopLaws::clocks_small, model_table::proofs::PartLaws::deadline_small))]
pub fn first_late(model: &ModelTable, m: &Matrix, plan: Plan) -> Option<u32>
    requires { DrawnBy (model_of model.now) m.now plan }
    ensures { (z : Zone) (st : Step) → Drawn (model_of model.now) z st m.now plan → FirstLate (model_of model.now) z st result }
{
    let n = clocks(model.cells) as usize;
    let tasks = plan.home.tasks;
    // by its place, since the age that is read goes by it too
    for k in 0..plan.home.count as usize {
        let age = reached(m, &plan.from, &plan.off, sum_at(n, k) + 1, 0);
        let d = deadline(model.cells, tasks[k]) as i32;
        if d <= age {
            return Some(k as u32 + 1);
        }
    }
    None
}
