// The smallest of the states that a step shows, and of those in which two variables are so far apart.
ghost use Rattle.std.specs.Prelude.{◌<◌};
ghost use Rattle.meaning.specs.Zones.Zone.{Zone};
ghost use Rattle.meaning.specs.Zones.Steps.{Step};
ghost use Rattle.model_table.specs.Held.{model_of};
ghost use Rattle.bounds.specs.Matrix.{Size};
ghost use Rattle.shown.specs.Drawn.{Drawn, DrawnBy, ApartBy, SmallestIs, SmallestApart};

use crate::state::shown_state;
use bounds::{Matrix, least};
use machine::State;
use model_table::ModelTable;
use step_reach::Plan;
use zone_bounds::within;

// The smallest of all.
pub fn smallest(model: &ModelTable, m: &Matrix, plan: Plan) -> State
    requires { DrawnBy (model_of model.now) m.now plan }
    ensures { (z : Zone) (st : Step) → Drawn (model_of model.now) z st m.now plan → SmallestIs (model_of model.now) z st result }
{
    shown_state(model, plan, least(m, 17))
}

// The smallest of those in which variable i is at least c above variable j, after the step.
pub fn smallest_apart(
    model: &ModelTable,
    m: &Matrix,
    plan: Plan,
    i: usize,
    j: usize,
    c: i32,
) -> State
    requires i_lt_variables { (i < plan.variables) × (j < plan.variables) }
    requires size { Size c 100000 }
    requires apart_by { ApartBy (model_of model.now) m.now plan i j c }
    ensures { (z : Zone) (st : Step) → Drawn (model_of model.now) z st m.now plan → SmallestApart (model_of model.now) z st i j c result }
{
    let more = plan.off[i] - plan.off[j] - c;
    let apart = within(*m, plan.from[j], plan.from[i], more).unwrap();
    shown_state(model, plan, least(&apart, 17))
}
