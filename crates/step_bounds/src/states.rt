// Of the states in a matrix, those that take a step of the list.
ghost use Rattle.std.specs.Prelude.{Some, IfSome};
ghost use Rattle.meaning.specs.Zones.Steps.{by_edge};
ghost use Rattle.meaning.specs.Inner.StepBounds.{step_bounds};
ghost use Rattle.model_table.specs.Held as T;
ghost use Rattle.home.specs.Stands.{home_of, RightHome};
ghost use Rattle.zone_list.specs.Steps.{ahead_of, step_of, Listed};
ghost use Rattle.zone_bounds.specs.Narrowed.{Workable, Narrows};
ghost use Rattle.step_bounds.specs.Places.{EdgeIn};
ghost use Rattle.step_bounds.specs.Stepping.{model_of};

use crate::stepping::Stepping;
use bounds::Matrix;
use home::{Home, overflows, released_by};
use model_table::ModelTable;
use zone_list::{Kind, Step, ahead_of};

impl Stepping<'_> {
    // Those that take the edge with the step's positions: the guard, and the places of what is released; an overflow asks for the guard alone.
    fn edge_matrix(self, edge: u32, step: Step, m: Matrix) -> Option<Matrix>
        requires edge_in { EdgeIn (model_of self) (home_of self.home) edge step }
        requires workable { Workable m }
        ensures { Narrows (step_bounds (model_of self.entry) (home_of self.entry.home) (by_edge edge (ahead_of step))) (Some m) result }
    {
        let releases = released_by(&self.model, edge);
        let r = self.guard(m, edge)?;
        if overflows(&self.model, releases.list(), self.home.order()) {
            return Some(r);
        }
        self.placed(r, releases, ahead_of(step))
    }
}

// Those that take the step: limits and the head, or an edge. None where no state takes it, or none is in the matrix already.
pub fn step_matrix(model: &ModelTable, home: Home, step: Step, t: Option<Matrix>) -> Option<Matrix>
    requires right_home { RightHome (T.model_of model.now) home }
    requires listed { Listed (T.model_of model.now) (home_of home) step }
    requires workable { IfSome t Workable }
    ensures { Narrows (step_bounds (T.model_of model.now) (home_of home) (step_of step)) t result }
{
    let m = t?;
    let stepping = Stepping {
        model: *model,
        home,
    };
    match step.kind {
        Kind::GoOn => stepping.head_goes_on(stepping.limits(m)?),
        Kind::Finish => stepping.head_finishes(stepping.limits(m)?),
        Kind::Edge(edge) => stepping.edge_matrix(edge, step, m),
    }
}
