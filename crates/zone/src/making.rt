// The zones that are made: the widest of a location and queue, and the one of exactly one state.
ghost use Rattle.model_table.specs.Held.{model_of};
ghost use Rattle.machine.specs.Stands as S;
ghost use Rattle.home.specs.Stands.{RightHome};
ghost use Rattle.zone.specs.Promise.{WidestZone, ExactZone};
ghost use Rattle.meaning.specs.Model.{Model};

use crate::Zone;
use crate::exact::{alike, of_clocks, with_jobs};
use home::Home;
use machine::{State, tasks_of};
use model_table::ModelTable;

// The widest zone of a location and queue: it has no bounds.
pub(crate) fn widest_zone(home: Home) -> Zone
    ensures { (m : Model) → RightHome m home → WidestZone m home result }
{
    Zone {
        home,
        bounds: alike(Zone::NO_BOUND),
    }
}

// The zone that holds exactly the given state.
#[tactic(auto, using(crate::proofs::StateLaws::table_clocks))]
pub(crate) fn exact_zone(model: &ModelTable, state: State) -> Zone
    requires { S.Lendable (model_of model.now) state }
    ensures { ExactZone (model_of model.now) (S.state_of (model_of model.now) state) result }
{
    let clocks = &state.clocks[..model_table::clocks(model.cells) as usize];
    let jobs = &state.jobs[..state.count as usize];
    let bounds = with_jobs(of_clocks(clocks), clocks.len(), jobs);
    let home = Home {
        location: state.location,
        tasks: tasks_of(state.jobs),
        count: state.count,
    };
    Zone { home, bounds }
}
