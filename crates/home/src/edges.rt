// An edge by its number, as a location's rules ask of it: whether it leaves the location, its target, and what it releases.
ghost use Rattle.std.specs.Prelude.{◌≡◌, []};
ghost use Rattle.meaning.specs.Model.{location_at, releases, released_at_start};
ghost use Rattle.model_table.specs.Held.{model_of};
ghost use Rattle.home.specs.Stands.{Lists};
ghost use Rattle.home.specs.Asked.{leaves_by, target_by, released_by};
ghost use Rattle.home.specs.ByCell.{Named};

use crate::Releases;
use model_table::ModelTable;

// Is there an edge with this number? One that is there leaves a location, and these are numbered from 1: so no edge is counted.
#[tactic(auto, using(model_table::proofs::PartLaws::edge_from, model_table::proofs::PartLaws::edge_from_no))]
fn is_edge(model: &ModelTable, edge: u32) -> bool
    ensures { Named model.now.cells.now edge result }
{
    0 < model_table::from(model.cells, edge)
}

// Does the edge leave the location?
#[tactic(auto, using(crate::proofs::EdgeLaws::leaves_some))]
pub fn leaves(model: &ModelTable, edge: u32, location: u32) -> bool
    ensures { result ≡ leaves_by (model_of model.now) edge location }
{
    is_edge(model, edge) && model_table::from(model.cells, edge) == location
}

// The target of the edge from the location; 0: there is no such edge.
#[tactic(auto, using(crate::proofs::EdgeLaws::target_some))]
pub fn target(model: &ModelTable, edge: u32, location: u32) -> u32
    ensures { result ≡ target_by (model_of model.now) edge location }
{
    if is_edge(model, edge) {
        model_table::to(model.cells, edge)
    } else {
        0
    }
}

// No release.
fn nothing() -> Releases
    ensures { Lists [] result }
{
    Releases {
        tasks: [0; 4],
        count: 0,
    }
}

// What entering a location releases.
fn entering(model: &ModelTable, location: u32) -> Releases
    ensures { Lists (releases (location_at (model_of model.now) location)) result }
{
    match model_table::released(model.cells, location) {
        0 => nothing(),
        task => Releases {
            tasks: [task, 0, 0, 0],
            count: 1,
        },
    }
}

// What the edge releases.
#[tactic(auto, using(crate::proofs::EdgeLaws::released_some, crate::proofs::EdgeLaws::lists_same))]
pub fn released_by(model: &ModelTable, edge: u32) -> Releases
    ensures { Lists (released_by (model_of model.now) edge) result }
{
    if is_edge(model, edge) {
        entering(model, model_table::to(model.cells, edge))
    } else {
        nothing()
    }
}

// What is released at the start.
#[tactic(auto, using(meaning::proofs::Hooks::released_at_start_is, crate::proofs::EdgeLaws::lists_same))]
pub fn start_releases(model: &ModelTable) -> Releases
    ensures { Lists (released_at_start (model_of model.now)) result }
{
    entering(model, 1)
}
