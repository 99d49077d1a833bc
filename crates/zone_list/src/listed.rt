// Whether a step is in the list.
ghost use Rattle.std.specs.Prelude.{◌≡◌, true, ◌↔◌, ◌≤◌, length};
ghost use mathlib.Core.List.{Memᴰ};
ghost use Rattle.meaning.specs.Zones.Steps.{by_edge};
ghost use Rattle.model_table.specs.Held as T;
ghost use Rattle.home.specs.Stands.{home_of, RightHome};
ghost use Rattle.zone_list.specs.Listing.{model_of, place_of};
ghost use Rattle.zone_list.specs.Steps.{PlainTick, step_of, Formed, list_at, Listed};
ghost use Rattle.zone_list.specs.Chosen.{Numbered, CellIs, jobs_ahead};

use crate::listing::Listing;
use crate::{Kind, Positions, Step};
use home::{Home, released_by};
use model_table::ModelTable;

// May a step of this kind have so many positions? A tick has none.
fn may_have(kind: Kind, count: u32) -> bool
    ensures { (result ≡ true) ↔ PlainTick kind count }
{
    match kind {
        Kind::GoOn | Kind::Finish => count == 0,
        Kind::Edge(_) => true,
    }
}

// A position is numbered from 1, and an unused cell is 0.
fn is_cell(used: bool, position: u32) -> bool
    ensures { (result ≡ true) ↔ CellIs used position }
{
    used == (0 < position)
}

// Are the first positions numbered from 1, and the unused cells 0?
fn are_numbered(positions: Positions, count: usize) -> bool
    requires { count ≤ 4 }
    ensures { (result ≡ true) ↔ Numbered count positions }
{
    positions
        .iter()
        .enumerate()
        .all(|(k, &position)| is_cell(k < count, position))
}

// Has the step its one form?
fn is_formed(step: Step) -> bool
    ensures { (result ≡ true) ↔ Formed step }
{
    step.count <= 4
        && may_have(step.kind, step.count)
        && are_numbered(step.positions, step.count as usize)
}

impl Listing<'_> {
    // Is the edge with these positions in the list?
    fn has_edge(&self, edge: u32, positions: &[u32]) -> bool
        requires { length positions.now ≤ 4 }
        ensures { (result ≡ true) ↔ Memᴰ (by_edge edge (jobs_ahead positions.now)) (list_at (model_of self.now) (place_of self.now)) }
    {
        if !home::leaves(&self.table, edge, self.home.location) {
            return false;
        }
        if self.releases_over(edge) {
            return positions.is_empty();
        }
        let releases = released_by(&self.table, edge);
        self.is_choice(releases.list(), positions)
    }

    // Is a step that has its form in the list?
    fn has_formed(&self, step: Step) -> bool
        requires { step.count ≤ 4 }
        ensures { (result ≡ true) ↔ Memᴰ (step_of step) (list_at (model_of self.now) (place_of self.now)) }
    {
        match step.kind {
            Kind::GoOn | Kind::Finish => true,
            Kind::Edge(edge) => self.has_edge(edge, &step.positions[..step.count as usize]),
        }
    }
}

// Is the step in the list? A step in another form is not.
pub fn has(model: &ModelTable, home: Home, step: Step) -> bool
    requires right_home { RightHome (T.model_of model.now) home }
    ensures { (result ≡ true) ↔ Listed (T.model_of model.now) (home_of home) step }
{
    is_formed(step) && Listing::new(model, home).has_formed(step)
}
