// The step at a place of the list.
ghost use Rattle.std.specs.Prelude.{◌≡◌, ◌≤◌, ◌<◌, length};
ghost use Rattle.meaning.specs.Zones.Steps.{places};
ghost use Rattle.model_table.specs.Held as T;
ghost use Rattle.home.specs.Stands.{order_of, home_of, RightHome};
ghost use Rattle.home.specs.Asked.{released_by};
ghost use Rattle.zone_list.specs.Listing.{model_of, place_of};
ghost use Rattle.zone_list.specs.Steps.{list_at, StepAt};
ghost use Rattle.zone_list.specs.Placed.{bare_step, EdgeStep};

use crate::listing::Listing;
use crate::{Kind, Step};
use home::{Home, released_by};
use model_table::ModelTable;

// A step without a position.
fn bare(kind: Kind) -> Step
    ensures { result ≡ bare_step kind }
{
    Step {
        kind,
        positions: [0; 4],
        count: 0,
    }
}

impl Listing<'_> {
    // The step of an edge at its place with `rest` before it; releases that overflow have no position.
    fn edge_step(&self, edge: u32, rest: usize) -> Step
        requires { rest < length (places (model_of self.now) (released_by (model_of self.now) edge) (order_of self.now.home)) }
        ensures { EdgeStep (model_of self.now) (place_of self.now) edge rest result }
    {
        if self.releases_over(edge) {
            return bare(Kind::Edge(edge));
        }
        let releases = released_by(&self.table, edge);
        Step {
            kind: Kind::Edge(edge),
            positions: self.choice_at(releases.list(), rest),
            count: releases.count,
        }
    }
}

// The step at place x of the list.
pub fn step_at(model: &ModelTable, home: Home, x: usize) -> Step
    requires right_home { RightHome (T.model_of model.now) home }
    requires le_x { (1 ≤ x) × (x ≤ length (list_at (T.model_of model.now) (home_of home))) }
    ensures { StepAt (T.model_of model.now) (home_of home) x result }
{
    match x {
        1 => bare(Kind::GoOn),
        2 => bare(Kind::Finish),
        _ => {
            let listing = Listing::new(model, home);
            // no claim is looked at
            let found = listing.walk(&[], 0, x).found.unwrap();
            listing.edge_step(found.edge, found.rest)
        }
    }
}
