// What one edge adds to the list: whether its releases overflow, and how many places it has.
ghost use Rattle.std.specs.Prelude.{◌≡◌};
ghost use Rattle.meaning.specs.Machine.Release.{overflows_any};
ghost use Rattle.meaning.specs.Inner.Sources.{step_overflows};
ghost use Rattle.model_table.specs.Held as T;
ghost use Rattle.home.specs.Stands.{order_of, home_of, RightHome};
ghost use Rattle.home.specs.Asked.{released_by};
ghost use Rattle.zone_list.specs.Listing.{model_of, place_of};
ghost use Rattle.zone_list.specs.Steps.{step_of};
ghost use Rattle.zone_list.specs.Counted.{ShareIs};

use crate::listing::Listing;
use crate::queue::Queue;
use crate::{Kind, Step};
use home::{Home, released_by};
use model_table::ModelTable;

// What an edge adds to the list: how many places, and whether the claim of the first has to be 0. It has places either way: no flag.
#[derive(Clone, Copy)]
pub(crate) struct Share {
    pub places: usize,
    pub zero: bool,
}

impl Listing<'_> {
    // Do the edge's releases, one after the other, overflow the queue?
    pub(crate) fn releases_over(&self, edge: u32) -> bool
        ensures { result ≡ overflows_any (model_of self.now) (released_by (model_of self.now) edge) (order_of self.now.home) }
    {
        let releases = released_by(&self.table, edge);
        home::overflows(&self.table, releases.list(), self.home.order())
    }

    // What the edge adds to the list: nothing unless it leaves the location.
    pub(crate) fn share_of(&self, edge: u32) -> Share
        ensures { ShareIs (model_of self.now) (place_of self.now) edge result }
    {
        if !home::leaves(&self.table, edge, self.home.location) {
            return Share {
                places: 0,
                zero: false,
            };
        }
        if self.releases_over(edge) {
            return Share {
                places: 1,
                zero: true,
            };
        }
        let releases = released_by(&self.table, edge);
        Share {
            places: self.choices(releases.list(), &Queue::of(self.home)),
            zero: false,
        }
    }
}

// Does the step overflow the queue? A tick never does.
pub fn overflows(model: &ModelTable, home: Home, step: Step) -> bool
    requires right_home { RightHome (T.model_of model.now) home }
    ensures { result ≡ step_overflows (T.model_of model.now) (home_of home) (step_of step) }
{
    match step.kind {
        Kind::GoOn | Kind::Finish => false,
        Kind::Edge(edge) => Listing::new(model, home).releases_over(edge),
    }
}
