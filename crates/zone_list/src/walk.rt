// One walk over the edges: how many steps the list has, whether the claims are 0 where 0 is due, and which edge has a place.
ghost use Rattle.std.specs.Prelude.{◌≡◌, not, ◌&&◌, ◌||◌, ◌+◌, ◌-◌, ◌≤◌, ◌<◌, eqb};
ghost use Rattle.meaning.specs.Text.ProposalTable.{size};
ghost use Rattle.model_table.specs.Held as T;
ghost use Rattle.home.specs.Stands.{home_of, RightHome};
ghost use Rattle.zone_list.specs.Listing.{model_of, place_of};
ghost use Rattle.zone_list.specs.Counted.{FoundBy, WalkIs, StepsAre};

use crate::Steps;
use crate::listing::Listing;
use home::Home;
use model_table::{ModelTable, cell, edges};

// The edge that has a place, and how many of the edge's places are before it.
#[derive(Clone, Copy)]
pub(crate) struct Found {
    pub edge: u32,
    pub rest: usize,
}

// What a walk finds; the place may be none of the list's.
#[derive(Clone, Copy)]
pub(crate) struct Walked {
    pub many: usize,
    pub zeros: bool,
    pub found: Option<Found>,
}

// Did it hold so far, and is a claim that is kept so 0 if it has to be?
fn held(sofar: bool, due: bool, kept: u32) -> bool
    ensures { result ≡ (sofar && (not due || eqb (kept - 1) 0)) }
{
    sofar && (!due || kept <= 1)
}

// What has place x, with one edge more, whose places come behind so many others.
fn found_by(sofar: Option<Found>, edge: u32, many: usize, places: usize, x: usize) -> Option<Found>
    requires { many + places ≤ 100000 }
    ensures { FoundBy sofar edge many places x result }
{
    if many < x && x <= many + places {
        Some(Found {
            edge,
            rest: x - many - 1,
        })
    } else {
        sofar
    }
}

impl Listing<'_> {
    // The steps of the list, with claims kept from cell `at` on, and what has place x.
    pub(crate) fn walk(&self, claims: &[u32], at: usize, x: usize) -> Walked
        requires { at ≤ size }
        ensures { WalkIs (model_of self.now) (place_of self.now) claims.now at x result }
    {
        let mut many = 2;
        let mut zeros = held(true, self.home.order().is_empty(), cell(claims, at + 1));
        let mut found = None;
        for edge in 1..edges(self.table.cells) + 1 {
            let share = self.share_of(edge);
            zeros = held(zeros, share.zero, cell(claims, at + many));
            found = found_by(found, edge, many, share.places, x);
            many += share.places;
        }
        Walked { many, zeros, found }
    }
}

// The steps of the list, and whether the claims that are kept from cell `at` on are 0 where 0 is due.
pub fn steps(model: &ModelTable, home: Home, claims: &[u32], at: usize) -> Steps
    requires right_home { RightHome (T.model_of model.now) home }
    requires at_le_size { at ≤ size }
    ensures { StepsAre (T.model_of model.now) (home_of home) claims.now at result }
{
    let walked = Listing::new(model, home).walk(claims, at, 0);
    Steps {
        many: walked.many,
        zeros: walked.zeros,
    }
}
