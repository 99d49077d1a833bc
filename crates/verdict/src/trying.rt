// The obligations of a zone, place by place.
ghost use Rattle.std.specs.Prelude.{◌-◌, ◌≤◌};
ghost use Rattle.meaning.specs.Check.Obligations.{Obligation};
ghost use Rattle.meaning.specs.Text.ProposalReader as reader;
ghost use Rattle.meaning.specs.Text.ProposalTable as table;
ghost use Rattle.model_table.specs.Held.{model_of};
ghost use Rattle.zone_table.specs.Read.{claims_at};
ghost use Rattle.zone_table.specs.Sound.{zones_in};
ghost use Rattle.verdict.specs.Judged.{AtPlace, ClosedOf, Judged, ZoneTried};

use crate::answer::{Failure, Found};
use crate::judge::judge;
use bounds::Matrix;
use home::Home;
use model_table::ModelTable;
use zone_bounds::zone_matrix;
use zone_list::step_at;
use zone_table::{claim, claims, zone_at};

// The obligation at place x of zone n. Its claim may be the zone itself: it is tried like any other.
fn try_place(
    model: &ModelTable,
    zones: &[u32],
    n: u32,
    home: Home,
    closed: Option<Matrix>,
    x: u32,
) -> Option<Found>
    requires given { reader.Given (model_of model.now) zones.now × (1 ≤ n) × (n ≤ zones_in zones.now) }
    requires closed_of { ClosedOf (model_of model.now) (table.zone_in zones.now (n - 1)) home closed }
    requires le_x { (1 ≤ x) × (x ≤ claims_at zones.now n) }
    ensures { (o : Obligation) → AtPlace (model_of model.now) n (table.zone_in zones.now (n - 1)) x o → Judged (model_of model.now) (table.decode zones.now) o result }
{
    let step = step_at(model, home, x as usize);
    let claimed = claim(zones, n, x);
    judge(model, zones, home, closed, step, claimed)
}

// All of them, up to the first that fails: how many they are. `before` obligations were tried before these. The
// zone's matrix is closed once for all its steps; a zone without a state has none, and goes the same way.
pub(crate) fn try_zone(
    model: &ModelTable,
    zones: &[u32],
    n: u32,
    before: u32,
) -> Result<u32, Failure>
    requires given { reader.Given (model_of model.now) zones.now × (1 ≤ n) × (n ≤ zones_in zones.now) }
    requires before_bound { before ≤ 2000000 }
    ensures { ZoneTried (model_of model.now) (table.decode zones.now) n (table.zone_in zones.now (n - 1)) before result }
{
    let zone = zone_at(zones, n);
    let home = zone.home;
    let bounds = zone.bounds;
    let closed = zone_matrix(model, home, bounds);
    let mut number = 0;
    for x in 1..=claims(zones, n) {
        number += 1;
        if let Some(found) = try_place(model, zones, n, home, closed, x) {
            return Err(found.of(before + number, n, x));
        }
    }
    Ok(number)
}
