// Whether a text gives a proposal's table: cell by cell, and by the length of its text.
ghost use Rattle.std.specs.Prelude.{◌≡◌, ◌↔◌, true, ℕ, ◌+◌, ◌-◌, ◌≤◌, ◌<◌, get_or};
ghost use Rattle.meaning.specs.Text.ModelTable.{decode};
ghost use Rattle.meaning.specs.Text.ProposalReader.{Given};
ghost use Rattle.meaning.specs.Text.ProposalTable.{bounds_slot, pool_start, pool_size};
ghost use Rattle.model_table.specs.Held.{model_of};
ghost use Rattle.model_table.specs.Right.{RightTable};
ghost use Rattle.zone_table.specs.Sound.{Empty, BoundFits, SoundOrder, SoundClaims, SoundZone, ClaimFits, SoundPool, Unused, Sound};

use crate::counts;
use crate::counts::queued;
use crate::lengths::text_length;
use crate::sizes::{BOUND_MOST, BOUNDS, HEAD, SIZE, TEXT_MOST};
use crate::starts::{BOUNDS_START, POOL_SIZE, POOL_START, bounds_start, claims_end, claims_start};
use crate::values::home_at;
use model_table::{ModelTable, cell};
use zone::Zone;

// How many claims there is room for, as the ends of claims are kept.
const POOL_MOST: u32 = POOL_SIZE as u32;

// The largest c of a bound as it is kept in its cell.
const KEPT_MOST: u32 = 2 * BOUND_MOST + 1;

// Whether n cells from `from` on are 0.
fn is_empty(zones: &[u32], from: usize, n: usize) -> bool
    requires { from + n ≤ 47023 }
    ensures { (result ≡ true) ↔ Empty zones.now from n }
{
    (0..n).all(|x| cell(zones, from + x) == 0)
}

// Whether v may stand in cell x of a zone's bounds, whose variables are 0 to last.
fn bound_fits(last: usize, x: usize, v: u32) -> bool
    ensures { (result ≡ true) ↔ BoundFits last x v }
{
    let i = x / Zone::VARIABLES;
    let j = x % Zone::VARIABLES;
    v == 0 || v <= KEPT_MOST && i <= last && j <= last && i != j
}

// Whether the cells of a zone's bounds may stand so.
fn bounds_fit(zones: &[u32], zone: u32, last: usize) -> bool
    requires { (1 ≤ zone) × (zone ≤ 48) }
    ensures { (result ≡ true) ↔ ((x : ℕ) → x < 289 → BoundFits last x (get_or zones.now (bounds_slot (zone - 1) + x) 0)) }
{
    let from = bounds_start(zone);
    (0..BOUNDS).all(|x| bound_fits(last, x, cell(zones, from + x)))
}

// Whether v may stand in a cell of the pool that a claim has, over n zones.
fn claim_fits(n: u32, v: u32) -> bool
    requires { n ≤ 48 }
    ensures { (result ≡ true) ↔ ClaimFits n v }
{
    1 <= v && v <= n + 1
}

// Whether e claims may stand in the pool so, over n zones.
fn claims_fit(zones: &[u32], n: u32, e: usize) -> bool
    requires { (n ≤ 48) × (e ≤ pool_size) }
    ensures { (result ≡ true) ↔ ((x : ℕ) → x < e → ClaimFits n (get_or zones.now (pool_start + x) 0)) }
{
    (0..e).all(|x| claim_fits(n, cell(zones, POOL_START + x)))
}

// Whether the pool holds e claims and behind them nothing, over n zones.
fn pool_fits(zones: &[u32], n: u32, e: usize) -> bool
    requires { (n ≤ 48) × (e ≤ pool_size) }
    ensures { (result ≡ true) ↔ SoundPool zones.now n e }
{
    claims_fit(zones, n, e) && is_empty(zones, POOL_START + e, POOL_SIZE - e)
}

// Whether behind n zones nothing stands.
fn is_unused(zones: &[u32], n: u32) -> bool
    requires { n ≤ 48 }
    ensures { (result ≡ true) ↔ Unused zones.now n }
{
    let heads = HEAD * (n as usize);
    let bounds = BOUNDS_START + BOUNDS * (n as usize);
    is_empty(zones, heads, BOUNDS_START - heads) && is_empty(zones, bounds, POOL_START - bounds)
}

// Whether the location and the queue of a zone may stand so.
fn order_fits(model: &ModelTable, zones: &[u32], zone: u32) -> bool
    requires { (1 ≤ zone) × (zone ≤ 48) }
    ensures { (result ≡ true) ↔ SoundOrder (model_of model.now) zones.now (zone - 1) }
{
    home::is_home(model, home_at(zones, zone))
}

// Whether its claims are where they may be, as many as its steps, and 0 where 0 is due.
fn claims_due(model: &ModelTable, zones: &[u32], zone: u32) -> bool
    requires { (1 ≤ zone) × (zone ≤ 48) × SoundOrder (model_of model.now) zones.now (zone - 1) }
    ensures { (result ≡ true) ↔ SoundClaims (model_of model.now) zones.now (zone - 1) }
{
    let from = claims_start(zones, zone);
    let to = claims_end(zones, zone);
    if to < from || POOL_MOST < to {
        return false;
    }
    let home = home_at(zones, zone);
    let s = zone_list::steps(model, home, zones, POOL_START + (from as usize));
    s.many == ((to - from) as usize) && s.zeros
}

// Whether a zone may stand so. Its table is lent as cells: the closure over it in zones_fit is not proved over a lent ModelTable.
fn zone_fits(model: &[u32], zones: &[u32], zone: u32) -> bool
    requires { RightTable model.now × (1 ≤ zone) × (zone ≤ 48) }
    ensures { (result ≡ true) ↔ SoundZone (decode model.now) zones.now (zone - 1) }
{
    let model = &ModelTable { cells: model };
    if !order_fits(model, zones, zone) {
        return false;
    }
    let n = home::variables(model, queued(zones, zone) as usize);
    bounds_fit(zones, zone, n - 1) && claims_due(model, zones, zone)
}

// Whether the first n zones may stand so.
fn zones_fit(model: &[u32], zones: &[u32], n: u32) -> bool
    requires { RightTable model.now × (n ≤ 48) }
    ensures { (result ≡ true) ↔ ((k : ℕ) → k < n → SoundZone (decode model.now) zones.now k) }
{
    (0..n).all(|k| zone_fits(model, zones, k + 1))
}

// Whether a text gives the table, but for the text's length.
fn is_sound(model: &ModelTable, zones: &[u32]) -> bool
    ensures { (result ≡ true) ↔ Sound (model_of model.now) zones.now }
{
    if zones.len() != SIZE {
        return false;
    }
    let n = counts::zones(zones);
    if n == 0 || !is_unused(zones, n) {
        return false;
    }
    zones_fit(model.cells, zones, n) && pool_fits(zones, n, claims_end(zones, n) as usize)
}

// Whether a text gives the table.
pub fn is_proposal(model: &ModelTable, zones: &[u32]) -> bool
    ensures { (result ≡ true) ↔ Given (model_of model.now) zones.now }
{
    is_sound(model, zones) && text_length(zones) <= TEXT_MOST
}
