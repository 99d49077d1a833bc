// How long the text of a proposal's table is, line by line: apart from its writer, since the test of a table has no buffer to write into.
ghost use Rattle.std.specs.Prelude.{◌≡◌, [], map, ℕ, ◌+◌, ◌-◌, ◌*◌, ◌≤◌, ltb, length, get_or};
ghost use Rattle.meaning.specs.Text.Choice.{pick};
ghost use Rattle.meaning.specs.Text.Numerals.{dec};
ghost use Rattle.meaning.specs.Text.Lines.{kept_text};
ghost use Rattle.meaning.specs.Text.ModelText.{texts};
ghost use Rattle.meaning.specs.Text.ModelTable.{there};
ghost use Rattle.meaning.specs.Text.ModelReader.{words};
ghost use Rattle.meaning.specs.Text.ProposalTable.{zone_slot, pool_start, order_in, bounds_in, zone_in, decode};
ghost use Rattle.meaning.specs.Text.ProposalText.{order_text, bound_text, claims_text, zone_text, proposal_text};
ghost use Rattle.zone_table.specs.Kept.{field_text, kept_bound};

use crate::pool::claims;
use crate::sizes::{BOUND_MOST, BOUNDS, ZONES_MOST};
use crate::starts::{POOL_START, bounds_start, claims_start, head_start};
use model_table::{cell, less_one};
use zone::Zone;

// How many digits a number has.
fn digits(v: u32) -> usize
    ensures { (result ≡ length (dec v)) × (result ≤ 6) }
{
    match v {
        0..=9 => 1,
        10..=99 => 2,
        100..=999 => 3,
        1000..=9999 => 4,
        10000..=99999 => 5,
        _ => 6,
    }
}

// A number that is kept with `below` added.
fn kept_length(below: u32, v: u32) -> usize
    ensures { (result ≡ length (kept_text below v)) × (result ≤ 7) }
{
    if v < below {
        1 + digits(below - v)
    } else {
        digits(v - below)
    }
}

// A task's field, where its cell has something.
fn task_length(v: u32) -> usize
    ensures { (result ≡ length (pick (ltb 0 v) (field_text (v - 1)) [])) × (result ≤ 8) }
{
    if 0 < v { 1 + kept_length(0, v - 1) } else { 0 }
}

// The line of a zone's location and tasks.
fn order_length(zones: &[u32], zone: u32) -> usize
    requires { (1 ≤ zone) × (zone ≤ 48) }
    ensures { (result ≡ length (order_text (get_or zones.now (zone_slot (zone - 1)) 0 - 1) (order_in zones.now (zone - 1)))) × (result ≤ 59) }
{
    let from = head_start(zone);
    let mut n = 4 + kept_length(0, less_one(cell(zones, from)));
    for x in 0..Zone::QUEUE {
        n += task_length(cell(zones, from + 1 + x));
    }
    n
}

// The line of a bound, where its cell has something.
fn bound_length(i: u32, j: u32, v: u32) -> usize
    ensures { (result ≡ length (pick (ltb 0 v) (bound_text (kept_bound i j (v - 1))) [])) × (result ≤ 27) }
{
    if 0 < v {
        6 + kept_length(0, i) + kept_length(0, j) + kept_length(BOUND_MOST, v - 1)
    } else {
        0
    }
}

// The lines of a zone's bounds.
fn bounds_length(zones: &[u32], zone: u32) -> usize
    requires { (1 ≤ zone) × (zone ≤ 48) }
    ensures { (result ≡ length (texts bound_text (bounds_in zones.now (zone - 1)))) × (result ≤ 27 * 289) }
{
    let from = bounds_start(zone);
    let mut n: usize = 0;
    for x in 0..BOUNDS {
        let v = cell(zones, from + x);
        n += bound_length(
            (x / Zone::VARIABLES) as u32,
            (x % Zone::VARIABLES) as u32,
            v,
        );
    }
    n
}

// The line of n claims that stand in the pool from `from` on.
fn claims_length(zones: &[u32], from: u32, n: u32) -> usize
    ensures { (result ≡ length (claims_text (map (λ (x : ℕ). x - 1) (words zones.now (pool_start + from) n)))) × (result ≤ 3 + 8 * n) }
{
    let mut length: usize = 3;
    for x in 0..n {
        let v = cell(zones, POOL_START + (from as usize) + (x as usize));
        length += 1 + kept_length(0, less_one(v));
    }
    length
}

// The lines of a zone, where there is one.
fn zone_length(zones: &[u32], zone: u32) -> usize
    requires { (1 ≤ zone) × (zone ≤ 48) }
    ensures { (result ≡ length (pick (there zones.now (zone_slot (zone - 1))) (zone_text (zone_in zones.now (zone - 1))) [])) × (result ≤ 34359800000) }
{
    if cell(zones, head_start(zone)) == 0 {
        return 0;
    }
    let from = claims_start(zones, zone);
    let n = claims(zones, zone);
    order_length(zones, zone) + bounds_length(zones, zone) + claims_length(zones, from, n)
}

// The whole text.
pub fn text_length(zones: &[u32]) -> usize
    ensures { result ≡ length (proposal_text (decode zones.now)) }
{
    let mut n: usize = 0;
    for k in 0..ZONES_MOST {
        n += zone_length(zones, k + 1);
    }
    n + 3
}
