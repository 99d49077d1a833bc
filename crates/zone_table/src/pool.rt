// The claims of the zones, in the pool. Zones and claims are numbered from 1.
ghost use Rattle.std.specs.Prelude.{◌≡◌, ◌+◌, ◌-◌, ◌≤◌};
ghost use Rattle.meaning.specs.Text.ProposalTable.{size};
ghost use Rattle.zone_list.specs.Counted.{numbers_in};
ghost use Rattle.zone_table.specs.Read.{claims_at, claim_at, none_above};

use crate::starts::{POOL_START, claims_end, claims_start};
use model_table::{cell, less_one};

// How many claims a zone has.
pub fn claims(zones: &[u32], zone: u32) -> u32
    requires { (1 ≤ zone) × (zone ≤ 48) }
    ensures { result ≡ claims_at zones.now zone }
{
    claims_end(zones, zone).saturating_sub(claims_start(zones, zone))
}

// Its claim x.
pub fn claim(zones: &[u32], zone: u32, x: u32) -> u32
    requires { (1 ≤ zone) × (zone ≤ 48) × (1 ≤ x) }
    ensures { result ≡ claim_at zones.now zone x }
{
    let from = claims_start(zones, zone);
    less_one(cell(zones, POOL_START + (from as usize) + ((x - 1) as usize)))
}

// Is none of the n claims that are kept from cell `from` on above the last?
pub fn up_to_last(zones: &[u32], from: usize, n: usize, last: u32) -> bool
    requires { from + n ≤ size }
    ensures { result ≡ none_above last (numbers_in zones.now from n) }
{
    (0..n).all(|k| less_one(cell(zones, from + k)) <= last)
}
