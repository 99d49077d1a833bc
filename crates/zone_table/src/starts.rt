// Where the parts of a zone begin. Zones are numbered from 1; the number stays a plain one, since callers of the public functions have it so.
ghost use Rattle.std.specs.Prelude.{◌≡◌, ◌-◌, ◌≤◌};
ghost use Rattle.meaning.specs.Text.ProposalTable.{zone_slot, bounds_slot, start_in, end_in};

use crate::sizes::{BOUNDS, HEAD};
use model_table::cell;

// Where the bounds of the first zone begin.
pub(crate) const BOUNDS_START: usize = 384;

// Where the pool begins, which has the claims of all zones.
pub const POOL_START: usize = 14256;

// How many claims it has room for: a claim takes two bytes of a text.
pub const POOL_SIZE: usize = 32767;

// Where the head of a zone begins: its location, then its tasks, and in the last cell the end of its claims.
pub fn head_start(zone: u32) -> usize
    requires { (1 ≤ zone) × (zone ≤ 48) }
    ensures { result ≡ zone_slot (zone - 1) }
{
    HEAD * ((zone - 1) as usize)
}

// Where its bounds begin.
pub fn bounds_start(zone: u32) -> usize
    requires { (1 ≤ zone) × (zone ≤ 48) }
    ensures { result ≡ bounds_slot (zone - 1) }
{
    BOUNDS_START + BOUNDS * ((zone - 1) as usize)
}

// Where its claims end in the pool.
pub(crate) fn claims_end(zones: &[u32], zone: u32) -> u32
    requires { (1 ≤ zone) × (zone ≤ 48) }
    ensures { result ≡ end_in zones.now (zone - 1) }
{
    cell(zones, head_start(zone) + (HEAD - 1))
}

// Where they begin.
pub fn claims_start(zones: &[u32], zone: u32) -> u32
    requires { (1 ≤ zone) × (zone ≤ 48) }
    ensures { result ≡ start_in zones.now (zone - 1) }
{
    if zone == 1 {
        0
    } else {
        claims_end(zones, zone - 1)
    }
}
