// How many zones a proposal's table has, and how many tasks a zone's queue.
ghost use Rattle.std.specs.Prelude.{◌≡◌, ◌-◌, ◌≤◌};
ghost use Rattle.zone_table.specs.Sound.{zones_in, queue_in};

use crate::sizes::{HEAD, ZONES_MOST};
use crate::starts::head_start;
use model_table::count_from;
use zone::Zone;

// How many zones.
pub fn zones(zones: &[u32]) -> u32
    ensures { (result ≡ zones_in zones.now) × (result ≤ 48) }
{
    count_from(zones, 0, HEAD, ZONES_MOST)
}

// How many tasks the queue of a zone has.
pub(crate) fn queued(zones: &[u32], zone: u32) -> u32
    requires { (1 ≤ zone) × (zone ≤ 48) }
    ensures { (result ≡ queue_in zones.now (zone - 1)) × (result ≤ 6) }
{
    count_from(zones, head_start(zone) + 1, 1, Zone::QUEUE as u32)
}
