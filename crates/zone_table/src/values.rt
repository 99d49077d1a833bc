// A zone by value, and its location and queue order alone. Zones are numbered from 1.
ghost use Rattle.std.specs.Prelude.{◌≡◌, ◌-◌, ◌≤◌};
ghost use Rattle.zone_table.specs.Sound.{queue_in};
ghost use Rattle.zone_table.specs.Read.{KeptSmall, entry_of_kept, BoundsRead, TasksRead, HomeRead, ZoneRead};

use crate::counts::queued;
use crate::sizes::BOUNDS;
use crate::starts::{bounds_start, head_start};
use home::{Home, Tasks};
use model_table::{cell, less_one};
use zone::Zone;

// The first tasks of a zone, and 0 behind them.
fn tasks_of(zones: &[u32], zone: u32, len: u32) -> Tasks
    requires { (1 ≤ zone) × (zone ≤ 48) × (len ≤ 6) }
    ensures { TasksRead zones.now (zone - 1) len result }
{
    let from = head_start(zone) + 1;
    let n = len as usize;
    let mut tasks = [0; Zone::QUEUE];
    for (x, task) in tasks[..n].iter_mut().enumerate() {
        *task = less_one(cell(zones, from + x));
    }
    tasks
}

// Its location and first tasks, as a location with a queue order.
pub fn home_with(zones: &[u32], zone: u32, len: u32) -> Home
    requires { (1 ≤ zone) × (zone ≤ 48) × (len ≤ 6) }
    ensures { HomeRead zones.now (zone - 1) len result }
{
    let location = less_one(cell(zones, head_start(zone)));
    let tasks = tasks_of(zones, zone, len);
    Home {
        location,
        tasks,
        count: len,
    }
}

// Its location and queue order.
pub fn home_at(zones: &[u32], zone: u32) -> Home
    requires { (1 ≤ zone) × (zone ≤ 48) }
    ensures { HomeRead zones.now (zone - 1) (queue_in zones.now (zone - 1)) result }
{
    home_with(zones, zone, queued(zones, zone))
}

// The entry of a bound that is kept as v in its cell.
fn entry(v: u32) -> i32
    requires { v ≤ 64001 }
    ensures { result ≡ entry_of_kept v }
{
    if v == 0 {
        Zone::NO_BOUND
    } else {
        (v as i32) - (Zone::MOST + 1)
    }
}

// The bounds of a zone.
fn bounds_of(zones: &[u32], zone: u32) -> [i32; BOUNDS]
    requires { (1 ≤ zone) × (zone ≤ 48) × KeptSmall zones.now (zone - 1) }
    ensures { BoundsRead zones.now (zone - 1) result }
{
    let from = bounds_start(zone);
    let mut bounds = [Zone::NO_BOUND; BOUNDS];
    for (x, bound) in bounds.iter_mut().enumerate() {
        *bound = entry(cell(zones, from + x));
    }
    bounds
}

// A zone by value.
pub fn zone_at(zones: &[u32], zone: u32) -> Zone
    requires { (1 ≤ zone) × (zone ≤ 48) × KeptSmall zones.now (zone - 1) }
    ensures { ZoneRead zones.now zone result }
{
    let home = home_at(zones, zone);
    let bounds = bounds_of(zones, zone);
    Zone { home, bounds }
}
