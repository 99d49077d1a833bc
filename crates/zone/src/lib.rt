// A zone by value: a location with a queue order, and bounds "variable i minus variable j is at most c".
#![tactic(auto)]

ghost use Rattle.zone.specs.Promise.{MadeWidest, MadeExact};

mod entries;
mod exact;
mod lendable;
mod making;

use home::{Home, is_home};
pub use lendable::is_zone;
use machine::{State, is_lendable};
use making::{exact_zone, widest_zone};
use model_table::ModelTable;
use model_text::is_model;
use refusals::Reason;

// The bound on variable i minus variable j stands at i * 17 + j, in an array by value of fixed size. Bounds that are not written are `NO_BOUND`.
#[derive(Clone, Copy)]
pub struct Zone {
    pub home: Home,
    pub bounds: [i32; 289],
}

impl Zone {
    // At most so many variables, variable 0 among them.
    pub const VARIABLES: usize = 17;
    // At most so many tasks in a queue.
    pub const QUEUE: usize = 6;
    // Bounds run from -32,000 to 32,000.
    pub const MOST: i32 = 32_000;
    // "No bound": a value of its own.
    pub const NO_BOUND: i32 = 1_000_000_000;

    /// The widest zone of a location and queue. `NotProper`: the table, the location or the queue can't be lent.
    pub fn widest(model: &[u32], home: Home) -> Result<Zone, Reason>
        ensures { MadeWidest model.now home result }
    {
        if is_model(model) && is_home(&ModelTable { cells: model }, home) {
            Ok(widest_zone(home))
        } else {
            Err(Reason::NotProper)
        }
    }

    /// The zone that holds exactly one given state. `NotProper`: the table or the state can't be lent.
    pub fn exactly(model: &[u32], state: State) -> Result<Zone, Reason>
        ensures { MadeExact model.now state result }
    {
        if is_model(model) && is_lendable(&ModelTable { cells: model }, state) {
            Ok(exact_zone(&ModelTable { cells: model }, state))
        } else {
            Err(Reason::NotProper)
        }
    }
}
