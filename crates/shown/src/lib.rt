// What a step shows of a zone's states: the first position at which a job can be late, and the smallest state.
//
// The states of the zone that take the step are one matrix; the plan says where they lead. Nothing is
// moved as a matrix: an entry after the step is read where it stands before it.
#![tactic(auto)]

mod late;
mod lowest;
mod state;

pub use late::first_late;
pub use lowest::{smallest, smallest_apart};
