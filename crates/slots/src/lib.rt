// Where the jobs of a queue stand among the variables: before a step, and with the jobs that it releases put in.
#![tactic(auto)]

mod change;
mod order;
mod standing;

pub use change::{slots_with, without_head};
pub use order::slots_of;
pub use standing::{Slot, Slots};
