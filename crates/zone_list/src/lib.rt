// The list of a zone's steps: how many there are, which stands at a place, whether a step is in it, and where a claim has to be 0.
#![tactic(auto)]

mod choice;
mod form;
mod listed;
mod listing;
mod place;
mod queue;
mod share;
mod walk;

pub use form::{Kind, Positions, Step, Steps, ahead_of};
pub use listed::has;
pub use place::step_at;
pub use share::overflows;
pub use walk::steps;
