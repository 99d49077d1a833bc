// Of the states in a matrix, those that take a step: narrowed by one bound of the step after the other.
#![tactic(auto)]

mod guard;
mod head;
mod limits;
mod place;
mod states;
mod stepping;
mod tests;

pub use states::step_matrix;
