// The matrix of a zone: nothing is known, then properness, then the bounds that its author wrote.
//
// A matrix is over all 17 variables; one that a zone does not have is bounded by nothing. It starts
// where nothing is known and is narrowed by one bound after the other, as long as a solution is
// left.
#![tactic(auto)]

mod narrowing;
mod numbers;
mod properness;
mod states;
mod written;

pub use narrowing::{narrow, within};
pub use numbers::{less, negated};
pub use states::zone_matrix;

// The bounds of a zone as they are written: that on variable i minus variable j at i * 17 + j, or no bound.
pub type Entries = [i32; 289];
