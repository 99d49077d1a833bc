// Difference bounds over at most 17 variables: "variable i minus variable j is at most c".
//
// A matrix of bounds is an array by value of 289 numbers; entry (i, j) stands at i * 17 + j. A
// closed matrix holds what follows from several of its bounds together, so each entry is the
// tightest bound. Nothing here closes a matrix from nothing: one starts at top, and tighten and
// remap keep it closed.
#![tactic(auto)]

mod broken;
mod image;
mod matrix;
mod smallest;
mod tightening;

pub use broken::{BIAS, Broken, claimed, first_broken};
pub use image::{Offsets, Sources, reached, remap};
pub use matrix::{Matrix, NONE, get, top};
pub use smallest::{Values, least};
pub use tightening::tighten;
