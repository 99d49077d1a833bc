// The full sizes of the two tables.
// Assumes nothing.
pub(crate) const MODEL: usize = 1092;

pub(crate) const PROPOSAL: usize = 47023;
