// The range of a field's number.
// Assumes nothing.
ghost use Rattle.std.specs.Prelude.{◌≤◌};
ghost use Rattle.meaning.specs.Text.Numerals.{too_large};

// How far the range goes below 0, and its two ends; both are kept with `below` added, as its numbers are.
#[derive(Clone, Copy, Debug, PartialEq, Eq)]
pub struct Range {
    pub below: u32,
    pub low: u32,
    pub high: u32,
    ghost small: { below ≤ too_large },
}
