// The bounds of a zone as it is lent: each entry is "no bound", or a bound of its variables that may be written.
ghost use Rattle.std.specs.Prelude.{◌≡◌, ◌↔◌, true};
ghost use Rattle.zone.specs.ByCell.{InRange, RightEntry, RightEntries};

use crate::Zone;

// Is c between -32,000 and 32,000?
fn in_range(c: i32) -> bool
    ensures { (result ≡ true) ↔ InRange c }
{
    (-Zone::MOST..=Zone::MOST).contains(&c)
}

// May c stand at place k, of n variables?
fn right_entry(c: i32, k: usize, n: usize) -> bool
    ensures { (result ≡ true) ↔ RightEntry n k c }
{
    let i = k / Zone::VARIABLES;
    let j = k % Zone::VARIABLES;
    c == Zone::NO_BOUND || i != j && i < n && j < n && in_range(c)
}

// May all the entries stand, of n variables?
pub(crate) fn right_entries(bounds: &[i32; 289], n: usize) -> bool
    ensures { (result ≡ true) ↔ RightEntries n bounds.now }
{
    bounds
        .iter()
        .enumerate()
        .all(|(k, &c)| right_entry(c, k, n))
}
