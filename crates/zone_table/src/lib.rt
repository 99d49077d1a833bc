// A proposal's table: where its parts stand, a zone by value, the length of its text, and whether a text gives it.
// Cells are read one by one, and are 0 past the end: each function answers on a lent table of any size.
#![tactic(auto)]

mod counts; // counts.rt: how many zones, and how many tasks in a queue
mod lengths; // lengths.rt: how long the text is
mod pool; // pool.rt: the claims of the zones
mod sizes; // sizes.rt: how large a proposal may be
mod starts; // starts.rt: where the parts of a zone begin
mod test; // test.rt: whether a text gives the table
mod values; // values.rt: a zone by value

pub use counts::zones;
pub use lengths::text_length;
pub use pool::{claim, claims, up_to_last};
pub use sizes::{BOUND_MOST, BOUNDS, HEAD, SIZE, TEXT_MOST, ZONES_MOST};
pub use starts::{POOL_SIZE, POOL_START, bounds_start, claims_start, head_start};
pub use test::is_proposal;
pub use values::{home_at, home_with, zone_at};
