// One line of a text: its bytes, its numbers, its fields and its line feed, read and written.
// Assumes nothing.
#![tactic(auto)]

mod places; // places.rt: the byte at a place
mod numerals; // numerals.rt: a number, read
mod ranges; // ranges.rt: the range of a field's number
mod fields; // fields.rt: the fields of a line, read
mod stops; // stops.rt: the first comma or full stop
mod writing; // writing.rt: numbers and fields, written

pub use fields::{Line, first_out, read_field, read_line};
pub use numerals::Number;
pub use places::{byte_at, byte_is};
pub use ranges::Range;
pub use stops::first_stop;
pub use writing::{Field, write_digits, write_field, write_fields};
