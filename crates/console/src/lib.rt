// What planners and the ground console call: the check of two texts, the printed line, and the fault's part of the texts.
// Assumes nothing.
#![tactic(auto)]

mod fields; // fields.rt: numbers, and the clocks and the jobs of a state, written
mod room; // room.rt: the printed line, written into a room that it fits
mod tables; // tables.rt: the full sizes of the two tables
mod printed; // printed.rt: the printed line, into a lent buffer
mod part; // part.rt: the part of the texts in which a fault stands
mod texts; // texts.rt: the check of two texts
mod told; // told.rt: what the console says of two texts

pub use part::fault_part;
pub use printed::line;
pub use texts::check_texts;
pub use told::Told;
