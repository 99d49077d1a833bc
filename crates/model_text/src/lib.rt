// The model's table, its reader and its writer.
// Assumes nothing.
#![tactic(auto)]

mod marks; // marks.rt: the mark of a record
mod tables; // tables.rt: what a table has
mod rules; // rules.rt: what a record is held to
mod records; // records.rt: one record, from the text into the table
mod reading; // reading.rt: the reader
mod record_text; // record_text.rt: one record, from the table into the text
mod writing; // writing.rt: the writer

pub use reading::read_model;
pub use writing::{is_model, write_model};
