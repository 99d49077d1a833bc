// The proposal's text: its reader and its writer.
#![tactic(auto)]

mod reading; // reading.rt: the reader
mod reading_marks; // reading_marks.rt: the mark of a record
mod reading_records; // reading_records.rt: one record, from the text into the table
mod reading_rows; // reading_rows.rt: numbers of a line, from the text into the table
mod refusing; // refusing.rt: a refusal, by its reason and its place
mod writing; // writing.rt: the writer

pub use reading::read_proposal;
pub use writing::write_proposal;
