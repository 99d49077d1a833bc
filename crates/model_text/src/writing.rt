// The writer of a model's text.
// Assumes nothing.
ghost use Rattle.std.specs.Prelude.{◌≡◌, ◌≤◌, length};
ghost use Rattle.std.proofs.lemmas.List.Edits.{sets};
ghost use Rattle.meaning.specs.Text.Records as records;
ghost use Rattle.meaning.specs.Text.ModelTable.{size};
ghost use Rattle.meaning.specs.Text.ModelReader.{format, read_model, left};
ghost use Rattle.lines.specs.Put.{Put};
ghost use Rattle.model_text.specs.Meant.{GivenTest, LengthOf, WroteModel};

use crate::marks::Mark;
use crate::{reading, record_text, tables};
use refusals::{Reason, Refusal};

// No table's text is longer.
const LONGEST: usize = 29487;

// The text of the table.
#[tactic(auto, using(crate::proofs::Laws::Writing::room_laws))]
fn write_table(t: &[u32], buf: &mut [u8]) -> usize
    requires { length (records.write format t.now) ≤ length buf.old }
    ensures { Put buf.old 0 (records.write format t.now) buf.new result }
{
    let mut at = 0;
    for j in 0..tables::SIZE {
        at = record_text::write_slot(t, j, buf, at);
    }
    record_text::write_record(Mark::End, t, tables::SIZE, buf, at)
}

// The length of the text that gives the table, which is of its full size; none where no text gives it. The table is written into one lent slice and
// read back into the other: a table that a text gives is the one that is read back.
fn length_in(t: &[u32], text: &mut [u8], again: &mut [u32]) -> Option<usize>
    requires { (length t.now ≡ size) × (length (records.write format t.now) ≤ length text.old) × (length again.old ≡ size) }
    ensures { LengthOf t.now result × (text.new ≡ sets text.old 0 (records.write format t.now)) × (again.new ≡ left size (read_model size (records.write format t.now))) }
{
    let n = write_table(t, text);
    let answer = reading::read_model(&text[..n], again);
    if answer.is_ok() && *t == *again {
        Some(n)
    } else {
        None
    }
}

// The same of any table, with room for the text and for the table.
#[tactic(auto, using(crate::proofs::Laws::Giving::length_size, meaning::proofs::Text::ModelWhole::text_short))]
fn given_length(t: &[u32]) -> Option<usize>
    ensures { LengthOf t.now result }
{
    if t.len() != tables::SIZE {
        return None;
    }
    let mut text = [0; LONGEST];
    let mut again = [0; tables::SIZE];
    length_in(t, &mut text, &mut again)
}

// Whether the table is one that a text gives: else it is refusal 13 wherever it is lent.
pub fn is_model(table: &[u32]) -> bool
    ensures { GivenTest table.now result }
{
    given_length(table).is_some()
}

// The text of the model's table into the buffer.
#[tactic(auto, using(crate::proofs::Laws::Giving::wrote_none))]
pub fn write_model(table: &[u32], buffer: &mut [u8]) -> Result<usize, Refusal>
    ensures { WroteModel table.now buffer.old result buffer.new }
{
    let Some(n) = given_length(table) else {
        return Err(Refusal {
            reason: Reason::NotProper,
            place: 0,
        });
    };
    if buffer.len() < n {
        return Err(Refusal {
            reason: Reason::WrongRoom,
            place: 0,
        });
    }
    write_table(table, buffer);
    Ok(n)
}
