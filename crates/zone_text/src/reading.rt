// The reader of a proposal's text.
ghost use Rattle.std.specs.Prelude.{◌≡◌, true, ◌≤◌, length, replicate};
ghost use Rattle.meaning.specs.Text.Ranges.{text_most};
ghost use Rattle.meaning.specs.Text.RecordRow as row;
ghost use Rattle.model_table.specs.Held.{model_of};
ghost use Rattle.meaning.specs.Text.ProposalTable.{size};
ghost use Rattle.meaning.specs.Text.ProposalReader as reader;
ghost use Rattle.meaning.specs.Text.ProposalReader.{read_proposal, stored};
ghost use Rattle.zone_text.specs.Meant.{meant, Answered, ReadOver};

use crate::reading_records::{Sofar, take};
use crate::refusing::refused;
use model_table::ModelTable;
use refusals::{Reason, Refusal};
use zone_table::{SIZE, TEXT_MOST};

// The records of the text into the table, which is all 0 before. Where they are refused, something may be left in it.
fn read_records(model: &ModelTable, s: &[u8], t: &mut [u32]) -> Result<(), Refusal>
    requires { (length t.old ≡ size) × (t.old ≡ replicate (length t.old) 0) × (length s.now ≤ text_most) }
    ensures { meant result t.new ≡ stored (row.read (reader.row (model_of model.now)) s.now) }
{
    let mut at: usize = 0;
    let mut sofar = Sofar {
        zones: 0,
        pool: 0,
        due: None,
    };
    while let Some(next) = take(model, s, at, sofar, t)? {
        at = next.at;
        sofar = next.sofar;
    }
    Ok(())
}

// The proposal's text into the table, over a right model's table.
pub(crate) fn read_given(model: &ModelTable, text: &[u8], zones: &mut [u32]) -> Result<(), Refusal>
    ensures { Answered (length zones.old) (read_proposal true (model_of model.now) (length zones.old) text.now) result zones.new }
{
    zones.fill(0);
    if zones.len() != SIZE {
        return Err(refused(Reason::WrongRoom, 0));
    }
    if TEXT_MOST < text.len() {
        return Err(refused(Reason::TooLong, TEXT_MOST));
    }
    let stop = lines::first_stop(text);
    if stop < text.len() {
        return Err(refused(Reason::CommaOrStop, stop));
    }
    let read = read_records(model, text, zones);
    if read.is_err() {
        zones.fill(0);
    }
    read
}

// The proposal's text into the table, over the model's table. A refusal leaves it all 0.
pub fn read_proposal(model: &[u32], text: &[u8], zones: &mut [u32]) -> Result<(), Refusal>
    ensures { ReadOver model.now text.now zones.old result zones.new }
{
    if !model_text::is_model(model) {
        zones.fill(0);
        return Err(refused(Reason::NotProper, 0));
    }
    read_given(&ModelTable { cells: model }, text, zones)
}
