// The reader of a model's text.
// Assumes nothing.
ghost use Rattle.std.specs.Prelude.{◌≡◌, ◌≤◌, length, replicate};
ghost use Rattle.meaning.specs.Text.Ranges.{text_most};
ghost use Rattle.meaning.specs.Text.Records as records;
ghost use Rattle.meaning.specs.Text.ModelTable.{size};
ghost use Rattle.meaning.specs.Text.ModelReader.{format, read_model};
ghost use Rattle.model_text.specs.Meant.{meant, Answered};

use crate::records::Place;
use crate::{records, tables};
use refusals::{Reason, Refusal};

// The longest text.
const TEXT_MOST: usize = 65535;

// The records of the text into the table, which is all 0 before.
fn read_records(s: &[u8], t: &mut [u32]) -> Result<(), Refusal>
    requires { (length t.old ≡ size) × (t.old ≡ replicate size 0) }
    ensures { meant result t.new ≡ records.read format s.now }
{
    let mut place = Place { at: 0, cursor: 0 };
    while let Some(next) = records::take(s, place, t)? {
        place = next;
    }
    Ok(())
}

// The model's text into the table.
#[tactic(auto, using(crate::proofs::Laws::Answering::answered_read, crate::proofs::Laws::Answering::read_rest))]
pub fn read_model(text: &[u8], table: &mut [u32]) -> Result<(), Refusal>
    ensures { Answered (length table.old) (read_model (length table.old) text.now) result table.new }
{
    table.fill(0);
    if table.len() != tables::SIZE {
        return Err(Refusal {
            reason: Reason::WrongRoom,
            place: 0,
        });
    }
    if TEXT_MOST < text.len() {
        return Err(Refusal {
            reason: Reason::TooLong,
            place: TEXT_MOST,
        });
    }
    let stop = lines::first_stop(text);
    if stop < text.len() {
        return Err(Refusal {
            reason: Reason::CommaOrStop,
            place: stop,
        });
    }
    let answer = read_records(text, table);
    if answer.is_err() {
        table.fill(0);
    }
    answer
}
