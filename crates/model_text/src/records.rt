// One record, from the text into the table.
// Assumes nothing.
ghost use Rattle.std.specs.Prelude.{◌≡◌, map, ℕ, suc, ◌+◌, ◌≤◌, length, get_or};
ghost use Rattle.std.proofs.lemmas.List.Edits.{sets};
ghost use Rattle.meaning.specs.Text.Numerals.{too_large};
ghost use Rattle.meaning.specs.Text.Ranges.{clocks_most};
ghost use Rattle.meaning.specs.Text.ModelTable.{size, clocks};
ghost use Rattle.meaning.specs.Text.ModelReader.{look};
ghost use Rattle.model_text.specs.Marks.{kind_of};
ghost use Rattle.model_text.specs.Entered.{MayStand, entered, Enters};
ghost use Rattle.model_text.specs.Meant.{Stepped};

use crate::marks::Mark;
use crate::{marks, rules};
use refusals::{Reason, Refusal};

// Where the reading stands: a place in the text, and the cursor, which is the slot after the last record's.
#[derive(Clone, Copy, Debug, PartialEq, Eq)]
pub struct Place {
    pub at: usize,
    pub cursor: usize,
}

// The numbers, each with 1 added, into the cells from j on.
#[tactic(auto, using(crate::proofs::Laws::Taking::store_more))]
fn store(t: &mut [u32], j: usize, v: &[u32])
    requires room { j + length v.now ≤ length t.old }
    requires small { (i : ℕ) → get_or v.now i 0 ≤ too_large }
    ensures { t.new ≡ sets t.old j (map suc v.now) }
{
    for (i, number) in v.iter().enumerate() {
        t[j + i] = *number + 1;
    }
}

// The numbers of a record into the table; the line ends before next.
#[tactic(auto, using(crate::proofs::Laws::Taking::entered_laws))]
fn enter(
    mark: Mark,
    place: Place,
    t: &mut [u32],
    v: &[u32],
    next: usize,
) -> Result<Option<Place>, Refusal>
    requires { Enters mark t.old v.now }
    ensures { Stepped (entered (kind_of mark) place.at place.cursor t.old v.now next) result t.old t.new }
{
    if let Some(reason) = rules::wrong(mark, t, v) {
        return Err(Refusal {
            reason,
            place: place.at,
        });
    }
    let slot = rules::slot(mark, t, v);
    if slot < place.cursor {
        return Err(Refusal {
            reason: Reason::NotRising,
            place: place.at,
        });
    }
    store(t, slot, &v[rules::keys(mark)..]);
    Ok(Some(Place {
        at: next,
        cursor: slot + 1,
    }))
}

// The mark at a place, if it may stand there.
#[tactic(auto, using(crate::proofs::Laws::Taking::stands_none))]
fn standing(s: &[u8], place: Place, t: &[u32]) -> Result<Mark, Refusal>
    requires { place.at ≤ length s.now }
    ensures { MayStand s.now place.at place.cursor t.now result }
{
    let Some(mark) = marks::read_mark(s, place.at) else {
        return Err(Refusal {
            reason: Reason::MarkNotHere,
            place: place.at,
        });
    };
    if !rules::due(mark, t) || rules::latest(mark, t) < place.cursor {
        return Err(Refusal {
            reason: Reason::MarkNotHere,
            place: place.at,
        });
    }
    if !rules::room(mark, t) {
        return Err(Refusal {
            reason: Reason::TooMany,
            place: place.at,
        });
    }
    Ok(mark)
}

// The record at a place into the table: the place after it; none where it was the last.
pub(crate) fn take(s: &[u8], place: Place, t: &mut [u32]) -> Result<Option<Place>, Refusal>
    requires { (length t.old ≡ size) × (clocks t.old ≤ clocks_most) × (place.at ≤ length s.now) }
    ensures { Stepped (look s.now place.at place.cursor t.old) result t.old t.new }
{
    let mark = standing(s, place, t)?;
    let line = rules::read_numbers(mark, s, place.at + 2, t)?;
    match mark {
        Mark::End if line.at < s.len() => Err(Refusal {
            reason: Reason::MarkNotHere,
            place: line.at,
        }),
        Mark::End => Ok(None),
        _ => enter(mark, place, t, &line.numbers[..rules::many(mark)], line.at),
    }
}
