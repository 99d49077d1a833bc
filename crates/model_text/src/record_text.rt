// One record, from the table into the text.
// Assumes nothing.
ghost use Rattle.std.specs.Prelude.{◌≡◌, ◌+◌, ◌-◌, ◌%◌, ◌<◌, ◌≤◌, length, Some};
ghost use Rattle.meaning.specs.Text.ModelTable.{size};
ghost use Rattle.meaning.specs.Text.ModelReader.{mark_in_edge, words, width, get, line, line_of};
ghost use Rattle.lines.specs.Put.{Put};
ghost use Rattle.model_text.specs.Marks.{kind_of, kind_in, MarkAt, numbers_text};

use crate::marks::Mark;
use crate::tables::number_in;
use crate::{marks, rules, tables};
use lines::Field;

// The mark of an edge's record by its place in the edge.
#[tactic(auto, unfolding(meaning::specs::Text::ModelReader::mark_in_edge))]
fn mark_in_edge(r: usize) -> Option<Mark>
    ensures is { kind_in result ≡ mark_in_edge r }
    ensures few { result ≡ Some Mark.End → ⊥ }
    ensures limit { result ≡ Some Mark.Limit → ⊥ }
    ensures bound { result ≡ Some Mark.Bound → 2 ≤ r }
{
    match r {
        0 => Some(Mark::Edge),
        1 => None,
        2..=26 => Some(Mark::Bound),
        _ => Some(Mark::Reset),
    }
}

// The mark of the record whose slot is j; none where no record has this slot.
#[tactic(auto, using(crate::proofs::Laws::Slots::mark_at_laws))]
pub(crate) fn mark_at(j: usize) -> Option<Mark>
    ensures { MarkAt j result }
{
    match j {
        0 => Some(Mark::Policy),
        1 => Some(Mark::Clocks),
        2..=19 => ((j - 2) % 3 == 0).then_some(Mark::Task),
        20..=99 => Some(if (j - 20) % 5 == 0 {
            Mark::Location
        } else {
            Mark::Limit
        }),
        _ => mark_in_edge((j - 100) % 31),
    }
}

fn plain(number: u32) -> Field
    ensures { result ≡ record { below = 0; number = number } }
{
    Field { below: 0, number }
}

// The numbers of the record whose slot is j, and the line feed.
#[tactic(auto, using(crate::proofs::Laws::Slots::text_laws))]
fn write_numbers(mark: Mark, t: &[u32], j: usize, buf: &mut [u8], at: usize) -> usize
    requires slot { j ≤ size }
    requires limit { mark ≡ Mark.Limit → 20 ≤ j }
    requires bound { mark ≡ Mark.Bound → (100 ≤ j) × (2 ≤ (j - 100) % 31) }
    requires room { at + length (numbers_text (kind_of mark) t.now j) ≤ length buf.old }
    ensures { Put buf.old at (numbers_text (kind_of mark) t.now j) buf.new result }
{
    let here = plain(number_in(t, j));
    match mark {
        Mark::Task => lines::write_fields(
            buf,
            at,
            &[here, plain(number_in(t, j + 1)), plain(number_in(t, j + 2))],
        ),
        Mark::Limit => lines::write_fields(buf, at, &[plain(((j - 20) % 5) as u32), here]),
        Mark::Edge => lines::write_fields(buf, at, &[here, plain(number_in(t, j + 1))]),
        Mark::Bound => {
            let k = (j - 100) % 31 - 2;
            let bound = Field {
                below: rules::TIME_MOST,
                number: here.number,
            };
            lines::write_fields(
                buf,
                at,
                &[plain((k / 5) as u32), plain((k % 5) as u32), bound],
            )
        }
        Mark::End => lines::write_fields(buf, at, &[]),
        _ => lines::write_fields(buf, at, &[here]),
    }
}

// The line of the record whose slot is j.
#[tactic(auto, using(crate::proofs::Laws::Slots::line_is, crate::proofs::Laws::Slots::put_two))]
pub(crate) fn write_record(mark: Mark, t: &[u32], j: usize, buf: &mut [u8], at: usize) -> usize
    requires slot { j ≤ size }
    requires limit { mark ≡ Mark.Limit → 20 ≤ j }
    requires bound { mark ≡ Mark.Bound → (100 ≤ j) × (2 ≤ (j - 100) % 31) }
    requires room { at + length (line_of (kind_of mark) j (words t.now j (width (kind_of mark)))) ≤ length buf.old }
    ensures { Put buf.old at (line_of (kind_of mark) j (words t.now j (width (kind_of mark)))) buf.new result }
{
    let [first, second] = marks::bytes(mark);
    buf[at] = first;
    buf[at + 1] = second;
    write_numbers(mark, t, j, buf, at + 2)
}

// The line of slot j; nothing where no record is.
#[tactic(auto, using(crate::proofs::Laws::Slots::line_laws))]
pub(crate) fn write_slot(t: &[u32], j: usize, buf: &mut [u8], at: usize) -> usize
    requires { (j < size) × (at + length (line j (get t.now j)) ≤ length buf.old) }
    ensures { Put buf.old at (line j (get t.now j)) buf.new result }
{
    match mark_at(j) {
        Some(mark) if tables::is_there(t, j) => write_record(mark, t, j, buf, at),
        _ => at,
    }
}
