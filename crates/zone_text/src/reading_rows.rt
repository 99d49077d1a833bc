// Numbers of a line, from the text into the table.
ghost use Rattle.std.specs.Prelude.{[], ◌∷◌, ◌≤◌, length, IfOk};
ghost use Rattle.meaning.specs.Text.Ranges.{queue_most, bound_most};
ghost use Rattle.meaning.specs.Text.Lines.{between, around, fields, fields_up_to, fields_more};
ghost use Rattle.zone_text.specs.Rows.{led, RowTold, HeadTold, BoundTold, BoundSmall};

use crate::refusing::refused;
use lines::Range;
use refusals::{Reason, Refusal};
use zone::Zone;
use zone_table::BOUND_MOST;

// A row of numbers that was read: the place after its line, and how many they are.
#[derive(Clone, Copy, Debug, PartialEq, Eq)]
pub(crate) struct Row {
    pub next: usize,
    pub many: usize,
}

// A bound that was read: the place after its line, and its numbers, c with 32,000 added.
#[derive(Clone, Copy, Debug, PartialEq, Eq)]
pub(crate) struct Bound {
    pub next: usize,
    pub i: u32,
    pub j: u32,
    pub c: u32,
}

// At most `most` numbers from low to high, and the line feed; each with 1 added into the cells, as far as these go. `out` is the place of a number in front of them
// that is outside its range, if one is.
pub(crate) fn read_row(
    s: &[u8],
    at: usize,
    out: Option<usize>,
    most: usize,
    low: u32,
    high: u32,
    cells: &mut [u32],
) -> Result<Row, Refusal>
    ensures told { RowTold (led out (fields_up_to most (between low high) s.now at)) result cells.old cells.new }
    ensures few { IfOk result (λ row. row.many ≤ most) }
{
    let mut many: usize = 0;
    let mut p = at;
    let mut first_out = out;
    // the row ends at a byte of the text, so no range counts its numbers
    while !lines::byte_is(s, p, b'\n') {
        if most <= many {
            return Err(refused(Reason::BrokenLine, p));
        }
        let number = lines::read_field(s, p, false)?;
        first_out = lines::first_out(first_out, low, high, number.size, p + 1);
        if many < cells.len() {
            cells[many] = number.size + 1;
        }
        p = number.next;
        many += 1;
    }
    match first_out {
        Some(place) => Err(refused(Reason::OutOfRange, place)),
        None => Ok(Row { next: p + 1, many }),
    }
}

// A location and at most 6 tasks, and the line feed; each with 1 added into the cells.
pub(crate) fn read_order(
    s: &[u8],
    at: usize,
    locations: u32,
    tasks: u32,
    cells: &mut [u32],
) -> Result<Row, Refusal>
    requires { 7 ≤ length cells.old }
    ensures told { HeadTold (fields_more (between 1 locations ∷ []) queue_most (between 1 tasks) s.now at) result cells.old cells.new }
    ensures few { IfOk result (λ row. row.many ≤ 6) }
{
    let location = lines::read_field(s, at, false)?;
    cells[0] = location.size + 1;
    let out = lines::first_out(None, 1, locations, location.size, at + 1);
    let queue = &mut cells[1..];
    read_row(s, location.next, out, Zone::QUEUE, 1, tasks, queue)
}

// i and j up to the last variable, and c.
pub(crate) fn read_bound(s: &[u8], at: usize, last: u32) -> Result<Bound, Refusal>
    requires { last ≤ 16 }
    ensures told { BoundTold (fields (between 0 last ∷ between 0 last ∷ around bound_most ∷ []) s.now at) result }
    ensures small { IfOk result BoundSmall }
{
    let variable = Range {
        below: 0,
        low: 0,
        high: last,
    };
    let around = Range {
        below: BOUND_MOST,
        low: 0,
        high: 2 * BOUND_MOST,
    };
    let line = lines::read_line(s, at, &[variable, variable, around])?;
    let [i, j, c] = line.numbers;
    Ok(Bound {
        next: line.at,
        i,
        j,
        c,
    })
}
