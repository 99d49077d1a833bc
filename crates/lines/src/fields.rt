// The fields of a line, after its mark: each number after one space, and the line feed.
// Assumes nothing.
ghost use Rattle.std.specs.Prelude.{◌≡◌, ℕ, ◌≤◌, Option, Some, map, length};
ghost use Rattle.meaning.specs.Text.Numerals.{too_large};
ghost use Rattle.meaning.specs.Text.Lines.{field, kept, outside, between, fields};
ghost use Rattle.lines.specs.Meant.{meant, range_of, first_out, Told};

use crate::numerals::Number;
use crate::ranges::Range;
use crate::{numerals, places};
use refusals::{Reason, Refusal};

// What the fields of a line come to: the place after the line, and the numbers as they are kept, with 0 behind them. No line with ranges has more
// than three; the memory is fixed, so they stand in an array.
#[derive(Clone, Copy, Debug, PartialEq, Eq)]
pub struct Line {
    pub at: usize,
    pub numbers: [u32; 3],
}

// One space, and a number.
#[tactic(auto, unfolding(meaning::specs::Text::Lines::field))]
pub fn read_field(s: &[u8], at: usize, minus: bool) -> Result<Number, Refusal>
    ensures { result ≡ meant (field minus s.now at) }
{
    if !places::byte_is(s, at, b' ') {
        return Err(numerals::broken(at));
    }
    numerals::read_number(s, at + 1, minus)
}

// A number with its sign as it is kept: with `below` added.
#[tactic(auto, unfolding(meaning::specs::Text::Lines::kept))]
fn kept_of(below: u32, minus: bool, size: u32) -> u32
    requires { (below ≤ too_large) × (size ≤ too_large) }
    ensures { result ≡ kept below minus size }
{
    if !minus {
        below + size
    } else if below < size {
        numerals::TOO_LARGE
    } else {
        below - size
    }
}

// The place of the first number outside its range: o up to here, and v at p.
#[tactic(auto, unfolding(crate::specs::Meant::first_out, meaning::specs::Text::Lines::outside))]
pub fn first_out(o: Option<usize>, low: u32, high: u32, v: u32, p: usize) -> Option<usize>
    ensures { result ≡ first_out o (outside (between low high) v) p }
{
    if o.is_none() && (v < low || high < v) {
        Some(p)
    } else {
        o
    }
}

// A number for each range after a mark, and the line feed.
pub fn read_line(s: &[u8], at: usize, ranges: &[Range]) -> Result<Line, Refusal>
    requires { length ranges.now ≤ 3 }
    ensures { Told (fields (map range_of ranges.now) s.now at) result }
{
    let mut numbers = [0; 3];
    let mut p = at;
    let mut out = None;
    for (k, range) in ranges.iter().enumerate() {
        let number = read_field(s, p, 0 < range.below)?;
        let v = kept_of(range.below, number.minus, number.size);
        out = first_out(out, range.low, range.high, v, p + 1);
        numbers[k] = v;
        p = number.next;
    }
    if !places::byte_is(s, p, b'\n') {
        return Err(numerals::broken(p));
    }
    match out {
        Some(place) => Err(Refusal {
            reason: Reason::OutOfRange,
            place,
        }),
        None => Ok(Line { at: p + 1, numbers }),
    }
}
