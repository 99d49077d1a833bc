// What a record is held to after what was read, mark by mark.
// Assumes nothing.
ghost use Rattle.std.specs.Prelude.{◌≡◌, [], ◌∷◌, ℕ, ◌≤◌, length, get_or};
ghost use Rattle.meaning.specs.Text.Ranges.{prio_most, tasks_most};
ghost use Rattle.meaning.specs.Text.Numerals.{too_large};
ghost use Rattle.meaning.specs.Text.Lines as meaning;
ghost use Rattle.meaning.specs.Text.Lines.{fields};
ghost use Rattle.meaning.specs.Text.ModelText.{tk, form};
ghost use Rattle.meaning.specs.Text.ModelReader as reader;
ghost use Rattle.meaning.specs.Text.ModelReader.{rule};
ghost use Rattle.lines.specs.Meant.{range_of, Told};
ghost use Rattle.model_text.specs.Marks.{kind_of};
ghost use Rattle.model_text.specs.Entered.{number_in};

use crate::marks::Mark;
use crate::tables::{
    FIRST_EDGE, FIRST_LOCATION, FIRST_TASK, SIZE, is_there, last_edge, last_location,
};
use lines::{Line, Range};
use model_table::{cell, clocks, edges, locations, tasks};
use refusals::{Reason, Refusal};

// The ends of document 01's ranges.
const POLICIES_MOST: u32 = 3;

const CLOCKS_MOST: u32 = 4;

const TASKS_MOST: u32 = 6;

const LOCATIONS_MOST: u32 = 16;

const EDGES_MOST: u32 = 32;

pub const TIME_MOST: u32 = 10000;

const PRIORITY_MOST: u32 = 6;

// Whether what must stand before the record is there.
#[tactic(auto, unfolding(meaning::specs::Text::ModelReader::rule))]
pub(crate) fn due(mark: Mark, t: &[u32]) -> bool
    ensures { result ≡ (rule (kind_of mark) t.now).due }
{
    match mark {
        Mark::Policy => true,
        Mark::Clocks => is_there(t, 0),
        Mark::Task => is_there(t, 1),
        Mark::Location => is_there(t, FIRST_TASK),
        Mark::Limit | Mark::Edge | Mark::End => is_there(t, FIRST_LOCATION),
        Mark::Bound | Mark::Reset => is_there(t, FIRST_EDGE),
    }
}

// The last cursor at which the record may stand.
#[tactic(auto, unfolding(meaning::specs::Text::ModelReader::rule))]
pub(crate) fn latest(mark: Mark, t: &[u32]) -> usize
    ensures { result ≡ (rule (kind_of mark) t.now).latest }
{
    match mark {
        Mark::Policy => 0,
        Mark::Clocks => 1,
        Mark::Task => FIRST_LOCATION,
        Mark::Location | Mark::Limit => FIRST_EDGE,
        Mark::Bound => last_edge(t) + 27,
        Mark::Edge | Mark::Reset | Mark::End => SIZE,
    }
}

// Whether there is room for one more.
#[tactic(auto, unfolding(meaning::specs::Text::ModelReader::rule))]
pub(crate) fn room(mark: Mark, t: &[u32]) -> bool
    ensures { result ≡ (rule (kind_of mark) t.now).room }
{
    match mark {
        Mark::Task => tasks(t) < TASKS_MOST,
        Mark::Location => locations(t) < LOCATIONS_MOST,
        Mark::Edge => edges(t) < EDGES_MOST,
        _ => true,
    }
}

fn between(low: u32, high: u32) -> Range
    ensures { range_of result ≡ meaning.between low high }
{
    Range {
        below: 0,
        low,
        high,
    }
}

// The numbers of the record, each within its range.
#[tactic(auto, unfolding(meaning::specs::Text::ModelReader::rule))]
pub(crate) fn read_numbers(mark: Mark, s: &[u8], at: usize, t: &[u32]) -> Result<Line, Refusal>
    ensures { Told (fields (rule (kind_of mark) t.now).ends s.now at) result }
{
    let time = between(0, TIME_MOST);
    let clock = between(1, clocks(t));
    match mark {
        Mark::Policy => lines::read_line(s, at, &[between(1, POLICIES_MOST)]),
        Mark::Clocks => lines::read_line(s, at, &[between(0, CLOCKS_MOST)]),
        Mark::Task => {
            let from_one = between(1, TIME_MOST);
            lines::read_line(s, at, &[from_one, from_one, between(0, PRIORITY_MOST)])
        }
        Mark::Location => lines::read_line(s, at, &[between(0, tasks(t))]),
        Mark::Limit => lines::read_line(s, at, &[clock, time]),
        Mark::Edge => {
            let location = between(1, locations(t));
            lines::read_line(s, at, &[location, location])
        }
        Mark::Bound => {
            let variable = between(0, clocks(t));
            let around = Range {
                below: TIME_MOST,
                low: 0,
                high: 2 * TIME_MOST,
            };
            lines::read_line(s, at, &[variable, variable, around])
        }
        Mark::Reset => lines::read_line(s, at, &[clock]),
        Mark::End => lines::read_line(s, at, &[]),
    }
}

// How many numbers the record has.
#[tactic(auto, unfolding(meaning::specs::Text::ModelText::form))]
pub(crate) fn many(mark: Mark) -> usize
    ensures many { result ≡ length (form (kind_of mark)).below }
    ensures few { result ≤ 3 }
{
    match mark {
        Mark::Policy | Mark::Clocks | Mark::Location | Mark::Reset => 1,
        Mark::Limit | Mark::Edge => 2,
        Mark::Task | Mark::Bound => 3,
        Mark::End => 0,
    }
}

// How many of the record's numbers only say where it belongs.
#[tactic(auto, unfolding(meaning::specs::Text::ModelText::form))]
pub(crate) fn keys(mark: Mark) -> usize
    ensures many { result ≡ (form (kind_of mark)).keys }
    ensures few { result ≤ length (form (kind_of mark)).below }
{
    match mark {
        Mark::Limit => 1,
        Mark::Bound => 2,
        _ => 0,
    }
}

// Whether a task has this priority.
#[tactic(auto, using(crate::proofs::Laws::Rules::used_laws))]
fn used(t: &[u32], priority: u32) -> bool
    requires { priority ≤ prio_most }
    ensures { result ≡ reader.used t.now priority tasks_most }
{
    for k in 0..TASKS_MOST as usize {
        if cell(t, 4 + 3 * k) == priority + 1 {
            return true;
        }
    }
    false
}

// FPS: priority 0 or used before. EDF and SJF: not 0.
#[tactic(auto, unfolding(meaning::specs::Text::ModelReader::misfit))]
fn misfit(t: &[u32], priority: u32) -> bool
    requires { priority ≤ prio_most }
    ensures { result ≡ reader.misfit t.now priority }
{
    if cell(t, 0) == 2 {
        priority == 0 || used(t, priority)
    } else {
        0 < priority
    }
}

// C over D, or a priority that does not fit.
#[tactic(auto, unfolding(meaning::specs::Text::ModelReader::rule))]
fn wrong_task(t: &[u32], c: u32, d: u32, priority: u32) -> Option<Reason>
    requires { priority ≤ prio_most }
    ensures { number_in result ≡ (rule tk t.now).wrong (c ∷ d ∷ priority ∷ []) }
{
    if d < c {
        Some(Reason::WorkOverDeadline)
    } else if misfit(t, priority) {
        Some(Reason::WrongPriority)
    } else {
        None
    }
}

// The refusal 7, 8 or 6 that the numbers get.
#[tactic(auto, unfolding(meaning::specs::Text::ModelReader::rule, meaning::specs::Text::ModelText::form))]
pub(crate) fn wrong(mark: Mark, t: &[u32], v: &[u32]) -> Option<Reason>
    requires many { length v.now ≡ length (form (kind_of mark)).below }
    requires priority { mark ≡ Mark.Task → get_or v.now 2 0 ≤ prio_most }
    ensures { number_in result ≡ (rule (kind_of mark) t.now).wrong v.now }
{
    match mark {
        Mark::Task => wrong_task(t, v[0], v[1], v[2]),
        Mark::Bound if v[0] == v[1] => Some(Reason::NotRising),
        _ => None,
    }
}

// The slot that the numbers go to.
#[tactic(auto, unfolding(meaning::specs::Text::ModelReader::rule, meaning::specs::Text::ModelText::form))]
pub(crate) fn slot(mark: Mark, t: &[u32], v: &[u32]) -> usize
    requires many { length v.now ≡ length (form (kind_of mark)).below }
    requires small { (k : ℕ) → get_or v.now k 0 ≤ too_large }
    ensures { result ≡ (rule (kind_of mark) t.now).slot v.now }
{
    match mark {
        Mark::Policy | Mark::End => 0,
        Mark::Clocks => 1,
        Mark::Task => FIRST_TASK + 3 * tasks(t) as usize,
        Mark::Location => FIRST_LOCATION + 5 * locations(t) as usize,
        Mark::Limit => last_location(t) + v[0] as usize,
        Mark::Edge => FIRST_EDGE + 31 * edges(t) as usize,
        Mark::Bound => last_edge(t) + 2 + 5 * v[0] as usize + v[1] as usize,
        Mark::Reset => last_edge(t) + 26 + v[0] as usize,
    }
}
