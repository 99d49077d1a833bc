// What a table has: whether a record is there, what a cell holds, and where the last location and the last edge stand.
// Assumes nothing.
ghost use Rattle.std.specs.Prelude.{◌≡◌, ◌-◌, ◌≤◌, get_or};
ghost use Rattle.meaning.specs.Text.ModelTable.{there};
ghost use Rattle.meaning.specs.Text.ModelReader.{location, edge};

use model_table::{cell, edges, less_one, locations};

// Its full size.
pub const SIZE: usize = 1092;

// The slots of the first task, the first location and the first edge.
pub const FIRST_TASK: usize = 2;

pub const FIRST_LOCATION: usize = 20;

pub const FIRST_EDGE: usize = 100;

// Whether something is in cell k.
pub(crate) fn is_there(t: &[u32], k: usize) -> bool
    ensures { result ≡ there t.now k }
{
    0 < cell(t, k)
}

// The number that a cell holds.
pub(crate) fn number_in(t: &[u32], k: usize) -> u32
    ensures { result ≡ get_or t.now k 0 - 1 }
{
    less_one(cell(t, k))
}

// The slot of the location that was read last.
#[tactic(auto, using(meaning::proofs::Text::ModelLaws::locations_le))]
pub(crate) fn last_location(t: &[u32]) -> usize
    ensures slot { result ≡ location t.now }
    ensures within { result ≤ 95 }
{
    FIRST_LOCATION + 5 * less_one(locations(t)) as usize
}

// The slot of the edge that was read last.
#[tactic(auto, using(meaning::proofs::Text::ModelLaws::edges_le))]
pub(crate) fn last_edge(t: &[u32]) -> usize
    ensures slot { result ≡ edge t.now }
    ensures within { result ≤ 1061 }
{
    FIRST_EDGE + 31 * less_one(edges(t)) as usize
}
