// The parts of a model's table, read where they stand. A number that names nothing reads 0.
#![tactic(auto)]

ghost use Rattle.std.specs.Prelude.{◌≡◌, ◌+◌, ◌-◌, ◌*◌, ◌≤◌, ◌<◌, ◌⊎◌, suc, get_or, length, MatchOption};
ghost use Rattle.meaning.specs.Text.ModelTable.{clocks, tasks, locations, edges, lowered, count};
ghost use Rattle.model_table.specs.Parts.{of_task, of_location, of_edge, policy_in, work_in, deadline_in, priority_in, released_in, limit_in, from_in, to_in, bound_in, reset_in};
ghost use Rattle.model_table.specs.Policies.{number_of};

mod cells;
mod counts;
mod policies;
mod right;

pub use cells::{cell, less_one};
use cells::{of_edge, of_location, of_task};
pub use counts::{count_from, edges, locations, tasks};
pub use policies::Policy;
pub use right::ModelTable;

// The policy's number, whether or not there is such a policy.
pub fn policy_number(model: &[u32]) -> u32
    ensures { result ≡ policy_in model.now }
{
    less_one(cell(model, 0))
}

// The policy; none where its number is no policy's.
pub fn policy(model: &[u32]) -> Option<Policy>
    ensures { MatchOption result ((policy_in model.now ≡ 0) ⊎ (3 < policy_in model.now)) (λ policy. policy_in model.now ≡ number_of policy) }
{
    match policy_number(model) {
        1 => Some(Policy::FixedPriority),
        2 => Some(Policy::EarliestDeadline),
        3 => Some(Policy::ShortestJob),
        _ => None,
    }
}

// How many clocks.
pub fn clocks(model: &[u32]) -> u32
    ensures { result ≡ clocks model.now }
{
    less_one(cell(model, 1))
}

// C of a task.
pub fn work(model: &[u32], task: u32) -> u32
    ensures { result ≡ work_in model.now task }
{
    less_one(of_task(model, task, 0))
}

// D of a task.
pub fn deadline(model: &[u32], task: u32) -> u32
    ensures { result ≡ deadline_in model.now task }
{
    less_one(of_task(model, task, 1))
}

// The priority of a task.
pub fn priority(model: &[u32], task: u32) -> u32
    ensures { result ≡ priority_in model.now task }
{
    less_one(of_task(model, task, 2))
}

// The task that entering a location releases, or 0, as the text has it.
pub fn released(model: &[u32], location: u32) -> u32
    ensures { result ≡ released_in model.now location }
{
    less_one(of_location(model, location, 0))
}

// The limit of a clock at a location, if there is one.
#[tactic(auto, using(crate::proofs::CellLaws::limit_zero, crate::proofs::CellLaws::limit_out, crate::proofs::CellLaws::limit_in_lem))]
pub fn limit(model: &[u32], location: u32, clock: u32) -> Option<u32>
    ensures { MatchOption result (limit_in model.now location clock ≡ 0) (λ most. limit_in model.now location clock ≡ suc most) }
{
    match clock {
        1..=4 => of_location(model, location, clock).checked_sub(1),
        _ => None,
    }
}

// The location that an edge leaves.
pub fn from(model: &[u32], edge: u32) -> u32
    ensures { result ≡ from_in model.now edge }
{
    less_one(of_edge(model, edge, 0))
}

// The location that an edge enters.
pub fn to(model: &[u32], edge: u32) -> u32
    ensures { result ≡ to_in model.now edge }
{
    less_one(of_edge(model, edge, 1))
}

// What is kept of the bound of i minus j in an edge's guard: c, 10,000 and 1; 0: there is none.
#[tactic(auto, using(crate::proofs::CellLaws::bound_row, crate::proofs::CellLaws::bound_column, crate::proofs::CellLaws::bound_in_lem))]
pub fn bound_cell(model: &[u32], edge: u32, i: u32, j: u32) -> u32
    ensures { result ≡ bound_in model.now edge i j }
{
    if i <= 4 && j <= 4 {
        of_edge(model, edge, 2 + 5 * i + j)
    } else {
        0
    }
}

// c itself, from a cell that has something in it.
#[tactic(auto, using(crate::proofs::SignedLaws::kept_lowered))]
pub fn signed(kept: u32) -> i32
    requires { (0 < kept) × (kept ≤ 20001) }
    ensures { result ≡ lowered (kept - 1) }
{
    kept as i32 - 10001
}

// c of the bound of i minus j in an edge's guard, if there is one; what is kept is never above 20,001 in a table that is right.
pub fn bound(model: &[u32], edge: u32, i: u32, j: u32) -> Option<i32>
    ensures { let kept = bound_in model.now edge i j in MatchOption result ((kept ≡ 0) ⊎ (20001 < kept)) (λ c. (0 < kept) × (kept ≤ 20001) × (c ≡ lowered (kept - 1))) }
{
    match bound_cell(model, edge, i, j) {
        kept @ 1..=20001 => Some(signed(kept)),
        _ => None,
    }
}

// Is a clock reset by an edge?
#[tactic(auto, using(crate::proofs::CellLaws::reset_zero, crate::proofs::CellLaws::reset_out, crate::proofs::CellLaws::reset_in_lem))]
pub fn reset(model: &[u32], edge: u32, clock: u32) -> bool
    ensures { result ≡ reset_in model.now edge clock }
{
    match clock {
        1..=4 => 0 < of_edge(model, edge, 26 + clock),
        _ => false,
    }
}
