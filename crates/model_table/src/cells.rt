// The cells of a task, a location and an edge.
ghost use Rattle.std.specs.Prelude.{◌≡◌, ◌+◌, ◌-◌, ◌*◌, ◌≤◌, ◌<◌, get_or};
ghost use Rattle.model_table.specs.Parts.{of_task, of_location, of_edge};

// A cell; 0 past the end.
pub fn cell(model: &[u32], at: usize) -> u32
    ensures { result ≡ get_or model.now at 0 }
{
    model.get(at).copied().unwrap_or(0)
}

// What a cell keeps: 1 less.
pub fn less_one(kept: u32) -> u32
    ensures { result ≡ kept - 1 }
{
    kept.saturating_sub(1)
}

// Cell r of a task: C, D, priority.
#[tactic(auto, using(crate::proofs::CellLaws::task_zero, crate::proofs::CellLaws::task_out, crate::proofs::CellLaws::task_in))]
pub(crate) fn of_task(model: &[u32], task: u32, r: u32) -> u32
    requires { r < 3 }
    ensures { result ≡ of_task model.now task r }
{
    match task {
        1..=6 => cell(model, (2 + 3 * (task - 1) + r) as usize),
        _ => 0,
    }
}

// Cell r of a location: its task, then the limits of its clocks.
#[tactic(auto, using(crate::proofs::CellLaws::location_zero, crate::proofs::CellLaws::location_out, crate::proofs::CellLaws::location_in))]
pub(crate) fn of_location(model: &[u32], location: u32, r: u32) -> u32
    requires { r < 5 }
    ensures { result ≡ of_location model.now location r }
{
    match location {
        1..=16 => cell(model, (20 + 5 * (location - 1) + r) as usize),
        _ => 0,
    }
}

// Cell r of an edge: from, to, then the guard's bounds, then the resets.
#[tactic(auto, using(crate::proofs::CellLaws::edge_zero, crate::proofs::CellLaws::edge_out, crate::proofs::CellLaws::edge_in))]
pub(crate) fn of_edge(model: &[u32], edge: u32, r: u32) -> u32
    requires { r < 31 }
    ensures { result ≡ of_edge model.now edge r }
{
    match edge {
        1..=32 => cell(model, (100 + 31 * (edge - 1) + r) as usize),
        _ => 0,
    }
}
