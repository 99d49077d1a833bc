// The clocks of a state: the limits that a tick has to meet, the guard and the resets of an edge.
ghost use Rattle.std.specs.Prelude.{◌≡◌, map, ℕ, suc, ◌+◌, ◌-◌, ◌≤◌, ◌<◌, ◌/◌, ◌%◌, leb, take};
ghost use Rattle.std.specs.List.{list_all};
ghost use Rattle.meaning.specs.Lists.{every, nth1D};
ghost use Rattle.meaning.specs.Machine.Tick.{limit_test};
ghost use Rattle.meaning.specs.Machine.Edge.{bound_test, reset_all};
ghost use Rattle.model_table.specs.Parts.{limit_in, limits_of, bound_in, guard_of, resets_of};
ghost use Rattle.machine.specs.Stands.{clock_most, padded};
ghost use Rattle.machine.specs.ByCell.{limit_met, bound_met, UpToEnd};

use super::{CLOCKS, Clocks};
use model_table::ModelTable;

// Is none of these clocks above this end?
pub(crate) fn within_end(clocks: &[u32], end: u32) -> bool
    ensures { result ≡ list_all (λ (c : ℕ). leb c end) clocks.now }
{
    clocks.iter().all(|&clock| clock <= end)
}

// The clocks after a tick: each of the first n grows by 1. `UpToEnd` stays a clause, here and below: a state has its clocks in a plain array.
pub(crate) fn grow(clocks: Clocks, n: usize) -> Clocks
    requires { (n ≤ 4) × UpToEnd clocks }
    ensures { result ≡ padded 0 4 (map suc (take n clocks)) }
{
    let mut grown = [0; CLOCKS];
    for k in 0..n {
        grown[k] = clocks[k] + 1;
    }
    grown
}

// Does the value of a clock meet its limit at a location, if it has one there?
fn limit_met(model: &[u32], location: u32, clock: u32, value: u32) -> bool
    ensures { result ≡ limit_met (limit_in model.now location clock) value }
{
    match model_table::limit(model, location, clock) {
        Some(most) => value <= most,
        None => true,
    }
}

// Do the clocks meet the limits of a location?
pub(crate) fn limits_met(model: &[u32], location: u32, clocks: Clocks) -> bool
    ensures { result ≡ every (limit_test clocks) (limits_of model.now location) }
{
    (0..CLOCKS).all(|k| limit_met(model, location, (k + 1) as u32, clocks[k]))
}

// The value of variable i: 0, or a clock.
fn value(clocks: Clocks, i: usize) -> u32
    requires { i ≤ 4 }
    ensures { result ≡ nth1D clocks i 0 }
{
    if i == 0 { 0 } else { clocks[i - 1] }
}

// Is x minus y at most what the guard's bound of i minus j says, if there is one?
fn bound_met(model: &ModelTable, edge: u32, i: u32, j: u32, x: u32, y: u32) -> bool
    requires { (x ≤ clock_most) × (y ≤ clock_most) }
    ensures { result ≡ bound_met (bound_in model.now.cells.now edge i j) x y }
{
    match model_table::bound(model.cells, edge, i, j) {
        Some(c) => x as i32 - y as i32 <= c,
        None => true,
    }
}

// Does the guard's bound number x, in the rows of 5, hold of the clocks?
fn row_met(model: &ModelTable, edge: u32, clocks: Clocks, x: usize) -> bool
    requires { (x < 25) × UpToEnd clocks }
    ensures { result ≡ bound_met (bound_in model.now.cells.now edge (x / 5) (x % 5)) (nth1D clocks (x / 5) 0) (nth1D clocks (x % 5) 0) }
{
    let i = x / 5;
    let j = x % 5;
    bound_met(
        model,
        edge,
        i as u32,
        j as u32,
        value(clocks, i),
        value(clocks, j),
    )
}

// Does the guard of an edge hold of the clocks?
pub(crate) fn guard_holds(model: &ModelTable, edge: u32, clocks: Clocks) -> bool
    requires { UpToEnd clocks }
    ensures { result ≡ every (bound_test clocks) (guard_of model.now.cells.now edge) }
{
    (0..25).all(|x| row_met(model, edge, clocks, x))
}

// The clocks after the resets of an edge.
pub(crate) fn reset(model: &[u32], edge: u32, clocks: Clocks) -> Clocks
    ensures { result ≡ reset_all (resets_of model.now edge) clocks }
{
    let mut after = clocks;
    for k in 0..CLOCKS {
        if model_table::reset(model, edge, (k + 1) as u32) {
            after[k] = 0;
        }
    }
    after
}
