// Where each variable after a step comes from, and what is added to it.
ghost use Rattle.std.specs.Prelude.{◌≡◌, ℕ, ◌+◌, ◌≤◌, ◌<◌, suc, pos, get_or};
ghost use Rattle.meaning.specs.Text.ModelTable.{decode};
ghost use Rattle.meaning.specs.Inner.Plans.{slot_vars, from};
ghost use Rattle.step_reach.specs.Plans.{slots_in, plan_in, Adds};

use bounds::{Offsets, Sources};
use model_table::reset;
use slots::Slots;

// Of the variables of the slots, running sum and age by turns, the one behind i others.
fn slot_variable(slots: Slots, i: usize) -> usize
    requires { i < slots.count + slots.count }
    ensures { result ≡ get_or (slot_vars (slots_in slots)) i 0 }
{
    let slot = slots.slot(i / 2);
    if i % 2 == 0 { slot.sum } else { slot.age }
}

// Variable i comes from its slot, or it is a clock: one that the edge resets is variable 0.
fn comes_from(model: &[u32], clocks: usize, edge: u32, slots: Slots, i: usize) -> usize
    requires { (clocks ≡ (decode model.now).clocks) × (clocks ≤ 4) × (i < suc clocks + (slots.count + slots.count)) }
    ensures { result ≡ from (decode model.now) (plan_in model.now edge slots (pos 0) (pos 0)) i }
{
    if clocks < i {
        return slot_variable(slots, i - (clocks + 1));
    }
    if reset(model, edge, i as u32) { 0 } else { i }
}

// What is added to variable i: `time` to clocks and ages, `sum` to running sums.
fn added_to(clocks: usize, time: i32, sum: i32, i: usize) -> i32
    requires { (clocks ≤ 4) × (i < 17) }
    ensures { Adds clocks time sum i result }
{
    if i == 0 {
        return 0;
    }
    if i < clocks + 1 {
        return time;
    }
    if (i - (clocks + 1)) % 2 == 0 {
        sum
    } else {
        time
    }
}

// Where each of the first n variables comes from; 0 behind them.
pub(crate) fn all_from(model: &[u32], n: usize, clocks: usize, edge: u32, slots: Slots) -> Sources
    requires { (clocks ≡ (decode model.now).clocks) × (clocks ≤ 4) × (n ≡ suc clocks + (slots.count + slots.count)) }
    ensures { ((i : ℕ) → i < n → get_or result i 0 ≡ from (decode model.now) (plan_in model.now edge slots (pos 0) (pos 0)) i) × ((i : ℕ) → n ≤ i → get_or result i 0 ≡ 0) }
{
    let mut r = [0usize; 17];
    for i in 0..n {
        r[i] = comes_from(model, clocks, edge, slots, i);
    }
    r
}

// What is added to each of them; 0 behind them.
pub(crate) fn all_added(n: usize, clocks: usize, time: i32, sum: i32) -> Offsets
    requires { (clocks ≤ 4) × (n ≤ 17) }
    ensures { ((i : ℕ) → i < n → Adds clocks time sum i (get_or result i (pos 0))) × ((i : ℕ) → n ≤ i → get_or result i (pos 0) ≡ pos 0) }
{
    let mut r = [0i32; 17];
    for i in 0..n {
        r[i] = added_to(clocks, time, sum, i);
    }
    r
}
