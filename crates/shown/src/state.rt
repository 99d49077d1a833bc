// The state of a valuation, moved by a plan.
ghost use Rattle.std.specs.Prelude.{◌≡◌, suc, ◌+◌, ◌≤◌, ◌<◌, length};
ghost use Rattle.meaning.specs.Numbers.{over, under};
ghost use Rattle.meaning.specs.Zones.Zone.{Zone};
ghost use Rattle.meaning.specs.Zones.Steps.{Step};
ghost use Rattle.meaning.specs.Zones.Reached.{home_of_zone};
ghost use Rattle.model_table.specs.Held.{model_of};
ghost use Rattle.meaning.specs.Inner.Words.{tab_from};
ghost use Rattle.meaning.specs.Inner.Slots.{slots, sum_ahead, jobs_at, RangedZone};
ghost use Rattle.meaning.specs.Inner.Sources.{Source, moved_state};
ghost use Rattle.bounds.specs.Matrix.{Size};
ghost use Rattle.bounds.specs.Images.{var};
ghost use Rattle.machine.specs.Stands.{padded, cells_of, held};
ghost use Rattle.step_reach.specs.Plans.{Planned};
ghost use Rattle.shown.specs.Moving.{Movable, Moved, Rising, cell_at, ShownBy};

use bounds::{Offsets, Sources, Values};
use home::{sum_ahead, sum_at};
use machine::{Job, Jobs, State};
use model_table::{ModelTable, clocks};
use step_reach::Plan;

// One value, moved: what is added may be below 0, the value after it is not.
fn moved_value(value: u32, added: i32) -> u32
    requires value_bound { value ≤ 300000000 }
    requires size { Size added 100000 }
    requires added_bound { under added ≤ value + over added }
    ensures { result + under added ≡ value + over added }
{
    let sum = (value as i32) + added;
    sum as u32
}

// The values of the first n variables after the step; 0 behind them.
fn moved(n: usize, from: Sources, off: Offsets, x: Values) -> Values
    requires { Movable n from off x }
    ensures { Moved n from off x result }
{
    let mut r = [0u32; 17];
    for i in 0..n {
        r[i] = moved_value(x[from[i]], off[i]);
    }
    r
}

// The values of n clocks; 0 behind them.
fn clocks_of(v: Values, n: usize) -> [u32; 4]
    requires { n ≤ 4 }
    ensures { result ≡ padded 0 4 (tab_from 1 (var v) n) }
{
    let mut r = [0u32; 4];
    r[..n].copy_from_slice(&v[1..=n]);
    r
}

// The job of a task behind k others: what is done is its running sum less the one just ahead.
fn job_at(v: Values, n: usize, task: u32, k: usize) -> Job
    requires n_bound { (n ≤ 4) × (k < 6) }
    requires k_bound { var v (sum_ahead 0 (suc n) k) ≤ var v (suc n + (k + k)) }
    ensures { result ≡ cell_at v n task k }
{
    let sum = sum_at(n, k);
    let ahead = sum_ahead(n, k);
    let done = v[sum] - v[ahead];
    let age = v[sum + 1];
    Job { task, done, age }
}

// The jobs of a queue order, behind n clocks.
fn jobs_of(v: Values, n: usize, order: &[u32]) -> Jobs
    requires n_bound { (n ≤ 4) × (length order.now ≤ 6) }
    requires rising { Rising n (length order.now) v }
    ensures { result ≡ cells_of (jobs_at (var v) 0 (slots (suc n) order.now)) }
{
    let mut r = [Job {
        task: 0,
        done: 0,
        age: 0,
    }; 6];
    for (k, &task) in order.iter().enumerate() {
        r[k] = job_at(v, n, task, k);
    }
    r
}

// The state after the step of the valuation x from before it.
#[tactic(auto, using(zone_bounds::proofs::LoopLaws::clocks_small))]
pub(crate) fn shown_state(model: &ModelTable, plan: Plan, x: Values) -> State
    requires { ShownBy (model_of model.now) plan x }
    ensures { (z : Zone) (st : Step) → RangedZone (model_of model.now) z → Planned (model_of model.now) (home_of_zone z) st plan → Source (model_of model.now) z st (var x) → result ≡ held (moved_state (model_of model.now) z st (var x)) }
{
    let after = plan.home;
    let n = clocks(model.cells) as usize;
    let v = moved(plan.variables, plan.from, plan.off, x);
    let values = clocks_of(v, n);
    let jobs = jobs_of(v, n, after.order());
    State {
        location: after.location,
        clocks: values,
        jobs,
        count: after.count,
    }
}
