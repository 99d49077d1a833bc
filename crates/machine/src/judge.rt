// Which states may be lent: each clock, each job, each cell that is not used.
ghost use Rattle.std.specs.Prelude.{◌≡◌, map, ℕ, ◌≤◌, ◌<◌, ◌&&◌, ltb, leb, eqb, take};
ghost use Rattle.std.specs.List.{list_all};
ghost use Rattle.meaning.specs.Text.ModelReader.{Given};
ghost use Rattle.meaning.specs.Text.ModelTable.{clocks, locations};
ghost use Rattle.meaning.specs.Zones.Proper.{fits};
ghost use Rattle.model_table.specs.Held.{model_of};
ghost use Rattle.machine.specs.Stands.{task_of, Lendable};
ghost use Rattle.machine.specs.Promise.{UsableState};
ghost use Rattle.machine.specs.ByCell.{clocks_right, timely, unused, jobs_right, Tells};

use super::clocks::within_end;
use super::queue::{Queue, tasks_of};
use super::{CLOCK_MOST, Clocks, JOBS, Job, State};
use model_table::ModelTable;

// Is each of these clocks 0?
fn all_zero(clocks: &[u32]) -> bool
    ensures { result ≡ list_all (λ (c : ℕ). eqb c 0) clocks.now }
{
    clocks.iter().all(|&clock| clock == 0)
}

// Is none of the first n clocks above the end, and each other 0?
fn clocks_right(clocks: Clocks, n: usize) -> bool
    requires { n ≤ 4 }
    ensures { result ≡ clocks_right clocks n }
{
    within_end(&clocks[..n], CLOCK_MOST) && all_zero(&clocks[n..])
}

// Has the job work and time left?
pub(crate) fn is_timely(model: &[u32], job: Job) -> bool
    ensures { result ≡ timely model.now job }
{
    job.done < model_table::work(model, job.task)
        && job.age < model_table::deadline(model, job.task)
}

// Has each of these jobs work and time left?
fn all_timely(model: &[u32], jobs: &[Job]) -> bool
    ensures { result ≡ list_all (timely model.now) jobs.now }
{
    jobs.iter().all(|&job| is_timely(model, job))
}

// Is each of these cells unused?
fn all_unused(jobs: &[Job]) -> bool
    ensures { result ≡ list_all unused jobs.now }
{
    jobs.iter().all(|&job| job == Job::NONE)
}

// Has each job of the queue work and time left, and is each cell behind them unused?
fn jobs_right(model: &[u32], queue: Queue) -> bool
    ensures { result ≡ jobs_right model.now queue.jobs queue.count }
{
    all_timely(model, queue.order()) && all_unused(&queue.jobs[queue.count..])
}

// Is the location one of the model, and is there room for so many jobs?
fn numbers_right(model: &[u32], location: u32, count: u32) -> bool
    ensures { result ≡ (ltb 0 location && (leb location (locations model.now) && leb count 6)) }
{
    0 < location && location <= model_table::locations(model) && count as usize <= JOBS
}

// Are the cells of a state with these numbers right?
#[tactic(auto, using(model_table::proofs::PartLaws::clocks_is))]
fn cells_right(model: &ModelTable, state: State) -> bool
    requires { state.count ≤ 6 }
    ensures { result ≡ (clocks_right state.clocks (clocks model.now.cells.now) && (jobs_right model.now.cells.now state.jobs state.count && fits (model_of model.now) (take state.count (map task_of state.jobs)))) }
{
    let jobs = state.jobs;
    let count = state.count as usize;
    let tasks = tasks_of(jobs);
    clocks_right(state.clocks, model_table::clocks(model.cells) as usize)
        && jobs_right(model.cells, Queue { jobs, count })
        && home::fits(model, &tasks[..count])
}

// May the state be lent?
pub fn is_lendable(model: &ModelTable, state: State) -> bool
    ensures { Tells result (Lendable (model_of model.now) state) }
{
    numbers_right(model.cells, state.location, state.count) && cells_right(model, state)
}

// Is the table one that a text gives?
pub(crate) fn is_given(model: &[u32]) -> bool
    ensures { Tells result (Given model.now) }
{
    model_text::is_model(model)
}

// May the state be lent with this table?
pub(crate) fn is_usable(model: &[u32], state: State) -> bool
    ensures { Tells result (UsableState model.now state) }
{
    is_given(model) && is_lendable(&ModelTable { cells: model }, state)
}
