// The rules of a queue order, head first: how often a task stands in it, overflow, and the first place that a new job may take.
// They take what today's rules do not look at too, so that another rule moves no contract.
ghost use Rattle.std.specs.Prelude.{◌≡◌, ◌≤◌, List, ℕ, length};
ghost use Rattle.meaning.specs.Machine.Place.{behind};
ghost use Rattle.meaning.specs.Machine.Release.{overflows, overflows_any};
ghost use Rattle.meaning.specs.Zones.Proper.{fits};
ghost use Rattle.model_table.specs.Held.{model_of};
ghost use Rattle.home.specs.Asked.{often};

use model_table::ModelTable;

// How often the task stands in the queue order.
#[tactic(auto, using(crate::proofs::QueueLaws::often_counted))]
fn often_in(tasks: &[u32], task: u32) -> usize
    ensures counted { result ≡ often task tasks.now }
    ensures most { result ≤ length tasks.now }
{
    tasks.iter().filter(|other| task == **other).count()
}

// Does a release of the task overflow a queue of so many jobs, with so many of the task among them?
#[tactic(auto, using(meaning::proofs::Hooks::overflows_count))]
fn is_over(model: &ModelTable, task: u32, times: usize, queued: usize) -> bool
    ensures { (o : List ℕ) → often task o ≡ times → length o ≡ queued → result ≡ overflows (model_of model.now) task o }
{
    0 < times
}

// Does a release of one of the tasks, one after the other, overflow the queue?
pub fn overflows(model: &ModelTable, releases: &[u32], tasks: &[u32]) -> bool
    ensures { result ≡ overflows_any (model_of model.now) releases.now tasks.now }
{
    for (k, task) in releases.iter().enumerate() {
        // each release meets the queue with those before it
        let times = often_in(tasks, *task) + often_in(&releases[..k], *task);
        if is_over(model, *task, times, tasks.len() + k) {
            return true;
        }
    }
    false
}

// How many jobs of the queue a new job of the task always stays behind.
#[tactic(auto, using(meaning::proofs::Hooks::behind_is))]
pub fn first_place(model: &ModelTable, task: u32, tasks: &[u32]) -> usize
    ensures { result ≡ behind (model_of model.now) task tasks.now }
{
    0
}

// Would none of the tasks overflow a queue of those behind it?
pub fn fits(model: &ModelTable, tasks: &[u32]) -> bool
    ensures { result ≡ fits (model_of model.now) tasks.now }
{
    for (k, task) in tasks.iter().enumerate() {
        let behind = &tasks[k + 1..];
        if is_over(model, *task, often_in(behind, *task), behind.len()) {
            return false;
        }
    }
    true
}
