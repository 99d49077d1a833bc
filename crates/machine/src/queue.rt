// The queue of a state: work and ages, the head that finishes, the first job that is late, and releases.
ghost use Rattle.std.specs.Prelude.{◌≡◌, Bool, map, ◌+◌, ◌-◌, ◌≤◌, ◌<◌, length, take, position};
ghost use Rattle.meaning.specs.Machine.Tick.{finishes, served, is_late};
ghost use Rattle.meaning.specs.Machine.Place.{place_from, place_of};
ghost use Rattle.meaning.specs.Machine.Release.{put, put_all};
ghost use Rattle.model_table.specs.Held.{model_of};
ghost use Rattle.machine.specs.Stands.{job_of, task_of, no_job, padded, cells_of};
ghost use Rattle.machine.specs.ByCell.{sooner_in, shorter_in, beats_in, YoungJob, Young, older_cell, worked_cell};

use super::{JOBS, Job, Jobs};
use home::Tasks;
use model_table::{ModelTable, Policy};

// The jobs of a queue, head first, and how many they are; the cells behind them are `Job::NONE`.
#[derive(Clone, Copy)]
pub(crate) struct Queue {
    pub jobs: Jobs,
    pub count: usize,
    ghost few: { count ≤ 6 },
}

impl Queue {
    ghost use Rattle.machine.specs.Queues.{standing, Holds};

    // The jobs, head first.
    pub(crate) fn order(&self) -> &[Job]
        ensures { result.now ≡ take self.now.count self.now.jobs }
    {
        &self.jobs[..self.count]
    }

    // Is this tick the head's last? `Young` stays a clause, here and below: only a tick asks for it, and a queue that releases fill is not asked.
    pub(crate) fn finishes(self, model: &ModelTable) -> bool
        requires { Young self.jobs }
        ensures { result ≡ finishes (model_of model.now) (standing self) }
    {
        if self.count == 0 {
            return false;
        }
        let head = self.jobs[0];
        model_table::work(model.cells, head.task) <= head.done + 1
    }

    // The jobs one tick older.
    fn aged(self) -> Jobs
        requires { Young self.jobs }
        ensures { result ≡ padded no_job 6 (map older_cell (take self.count self.jobs)) }
    {
        let mut aged = [Job::NONE; JOBS];
        for k in 0..self.count {
            aged[k] = older(self.jobs[k]);
        }
        aged
    }

    // The queue after a tick at which the head finishes and leaves, or goes on.
    pub(crate) fn served(self, finishes: bool) -> Queue
        requires { Young self.jobs }
        ensures { Holds result (served finishes (standing self)) }
    {
        let mut jobs = self.aged();
        if finishes {
            return Queue {
                jobs: home::without_first(jobs, Job::NONE),
                count: self.count.saturating_sub(1),
            };
        }
        if 0 < self.count {
            jobs[0] = worked(self.jobs[0]);
        }
        Queue {
            jobs,
            count: self.count,
        }
    }

    // The first job that is late, by how many are in front of it.
    pub(crate) fn first_late(&self, model: &ModelTable) -> Option<usize>
        ensures { result ≡ position (λ (j : Job). is_late (model_of model.now) (job_of j)) (take self.now.count self.now.jobs) }
    {
        self.order().iter().position(|&job| is_late(model, job))
    }

    // How many jobs stay ahead of a new job of a task: from its first place on it goes in front of the first that it beats, else last.
    fn place_of(self, model: &ModelTable, task: u32) -> usize
        ensures { result ≡ place_of (model_of model.now) task (standing self) }
    {
        let tasks = tasks_of(self.jobs);
        let from = home::first_place(model, task, &tasks[..self.count]);
        let beaten = beaten_by(model.cells, task, self.jobs);
        ahead(&beaten[..self.count], from)
    }

    // The queue with a new job of a task at its place.
    fn put(self, model: &ModelTable, task: u32) -> Queue
        requires { self.count < 6 }
        ensures { Holds result (put (model_of model.now) task (standing self)) }
    {
        let new = Job {
            task,
            done: 0,
            age: 0,
        };
        let at = self.place_of(model, task);
        Queue {
            jobs: home::inserted(self.jobs, self.count, new, at, Job::NONE),
            count: self.count + 1,
        }
    }

    // The queue with a new job of each task that is released, one after the other.
    pub(crate) fn put_all(self, model: &ModelTable, releases: &[u32]) -> Queue
        requires room { self.count + length releases.now ≤ 6 }
        requires held { self.jobs ≡ cells_of (standing self) }
        ensures { Holds result (put_all (model_of model.now) releases.now (standing self)) }
    {
        let mut queue = self;
        for &task in releases {
            queue = queue.put(model, task);
        }
        queue
    }
}

// A job one tick older.
fn older(job: Job) -> Job
    requires { YoungJob job }
    ensures { result ≡ older_cell job }
{
    Job {
        task: job.task,
        done: job.done,
        age: job.age + 1, // kept on: only a new job starts at 0
    }
}

// The head that goes on: one tick older, and with one tick more of work done.
fn worked(job: Job) -> Job
    requires { YoungJob job }
    ensures { result ≡ worked_cell job }
{
    Job {
        task: job.task,
        done: job.done + 1,
        age: job.age + 1,
    }
}

// Has the job work left and no time left?
fn is_late(model: &ModelTable, job: Job) -> bool
    ensures { result ≡ is_late (model_of model.now) (job_of job) }
{
    job.age == model_table::deadline(model.cells, job.task)
}

// Has a new job of a task fewer ticks left to its deadline than a queued job? At equality the larger number decides.
#[tactic(auto, using(crate::proofs::JobLaws::sooner_older, crate::proofs::JobLaws::sooner_tie, crate::proofs::JobLaws::sooner_left))]
fn is_sooner(model: &[u32], task: u32, job: Job) -> bool
    ensures { result ≡ sooner_in model.now task job }
{
    let other = job.task;
    let age = job.age;
    let due = model_table::deadline(model, other);
    if due < age {
        return false;
    }
    let left = due - age;
    let fresh = model_table::deadline(model, task);
    if fresh == left {
        other < task
    } else {
        fresh < left
    }
}

// Has a new job of a task less work than a queued job still owes?
#[tactic(auto, using(crate::proofs::JobLaws::shorter_over, crate::proofs::JobLaws::shorter_owed))]
fn is_shorter(model: &[u32], task: u32, job: Job) -> bool
    ensures { result ≡ shorter_in model.now task job }
{
    let work = model_table::work(model, job.task);
    let done = job.done;
    if work < done {
        return false;
    }
    model_table::work(model, task) < work - done // at equality the queued job stays ahead
}

// Does a new job of a task beat a queued job? By the larger priority, by fewer ticks left, or by less work.
pub(crate) fn beats(model: &[u32], task: u32, job: Job) -> bool
    ensures { result ≡ beats_in model.now task job }
{
    // a table that is right has a policy
    match model_table::policy(model).unwrap_or(Policy::ShortestJob) {
        Policy::FixedPriority => model_table::priority(model, job.task)
            < model_table::priority(model, task),
        Policy::EarliestDeadline => is_sooner(model, task, job),
        Policy::ShortestJob => is_shorter(model, task, job),
    }
}

// The tasks of the jobs.
pub fn tasks_of(jobs: Jobs) -> Tasks
    ensures { result ≡ map task_of jobs }
{
    jobs.map(|job| job.task)
}

// Which of the jobs does a new job of a task beat?
fn beaten_by(model: &[u32], task: u32, jobs: Jobs) -> [bool; JOBS]
    ensures { result ≡ map (beats_in model.now task) jobs }
{
    jobs.map(|job| beats(model, task, job))
}

// The first that is true, by how many are in front of it.
fn first_true(tests: &[bool]) -> Option<usize>
    ensures { result ≡ position (λ (b : Bool). b) tests.now }
{
    tests.iter().position(|&test| test)
}

// How many of the jobs stay ahead: from a place on those that are not beaten.
#[tactic(auto, using(crate::proofs::Searches::ahead_is))]
pub(crate) fn ahead(beaten: &[bool], from: usize) -> usize
    requires { from ≤ length beaten.now }
    ensures place { result ≡ place_from from (λ (b : Bool). b) beaten.now }
    ensures within { result ≤ length beaten.now }
{
    let rest = &beaten[from..];
    from + first_true(rest).unwrap_or(rest.len())
}
