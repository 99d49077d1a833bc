// What a walk over a lent list of jobs has found: the work at each job.
ghost use Rattle.std.specs.Prelude.{◌≤◌, ◌<◌, IfOk, IfErr};

use super::judge::is_timely;
use super::queue::beats;
use super::{JOBS, Job};
use home::Tasks;
use refusals::Reason;

// What is found up to a place, if all is right so far: how many jobs, their tasks, and which of them are beaten.
#[derive(Clone, Copy)]
pub(crate) struct Seen {
    pub count: usize,
    pub tasks: Tasks, // apart from `beaten`, since the rules of a queue order take the tasks as a slice
    pub beaten: [bool; JOBS],
    ghost few: { count ≤ 6 },
}

impl Seen {
    ghost use Rattle.machine.specs.BySeen.{Start, Taken, Next, NotNext};

    // Nothing is seen yet.
    pub(crate) fn begin() -> Seen
        ensures { Start result }
    {
        Seen {
            count: 0,
            tasks: [0; JOBS],
            beaten: [false; JOBS],
        }
    }

    // A job that has work and time left is taken in behind those that are seen.
    fn with(self, model: &[u32], task: u32, job: Job) -> Seen
        requires { self.count < 6 }
        ensures { Taken model.now task self job result }
    {
        let mut tasks = self.tasks;
        tasks[self.count] = job.task;
        let mut beaten = self.beaten;
        beaten[self.count] = beats(model, task, job);
        Seen {
            count: self.count + 1,
            tasks,
            beaten,
        }
    }

    // The work at one job more: no queue that fits has more than six.
    pub(crate) fn look(self, model: &[u32], task: u32, job: Job) -> Result<Seen, Reason>
        ensures ok { IfOk result (Next model.now task self job) }
        ensures err { IfErr result (NotNext model.now self job) }
    {
        if self.count < JOBS && is_timely(model, job) {
            return Ok(self.with(model, task, job));
        }
        Err(Reason::NotProper)
    }
}
