// A reply as a line: what the step came to, the location, the clocks, and task, done and age of each job.
ghost use Rattle.std.specs.Prelude.{◌+◌, ◌≤◌};

use machine::{Clocks, Job, Jobs, Outcome, Reply};

// Where what is printed goes.
const STDOUT_FILENO: i32 = 1;

pub(crate) fn text(s: &[u8]) {
    io::write_all(STDOUT_FILENO, s);
}

pub(crate) fn number(n: u32) {
    text(b" ");
    io::print_decimal(STDOUT_FILENO, n as u64);
}

fn outcome(came: Outcome) {
    match came {
        Outcome::Went => text(b"OK"),
        Outcome::Missed(position) => {
            text(b"MISS");
            number(position);
        }
        Outcome::Overflowed => text(b"OVER"),
        Outcome::Refused(reason) => {
            text(b"RF");
            number(reason.into());
        }
    }
}

fn clocks(values: Clocks) {
    for value in values {
        number(value);
    }
}

fn job(job: Job) {
    number(job.task);
    number(job.done);
    number(job.age);
    text(b" ;");
}

fn jobs(queue: Jobs, count: u32) {
    for &each in queue.iter().take(count as usize) {
        job(each);
    }
}

pub(crate) fn show(reply: Reply) {
    let state = reply.state;
    outcome(reply.outcome);
    text(b" /");
    number(state.location);
    text(b" /");
    clocks(state.clocks);
    text(b" /");
    jobs(state.jobs, state.count);
    text(b"\n");
}

// The running sum with one job more, printed if it has work done.
fn sum_with(sum: u64, job: Job) -> u64
    requires { sum ≤ 100000000000 }
    ensures { result ≤ sum + 4294967296 }
{
    let next = sum + job.done as u64;
    if 0 < job.done {
        text(b" ");
        io::print_decimal(STDOUT_FILENO, next);
    }
    next
}

// The running sums of the jobs that have work done.
pub(crate) fn sums(queue: Jobs) {
    let mut sum = 0;
    text(b"sums");
    for job in queue {
        sum = sum_with(sum, job);
    }
    text(b"\n");
}
