// An answer as a line: OK and the number tried; or NO, the obligation's number, zone, place and kind, for a
// miss its position, for a broken bound its two variables, and behind a colon the state: location, clocks,
// then task, done and age per job; or RF, 0 and the refusal's number. An exclamation mark follows if
// something of the state that says nothing isn't 0.
use machine::{Job, State};
use refusals::{Reason, Refusal};
use verdict::{Failure, Fault, Verdict};

// Where what is printed goes.
const STDOUT_FILENO: i32 = 1;

// Bytes as they are.
fn text(s: &[u8]) {
    io::write_all(STDOUT_FILENO, s);
}

// A number, behind a space.
fn number(n: u64) {
    text(b" ");
    io::print_decimal(STDOUT_FILENO, n);
}

// A reader's refusal: 1 for the model's or 2 for the proposal's.
pub(crate) fn refusal(which: u64, refusal: Refusal) {
    text(b"RF");
    number(which);
    number(u32::from(refusal.reason) as u64);
    number(refusal.place as u64);
    text(b"\n");
}

// The kind's number, and what belongs to it.
fn kind(fault: Fault) {
    match fault {
        Fault::Late(position) => {
            number(1);
            number(position as u64);
        }
        Fault::Over => number(2),
        Fault::Unclaimed => number(3),
        Fault::Elsewhere => number(4),
        Fault::Breaks(i, j) => {
            number(5);
            number(i as u64);
            number(j as u64);
        }
    }
}

// Is a cell of the state behind its n clocks or its jobs other than 0?
fn is_stray(state: State, n: usize) -> bool {
    let clocks = state.clocks;
    let jobs = state.jobs;
    let none = Job {
        task: 0,
        done: 0,
        age: 0,
    };
    clocks.iter().skip(n).any(|clock| *clock != 0)
        || jobs
            .iter()
            .skip(state.count as usize)
            .any(|job| *job != none)
}

// The state with n clocks.
fn show_state(state: State, n: usize) {
    text(b" :");
    number(state.location as u64);
    let clocks = state.clocks;
    for clock in clocks.iter().take(n) {
        number(*clock as u64);
    }
    let jobs = state.jobs;
    for job in jobs.iter().take(state.count as usize) {
        number(job.task as u64);
        number(job.done as u64);
        number(job.age as u64);
    }
    if is_stray(state, n) {
        text(b" !");
    }
}

// The obligation that fails.
fn show_failed(failure: Failure, n: usize) {
    text(b"NO");
    number(failure.number as u64);
    number(failure.zone as u64);
    number(failure.place as u64);
    kind(failure.fault);
    show_state(failure.state, n);
}

// The answer on a model with n clocks.
pub(crate) fn show(answer: Result<Verdict, Reason>, n: u32) {
    match answer {
        Ok(Verdict::Accepted(tried)) => {
            text(b"OK");
            number(tried as u64);
        }
        Ok(Verdict::Failed(failure)) => show_failed(failure, n as usize),
        Err(reason) => {
            text(b"RF 0");
            number(u32::from(reason) as u64);
        }
    }
    text(b"\n");
}
