// A reply as a line: RF and the refusal's number, or whether no state takes the step; location, length
// of the queue and its six cells; the rows of the bounds, where a star stands for "no bound"; and an
// exclamation mark if a cell that belongs to no two variables isn't 0.
ghost use Rattle.std.specs.Prelude.{◌<◌, ◌≤◌};

use bounds::Matrix;
use home::{Home, Tasks};
use refusals::Reason;
use step_reach::StepReply;
use zone::Zone;

// Where what is printed goes.
const STDOUT_FILENO: i32 = 1;

// Bytes as they are.
pub(crate) fn text(s: &[u8]) {
    io::write_all(STDOUT_FILENO, s);
}

// A number, behind a space.
fn number(n: u32) {
    text(b" ");
    io::print_decimal(STDOUT_FILENO, n as u64);
}

// A bound, behind a space.
fn bound(c: i32) {
    text(if c < 0 { b" -" } else { b" " });
    io::print_decimal(STDOUT_FILENO, u64::from(c.unsigned_abs()));
}

// An entry of the bounds: a bound, or a star, since "no bound" is no number.
fn entry(c: i32) {
    if c == Zone::NO_BOUND {
        text(b" *");
    } else {
        bound(c);
    }
}

// The bounds on variable i minus each variable.
fn row(m: &Matrix, n: usize, i: usize)
    requires { (n ≤ 17) × (i < 17) }
{
    text(b" |");
    for j in 0..n {
        entry(m[i * 17 + j]);
    }
}

// Every row, since a wrong one may stand anywhere.
fn rows(m: &Matrix, n: usize)
    requires { n ≤ 17 }
{
    for i in 0..n {
        row(m, n, i);
    }
}

// Does cell k belong to a variable that is not one of the first n?
fn outside(k: usize, n: usize) -> bool {
    n <= k / Zone::VARIABLES || n <= k % Zone::VARIABLES
}

// Is a cell that belongs to no two of the n variables other than 0?
fn stray(m: &Matrix, n: usize) -> bool {
    m.iter().enumerate().any(|(k, c)| outside(k, n) && *c != 0)
}

// All six cells, since those behind the queue have to be 0.
fn queue(tasks: Tasks) {
    for task in tasks {
        number(task);
    }
}

// Location and queue order after the step.
fn place(home: Home) {
    text(b" /");
    number(home.location);
    number(home.count);
    queue(home.tasks);
}

// How many variables the reply has bounds of: none if no state takes the step.
fn variables(reply: &StepReply, clocks: usize) -> usize
    ensures { result ≤ 17 }
{
    if reply.empty {
        return 0;
    }
    1 + clocks % 5 + 2 * (reply.home.count as usize % 7)
}

// A reply, with the cells that have to be 0 as well.
fn taken(reply: StepReply, clocks: usize) {
    text(if reply.empty { b"empty" } else { b"some" });
    place(reply.home);
    let n = variables(&reply, clocks);
    rows(&reply.bounds, n);
    if stray(&reply.bounds, n) {
        text(b" !");
    }
}

// A refusal: its number, and no location and no queue.
fn refused(reason: Reason) {
    text(b"RF");
    number(reason.into());
    place(Home {
        location: 0,
        tasks: [0; 6],
        count: 0,
    });
}

// What the step came to, as a line.
pub(crate) fn show(outcome: Result<StepReply, Reason>, clocks: usize) {
    match outcome {
        Ok(reply) => taken(reply, clocks),
        Err(reason) => refused(reason),
    }
    text(b"\n");
}
