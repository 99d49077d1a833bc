// Runs of a model: a script of ticks and edges, and a thousand steps.
use super::print;
use machine::{Outcome, Reply, State};

// n ticks, or as many as go well and one more.
fn ticks(table: &[u32], state: State, n: u32) -> Reply {
    let mut reply = machine::tick(table, state);
    for _ in 1..n {
        if reply.outcome != Outcome::Went {
            return reply;
        }
        reply = machine::tick(table, reply.state);
    }
    reply
}

// A number below 1,000 is that many ticks; from 1,000 on it is an edge's number and 1,000.
fn act(table: &[u32], state: State, what: u32) -> Reply {
    if what < 1000 {
        return ticks(table, state, what);
    }
    machine::edge(table, state, what - 1000)
}

fn play(table: &[u32], script: &[u32]) {
    let mut reply = machine::start(table);
    print::show(reply);
    for &what in script {
        reply = act(table, reply.state, what);
        print::show(reply);
    }
}

// The table of a text; one that is refused leaves it all zero.
pub(crate) fn table_of(text: &[u8]) -> [u32; 1092] {
    let mut table = [0; 1092];
    let _ = model_text::read_model(text, &mut table);
    table
}

// The model of a text, and a script from its start.
pub(crate) fn run(name: &[u8], text: &[u8], script: &[u32]) {
    print::text(name);
    play(&table_of(text), script);
}

// The location's edge if its guard holds, else a tick.
fn either(table: &[u32], state: State) -> Reply {
    let reply = machine::edge(table, state, state.location);
    if matches!(reply.outcome, Outcome::Refused(_)) {
        return machine::tick(table, state);
    }
    reply
}

// A thousand steps of a model with two locations: the last reply.
fn thousand_of(table: &[u32]) -> Reply {
    let mut reply = machine::start(table);
    for _ in 0..1000 {
        reply = either(table, reply.state);
        if reply.outcome != Outcome::Went {
            return reply;
        }
    }
    reply
}

pub(crate) fn thousand() {
    let text =
        b"PO 2\nCK 2\nTK 5 12 0\nTK 4 9 0\nLO 1\nIV 1 7\nLO 2\nIV 1 8\nED 1 2\nGU 0 1 -5\nRS 1\nED 2 1\nGU 0 1 -6\nRS 1\nEN\n";
    print::text(b"a thousand steps\n");
    print::show(thousand_of(&table_of(text)));
}
