// Replays of the plain machine: document 01's console checks of it, traces of the source documents, shortest job first, and a thousand
// steps.
#![tactic(auto)]

use machine::{Job, Outcome, Reply, State};

mod print;
mod runs;

use runs::{run, table_of};

// Location 1, no clocks, and two jobs.
fn with_jobs(first: Job, second: Job) -> State {
    let mut jobs = [Job::NONE; 6];
    jobs[0] = first;
    jobs[1] = second;
    State {
        location: 1,
        clocks: [0; 4],
        jobs,
        count: 2,
    }
}

// A queue of task 2 with 1 tick done and task 1 with 3, and a tick.
fn lend() {
    let table = table_of(b"PO 1\nCK 0\nTK 5 20 1\nTK 2 20 2\nLO 0\nEN\n");
    let first = Job {
        task: 2,
        done: 1,
        age: 1,
    };
    let second = Job {
        task: 1,
        done: 3,
        age: 4,
    };
    let state = with_jobs(first, second);
    print::text(b"P 3\n");
    print::show(Reply {
        outcome: Outcome::Went,
        state,
    });
    print::sums(state.jobs);
    let after = machine::tick(&table, state);
    print::show(after);
    print::sums(after.state.jobs);
}

// A queue whose jobs owe 24 and 35 and have 30 and 42 ticks left, and the release of a job with C 10 and D 100.
fn insert_third(name: &[u8], text: &[u8]) {
    let table = table_of(text);
    let first = Job {
        task: 1,
        done: 6,
        age: 10,
    };
    let second = Job {
        task: 2,
        done: 5,
        age: 8,
    };
    print::text(name);
    print::show(machine::edge(&table, with_jobs(first, second), 1));
}

// Shortest job first: 004's Example 3 times ten, and a new job of C 2 against one that owes 3, 2 and 1.
fn shortest() {
    insert_third(
        b"004 Example 3 times ten, EDF\n",
        b"PO 2\nCK 0\nTK 30 40 0\nTK 40 50 0\nTK 10 100 0\nLO 0\nLO 3\nED 1 2\nEN\n",
    );
    insert_third(
        b"004 Example 3 times ten, SJF\n",
        b"PO 3\nCK 0\nTK 30 40 0\nTK 40 50 0\nTK 10 100 0\nLO 0\nLO 3\nED 1 2\nEN\n",
    );
    let text = b"PO 3\nCK 0\nTK 5 20 0\nTK 2 20 0\nLO 1\nLO 2\nED 1 2\nEN\n";
    let longer = [2, 1001, 1, 7];
    run(b"SJF, 3 owed\n", text, &longer);
    let equal = [3, 1001, 1, 7];
    run(b"SJF, 2 owed\n", text, &equal);
    let shorter = [4, 1001, 1, 7];
    run(b"SJF, 1 owed\n", text, &shorter);
}

// Document 01's checks of the plain machine.
fn checks() {
    let two = [1, 1];
    run(b"P 1\n", b"PO 2\nCK 0\nTK 2 2 0\nLO 1\nEN\n", &two);
    let a = [4, 1001, 1, 1, 1001];
    run(
        b"P 2\n",
        b"PO 2\nCK 1\nTK 2 4 0\nLO 1\nIV 1 5\nED 1 1\nGU 0 1 -5\nRS 1\nEN\n",
        &a,
    );
    lend();
    let tie = [2, 1001];
    run(
        b"P 4\n",
        b"PO 2\nCK 0\nTK 3 5 0\nTK 2 3 0\nLO 1\nLO 2\nED 1 2\nEN\n",
        &tie,
    );
    run(
        b"P 5\n",
        b"PO 2\nCK 0\nTK 2 3 0\nTK 3 5 0\nLO 2\nLO 1\nED 1 2\nEN\n",
        &tie,
    );
    let three = [1001, 3];
    run(
        b"P 6\n",
        b"PO 1\nCK 0\nTK 2 3 1\nTK 2 2 2\nLO 1\nLO 2\nED 1 2\nEN\n",
        &three,
    );
    let four = [1001, 4];
    run(
        b"P 7\n",
        b"PO 1\nCK 0\nTK 2 4 1\nTK 2 2 2\nLO 1\nLO 2\nED 1 2\nEN\n",
        &four,
    );
}

// Traces of the source documents.
fn sources() {
    let queues = [5, 100, 1001, 5, 1002, 3, 1003, 1004, 100];
    run(
        b"003 times ten\n",
        b"PO 2\nCK 1\nTK 40 200 0\nTK 20 100 0\nTK 10 20 0\nTK 10 40 0\nLO 3\nLO 1\nLO 4\nLO 2\nED 1 2\nGU 0 1 -101\nRS 1\nED 2 3\nED 3 4\nRS 1\nED 4 1\nEN\n",
        &queues,
    );
    let dear = [2, 1001, 1, 1001, 5];
    run(
        b"000 section 2.1\n",
        b"PO 2\nCK 1\nTK 5 8 0\nTK 4 4 0\nTK 3 4 0\nLO 1\nIV 1 3\nLO 2\nLO 3\nED 1 2\nGU 0 1 -3\nED 1 3\nGU 0 1 -3\nEN\n",
        &dear,
    );
    let cheap = [3, 1002, 5];
    run(
        b"000 section 2.1, the cheaper task\n",
        b"PO 2\nCK 1\nTK 5 8 0\nTK 4 4 0\nTK 3 4 0\nLO 1\nIV 1 3\nLO 2\nLO 3\nED 1 2\nGU 0 1 -3\nED 1 3\nGU 0 1 -3\nEN\n",
        &cheap,
    );
    let late = [1001, 100, 1002, 53, 1];
    run(
        b"001 first example\n",
        b"PO 1\nCK 1\nTK 52 110 2\nTK 52 154 1\nLO 2\nLO 1\nED 1 2\nED 2 2\nGU 0 1 -100\nRS 1\nEN\n",
        &late,
    );
}

fn main() {
    checks();
    sources();
    shortest();
    runs::thousand();
}
