// Runs the printed line on answers that no text gets and on buffers that are too short, and the fault's part on
// texts with known faults. A bar stands behind what is shown, so that an empty part is seen.
#![tactic(auto)]

use console::Told;
use machine::{Job, State};
use refusals::Refusal;
use verdict::{Failure, Fault, Verdict};

// Bytes, and a bar.
fn show(bytes: &[u8]) {
    io::write_all(1, bytes);
    io::write_all(1, b"|\n");
}

// A refusal's number.
fn show_number(refusal: Refusal) {
    io::print_decimal(1, u32::from(refusal.reason) as u64);
}

// The line, in a buffer that is long enough.
fn show_line(told: Told) {
    let mut buffer = [46u8; 600];
    match console::line(told, &mut buffer) {
        Ok(n) => show(&buffer[..n]),
        Err(refusal) => {
            show_number(refusal);
            io::write_all(1, b" refused\n");
        }
    }
}

// The line's length or the refusal, and what is in a buffer of eight bytes then.
fn show_short(told: Told) {
    let mut buffer = [46u8; 8];
    match console::line(told, &mut buffer) {
        Ok(n) => {
            io::print_decimal(1, n as u64);
        }
        Err(refusal) => show_number(refusal),
    }
    io::write_all(1, b" ");
    show(&buffer);
}

// So many obligations are tried.
fn accepted(number: u32) -> Told {
    Told::Judged {
        clocks: 0,
        verdict: Verdict::Accepted(number),
    }
}

// An obligation that fails in a state with so many clocks and jobs; some are such as no check gives.
fn failed(clocks: u32, fault: Fault, count: u32) -> Told {
    let job = Job {
        task: 1,
        done: 2,
        age: 3,
    };
    Told::Judged {
        clocks,
        verdict: Verdict::Failed(Failure {
            number: 5,
            zone: 2,
            place: 1,
            fault,
            state: State {
                location: 1,
                clocks: [5, 6, 7, 4294967295],
                jobs: [job; 6],
                count,
            },
        }),
    }
}

// A refusal with these numbers.
fn refused(text: u32, number: u32, place: usize) -> Told {
    Told::Refused {
        text,
        number,
        place,
    }
}

// The part in which the fault of the two texts stands.
fn show_part(model: &[u8], proposal: &[u8]) {
    show(console::fault_part(model, proposal));
}

fn main() {
    show_line(accepted(5));
    show_line(failed(1, Fault::Breaks(1, 0), 0));
    show_line(failed(2, Fault::Late(1), 2));
    show_line(failed(4294967295, Fault::Over, 4294967295));
    show_line(refused(0, 13, 0));
    show_line(refused(2, 4294967295, 18446744073709551615));
    show_short(accepted(5));
    show_short(failed(1, Fault::Breaks(1, 0), 0));
    show_part(b"PO 2\nCK 1\nTK 2,5 4 0\nLO 1\n", b"");
    show_part(b"PO 2\nCK 1\nTK 5 4 0\nLO 1\nEN\n", b"");
    show_part(b"PO 2\nCK 1\nTK 02 4 0\nLO 1\nEN\n", b"");
    show_part(b"PO 2\nCK 1\nTK 0 4 0\nLO 1\nEN\n", b"");
    show_part(b"PO 2\nCK 1\nTK 2 4 0\nLO 1\nEN", b"");
    show_part(b"PO\nCK 1\nTK 2 4 0\nLO 1\nEN\n", b"");
    show_part(b"PO 9\nCK 1\nTK 2 4 0\nLO 1\nEN\n", b"ZN 1,1\n");
    show_part(b"PO 2\nCK 1\nTK 2 4 0\nLO 1\nEN\n", b"ZN 1,1\nEN\n");
    show_part(
        b"PO 2\nCK 1\nTK 2 4 0\nLO 1\nEN\n",
        b"ZN 1 1\nBD 1 1 0\nGO 0 0\nEN\n",
    );
    show_part(
        b"PO 2\nCK 1\nTK 2 4 0\nLO 1\nEN\n",
        b"ZN 1 1\nBD 1 0 0\nGO 0 0\nEN\n",
    );
    show_part(
        b"PO 2\nCK 1\nTK 2 4 0\nLO 1\nEN\n",
        b"ZN 1 1\nBD 1 0 0\nGO 0 0 0\nEN\n",
    );
}
