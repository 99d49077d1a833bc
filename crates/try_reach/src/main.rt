// Reads cases from standard input, a zone and a step of a model each, and prints for each its name and
// what the zone's step replies.
//
// A case is, in this order: its name and the model's text, each behind its length in bytes; how many
// cells of the model's table are lent, a cell of it that is changed and what to (a cell that the table
// lacks: none is); the zone's location, the length of its queue, and six tasks; the number of its
// bounds, and for each one i, j and the bound with 50,000 added; the step's kind, edge and position;
// and the number of clocks. A number is five digits and one byte behind them.
#![tactic(auto)]

mod cases;
mod input;
mod print;

use cases::{next_step, next_table, next_zone};
use input::{next_number, next_text};

// The reply to the zone and the step that come next, over the first n cells of the table.
fn show_reply(table: &[u32], n: usize) {
    let zone = next_zone();
    let step = next_step();
    let clocks = next_number() as usize;
    if n <= table.len() {
        print::show(step_reach::step(&table[..n], zone, step), clocks);
    }
}

// The rest of a case, behind its name and the model's text.
fn show_case(text: &[u8]) {
    let n = next_number() as usize;
    let table = next_table(text);
    show_reply(&table, n);
}

// The next case; false at the end of standard input.
fn show_next(room: &mut [u8]) -> bool {
    let Some(k) = next_text(room) else {
        return false;
    };
    print::text(&room[..k]);
    let Some(n) = next_text(room) else {
        return false;
    };
    show_case(&room[..n]);
    true
}

// At most a thousand cases, so that it ends whatever standard input is.
fn main() {
    let mut room = [0u8; 4096];
    for _ in 0..1000 {
        if !show_next(&mut room) {
            break;
        }
    }
}
