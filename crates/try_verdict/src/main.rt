// Reads pairs of a model's text and a proposal's text from standard input, each text behind its length in
// four bytes, high byte first, and prints for each pair what the check answers. Before them, its answers
// to tables that no text gives.
#![tactic(auto)]

mod input;
mod longest;
mod print;
mod tables;

use input::next_text;

// The check's answer to two tables.
pub(crate) fn show_check(model: &[u32], zones: &[u32]) {
    print::show(verdict::check(model, zones), model_table::clocks(model));
}

fn show_proposal(model: &[u32], text: &[u8]) {
    let mut zones = [0u32; 47023];
    match zone_text::read_proposal(model, text, &mut zones) {
        Err(refusal) => print::refusal(2, refusal),
        Ok(()) => show_check(model, &zones),
    }
}

fn show(model_text: &[u8], text: &[u8]) {
    let mut model = [0u32; 1092];
    match model_text::read_model(model_text, &mut model) {
        Err(refusal) => print::refusal(1, refusal),
        Ok(()) => show_proposal(&model, text),
    }
}

// At most a thousand pairs, so that it ends whatever standard input is. Both texts of a pair are read even if the first is not there.
fn main() {
    tables::show_tables();
    longest::show_longest();
    let mut first = [0u8; 65536];
    let mut second = [0u8; 65536];
    for _ in 0..1000 {
        let n = next_text(&mut first);
        let k = next_text(&mut second);
        if let (Some(n), Some(k)) = (n, k) {
            show(&first[..n], &second[..k]);
        }
    }
}
