// Reads texts from standard input, each behind its length in four bytes, high byte first, and prints
// for each what the model's reader answers: OK, or RF with the refusal number and its place. A text
// that is read is written back, and has to be the same bytes.
#![tactic(auto)]

use refusals::Refusal;

fn print_refusal(refusal: Refusal) {
    io::write_all(1, b"RF ");
    io::print_decimal(1, u64::from(u32::from(refusal.reason)));
    io::write_all(1, b" ");
    io::print_decimal(1, refusal.place as u64);
    io::write_all(1, b"\n");
}

// Whether the first n bytes of what was written are the text.
fn print_same(written: &[u8], n: usize, text: &[u8]) {
    let answer: &[u8] = match written.get(..n) {
        None => b"too long\n",
        Some(front) if front == text => b"OK\n",
        Some(_) => b"other bytes\n",
    };
    io::write_all(1, answer);
}

fn write_back(table: &[u32], text: &[u8]) {
    let mut buffer = [0u8; 32768];
    match model_text::write_model(table, &mut buffer) {
        Err(refusal) => print_refusal(refusal),
        Ok(n) => print_same(&buffer, n, text),
    }
}

fn show(text: &[u8]) {
    let mut table = [0u32; 1092];
    match model_text::read_model(text, &mut table) {
        Err(refusal) => print_refusal(refusal),
        Ok(()) => write_back(&table, text),
    }
}

// The next text of standard input, which has at most as many bytes as the lent room; false at the end.
fn show_next(room: &mut [u8]) -> bool {
    let mut head = [0u8; 4];
    if io::read_full(0, &mut head) != 4 {
        return false;
    }
    let n = u32::from_be_bytes(head) as usize;
    if room.len() < n {
        return false;
    }
    if io::read_full(0, &mut room[..n]) != n {
        return false;
    }
    show(&room[..n]);
    true
}

// Refusals that no text gets: 11 for a table one cell short, 13 for a table that no text gives, and 11
// for a buffer one byte short of a text of 27 bytes.
fn show_rooms() {
    let text = b"PO 2\nCK 0\nTK 1 1 0\nLO 0\nEN\n";
    let mut small = [0u32; 1091];
    if let Err(refusal) = model_text::read_model(text, &mut small) {
        print_refusal(refusal);
    }
    let mut table = [0u32; 1092];
    let mut buffer = [0u8; 26];
    if let Err(refusal) = model_text::write_model(&table, &mut buffer) {
        print_refusal(refusal);
    }
    _ = model_text::read_model(text, &mut table);
    if let Err(refusal) = model_text::write_model(&table, &mut buffer) {
        print_refusal(refusal);
    }
}

fn main() {
    show_rooms();
    let mut room = [0u8; 65536];
    for _ in 0..1000 {
        if !show_next(&mut room) {
            return;
        }
    }
}
