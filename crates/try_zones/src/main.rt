// Reads pairs of a model's text and a proposal's text from standard input, each text behind its
// length in four bytes, high byte first, and prints for each pair what the readers answer: OK, or RF,
// 1 for the model or 2 for the proposal, the refusal number and its place. A proposal that is read is
// written back, and has to be the same bytes.
#![tactic(auto)]

ghost use Rattle.std.specs.Prelude.{◌≡◌, ◌≤◌, length, IfSome};

use refusals::Refusal;

fn print_refusal(which: u64, refusal: Refusal) {
    io::write_all(1, b"RF ");
    io::print_decimal(1, which);
    io::write_all(1, b" ");
    io::print_decimal(1, u64::from(u32::from(refusal.reason)));
    io::write_all(1, b" ");
    io::print_decimal(1, refusal.place as u64);
    io::write_all(1, b"\n");
}

// Whether the first n bytes of what was written are the text.
fn print_same(written: &[u8], n: usize, text: &[u8]) {
    let answer: &[u8] = match written.get(..n) {
        None => b"too long\n",
        Some(front) if front == text => b"OK\n",
        Some(_) => b"other bytes\n",
    };
    io::write_all(1, answer);
}

fn write_back(model: &[u32], table: &[u32], text: &[u8]) {
    let mut buffer = [0u8; 65535];
    match zone_text::write_proposal(model, table, &mut buffer) {
        Err(refusal) => print_refusal(2, refusal),
        Ok(n) => print_same(&buffer, n, text),
    }
}

fn show_proposal(model: &[u32], text: &[u8]) {
    let mut table = [0u32; 47023];
    match zone_text::read_proposal(model, text, &mut table) {
        Err(refusal) => print_refusal(2, refusal),
        Ok(()) => write_back(model, &table, text),
    }
}

fn show(model_text: &[u8], text: &[u8]) {
    let mut model = [0u32; 1092];
    match model_text::read_model(model_text, &mut model) {
        Err(refusal) => print_refusal(1, refusal),
        Ok(()) => show_proposal(&model, text),
    }
}

// The next text of standard input into the room, and its length; none at the end, and where it has more bytes than the room.
fn next_text(room: &mut [u8]) -> Option<usize>
    ensures fits { IfSome result (λ n. n ≤ length room.new) }
{
    let mut head = [0u8; 4];
    if io::read_full(0, &mut head) != 4 {
        return None;
    }
    let n = u32::from_be_bytes(head) as usize;
    if room.len() < n || io::read_full(0, &mut room[..n]) != n {
        return None;
    }
    Some(n)
}

fn show_read(model: &[u32], text: &[u8], table: &mut [u32]) {
    if let Err(refusal) = zone_text::read_proposal(model, text, table) {
        print_refusal(2, refusal);
    }
}

fn show_written(model: &[u32], table: &[u32], buffer: &mut [u8]) {
    if let Err(refusal) = zone_text::write_proposal(model, table, buffer) {
        print_refusal(2, refusal);
    }
}

// Refusals that no text gets: 13 for a model's table that no text gives, 11 for a table one cell short,
// 13 for a table that no text gives, and 11 for a buffer one byte short of a text of 15 bytes.
fn show_rooms() {
    let text = b"ZN 1\nGO 0 0\nEN\n";
    let mut model = [0u32; 1092];
    let mut small = [0u32; 47022];
    let mut table = [0u32; 47023];
    let mut buffer = [0u8; 14];
    show_read(&model, text, &mut small);
    _ = model_text::read_model(b"PO 2\nCK 0\nTK 1 1 0\nLO 0\nEN\n", &mut model);
    show_read(&model, text, &mut small);
    show_written(&model, &table, &mut buffer);
    show_read(&model, text, &mut table);
    show_written(&model, &table, &mut buffer);
}

fn main() {
    show_rooms();
    let mut first = [0u8; 65536];
    let mut second = [0u8; 65536];
    for _ in 0..1000 {
        let texts = (next_text(&mut first), next_text(&mut second));
        if let (Some(n), Some(k)) = texts {
            show(&first[..n], &second[..k]);
        }
    }
}
