// Reads pairs of a model's text and a proposal's text from standard input, each text behind its length in four bytes, high byte first, and
// prints the line of the check for each pair.
#![tactic(auto)]

ghost use Rattle.std.specs.Prelude.{IfSome};
ghost use Rattle.io.specs.Counts.{IsPrefixLen};

// Where the cases come from.
const STDIN_FILENO: i32 = 0;

// Where what is printed goes.
const STDOUT_FILENO: i32 = 1;

// The next text of standard input into the room, and its length. try_verdict, try_zones and try_model have these
// nine lines too: a library for one function of four tests would be no plainer.
fn next_text(room: &mut [u8]) -> Option<usize>
    ensures { IfSome result (λ n. IsPrefixLen n room.new) }
{
    let mut head = [0u8; 4];
    if io::read_full(STDIN_FILENO, &mut head) != 4 {
        return None;
    }
    let n = u32::from_be_bytes(head) as usize;
    if room.len() < n || io::read_full(STDIN_FILENO, &mut room[..n]) != n {
        return None;
    }
    Some(n)
}

// The line of the two texts, and a line feed. No line is longer than the buffer.
fn print_line(model: &[u8], zones: &[u8]) {
    let mut buffer = [0u8; 569];
    let told = console::check_texts(model, zones);
    if let Ok(n) = console::line(told, &mut buffer) {
        io::write_all(STDOUT_FILENO, &buffer[..n]);
        io::write_all(STDOUT_FILENO, b"\n");
    }
}

// The line of the next pair, if there is one.
fn print_next(first: &mut [u8], second: &mut [u8]) -> Option<()> {
    let n = next_text(first)?;
    let k = next_text(second)?;
    print_line(&first[..n], &second[..k]);
    Some(())
}

// The longest text of the cases has 70,000 bytes.
fn main() {
    let mut first = [0u8; 70000];
    let mut second = [0u8; 70000];
    for _ in 0..8000 {
        if print_next(&mut first, &mut second).is_none() {
            break;
        }
    }
}
