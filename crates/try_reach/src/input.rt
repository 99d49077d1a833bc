// Numbers and texts of standard input.
ghost use Rattle.std.specs.Prelude.{◌<◌, ◌≤◌, IfSome, length};

// What a digit's byte stands for: its low four bits.
fn digit(b: u8) -> u32
    ensures { result < 16 }
{
    u32::from(b % 16)
}

// The number that five digits write; digit by digit, since a fold's bound would grow with each.
fn number_of(field: [u8; 6]) -> u32
    ensures { result ≤ 166665 }
{
    let a = digit(field[0]);
    let b = digit(field[1]);
    let c = digit(field[2]);
    let d = digit(field[3]);
    let e = digit(field[4]);
    a * 10000 + b * 1000 + c * 100 + d * 10 + e
}

// The next number; at the end, one that is more than any room or table has. It stays a number there: a
// case that is cut off is still read to its last number.
pub(crate) fn next_number() -> u32
    ensures { result ≤ 166665 }
{
    let mut field = [0u8; 6];
    if io::read_full(0, &mut field) != 6 {
        return 166665;
    }
    number_of(field)
}

// The next text, behind its length, into the room, and its length; none at the end, or if it is longer
// than the room.
pub(crate) fn next_text(room: &mut [u8]) -> Option<usize>
    ensures { IfSome result (λ n. n ≤ length room.old) }
{
    let n = next_number() as usize;
    if room.len() < n || io::read_full(0, &mut room[..n]) != n {
        return None;
    }
    Some(n)
}
