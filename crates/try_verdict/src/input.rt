// Texts of standard input, each behind its length.
ghost use Rattle.std.specs.Prelude.{IfSome};
ghost use Rattle.io.specs.Counts.{IsPrefixLen};

// Where the cases come from.
const STDIN_FILENO: i32 = 0;

// The next text into the room, and its length; none at the end, or where the room is too short.
pub(crate) fn next_text(room: &mut [u8]) -> Option<usize>
    ensures { IfSome result (λ n. IsPrefixLen n room.new) }
{
    let mut head = [0u8; 4];
    if io::read_full(STDIN_FILENO, &mut head) != 4 {
        return None;
    }
    let n = u32::from_be_bytes(head) as usize;
    if room.len() < n || io::read_full(STDIN_FILENO, &mut room[..n]) != n {
        return None;
    }
    Some(n)
}
