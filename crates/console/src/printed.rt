// The printed line, into a lent buffer.
// Assumes nothing.
ghost use Rattle.std.specs.Prelude.{◌≤◌, length, IfOk};
ghost use Rattle.console.specs.Wrote.{WroteLine};

use crate::room::write_line;
use crate::told::Told;
use refusals::{Reason, Refusal};

// No line is longer: two bytes, and 27 fields of at most 21.
const LONGEST: usize = 569;

// The printed line of what is told, without a line feed, at the buffer's beginning, and its length: refused
// if the buffer is shorter.
pub fn line(told: Told, buffer: &mut [u8]) -> Result<usize, Refusal>
    ensures wrote { WroteLine told buffer.old result buffer.new }
    ensures fits { IfOk result (λ n. n ≤ length buffer.new) }
{
    let mut room = [0; LONGEST];
    let n = write_line(&mut room, told);
    if buffer.len() < n {
        return Err(Refusal {
            reason: Reason::WrongRoom,
            place: 0,
        });
    }
    buffer[..n].copy_from_slice(&room[..n]);
    Ok(n)
}
