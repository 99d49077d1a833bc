// For programs on files: a file's bytes, and the printed line of two texts.
#![tactic(auto)]

ghost use Rattle.io.specs.Counts.{IsPrefixLen};

use std::io::Read;
use std::rt::Files;
use std::{fs, io};

// The file's bytes into the room until it ends, a read fails or the room is full, and how many. It goes on
// by as many bytes as a read brought, so it is no loop over a range.
fn read_full<R: Read>(file: &mut R, room: &mut [u8]) -> usize
    ensures { IsPrefixLen result room.new }
{
    let mut n = 0;
    while n < room.len() {
        match file.read(&mut room[n..]) {
            Ok(0) | Err(_) => break,
            Ok(more) => n += more,
        }
    }
    n
}

// Whether the file has no more bytes: a read that fails says no.
fn ends<R: Read>(file: &mut R) -> bool {
    let mut more = [0u8; 1];
    matches!(file.read(&mut more), Ok(0))
}

/// The file's bytes into the room, and how many. Let the room have one byte more than a text may have, so
/// that a longer file is seen as longer. A file that can't be read to its end counts as empty.
pub fn read_file<R: Files>(rt: &R, name: &str, room: &mut [u8]) -> usize
    ensures { IsPrefixLen result room.new }
{
    let Ok(mut file) = fs::open(rt, name) else {
        return 0;
    };
    let n = read_full(&mut file, room);
    if n == room.len() || ends(&mut file) {
        n
    } else {
        0
    }
}

/// The line of the check of two texts, and a line feed. No line is longer than the buffer. What is written to
/// standard output stands outside, so no clause says that the line is printed; `console::line` promises its bytes.
pub fn print_line(rt: &impl Print, model: &[u8], zones: &[u8]) -> io::Result<()> {
    let mut buffer = [0u8; 569];
    let told = console::check_texts(model, zones);
    if let Ok(n) = console::line(told, &mut buffer) {
        rt.write_all(&buffer[..n])?;
        rt.write_all(b"\n")?;
    }
    Ok(())
}
