// Reads `model.txt` and `zones.txt` in the folder that it is run in, and prints the line of the check and a line feed. A file that can't be
// read counts as empty.
#![tactic(auto)]

use files::read_file;
use std::io;

// The line of the check of two texts, and a line feed. No line is longer than the buffer. zonecheck, examples and replay each have
// these lines, so what a program prints is read in the program; `files::print_line` has them for others.
fn print_line(rt: &impl Print, model: &[u8], zones: &[u8]) -> io::Result<()> {
    let mut buffer = [0u8; 569];
    let told = console::check_texts(model, zones);
    if let Ok(n) = console::line(told, &mut buffer) {
        rt.write_all(&buffer[..n])?;
        rt.write_all(b"\n")?;
    }
    Ok(())
}

fn main(rt: HostRuntime) -> io::Result<()> {
    let mut model = [0u8; 65536];
    let mut zones = [0u8; 65536];
    let n = read_file(&rt, "model.txt", &mut model);
    let k = read_file(&rt, "zones.txt", &mut zones);
    print_line(&rt, &model[..n], &zones[..k])
}
