// Prints, by the library that programs on files have, the line of one model and three texts of zones: one that is accepted, one with a broken
// bound, and one that can't be read.
#![tactic(auto)]

use files::{print_line, read_file};
use std::io;

fn main(rt: HostRuntime) -> io::Result<()> {
    let mut model = [0u8; 65536];
    let mut zones = [0u8; 65536];
    let n = read_file(&rt, "model.txt", &mut model);
    for name in ["zones.txt", "broken.txt", "nowhere.txt"] {
        let k = read_file(&rt, name, &mut zones);
        print_line(&rt, &model[..n], &zones[..k])?;
    }
    Ok(())
}
