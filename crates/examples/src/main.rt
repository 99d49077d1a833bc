// Runs the examples: the arguments name the model and the zones of each in turn, and for each pair of files the name of the zones' file is
// printed, and the line of the check. The last pairs are of files that can't be read: not there, or a folder.
#![tactic(auto)]

ghost use Rattle.io.specs.Counts.{IsPrefixLen};

use files::read_file;
use std::rt::{Env, Files};
use std::{io, str};

// The bytes of a file into the room, and how many; none where its name is no text.
fn read_named<R: Files>(rt: &R, name: &[u8], room: &mut [u8]) -> usize
    ensures { IsPrefixLen result room.new }
{
    match str::from_utf8(name) {
        Ok(path) => read_file(rt, path, room),
        Err(_) => 0,
    }
}

// The line of the check of two texts, and a line feed. No line is longer than the buffer. zonecheck and replay have
// these lines too.
fn print_line(rt: &impl Print, model: &[u8], zones: &[u8]) -> io::Result<()> {
    let mut buffer = [0u8; 569];
    let told = console::check_texts(model, zones);
    if let Ok(n) = console::line(told, &mut buffer) {
        rt.write_all(&buffer[..n])?;
        rt.write_all(b"\n")?;
    }
    Ok(())
}

// The two files' line, behind the name of the zones' file.
fn run<R: Files + Print>(rt: &R, model_name: &[u8], zones_name: &[u8]) -> io::Result<()> {
    let mut model = [0u8; 65536];
    let mut zones = [0u8; 65536];
    let n = read_named(rt, model_name, &mut model);
    let k = read_named(rt, zones_name, &mut zones);
    rt.write_all(zones_name)?;
    rt.write_all(b": ")?;
    print_line(rt, &model[..n], &zones[..k])
}

// Argument i into the room, and how many bytes it has; 0 if there is none or the room is too short.
fn argument<R: Env>(rt: &R, i: usize, room: &mut [u8]) -> usize
    ensures { IsPrefixLen result room.new }
{
    rt.arg(i, room).unwrap_or(0)
}

// The example whose files are arguments i and i + 1; whether there is one.
fn run_at<R: Env + Files + Print>(rt: &R, i: usize, next: usize) -> io::Result<bool> {
    let mut model_name = [0u8; 4096];
    let mut zones_name = [0u8; 4096];
    let n = argument(rt, i, &mut model_name);
    let k = argument(rt, next, &mut zones_name);
    if k == 0 {
        return Ok(false);
    }
    run(rt, &model_name[..n], &zones_name[..k])?;
    Ok(true)
}

fn main(rt: HostRuntime) -> io::Result<()> {
    for i in (1..99).step_by(2) {
        if !run_at(&rt, i, i + 1)? {
            break;
        }
    }
    Ok(())
}
