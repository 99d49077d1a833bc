// The printed line, written into a room that it fits. Each function gives the place after what it wrote.
// Assumes nothing.
ghost use Rattle.std.specs.Prelude.{◌≡◌, [], ◌∷◌, ◌+◌, ◌≤◌, length};
ghost use Rattle.lines.specs.Put.{Put};
ghost use Rattle.console.specs.Line.{spaced, kind_by, state_numbers, failed_line, ok_line, refused_line, line_of};

use crate::fields::{write_clocks, write_fields, write_jobs};
use crate::told::Told;
use machine::State;
use verdict::{Failure, Fault, Verdict};

// The number of the kind.
fn kind(fault: Fault) -> usize
    ensures { result ≡ kind_by fault }
{
    match fault {
        Fault::Late(_) => 1,
        Fault::Over => 2,
        Fault::Unclaimed => 3,
        Fault::Elsewhere => 4,
        Fault::Breaks(_, _) => 5,
    }
}

// The two bytes at the line's beginning.
fn write_mark(buf: &mut [u8], first: u8, second: u8) -> usize
    requires { 2 ≤ length buf.old }
    ensures { Put buf.old 0 (first ∷ second ∷ []) buf.new result }
{
    buf[0] = first;
    buf[1] = second;
    2
}

// `RF`, which text, refusal number, place.
fn write_refused(buf: &mut [u8], text: u32, number: u32, place: usize) -> usize
    requires { 65 ≤ length buf.old }
    ensures written { Put buf.old 0 (refused_line text number place) buf.new result }
    ensures near { result ≤ 65 }
{
    let a = write_mark(buf, b'R', b'F');
    write_fields(buf, a, &[text as usize, number as usize, place])
}

// `OK` and the number tried.
fn write_accepted(buf: &mut [u8], number: u32) -> usize
    requires { 23 ≤ length buf.old }
    ensures written { Put buf.old 0 (ok_line number) buf.new result }
    ensures near { result ≤ 23 }
{
    let a = write_mark(buf, b'O', b'K');
    write_fields(buf, a, &[number as usize])
}

// "location, clocks, then task, done, age per job", of n clocks.
fn write_state(buf: &mut [u8], at: usize, n: u32, state: State) -> usize
    requires { at + 483 ≤ length buf.old }
    ensures written { Put buf.old at (spaced (state_numbers n state)) buf.new result }
    ensures near { result ≤ at + 483 }
{
    let p = write_fields(buf, at, &[state.location as usize]);
    let clocks = state.clocks;
    let q = write_clocks(buf, p, clocks, n);
    let jobs = state.jobs;
    write_jobs(buf, q, jobs, state.count)
}

// `NO`, the obligation's number, zone, place, kind, and the state, of n clocks.
fn write_failed(buf: &mut [u8], n: u32, failure: Failure) -> usize
    requires { 569 ≤ length buf.old }
    ensures written { Put buf.old 0 (failed_line n failure) buf.new result }
    ensures near { result ≤ 569 }
{
    let a = write_mark(buf, b'N', b'O');
    let number = failure.number as usize;
    let zone = failure.zone as usize;
    let place = failure.place as usize;
    let kind = kind(failure.fault);
    let b = write_fields(buf, a, &[number, zone, place, kind]);
    write_state(buf, b, n, failure.state)
}

// The printed line.
pub(crate) fn write_line(buf: &mut [u8], told: Told) -> usize
    requires { 569 ≤ length buf.old }
    ensures written { Put buf.old 0 (line_of told) buf.new result }
    ensures near { result ≤ 569 }
{
    match told {
        Told::Refused {
            text,
            number,
            place,
        } => write_refused(buf, text, number, place),
        Told::Judged { clocks, verdict } => match verdict {
            Verdict::Accepted(number) => write_accepted(buf, number),
            Verdict::Failed(failure) => write_failed(buf, clocks, failure),
        },
    }
}
