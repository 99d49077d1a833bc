// Fields of the printed line, written into a room: numbers, and the clocks and the jobs of a state. Each
// function gives the place after what it wrote.
// Assumes nothing.
ghost use Rattle.std.specs.Prelude.{◌+◌, ◌*◌, ◌≤◌, length, take};
ghost use Rattle.lines.specs.Put.{Put};
ghost use Rattle.console.specs.Line.{spaced, job_numbers};

use lines::write_digits;
use machine::Job;

// No number of 64 bits has more digits.
const DIGITS_MOST: usize = 20;

// Numbers, each after one space.
pub(crate) fn write_fields(buf: &mut [u8], at: usize, numbers: &[usize]) -> usize
    requires { at + 21 * length numbers.now ≤ length buf.old }
    ensures written { Put buf.old at (spaced numbers.now) buf.new result }
    ensures near { result ≤ at + 21 * length numbers.now }
{
    let mut p = at;
    for number in numbers {
        buf[p] = b' ';
        p = write_digits(buf, p + 1, *number, DIGITS_MOST);
    }
    p
}

// The first n clocks.
pub(crate) fn write_clocks(buf: &mut [u8], at: usize, clocks: [u32; 4], n: u32) -> usize
    requires { at + 84 ≤ length buf.old }
    ensures written { Put buf.old at (spaced (take n clocks)) buf.new result }
    ensures near { result ≤ at + 84 }
{
    let mut p = at;
    for clock in &clocks[..clocks.len().min(n as usize)] {
        p = write_fields(buf, p, &[*clock as usize]);
    }
    p
}

// "task, done, age" of the first n jobs. Clocks and jobs keep a loop each: only the numbers of an element
// differ, and a trait over both would be longer than the loops.
pub(crate) fn write_jobs(buf: &mut [u8], at: usize, jobs: [Job; 6], n: u32) -> usize
    requires { at + 378 ≤ length buf.old }
    ensures written { Put buf.old at (spaced (job_numbers (take n jobs))) buf.new result }
    ensures near { result ≤ at + 378 }
{
    let mut p = at;
    for job in &jobs[..jobs.len().min(n as usize)] {
        p = write_fields(
            buf,
            p,
            &[job.task as usize, job.done as usize, job.age as usize],
        );
    }
    p
}
