// The bounds of exactly one state: both bounds of each clock and age against 0, and of each running sum against the one ahead.
ghost use Rattle.std.specs.Prelude.{◌≡◌, ◌+◌, ◌*◌, ◌≤◌, ◌<◌, pos, neg_ℤ, length, replicate, set};
ghost use Rattle.zone.specs.ByCell.{ClocksWritten, JobsWritten, SmallClocks, SmallJobs};

use crate::Zone;
use machine::Job;

// The entries of a zone, each this one.
pub(crate) fn alike(entry: i32) -> [i32; 289]
    ensures { result ≡ replicate 289 entry }
{
    [entry; 289]
}

// "Variable i minus variable j is v", written as both bounds.
fn both(bounds: &mut [i32; 289], i: usize, j: usize, v: u32)
    requires { (i < 17) × (j < 17) × (v ≤ 32000) }
    ensures { bounds.new ≡ set (set bounds.old (i * 17 + j) (pos v)) (j * 17 + i) (neg_ℤ (pos v)) }
{
    let c = v as i32;
    bounds[i * Zone::VARIABLES + j] = c;
    bounds[j * Zone::VARIABLES + i] = -c;
}

// The bounds of each clock against 0.
pub(crate) fn of_clocks(clocks: &[u32]) -> [i32; 289]
    requires { (length clocks.now ≤ 4) × SmallClocks clocks.now }
    ensures { ClocksWritten clocks.now result }
{
    let mut r = alike(Zone::NO_BOUND);
    for (k, &clock) in clocks.iter().enumerate() {
        both(&mut r, k + 1, 0, clock);
    }
    r
}

// The bounds with those of the jobs, behind n clocks: each running sum against the one ahead, and each age against 0.
pub(crate) fn with_jobs(bounds: [i32; 289], n: usize, jobs: &[Job]) -> [i32; 289]
    requires { (n ≤ 4) × (length jobs.now ≤ 6) × SmallJobs jobs.now }
    ensures { JobsWritten bounds n jobs.now result }
{
    let mut r = bounds;
    let mut ahead = 0;
    let mut sum = n + 1;
    for job in jobs {
        both(&mut r, sum, ahead, job.done);
        both(&mut r, sum + 1, 0, job.age);
        ahead = sum;
        sum += 2;
    }
    r
}
