// The first claimed bound that is broken. Each entry of a closed matrix is met by a solution, so a
// claimed bound is broken just where it is below the entry.
ghost use Rattle.std.specs.Prelude.{ℕ, ◌<◌, ◌≤◌};
ghost use Rattle.bounds.specs.Matrix.{ent, at, Entries, Closed};
ghost use Rattle.bounds.specs.Images.{var, Map, Maps};
ghost use Rattle.bounds.specs.Claims.{cell, Cells};
ghost use Rattle.bounds.specs.Results.{FirstBroken};
ghost use Rattle.bounds.specs.Inner.{Claimed};

use crate::image::{Offsets, Sources, reached};
use crate::matrix::{Matrix, NONE};

// What is added to a claimed bound where it is kept, so that 0 is left for "no bound".
pub const BIAS: i32 = 32_001;

// A broken bound, (i, j).
#[derive(Clone, Copy)]
pub struct Broken {
    pub i: usize,
    pub j: usize,
}

// The claimed bound on variable a minus variable b, where it is kept. It is a number as in a matrix,
// where "no bound" is one too, so that first_broken compares the two as they stand.
pub fn claimed(claims: &[u32], start: usize, a: usize, b: usize) -> i32
    requires a_bound { (a < 17) × (b < 17) }
    requires cells { Cells claims.now start }
    ensures { Claimed (cell claims.now start a b) result }
{
    let kept = claims[start + (a * 17 + b)];
    if kept == 0 { NONE } else { kept as i32 - BIAS }
}

// The first claimed bound, row by row, that the image of a solution of m breaks: both loops are left
// at it by the label. The image's entries are read where they stand in m, so no second matrix is laid
// out.
pub fn first_broken(
    m: &Matrix,
    n: usize,
    p: Sources,
    off: Offsets,
    claims: &[u32],
    start: usize,
) -> Option<Broken>
    requires n_bound { n ≤ 17 }
    requires entries { Entries m.now }
    requires maps { Maps m.now n p off }
    requires cells { Cells claims.now start }
    ensures { (n₀ : ℕ) → Closed (at m.now) n₀ → Map (at m.now) n₀ n (var p) (ent off) → FirstBroken m.now n₀ n p off claims.now start result }
{
    let mut first = None;
    'rows: for a in 0..n {
        for b in 0..n {
            let entry = reached(m, &p, &off, a, b);
            let bound = claimed(claims, start, a, b);
            if bound < entry {
                first = Some(Broken { i: a, j: b });
                break 'rows;
            }
        }
    }
    first
}
