// New variables for old: new variable a is the old variable p[a] with off[a] added.
ghost use Rattle.std.specs.Prelude.{ℕ, ◌<◌, ◌≤◌};
ghost use Rattle.bounds.specs.Matrix.{ent, at, Entry, Entries, Closed, Size};
ghost use Rattle.bounds.specs.Images.{var, Map, Maps};
ghost use Rattle.bounds.specs.Results.{Remapped};
ghost use Rattle.bounds.specs.Inner.{Shift};

use crate::matrix::{Matrix, NONE, get};

// For each new variable the old one that it comes from, and what is added to it.
pub type Sources = [usize; 17];

pub type Offsets = [i32; 17];

// The bound v on one variable minus another, after u was added to the first and w to the second.
fn shifted(v: i32, u: i32, w: i32) -> i32
    requires { Entry v × Size u 100000000 × Size w 100000000 }
    ensures { Shift v u w result }
{
    if v < NONE { v + u - w } else { v }
}

// The bound on new variable a minus new variable b, read where it stands in the old matrix.
pub fn reached(m: &Matrix, p: &Sources, off: &Offsets, a: usize, b: usize) -> i32
    requires a_bound { (a < 17) × (b < 17) }
    requires a_bound_2 { (var p.now a < 17) × (var p.now b < 17) }
    requires size { Size (ent off.now a) 100000000 × Size (ent off.now b) 100000000 }
    requires entries { Entries m.now }
    ensures { Shift (at m.now (var p.now a) (var p.now b)) (ent off.now a) (ent off.now b) result }
{
    let i = p[a];
    let j = p[b];
    let v = get(m, i, j);
    shifted(v, off[a], off[b])
}

// The image of the solutions of m, as a matrix over n variables; every other entry is 0.
pub fn remap(m: Matrix, n: usize, p: Sources, off: Offsets) -> Matrix
    requires n_bound { n ≤ 17 }
    requires entries { Entries m }
    requires maps { Maps m n p off }
    ensures { (n₀ : ℕ) → Closed (at m) n₀ → Map (at m) n₀ n (var p) (ent off) → Remapped m n₀ n p off result }
{
    let mut r = [0i32; 289];
    for a in 0..n {
        for b in 0..n {
            r[a * 17 + b] = reached(&m, &p, &off, a, b);
        }
    }
    r
}
