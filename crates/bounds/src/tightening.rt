// One bound more. The matrix is closed before and after, so a new bound c on i minus j shortens a
// way from a to b only by a step from a to i, over c, and a step from j to b.
ghost use Rattle.std.specs.Prelude.{◌<◌, ◌≤◌};
ghost use Rattle.bounds.specs.Matrix.{at, Entry, Finite, Entries, Closed, Size};
ghost use Rattle.bounds.specs.Results.{Tightened};
ghost use Rattle.bounds.specs.Inner.{Via, Shortened};

use crate::matrix::{Matrix, NONE, get};

// The least of x and y + c + z, where y and z are bounds. "No bound" is tested first, since a sum
// with it would be no bound.
fn shorter(x: i32, y: i32, c: i32, z: i32) -> i32
    requires entry { Entry x × Entry y × Entry c × Entry z }
    requires finite { Finite c }
    ensures { Via x y c z result }
{
    if y < NONE && z < NONE {
        let s = y + c + z;
        if s < x {
            return s;
        }
    }
    x
}

// m with every way over the bound c on i minus j taken where it is shorter.
fn shorten(m: Matrix, n: usize, i: usize, j: usize, c: i32) -> Matrix
    requires n_bound { (n ≤ 17) × (i < n) × (j < n) }
    requires entry { Entry c × Finite c }
    requires entries { Entries m }
    ensures { Shortened m n i j c result }
{
    let mut r = m;
    for a in 0..n {
        let y = get(&m, a, i);
        for b in 0..n {
            let x = get(&m, a, b);
            let z = get(&m, j, b);
            r[a * 17 + b] = shorter(x, y, c, z);
        }
    }
    r
}

// The solutions of m, over n variables, with variable i minus variable j at most c. There is none
// where m holds that j minus i is below -c.
pub fn tighten(m: Matrix, n: usize, i: usize, j: usize, c: i32) -> Option<Matrix>
    requires n_bound { (n ≤ 17) × (i < n) × (j < n) }
    requires entries { Entries m × Closed (at m) n }
    requires size { Size c 300000000 }
    ensures { Tightened m n i j c result }
{
    let old = get(&m, i, j);
    if old <= c {
        return Some(m);
    }
    let back = get(&m, j, i);
    if back < NONE && back + c < 0 {
        return None;
    }
    Some(shorten(m, n, i, j, c))
}
