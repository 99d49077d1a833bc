// The smallest solution. Row 0 has the lower bounds: 0 minus variable k is at most entry (0, k),
// which is at most 0.
ghost use Rattle.std.specs.Prelude.{◌≤◌};
ghost use Rattle.bounds.specs.Matrix.{at, Entries, Closed};
ghost use Rattle.bounds.specs.Results.{Smallest};

use crate::matrix::{Matrix, get};

// A value for each variable.
pub type Values = [u32; 17];

// The solution of m, over n variables, that is smallest in every variable at once.
pub fn least(m: &Matrix, n: usize) -> Values
    requires n_bound { n ≤ 17 }
    requires entries { Entries m.now × Closed (at m.now) n }
    ensures { Smallest m.now n result }
{
    let mut r = [0u32; 17];
    for k in 0..n {
        let z = get(m, 0, k);
        r[k] = z.unsigned_abs();
    }
    r
}
