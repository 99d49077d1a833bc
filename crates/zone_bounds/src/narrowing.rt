// A matrix over all 17 variables, narrowed by one bound after the other.
ghost use Rattle.std.specs.Prelude.{◌<◌, [], ◌∷◌, Some, IfSome};
ghost use Rattle.meaning.specs.Inner.Bounds.{bound};
ghost use Rattle.bounds.specs.Matrix.{Size};
ghost use Rattle.zone_bounds.specs.Narrowed.{bound_size, Workable, Narrows};

use bounds::{Matrix, tighten};

// The matrix with "variable i minus variable j is at most c" too; none where nothing is left. That it
// is workable stays a clause: the fact holds the raw matrix that this one comes from, and a type keeps
// only what has one proof.
pub fn within(m: Matrix, i: usize, j: usize, c: i32) -> Option<Matrix>
    requires i_bound { (i < 17) × (j < 17) }
    requires size { Size c bound_size }
    requires workable { Workable m }
    ensures { Narrows (bound i j c ∷ []) (Some m) result }
{
    tighten(m, 17, i, j, c)
}

// The same of what may be none already, and stays none.
pub fn narrow(t: Option<Matrix>, i: usize, j: usize, c: i32) -> Option<Matrix>
    requires i_bound { (i < 17) × (j < 17) }
    requires size { Size c bound_size }
    requires workable { IfSome t Workable }
    ensures { Narrows (bound i j c ∷ []) t result }
{
    within(t?, i, j, c)
}
