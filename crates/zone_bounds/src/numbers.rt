// Differences as signed numbers.
ghost use Rattle.std.specs.Prelude.{◌≡◌, ◌≤◌, pos, neg_ℤ, ◌-ℤ◌};
ghost use Rattle.std.proofs.Math.IntN.{sub_ℕ};
ghost use Rattle.bounds.specs.Matrix.{Size};

// a minus b. Both are far below 2 ^ 31, so try_from would answer a Result that can't fail.
pub fn less(a: u32, b: u32) -> i32
    requires { (a ≤ 1000000) × (b ≤ 1000000) }
    ensures { result ≡ sub_ℕ a b }
{
    (a as i32) - (b as i32)
}

// What is not at most c is at least c and 1: the bound the other way round.
pub fn negated(c: i32) -> i32
    requires { Size c 400000 }
    ensures { result ≡ neg_ℤ c -ℤ pos 1 }
{
    -c - 1
}
