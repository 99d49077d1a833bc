// The matrix itself: an entry, and the matrix of which nothing is known.
ghost use Rattle.std.specs.Prelude.{◌<◌};
ghost use Rattle.bounds.specs.Results.{Got, Widest};
ghost use Rattle.bounds.specs.Inner.{Unknown};

// A matrix of bounds over at most 17 variables, made by repeat.
pub type Matrix = [i32; 289];

// "No bound". Three of the largest bounds that are stored make less.
pub const NONE: i32 = 1_000_000_000;

// The bound on variable a minus variable b.
pub fn get(m: &Matrix, a: usize, b: usize) -> i32
    requires { (a < 17) × (b < 17) }
    ensures { Got m.now a b result }
{
    m[a * 17 + b]
}

// The bound on variable a minus variable b where nothing is known: every variable is at least 0,
// and equal to itself.
fn top_entry(a: usize, b: usize) -> i32
    ensures { Unknown a b result }
{
    if a == 0 || a == b { 0 } else { NONE }
}

// The matrix of which nothing is known but that every variable is at least 0.
pub fn top() -> Matrix
    ensures { Widest result }
{
    let mut r = [0i32; 289];
    for (k, entry) in r.iter_mut().enumerate() {
        *entry = top_entry(k / 17, k % 17);
    }
    r
}
