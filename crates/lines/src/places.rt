// The byte at a place of a text. Past the end it is 0, which no text may have.
// Assumes nothing.
ghost use Rattle.std.specs.Prelude.{◌≡◌, get_or, eqb};

// The byte at `at`, or 0.
pub fn byte_at(s: &[u8], at: usize) -> u8
    ensures { result ≡ get_or s.now at 0 }
{
    s.get(at).copied().unwrap_or(0)
}

// Whether b stands at `at`.
pub fn byte_is(s: &[u8], at: usize, b: u8) -> bool
    ensures { result ≡ eqb (get_or s.now at 0) b }
{
    byte_at(s, at) == b
}
