// A number of a text, read: digits, and a minus where one may stand.
// Assumes nothing.
ghost use Rattle.std.specs.Prelude.{◌≡◌, ℕ, ◌≤◌, drop, length};
ghost use Rattle.meaning.specs.Text.Numerals.{too_large, is_digit, push, digits, positive, number};
ghost use Rattle.lines.specs.Meant.{meant};

use crate::places;
use refusals::{Reason, Refusal};

// Numbers from here on are all taken for this one.
pub const TOO_LARGE: u32 = 1000000;

// A number that was read: whether it has a minus, its size and the place after it.
#[derive(Clone, Copy, Debug, PartialEq, Eq)]
pub struct Number {
    pub minus: bool,
    pub size: u32,
    pub next: usize,
}

// The refusal of a line whose first byte that can't go on stands at `place`.
pub(crate) fn broken(place: usize) -> Refusal
    ensures { result ≡ record { reason = Reason.BrokenLine; place = place } }
{
    Refusal {
        reason: Reason::BrokenLine,
        place,
    }
}

#[tactic(auto, unfolding(meaning::specs::Text::Numerals::is_digit))]
fn is_digit(b: u8) -> bool
    ensures { result ≡ is_digit b }
{
    matches!(b, b'0'..=b'9')
}

// One digit more behind those that came to v.
#[tactic(auto, unfolding(meaning::specs::Text::Numerals::push))]
fn push_digit(v: u32, b: u8) -> u32
    requires { (v ≤ too_large) × (48 ≤ b) }
    ensures { result ≡ push v b }
{
    (v * 10 + u32::from(b - b'0')).min(TOO_LARGE)
}

// The digits from `at` on. The loop goes over places and not over bytes, since the place after the digits is part of the answer.
#[tactic(auto, using(crate::proofs::Laws::Numbers::digit_laws))]
fn read_digits(s: &[u8], at: usize) -> Number
    requires { at ≤ length s.now }
    ensures { Ok result ≡ meant (digits (drop at s.now) at 0) }
{
    let mut size: u32 = 0;
    for next in at..s.len() {
        let b = s[next];
        if !is_digit(b) {
            return Number {
                minus: false,
                size,
                next,
            };
        }
        size = push_digit(size, b);
    }
    Number {
        minus: false,
        size,
        next: s.len(),
    }
}

// Digits without a leading 0.
#[tactic(auto, using(crate::proofs::Laws::Numbers::positive_here, crate::proofs::Laws::Numbers::positive_not))]
fn read_positive(s: &[u8], at: usize) -> Result<Number, Refusal>
    ensures { result ≡ meant (positive (drop at s.now) at) }
{
    match places::byte_at(s, at) {
        b'1'..=b'9' => Ok(read_digits(s, at)),
        _ => Err(broken(at)),
    }
}

// The number at `at`, with a minus where one may stand.
#[tactic(auto, using(crate::proofs::Laws::Numbers::number_laws))]
pub(crate) fn read_number(s: &[u8], at: usize, minus: bool) -> Result<Number, Refusal>
    ensures { result ≡ meant (number minus (drop at s.now) at) }
{
    match places::byte_at(s, at) {
        b'0' => Ok(Number {
            minus: false,
            size: 0,
            next: at + 1,
        }),
        b'-' if minus => {
            let number = read_positive(s, at + 1)?;
            Ok(Number {
                minus: true,
                ..number
            })
        }
        _ => read_positive(s, at),
    }
}
