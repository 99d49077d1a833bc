// Numbers and the fields of a line, written into a lent buffer. Each function gives the place after what it wrote.
// Assumes nothing.
ghost use Rattle.std.specs.Prelude.{◌≡◌, ◌∷◌, ◌+◌, ◌≤◌, length, map};
ghost use Rattle.meaning.specs.Text.Numerals.{dec_f, num_text};
ghost use Rattle.meaning.specs.Text.Lines.{kept_text, fields_text};
ghost use Rattle.lines.specs.Put.{Put};

// No range has an end of more digits than these.
const DIGITS_MOST: usize = 6;

// A number of a line, kept with `below` added.
#[derive(Clone, Copy, Debug, PartialEq, Eq)]
pub struct Field {
    pub below: u32,
    pub number: u32,
}

// The digits of a number of at most k digits. It calls itself, since the digits are found from the last and written from the first.
#[tactic(auto, using(crate::proofs::Laws::Putting::digits_laws))]
pub fn write_digits(buf: &mut [u8], at: usize, v: usize, k: usize) -> usize
    requires { at + length (dec_f k v) ≤ length buf.old }
    ensures { Put buf.old at (dec_f k v) buf.new result }
{
    if k == 0 {
        return at;
    }
    if v < 10 {
        buf[at] = b'0' + (v as u8);
        return at + 1;
    }
    let n = write_digits(buf, at, v / 10, k - 1);
    buf[n] = b'0' + ((v % 10) as u8);
    n + 1
}

// A number with its sign.
#[tactic(auto, using(crate::proofs::Laws::Putting::sign_laws))]
fn write_number(buf: &mut [u8], at: usize, minus: bool, size: u32) -> usize
    requires { at + length (num_text minus size) ≤ length buf.old }
    ensures { Put buf.old at (num_text minus size) buf.new result }
{
    if minus {
        buf[at] = b'-';
        return write_digits(buf, at + 1, size as usize, DIGITS_MOST);
    }
    write_digits(buf, at, size as usize, DIGITS_MOST)
}

// A number that is kept with `below` added.
#[tactic(auto, using(crate::proofs::Laws::Putting::kept_minus, crate::proofs::Laws::Putting::kept_plain))]
fn write_kept(buf: &mut [u8], at: usize, below: u32, v: u32) -> usize
    requires { at + length (kept_text below v) ≤ length buf.old }
    ensures { Put buf.old at (kept_text below v) buf.new result }
{
    if v < below {
        return write_number(buf, at, true, below - v);
    }
    write_number(buf, at, false, v - below)
}

// One space, and such a number.
#[tactic(auto, using(crate::proofs::Laws::Putting::put_cons))]
pub fn write_field(buf: &mut [u8], at: usize, below: u32, v: u32) -> usize
    requires { at + length (32 ∷ kept_text below v) ≤ length buf.old }
    ensures { Put buf.old at (32 ∷ kept_text below v) buf.new result }
{
    buf[at] = b' ';
    write_kept(buf, at + 1, below, v)
}

// The fields, and the line feed.
pub fn write_fields(buf: &mut [u8], at: usize, fields: &[Field]) -> usize
    requires { at + length (fields_text (map (λ f. f.below) fields.now) (map (λ f. f.number) fields.now)) ≤ length buf.old }
    ensures { Put buf.old at (fields_text (map (λ f. f.below) fields.now) (map (λ f. f.number) fields.now)) buf.new result }
{
    let mut p = at;
    for field in fields {
        p = write_field(buf, p, field.below, field.number);
    }
    buf[p] = b'\n';
    p + 1
}
