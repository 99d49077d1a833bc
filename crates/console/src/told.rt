// What the console says.
use verdict::Verdict;

// What the console says of two texts: which text is refused, 1 the model's or 2 the proposal's, with the
// refusal's number and its place; or, of a model with so many clocks, the verdict. Text and refusal are
// numbers, since `line` prints whichever it is handed, and no caller is asked for fewer.
#[derive(Clone, Copy)]
pub enum Told {
    Refused {
        text: u32,
        number: u32,
        place: usize,
    },
    Judged {
        clocks: u32,
        verdict: Verdict,
    },
}
