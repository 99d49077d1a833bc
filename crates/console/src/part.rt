// The part of the texts in which a fault stands.
// Assumes nothing.
ghost use Rattle.std.specs.Prelude.{◌≡◌, ◌==◌, ◌+◌, ◌≤◌, length, drop, position, true};
ghost use Rattle.meaning.specs.Text.ModelReader.{Given};
ghost use Rattle.meaning.specs.Text.ModelTable.{decode};
ghost use Rattle.meaning.specs.Text.ProposalTable.{size};
ghost use Rattle.meaning.specs.Text.ProposalReader.{read_proposal};
ghost use Rattle.console.specs.Part.{line_length, part_at, proposal_part, part_of, Shows, ShowsIn};

use crate::tables;

// The first line feed.
fn first_feed(text: &[u8]) -> Option<usize>
    ensures { result ≡ position (λ b. b == 10) text.now }
{
    text.iter().position(|b| *b == b'\n')
}

// The next line feed from a place on, or the end.
fn line_end(text: &[u8], at: usize) -> usize
    requires { at ≤ length text.now }
    ensures { result ≡ at + line_length (drop at text.now) }
{
    match first_feed(&text[at..]) {
        Some(k) => at + k,
        None => text.len(),
    }
}

// From a place to before the next line feed, or the end.
fn part_from<'a>(text: &'a [u8], at: usize) -> &'a [u8]
    requires { at ≤ length text.now }
    ensures { Shows text.entry (part_at text.now at) result }
{
    let end = line_end(text, at);
    &text[at..end]
}

// The fault's part of the proposal's text over a model that was read; without a fault the empty part at its end.
fn proposal_part<'a>(table: &[u32], text: &'a [u8]) -> &'a [u8]
    requires { Given table.now }
    ensures { Shows text.entry (proposal_part text.now (read_proposal true (decode table.now) size text.now)) result }
{
    let mut zones = [0; tables::PROPOSAL];
    match zone_text::read_proposal(table, text, &mut zones) {
        Err(refusal) => part_from(text, refusal.place),
        Ok(()) => &text[text.len()..],
    }
}

// The part of the model's or the proposal's text in which a fault stands, from its place to before the next line feed or the end; without a fault
// the empty part at the proposal's end.
pub fn fault_part<'a>(model: &'a [u8], proposal: &'a [u8]) -> &'a [u8]
    ensures { ShowsIn (part_of model.now proposal.now) model.entry proposal.entry result }
{
    let mut table = [0; tables::MODEL];
    match model_text::read_model(model, &mut table) {
        Err(refusal) => part_from(model, refusal.place),
        Ok(()) => proposal_part(&table, proposal),
    }
}
