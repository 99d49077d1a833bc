// The check of two texts.
// Assumes nothing.
ghost use Rattle.std.specs.Prelude.{◌≡◌, true};
ghost use Rattle.meaning.specs.Text.ModelReader.{Given};
ghost use Rattle.meaning.specs.Text.ModelTable.{decode};
ghost use Rattle.meaning.specs.Text.ProposalTable.{size};
ghost use Rattle.meaning.specs.Text.ProposalReader.{read_proposal};
ghost use Rattle.refusals.specs.Number.{number_of};
ghost use Rattle.console.specs.Texts.{refused_text, TellsProposal, Tells};

use crate::tables;
use crate::told::Told;
use refusals::Refusal;
use verdict::check;

// A refused text, 1 the model's or 2 the proposal's.
fn refused(text: u32, refusal: Refusal) -> Told
    ensures { result ≡ refused_text text (number_of refusal.reason) refusal.place }
{
    Told::Refused {
        text,
        number: u32::from(refusal.reason),
        place: refusal.place,
    }
}

// The check of the proposal's text over a model that was read. Its table is one that a text gives, so the
// check refuses none; if it did, neither text would be named.
fn check_proposal(table: &[u32], text: &[u8]) -> Told
    requires { Given table.now }
    ensures { TellsProposal table.now (read_proposal true (decode table.now) size text.now) result }
{
    let mut zones = [0; tables::PROPOSAL];
    if let Err(refusal) = zone_text::read_proposal(table, text, &mut zones) {
        return refused(2, refusal);
    }
    match check(table, &zones) {
        Ok(verdict) => Told::Judged {
            clocks: model_table::clocks(table),
            verdict,
        },
        Err(reason) => refused(0, Refusal { reason, place: 0 }),
    }
}

// What the console says of a model's and a proposal's text: the model is judged first, then the proposal, and then the check is made.
pub fn check_texts(model: &[u8], proposal: &[u8]) -> Told
    ensures { Tells model.now proposal.now result }
{
    let mut table = [0; tables::MODEL];
    match model_text::read_model(model, &mut table) {
        Err(refusal) => refused(1, refusal),
        Ok(()) => check_proposal(&table, proposal),
    }
}
