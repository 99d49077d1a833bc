// The check of a proposal: is any obligation broken?
//
// Obligation 1 is the start's; then zone by zone, place by place, each step with its claim. The first that
// fails is the answer, or how many were tried.
#![tactic(auto)]

ghost use Rattle.verdict.specs.Answers.{Answered};

mod answer;
mod answering;
mod judge;
mod kinds;
mod start;
mod trying;

pub use answer::{Failure, Fault, Verdict, no_state};
use answering::check_given;
use model_table::ModelTable;
use model_text::is_model;
use refusals::Reason;
use zone_table::is_proposal;

// Accepted, with the number of obligations tried, or the first that fails, with the smallest state at
// fault; refused as not proper are tables that no text gives.
pub fn check(model: &[u32], zones: &[u32]) -> Result<Verdict, Reason>
    ensures { Answered model.now zones.now result }
{
    if !is_model(model) {
        return Err(Reason::NotProper);
    }
    let table = &ModelTable { cells: model };
    if !is_proposal(table, zones) {
        return Err(Reason::NotProper);
    }
    Ok(check_given(table, zones))
}
