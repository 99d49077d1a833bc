// A zone's step, worked out exactly.
//
// The states of the zone that take the step are one matrix; location and queue order after it, and
// where each variable comes from, are a plan; the reply is the matrix, moved by the plan.
#![tactic(auto)]

ghost use Rattle.step_reach.specs.Replies.{Replied};

mod leaving;
mod plan;
mod reply;
mod variables;

use model_table::ModelTable;
use model_text::is_model;
pub use plan::{Plan, plan_of};
use refusals::Reason;
pub use reply::StepReply;
use reply::stepped;
use zone::Zone;
use zone_list::Step;

// A step of a zone's list: location and queue order after it, and the tightest bounds over all reached
// states, or at an overflow over the states that meet the guard. `NotProper`: the table or the zone can't
// be lent; `NotAllowed`: the step isn't in the zone's list.
#[tactic(auto, using(model_table::proofs::GivenLaws::given_table))]
pub fn step(model: &[u32], zone: Zone, step: Step) -> Result<StepReply, Reason>
    ensures { Replied model.now zone step result }
{
    if !is_model(model) {
        return Err(Reason::NotProper);
    }
    let model = &ModelTable { cells: model };
    if !zone::is_zone(model, zone) {
        return Err(Reason::NotProper);
    }
    if !zone_list::has(model, zone.home, step) {
        return Err(Reason::NotAllowed);
    }
    Ok(stepped(model, zone, step))
}
