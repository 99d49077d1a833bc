// From what is found of the obligations to the answer.
ghost use Rattle.std.specs.Prelude.{◌≡◌};
ghost use Rattle.meaning.specs.Text.ProposalReader as reader;
ghost use Rattle.meaning.specs.Text.ProposalTable as table;
ghost use Rattle.model_table.specs.Held.{model_of};
ghost use Rattle.verdict.specs.AnsweredBy.{verdict_of, AnsweredBy};
ghost use Rattle.verdict.specs.Failing.{failing};

use crate::answer::{Failure, Found, Verdict};
use crate::start::try_start;
use crate::trying::try_zone;
use model_table::ModelTable;
use zone_table::zones as zones_in;

impl Found {
    // Obligation `number`, of this zone and place, fails so.
    pub(crate) fn of(self, number: u32, zone: u32, place: u32) -> Failure
        ensures { result ≡ failing number zone place self }
    {
        Failure {
            number,
            zone,
            place,
            fault: self.fault,
            state: self.state,
        }
    }
}

// All obligations, up to the first that fails: how many were tried.
fn try_all(model: &ModelTable, zones: &[u32]) -> Result<u32, Failure>
    requires { reader.Given (model_of model.now) zones.now }
    ensures { AnsweredBy (model_of model.now) (table.decode zones.now) (verdict_of result) }
{
    if let Some(found) = try_start(model, zones) {
        return Err(found.of(1, 1, 0));
    }
    let many = zones_in(zones);
    let mut tried = 1;
    for n in 1..=many {
        let own = try_zone(model, zones, n, tried)?;
        tried += own;
    }
    Ok(tried)
}

// The answer on a right model's table and a proposal's table that a text gives over it.
pub(crate) fn check_given(model: &ModelTable, zones: &[u32]) -> Verdict
    requires { reader.Given (model_of model.now) zones.now }
    ensures { AnsweredBy (model_of model.now) (table.decode zones.now) result }
{
    match try_all(model, zones) {
        Ok(tried) => Verdict::Accepted(tried),
        Err(failure) => Verdict::Failed(failure),
    }
}
