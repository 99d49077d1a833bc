// The kinds by which an obligation fails, each tried where those before it do not apply.
ghost use Rattle.std.specs.Prelude.{◌≡◌, false, ℕ, ◌≤◌};
ghost use Rattle.meaning.specs.Zones.Zone as Z;
ghost use Rattle.meaning.specs.Zones.Zone.{Zone};
ghost use Rattle.meaning.specs.Zones.Steps as S;
ghost use Rattle.meaning.specs.Zones.Reached.{home_of_zone};
ghost use Rattle.meaning.specs.Inner.Sources.{step_overflows};
ghost use Rattle.meaning.specs.Text.ProposalReader as reader;
ghost use Rattle.meaning.specs.Text.ProposalTable as table;
ghost use Rattle.model_table.specs.Held.{model_of};
ghost use Rattle.home.specs.Stands.{home_of, RightHome};
ghost use Rattle.zone_list.specs.Steps.{step_of};
ghost use Rattle.zone_table.specs.Sound.{zones_in};
ghost use Rattle.shown.specs.Drawn.{Drawn, DrawnBy, FirstLate};
ghost use Rattle.verdict.specs.Judged.{following, Judged};
ghost use Rattle.verdict.specs.Kinds.{LateBy, BrokenBy, BrokenIs};

use crate::answer::{Fault, Found};
use bounds::{Broken, Matrix, claimed, first_broken};
use home::{Home, same_home, sum_at};
use model_table::{ModelTable, clocks, deadline};
use shown::{first_late, smallest, smallest_apart};
use step_reach::Plan;
use zone_list::{Step, overflows};
use zone_table::{bounds_start, home_at};

// The smallest state in which the job at a late position has the age D.
fn late_at(model: &ModelTable, m: &Matrix, plan: Plan, late: u32) -> Found
    requires late_by { LateBy (model_of model.now) m.now plan late }
    ensures { (p : Z.Proposal) (n x c : ℕ) (z : Zone) (st : S.Step) → Drawn (model_of model.now) z st m.now plan → step_overflows (model_of model.now) (home_of_zone z) st ≡ false → FirstLate (model_of model.now) z st (Some late) → Judged (model_of model.now) p (following n x z st c) (Some result) }
{
    let k = (late - 1) as usize;
    let tasks = plan.home.tasks;
    let d = deadline(model.cells, tasks[k]) as i32;
    let age = sum_at(clocks(model.cells) as usize, k) + 1;
    Found {
        fault: Fault::Late(late),
        state: smallest_apart(model, m, plan, age, 0, d),
    }
}

// The smallest state that breaks this bound of the claimed zone.
fn broken_at(
    zones: &[u32],
    model: &ModelTable,
    m: &Matrix,
    plan: Plan,
    start: usize,
    bound: Broken,
) -> Found
    requires broken_by { BrokenBy (model_of model.now) zones.now m.now plan start bound.i bound.j }
    ensures { (z : Zone) (st : S.Step) → Drawn (model_of model.now) z st m.now plan → BrokenIs (model_of model.now) zones.now z st start bound.i bound.j result }
{
    let i = bound.i;
    let j = bound.j;
    let c = claimed(zones, start, i, j);
    Found {
        fault: Fault::Breaks(i as u32, j as u32),
        state: smallest_apart(model, m, plan, i, j, c + 1),
    }
}

// The claimed zone is elsewhere, or its bounds are broken; with a claim that is not 0.
fn by_claim(model: &ModelTable, zones: &[u32], m: &Matrix, plan: Plan, claim: u32) -> Option<Found>
    requires given { reader.Given (model_of model.now) zones.now × (1 ≤ claim) × (claim ≤ zones_in zones.now) }
    requires drawn_by { DrawnBy (model_of model.now) m.now plan }
    ensures { (n x : ℕ) (z : Zone) (st : S.Step) → Drawn (model_of model.now) z st m.now plan → step_overflows (model_of model.now) (home_of_zone z) st ≡ false → FirstLate (model_of model.now) z st None → Judged (model_of model.now) (table.decode zones.now) (following n x z st claim) result }
{
    if !same_home(plan.home, home_at(zones, claim)) {
        return Some(Found {
            fault: Fault::Elsewhere,
            state: smallest(model, m, plan),
        });
    }
    let start = bounds_start(claim);
    let bound = first_broken(m, plan.variables, plan.from, plan.off, zones, start)?;
    Some(broken_at(zones, model, m, plan, start, bound))
}

// The first kind that applies to a step that some state takes: a miss, an overflow, the claim is 0,
// then those of the claimed zone. At an overflow nothing is reached, so nothing is late.
pub(crate) fn by_kind(
    model: &ModelTable,
    zones: &[u32],
    home: Home,
    m: &Matrix,
    plan: Plan,
    step: Step,
    claim: u32,
) -> Option<Found>
    requires given { reader.Given (model_of model.now) zones.now × (claim ≤ zones_in zones.now) }
    requires right_home { RightHome (model_of model.now) home }
    requires drawn_by { DrawnBy (model_of model.now) m.now plan }
    ensures { (n x : ℕ) (z : Zone) → home_of home ≡ home_of_zone z → Drawn (model_of model.now) z (step_of step) m.now plan → Judged (model_of model.now) (table.decode zones.now) (following n x z (step_of step) claim) result }
{
    if overflows(model, home, step) {
        return Some(Found {
            fault: Fault::Over,
            state: smallest(model, m, plan),
        });
    }
    if let Some(late) = first_late(model, m, plan) {
        return Some(late_at(model, m, plan, late));
    }
    if claim == 0 {
        return Some(Found {
            fault: Fault::Unclaimed,
            state: smallest(model, m, plan),
        });
    }
    by_claim(model, zones, m, plan, claim)
}
