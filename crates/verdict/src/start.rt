// Obligation 1: zone 1 holds the start state.
ghost use Rattle.meaning.specs.Check.Obligations.{starts};
ghost use Rattle.meaning.specs.Text.ProposalReader as reader;
ghost use Rattle.meaning.specs.Text.ProposalTable as table;
ghost use Rattle.model_table.specs.Held.{model_of};
ghost use Rattle.verdict.specs.Judged.{Judged};

use crate::answer::{Fault, Found};
use bounds::first_broken;
use home::{Home, same_home, variables};
use machine::{start_given, tasks_of};
use model_table::ModelTable;
use zone_table::{bounds_start, home_at};

// It holds, or zone 1 is elsewhere, or its bounds are broken. All variables of the start are 0, so its matrix is.
pub(crate) fn try_start(model: &ModelTable, zones: &[u32]) -> Option<Found>
    requires { reader.Given (model_of model.now) zones.now }
    ensures { Judged (model_of model.now) (table.decode zones.now) starts result }
{
    let state = start_given(model).state;
    let jobs = state.jobs;
    let home = Home {
        location: state.location,
        tasks: tasks_of(jobs),
        count: state.count,
    };
    if !same_home(home, home_at(zones, 1)) {
        return Some(Found {
            fault: Fault::Elsewhere,
            state,
        });
    }
    let count = state.count as usize;
    let n = variables(model, count);
    let m = [0i32; 289];
    let b = first_broken(&m, n, [0usize; 17], [0i32; 17], zones, bounds_start(1))?;
    Some(Found {
        fault: Fault::Breaks(b.i as u32, b.j as u32),
        state,
    })
}
