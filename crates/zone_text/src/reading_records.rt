// One record, from the text into the table.
ghost use Rattle.std.specs.Prelude.{◌+◌};
ghost use Rattle.meaning.specs.Model.{Model};
ghost use Rattle.model_table.specs.Held.{model_of};
ghost use Rattle.meaning.specs.Text.ProposalReader as reader;
ghost use Rattle.meaning.specs.Text.ProposalReader.{look, look_order, look_bound, look_claims, look_end};
ghost use Rattle.zone_text.specs.Held.{Holds, Ready, Begun, Took};

use crate::reading_marks::{Mark, mark_at};
use crate::reading_rows;
use crate::refusing::refused;
use model_table::ModelTable;
use refusals::{Reason, Refusal};
use zone::Zone;
use zone_table::{HEAD, POOL_START, ZONES_MOST, bounds_start, head_start, home_with, up_to_last};

// A zone whose GO is due: how many tasks its queue has, and the first place in its bounds at which the next may stand.
#[derive(Clone, Copy, Debug, PartialEq, Eq)]
pub(crate) struct Due {
    pub len: usize,
    pub cursor: usize,
}

// What was read so far: how many zones are whole, how many claims they have in all, and the zone that is begun, if one is.
#[derive(Clone, Copy, Debug, PartialEq, Eq)]
pub(crate) struct Sofar {
    pub zones: u32,
    pub pool: usize,
    pub due: Option<Due>,
}

// What stands after a record: the place after it, and what was read with it.
#[derive(Clone, Copy, Debug, PartialEq, Eq)]
pub(crate) struct Next {
    pub at: usize,
    pub sofar: Sofar,
}

// ZN: a location and its queue.
fn take_order(
    model: &ModelTable,
    s: &[u8],
    at: usize,
    x: Sofar,
    t: &mut [u32],
) -> Result<Option<Next>, Refusal>
    requires { Ready x s.now at t.old }
    ensures { (y : reader.Sofar) → Holds (model_of model.now) y x t.old → Took (look_order (model_of model.now) s.now at y) y result t.old t.new }
{
    if x.due.is_some() {
        return Err(refused(Reason::MarkNotHere, at));
    }
    if ZONES_MOST <= x.zones {
        return Err(refused(Reason::TooMany, at));
    }
    let zone = x.zones + 1;
    let head = head_start(zone);
    let locations = model_table::locations(model.cells);
    let tasks = model_table::tasks(model.cells);
    let cells = &mut t[head..head + HEAD];
    let row = reading_rows::read_order(s, at + 2, locations, tasks, cells)?;
    let home = home_with(t, zone, row.many as u32);
    if !home::fits(model, home.order()) {
        return Err(refused(Reason::NotRising, at));
    }
    t[head + (HEAD - 1)] = x.pool as u32;
    let due = Due {
        len: row.many,
        cursor: 0,
    };
    Ok(Some(Next {
        at: row.next,
        sofar: Sofar {
            due: Some(due),
            ..x
        },
    }))
}

// BD: a bound of the zone that is begun.
fn take_bound(
    model: &ModelTable,
    s: &[u8],
    at: usize,
    x: Sofar,
    t: &mut [u32],
) -> Result<Option<Next>, Refusal>
    requires { Ready x s.now at t.old }
    ensures { (y : reader.Sofar) → Holds (model_of model.now) y x t.old → Took (look_bound (model_of model.now) s.now at y) y result t.old t.new }
{
    let Some(due) = x.due else {
        return Err(refused(Reason::MarkNotHere, at));
    };
    let last = home::variables(model, due.len) - 1;
    let bound = reading_rows::read_bound(s, at + 2, last as u32)?;
    if bound.i == bound.j {
        return Err(refused(Reason::NotRising, at));
    }
    let k = Zone::VARIABLES * (bound.i as usize) + (bound.j as usize);
    if k < due.cursor {
        return Err(refused(Reason::NotRising, at));
    }
    let from = bounds_start(x.zones + 1);
    t[from + k] = bound.c + 1;
    let due = Due {
        len: due.len,
        cursor: k + 1,
    };
    Ok(Some(Next {
        at: bound.next,
        sofar: Sofar {
            due: Some(due),
            ..x
        },
    }))
}

// GO: the claims of the zone that is begun.
fn take_claims(
    model: &ModelTable,
    s: &[u8],
    at: usize,
    x: Sofar,
    t: &mut [u32],
) -> Result<Option<Next>, Refusal>
    requires { Ready x s.now at t.old × Begun (model_of model.now) x t.old }
    ensures { (y : reader.Sofar) → Holds (model_of model.now) y x t.old → Took (look_claims (model_of model.now) s.now at y) y result t.old t.new }
{
    let Some(due) = x.due else {
        return Err(refused(Reason::MarkNotHere, at));
    };
    let zone = x.zones + 1;
    // the claims that follow do not touch the location and the queue
    let home = home_with(t, zone, due.len as u32);
    let from = POOL_START + x.pool;
    let cells = &mut t[from..];
    let row = reading_rows::read_row(s, at + 2, None, s.len(), 0, ZONES_MOST, cells)?;
    let steps = zone_list::steps(model, home, t, from);
    if row.many != steps.many || !steps.zeros {
        return Err(refused(Reason::WrongClaims, at));
    }
    let pool = x.pool + row.many;
    t[head_start(zone) + (HEAD - 1)] = pool as u32;
    Ok(Some(Next {
        at: row.next,
        sofar: Sofar {
            zones: zone,
            pool,
            due: None,
        },
    }))
}

// EN: the end.
fn take_end(s: &[u8], at: usize, x: Sofar, t: &[u32]) -> Result<Option<Next>, Refusal>
    requires { Ready x s.now at t.now }
    ensures { (m : Model) (y : reader.Sofar) → Holds m y x t.now → Took (look_end m s.now at y) y result t.now t.now }
{
    if x.due.is_some() || x.zones == 0 {
        return Err(refused(Reason::MarkNotHere, at));
    }
    if !lines::byte_is(s, at + 2, b'\n') {
        return Err(refused(Reason::BrokenLine, at + 2));
    }
    if !up_to_last(t, POOL_START, x.pool, x.zones) {
        return Err(refused(Reason::WrongClaims, at));
    }
    if at + 3 < s.len() {
        return Err(refused(Reason::MarkNotHere, at + 3));
    }
    Ok(None)
}

// The record at `at`; none is left behind the end.
pub(crate) fn take(
    model: &ModelTable,
    s: &[u8],
    at: usize,
    x: Sofar,
    t: &mut [u32],
) -> Result<Option<Next>, Refusal>
    requires { Ready x s.now at t.old × Begun (model_of model.now) x t.old }
    ensures { (y : reader.Sofar) → Holds (model_of model.now) y x t.old → Took (look (model_of model.now) s.now at y) y result t.old t.new }
{
    match mark_at(s, at) {
        Some(Mark::Order) => take_order(model, s, at, x, t),
        Some(Mark::Bound) => take_bound(model, s, at, x, t),
        Some(Mark::Claims) => take_claims(model, s, at, x, t),
        Some(Mark::End) => take_end(s, at, x, t),
        None => Err(refused(Reason::MarkNotHere, at)),
    }
}
