// The plan of a step: location and queue order after it, and where each variable comes from.
ghost use Rattle.std.specs.Prelude.{◌≡◌, false, ◌≤◌};
ghost use Rattle.meaning.specs.Zones.Steps as S;
ghost use Rattle.meaning.specs.Zones.Reached as Z;
ghost use Rattle.meaning.specs.Inner.Plans.{head_time};
ghost use Rattle.meaning.specs.Inner.Sources.{step_overflows};
ghost use Rattle.model_table.specs.Held.{model_of};
ghost use Rattle.home.specs.Stands.{order_of, home_of, RightHome};
ghost use Rattle.slots.specs.Stands.{Stand};
ghost use Rattle.zone_list.specs.Steps.{step_of, Listed};
ghost use Rattle.zone_list.specs.declared.form.Kind.TheVariants as Kind;
ghost use Rattle.step_reach.specs.Plans.{Planned, slots_in, LeadsTo, Keeps};

use crate::leaving::Leaving;
use crate::variables::{all_added, all_from};
use bounds::{Offsets, Sources};
use home::Home;
use model_table::ModelTable;
use slots::{Slots, slots_of, slots_with, without_head};
use zone_bounds::less;
use zone_list::{Kind, Step, ahead_of};

// Variable a after the step is variable from[a] before it, with off[a] added. No fact is kept by the type:
// how far numbers go follows from the step of a right model, which a plan alone does not know.
#[derive(Clone, Copy)]
pub struct Plan {
    pub home: Home,
    pub variables: usize,
    pub from: Sources,
    pub off: Offsets,
}

// The plan for a location after the step, the edge that resets clocks or 0, the slots of the queue after it, and what is added to
// clocks and ages, and to running sums.
fn laid(model: &ModelTable, location: u32, edge: u32, slots: Slots, time: i32, sum: i32) -> Plan
    requires { Stand (slots_in slots) slots }
    ensures { (h : Z.Home) (st : S.Step) → LeadsTo model.now.cells.now h st location edge slots time sum → Planned (model_of model.now) h st result }
{
    let clocks = model_table::clocks(model.cells) as usize;
    let variables = home::variables(model, slots.count);
    let from = all_from(model.cells, variables, clocks, edge, slots);
    let off = all_added(variables, clocks, time, sum);
    let tasks = slots.tasks(); // by a name: a call's result does not go straight into an array field
    let home = Home {
        location,
        tasks,
        count: slots.count as u32,
    };
    Plan {
        home,
        variables,
        from,
        off,
    }
}

impl Leaving<'_> {
    // Location and queue stay, and every variable but 0 grows by so much.
    fn kept(self, more: i32) -> Plan
        ensures { (st : S.Step) → Keeps (model_of self.entry.model) (home_of self.entry.home) st more → Planned (model_of self.entry.model) (home_of self.entry.home) st result }
    {
        let slots = slots_of(&self.model, self.home);
        laid(&self.model, self.home.location, 0, slots, more, more)
    }

    // C of the head; 1 in an empty queue.
    fn head_time(self) -> u32
        ensures { (result ≡ head_time (model_of self.entry.model) (order_of self.entry.home)) × (result ≤ 10000) }
    {
        if self.home.count == 0 {
            return 1;
        }
        model_table::work(self.model.cells, self.home.tasks[0])
    }

    // Tick, and the head finishes: its slot is gone, and its C is taken from every other running sum.
    fn finished(self) -> Plan
        ensures { Planned (model_of self.entry.model) (home_of self.entry.home) S.finish result }
    {
        let left = without_head(slots_of(&self.model, self.home));
        let sum = less(1, self.head_time());
        laid(&self.model, self.home.location, 0, left, 1, sum)
    }

    // An edge that doesn't overflow is entered, and its releases are put in.
    fn entered(self, edge: u32, step: Step) -> Plan
        requires listed { Listed (model_of self.model) (home_of self.home) step }
        requires kind_value { step.kind ≡ Kind.Edge edge }
        requires step_value { step_overflows (model_of self.model) (home_of self.home) (step_of step) ≡ false }
        ensures { Planned (model_of self.entry.model) (home_of self.entry.home) (step_of step) result }
    {
        let location = home::target(&self.model, edge, self.home.location);
        let releases = home::released_by(&self.model, edge);
        let n = releases.count as usize;
        let jobs = slots_with(&self.model, self.home, releases, ahead_of(step), n);
        laid(&self.model, location, edge, jobs, 0, 0)
    }
}

// The plan of a step of the zone's list; at an overflow everything stays.
pub fn plan_of(model: &ModelTable, home: Home, step: Step) -> Plan
    requires right_home { RightHome (model_of model.now) home }
    requires listed { Listed (model_of model.now) (home_of home) step }
    ensures { Planned (model_of model.now) (home_of home) (step_of step) result }
{
    let leaving = Leaving {
        model: *model,
        home,
    };
    if zone_list::overflows(model, home, step) {
        return leaving.kept(0);
    }
    match step.kind {
        Kind::GoOn => leaving.kept(1),
        Kind::Finish => leaving.finished(),
        Kind::Edge(edge) => leaving.entered(edge, step),
    }
}
