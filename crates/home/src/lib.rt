// A location with a queue order, and every rule about it: which edges leave it, what they release, overflow, the first place of a new job,
// which queue orders may be, and how many variables they have.
#![tactic(auto)]

ghost use Rattle.std.specs.Prelude.{◌≡◌, ◌≤◌};

mod edges;
mod numbering;
mod order;
mod queue;
mod whole;

pub use edges::{leaves, released_by, start_releases, target};
pub use numbering::{sum_ahead, sum_at, variables};
pub use order::{inserted, with_new, without_first};
pub use queue::{first_place, fits, overflows};
pub use whole::{is_home, same_home};

// The tasks of a queue, head first, and 0 behind them.
pub type Tasks = [u32; 6];

// A location with a queue order, head first; tasks behind the queue are 0. One that is lent may have any count: `is_home` judges it.
#[derive(Clone, Copy)]
pub struct Home {
    pub location: u32,
    pub tasks: Tasks,
    pub count: u32,
}

impl Home {
    ghost use Rattle.home.specs.Stands.{order_of};

    // The queue order, head first.
    pub fn order(&self) -> &[u32]
        requires { self.now.count ≤ 6 }
        ensures { result.now ≡ order_of self.now }
    {
        &self.tasks[..self.count as usize]
    }
}

// How many jobs are ahead of each release, as it comes in; 0 behind the last.
pub type JobsAhead = [usize; 4];

// Tasks that are released one after the other; behind them 0.
#[derive(Clone, Copy)]
pub struct Releases {
    pub tasks: [u32; 4],
    pub count: u32,
}

impl Releases {
    ghost use Rattle.home.specs.Stands.{tasks_of};

    // The tasks that are released, one after the other.
    pub fn list(&self) -> &[u32]
        requires { self.now.count ≤ 4 }
        ensures { result.now ≡ tasks_of self.now }
    {
        let count = self.count as usize;
        &self.tasks[..count]
    }
}
