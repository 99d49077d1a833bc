// The slots of a queue by value.
ghost use Rattle.std.specs.Prelude.{◌≡◌, ℕ, ◌≤◌, ◌<◌, get_or};

use home::Tasks;

// Where a job stands: its task, the variable of its running sum, and that of its age.
#[derive(Clone, Copy, Debug, PartialEq, Eq)]
pub struct Slot {
    pub task: u32,
    pub sum: usize,
    pub age: usize,
}

impl Slot {
    // No job stands there.
    pub const NONE: Slot = Slot {
        task: 0,
        sum: 0,
        age: 0,
    };
}

// The slots of a queue, head first; behind them none.
#[derive(Clone, Copy)]
pub struct Slots {
    pub slots: [Slot; 6],
    pub count: usize,
    ghost few: { count ≤ 6 },
}

impl Slots {
    ghost use Rattle.slots.specs.Stands.{slot_of, slot_in, sum_before};

    // The slot behind so many others.
    pub fn slot(&self, k: usize) -> Slot
        requires { k < 6 }
        ensures { slot_of result ≡ slot_in self.now k }
    {
        self.slots[k]
    }

    // The task at each position, and 0 behind the queue.
    pub fn tasks(&self) -> Tasks
        ensures { (k : ℕ) → get_or result k 0 ≡ (slot_in self.now k).task }
    {
        self.slots.map(|slot| slot.task)
    }

    // The variable of the running sum just ahead of one behind so many others: 0 at the head.
    pub fn sum_before(&self, ahead: usize) -> usize
        requires { ahead ≤ 6 }
        ensures { result ≡ sum_before self.now ahead }
    {
        if ahead == 0 {
            0
        } else {
            self.slots[ahead - 1].sum
        }
    }
}
