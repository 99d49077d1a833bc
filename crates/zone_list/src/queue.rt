// A queue while new jobs come in.
ghost use Rattle.std.specs.Prelude.{◌≡◌, ◌+◌, ◌≤◌, ◌<◌, List, ℕ, length, take};
ghost use Rattle.meaning.specs.Lists.{insert_at};
ghost use Rattle.meaning.specs.Machine.Place.{behind};
ghost use Rattle.model_table.specs.Held.{model_of};
ghost use Rattle.home.specs.Stands.{order_of};

use home::{Home, Tasks, first_place, with_new};
use model_table::ModelTable;
use std::marker::Model;

// The tasks of its jobs, head first. Contracts see it as their list, which says nothing of the cells behind it: so it is lent and not copied.
#[derive(Drop)]
pub(crate) struct Queue {
    tasks: Tasks,
    count: usize,
}

impl Model for Queue {
    ghost Value = { List ℕ };

    ghost view = { λ q. take q.count q.tasks };

    ghost invariant = { λ q. q.count ≤ 6 };
}

impl Queue {
    pub(crate) fn of(home: Home) -> Self
        requires { home.count ≤ 6 }
        ensures { result ≡ order_of home }
    {
        let tasks = home.tasks;
        Queue {
            tasks,
            count: home.count as usize,
        }
    }

    pub(crate) fn len(&self) -> usize
        ensures { (result ≡ length self.now) × (result ≤ 6) }
    {
        self.count
    }

    // How many of its jobs a new job of the task always stays behind.
    pub(crate) fn first_place(&self, table: ModelTable, task: u32) -> usize
        ensures { result ≡ behind (model_of table.entry) task self.now }
    {
        first_place(&table, task, &self.tasks[..self.count])
    }

    // The queue with a new job of the task behind `ahead` of its jobs.
    pub(crate) fn with(&self, task: u32, ahead: usize) -> Self
        requires { (ahead ≤ length self.now) × (length self.now < 6) }
        ensures { result ≡ insert_at ahead task self.now }
    {
        let tasks = with_new(self.tasks, self.count, task, ahead);
        Queue {
            tasks,
            count: self.count + 1,
        }
    }
}
