// The positions of new jobs that are released one after the other: how many choices there are, which stands at a place, and whether some positions are one.
ghost use Rattle.std.specs.Prelude.{◌≡◌, true, ◌↔◌, ◌+◌, ◌-◌, ◌≤◌, ◌<◌, ◌∷◌, length, map};
ghost use mathlib.Core.List.{Memᴰ};
ghost use Rattle.meaning.specs.Machine.Place.{behind};
ghost use Rattle.meaning.specs.Zones.Steps.{choices};
ghost use Rattle.home.specs.Stands.{order_of};
ghost use Rattle.zone_list.specs.Listing.{model_of};
ghost use Rattle.zone_list.specs.Chosen.{AheadIs, ChoiceIs, jobs_ahead};

use crate::Positions;
use crate::form::one_less;
use crate::listing::Listing;
use crate::queue::Queue;

// How many jobs are ahead of a new one in the choice that is looked for, and how many choices with as many ahead are before it.
#[derive(Clone, Copy)]
pub(crate) struct Ahead {
    pub ahead: usize,
    pub rest: usize,
}

impl Listing<'_> {
    // How many choices of positions the releases have in the queue.
    pub(crate) fn choices(&self, releases: &[u32], queue: &Queue) -> usize
        requires { (length releases.now ≤ 4) × (length queue.now + length releases.now ≤ 6) }
        ensures { (result ≡ length (choices (model_of self.now) releases.now queue.now)) × (result ≤ 2401) }
    {
        let [task, later @ ..] = releases else {
            return 1;
        };
        let first = queue.first_place(self.table, *task);
        if later.is_empty() {
            return queue.len() + 1 - first; // the last has a position for each place from its first on
        }
        let mut r = 0;
        for p in first..queue.len() + 1 {
            // the next release meets the queue with this one in it
            let next = queue.with(*task, p);
            r += self.choices(later, &next);
        }
        r
    }

    // How many jobs are ahead of a release, in the choice of positions with `rest` before it of this and the later releases.
    fn ahead_at(&self, task: u32, later: &[u32], queue: &Queue, rest: usize) -> Ahead
        requires few { (length later.now < 4) × (length queue.now + length later.now < 6) }
        requires rest_in_bounds { rest < length (choices (model_of self.now) (task ∷ later.now) queue.now) }
        ensures { AheadIs (model_of self.now) task later.now queue.now rest result }
    {
        let mut left = rest;
        for p in queue.first_place(self.table, task)..queue.len() {
            let n = self.choices(later, &queue.with(task, p));
            if left < n {
                return Ahead {
                    ahead: p,
                    rest: left,
                };
            }
            left -= n;
        }
        Ahead {
            ahead: queue.len(),
            rest: left,
        }
    }

    // The choice of positions with `rest` before it.
    pub(crate) fn choice_at(&self, releases: &[u32], rest: usize) -> Positions
        requires few { (length releases.now ≤ 4) × (length (order_of self.now.home) + length releases.now ≤ 6) }
        requires rest_in_bounds { rest < length (choices (model_of self.now) releases.now (order_of self.now.home)) }
        ensures { ChoiceIs (model_of self.now) releases.now (order_of self.now.home) rest result }
    {
        let mut queue = Queue::of(self.home);
        let mut left = rest;
        let mut r = [0; 4];
        for (k, &task) in releases.iter().enumerate() {
            let found = self.ahead_at(task, &releases[k + 1..], &queue, left);
            r[k] = found.ahead as u32 + 1;
            queue = queue.with(task, found.ahead);
            left = found.rest;
        }
        r
    }

    // May a new job of the task have so many jobs of the queue ahead of it?
    fn may_stand(&self, task: u32, queue: &Queue, ahead: usize) -> bool
        ensures { (result ≡ true) ↔ ((behind (model_of self.now) task queue.now ≤ ahead) × (ahead ≤ length queue.now)) }
    {
        queue.first_place(self.table, task) <= ahead && ahead <= queue.len()
    }

    // Are the positions a choice of the releases?
    pub(crate) fn is_choice(&self, releases: &[u32], positions: &[u32]) -> bool
        requires few { (length releases.now ≤ 4) × (length (order_of self.now.home) + length releases.now ≤ 6) }
        ensures { (result ≡ true) ↔ Memᴰ (jobs_ahead positions.now) (choices (model_of self.now) releases.now (order_of self.now.home)) }
    {
        if positions.len() != releases.len() {
            return false;
        }
        let mut queue = Queue::of(self.home);
        for (k, &task) in releases.iter().enumerate() {
            let ahead = one_less(positions[k]);
            if !self.may_stand(task, &queue, ahead) {
                return false;
            }
            queue = queue.with(task, ahead);
        }
        true
    }
}
