// The variables of a location with a queue order: clocks, then a running sum and an age for each job.
ghost use Rattle.std.specs.Prelude.{◌≡◌, ◌+◌, ◌≤◌, suc};
ghost use Rattle.meaning.specs.Inner.Slots.{sum_ahead};
ghost use Rattle.model_table.specs.Held.{model_of};

use model_table::ModelTable;

// How many variables a queue of so many jobs has in all, variable 0 among them.
#[tactic(auto, using(model_table::proofs::PartLaws::clocks_is))]
pub fn variables(model: &ModelTable, count: usize) -> usize
    requires count_bound { count ≤ 6 }
    ensures { (result ≡ suc ((model_of model.now).clocks + (count + count))) × (result ≤ 17) }
{
    1 + model_table::clocks(model.cells) as usize + 2 * count
}

// The variable of the running sum of the job behind k others; its age is the next.
pub fn sum_at(clocks: usize, k: usize) -> usize
    requires { (clocks ≤ 4) × (k ≤ 6) }
    ensures { result ≡ suc clocks + (k + k) }
{
    clocks + 1 + 2 * k
}

// The variable of the running sum just ahead of it: 0 for the head.
pub fn sum_ahead(clocks: usize, k: usize) -> usize
    requires { (clocks ≤ 4) × (k ≤ 6) }
    ensures { result ≡ sum_ahead 0 (suc clocks) k }
{
    if k == 0 { 0 } else { sum_at(clocks, k - 1) }
}
