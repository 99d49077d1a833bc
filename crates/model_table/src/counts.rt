// How many cells of a table have something in them: its tasks, locations and edges.
ghost use Rattle.std.specs.Prelude.{◌≡◌, ◌+◌, ◌*◌, ◌^◌, ◌<◌, ◌≤◌};
ghost use Rattle.meaning.specs.Text.ModelTable.{tasks, locations, edges, count};

use super::cells::cell;

// How many of n cells, each a step after the one before, have something in them.
#[tactic(auto, using(crate::proofs::CountLaws::count_none, crate::proofs::CountLaws::count_there, crate::proofs::CountLaws::count_not))]
pub fn count_from(table: &[u32], from: usize, step: usize, n: u32) -> u32
    requires { from + step * n < 2 ^ 64 }
    ensures counted { result ≡ count table.now from step n }
    ensures few { result ≤ n }
{
    let mut found = 0;
    for k in 0..n {
        if 0 < cell(table, from + step * k as usize) {
            found += 1;
        }
    }
    found
}

// How many tasks.
#[tactic(auto, unfolding(meaning::specs::Text::ModelTable::tasks))]
pub fn tasks(model: &[u32]) -> u32
    ensures { result ≡ tasks model.now }
{
    count_from(model, 2, 3, 6)
}

// How many locations.
#[tactic(auto, unfolding(meaning::specs::Text::ModelTable::locations))]
pub fn locations(model: &[u32]) -> u32
    ensures { result ≡ locations model.now }
{
    count_from(model, 20, 5, 16)
}

// How many edges.
#[tactic(auto, unfolding(meaning::specs::Text::ModelTable::edges))]
pub fn edges(model: &[u32]) -> u32
    ensures { result ≡ edges model.now }
{
    count_from(model, 100, 31, 32)
}
