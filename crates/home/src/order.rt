// A row with one put in, and one without its first; and the queue order so changed.
ghost use Rattle.std.specs.Prelude.{◌≡◌, ℕ, ◌+◌, ◌-◌, ◌≤◌, ◌<◌, ◌∷◌, ◌++◌, [], suc, get_or, take, drop, replicate};
ghost use Rattle.meaning.specs.Lists.{insert_at};

use crate::Tasks;

// The first `count` of a row with a new one behind `at` of them, and `blank` behind them.
#[tactic(auto, using(crate::proofs::RowLaws::inserted_is))]
pub fn inserted<T: Copy, const N: usize>(
    items: [T; N],
    count: usize,
    new: T,
    at: usize,
    blank: T,
) -> [T; N]
    requires at_le_count { at ≤ count }
    requires room { count < N }
    ensures { result ≡ insert_at at new (take count items) ++ replicate (N - suc count) blank }
{
    let mut row = [blank; N];
    let (here, all) = (&items[..], &mut row[..]);
    all[..at].copy_from_slice(&here[..at]);
    all[at] = new;
    all[at + 1..=count].copy_from_slice(&here[at..count]);
    row
}

// A row without its first, and `blank` in the last place.
#[tactic(auto, using(crate::proofs::RowLaws::without_first_is))]
pub fn without_first<T: Copy, const N: usize>(mut items: [T; N], blank: T) -> [T; N]
    requires { 0 < N }
    ensures { result ≡ drop 1 items ++ blank ∷ [] }
{
    items.rotate_left(1);
    items[N - 1] = blank;
    items
}

// The tasks with a new one behind `ahead` of the `count` that are there.
pub fn with_new(tasks: Tasks, count: usize, new: u32, ahead: usize) -> Tasks
    requires { (ahead ≤ count) × (count < 6) }
    ensures { (take (suc count) result ≡ insert_at ahead new (take count tasks)) × ((k : ℕ) → suc count ≤ k → get_or result k 0 ≡ 0) }
{
    inserted(tasks, count, new, ahead, 0)
}
