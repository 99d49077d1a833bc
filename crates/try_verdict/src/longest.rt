// Tables whose text is as long as a text may be, and one byte longer: those no text gives.
ghost use Rattle.std.specs.Prelude.{◌<◌};

use super::show_check;
use super::tables::put;

// How many zones there are.
const ZONES: usize = 48;
// Pairs of 12 variables, of one with itself too: one clock and five jobs.
const PAIRS: usize = 144;

// Zone k + 1 of location 1 with five jobs, and its claims 0 and 0.
fn put_head(zones: &mut [u32], k: usize)
    requires { k < 48 }
{
    let end = 2 * (k as u32) + 2;
    for (i, number) in [2, 2, 3, 4, 5, 6, 0, end].iter().enumerate() {
        put(zones, 8 * k + i, *number);
    }
    put(zones, 14256 + 2 * k, 1);
    put(zones, 14257 + 2 * k, 1);
}

// 48 of them.
fn put_heads(zones: &mut [u32]) {
    for k in 0..ZONES {
        put_head(zones, k);
    }
}

// Pair k of all zones' variables gets a bound of 10 or of 0, which is a byte shorter, unless it is one
// variable twice.
fn put_bound(zones: &mut [u32], k: usize, long: bool)
    requires { k < 6912 }
{
    let i = k % PAIRS / 12;
    let j = k % 12;
    let number = if long { 32011 } else { 32001 };
    if i != j {
        put(zones, 384 + 289 * (k / PAIRS) + 17 * i + j, number);
    }
}

// Every zone has all bounds: those of the first pairs, as many as said, are 10, those behind them 0.
fn put_bounds(zones: &mut [u32], many: usize) {
    for k in 0..ZONES * PAIRS {
        put_bound(zones, k, k < many);
    }
}

// The text has 60,195 bytes, and one more for every bound of 10.
fn show_long(many: usize) {
    let mut model = [0u32; 1092];
    let mut zones = [0u32; 47023];
    let _ = model_text::read_model(
        b"PO 2\nCK 1\nTK 1 9 0\nTK 1 9 0\nTK 1 9 0\nTK 1 9 0\nTK 1 9 0\nLO 0\nEN\n",
        &mut model,
    );
    put_heads(&mut zones);
    put_bounds(&mut zones, many);
    show_check(&model, &zones);
}

// The first 5,825 pairs have 5,340 bounds, so the text has 65,535 bytes. The next pair is one variable
// twice; with the one behind it the text is a byte longer.
pub(crate) fn show_longest() {
    for many in [5825, 5826, 5827, 6912] {
        show_long(many);
    }
}
