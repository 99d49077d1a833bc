// Runs the operations on bounds on small matrices with known answers, and prints what they give. A
// line is a row of a matrix; a star stands for "no bound".
#![tactic(auto)]

ghost use Rattle.std.specs.Prelude.{◌≡◌, ℕ, ◌-◌, ◌*◌, ◌<◌, ◌≤◌, pos, IfSome};
ghost use Rattle.bounds.specs.Matrix.{ent, Entry, Entries};
ghost use Rattle.bounds.specs.Images.{var};
ghost use Rattle.bounds.specs.Range.{Ready};
ghost use Rattle.bounds.specs.Claims.{bias, Cells};
ghost use Rattle.try_bounds.specs.Lists.{Listed, Made, TwoJobs};

use bounds::{Broken, Matrix, NONE, Offsets, Sources, Values};

// "Variable i minus variable j is at most c."
#[derive(Clone, Copy)]
struct Bound {
    i: usize,
    j: usize,
    c: i32,
}

// An entry of a matrix, behind a space.
fn print_entry(z: i32)
    requires { Entry z }
{
    if z >= NONE {
        io::write_all(1, b" *");
        return;
    }
    io::write_all(1, b" ");
    if z < 0 {
        io::write_all(1, b"-");
    }
    io::print_decimal(1, u64::from(z.unsigned_abs()));
}

fn print_row(m: &Matrix, n: usize, a: usize)
    requires n_bound { (n ≤ 17) × (a < n) }
    requires entries { Entries m.now }
{
    for b in 0..n {
        let z = bounds::get(m, a, b);
        print_entry(z);
    }
    io::write_all(1, b"\n");
}

fn print_matrix(m: &Matrix, n: usize)
    requires n_bound { n ≤ 17 }
    requires entries { Entries m.now }
{
    for a in 0..n {
        print_row(m, n, a);
    }
}

fn print_values(x: Values, n: usize)
    requires { n ≤ 17 }
{
    for value in &x[..n] {
        io::write_all(1, b" ");
        io::print_decimal(1, u64::from(*value));
    }
    io::write_all(1, b"\n");
}

// The matrix of a list of bounds, or none where no values meet them.
fn zone(n: usize, list: &[Bound]) -> Option<Matrix>
    requires { Listed n list.now }
    ensures { IfSome result (Made n list.now) }
{
    let mut m = bounds::top();
    for bound in list {
        m = bounds::tighten(m, n, bound.i, bound.j, bound.c)?;
    }
    Some(m)
}

fn print_zone(n: usize, zone: Option<Matrix>)
    requires n_bound { n ≤ 17 }
    requires entries { IfSome zone Entries }
{
    match zone {
        Some(m) => print_matrix(&m, n),
        None => {
            io::write_all(1, b" empty\n");
        }
    }
}

// One clock (variable 1) and two jobs. The head's running sum (2) is 1, the second's (4) lies 0 to 3
// above it; the clock lies between 2 and 4 and is at most the head's age (3).
fn two_jobs() -> Option<Matrix>
    ensures { IfSome result TwoJobs }
{
    let list = [
        Bound { i: 2, j: 0, c: 1 },
        Bound { i: 0, j: 2, c: -1 },
        Bound { i: 2, j: 4, c: 0 },
        Bound { i: 4, j: 2, c: 3 },
        Bound { i: 3, j: 0, c: 5 },
        Bound { i: 5, j: 0, c: 7 },
        Bound { i: 1, j: 0, c: 4 },
        Bound { i: 0, j: 1, c: -2 },
        Bound { i: 1, j: 3, c: 0 },
    ];
    zone(6, &list)
}

// The map of a tick, over six variables.
fn tick_vars() -> Sources
    ensures { (a : ℕ) → a < 6 → var result a ≡ a }
{
    [0, 1, 2, 3, 4, 5, 0, 0, 0, 0, 0, 0, 0, 0, 0, 0, 0]
}

fn tick_offsets() -> Offsets
    ensures { (ent result 0 ≡ pos 0) × ((a : ℕ) → a < 6 → 0 < a → ent result a ≡ pos 1) }
{
    [0, 1, 1, 1, 1, 1, 0, 0, 0, 0, 0, 0, 0, 0, 0, 0, 0]
}

// All variables but 0 grow by 1.
fn ticked(m: Matrix) -> Matrix
    requires { Ready m 6 6 640002 }
    ensures { Ready result 6 12 640002 }
{
    let p = tick_vars();
    let off = tick_offsets();
    bounds::remap(m, 6, p, off)
}

// The head, whose C is 2, finishes with a tick.
fn finished(m: Matrix) -> Matrix
    requires { TwoJobs m }
    ensures { Ready result 4 10 640002 }
{
    let p = [0, 1, 4, 5, 0, 0, 0, 0, 0, 0, 0, 0, 0, 0, 0, 0, 0];
    let off = [0, 1, -1, 1, 0, 0, 0, 0, 0, 0, 0, 0, 0, 0, 0, 0, 0];
    bounds::remap(m, 4, p, off)
}

// A job is inserted at position 2.
fn inserted(m: Matrix) -> Matrix
    requires { Ready m 6 6 640002 }
    ensures { Ready result 8 14 640002 }
{
    let p = [0, 1, 2, 3, 2, 0, 4, 5, 0, 0, 0, 0, 0, 0, 0, 0, 0];
    let off = [0, 0, 0, 0, 0, 0, 0, 0, 0, 0, 0, 0, 0, 0, 0, 0, 0];
    bounds::remap(m, 8, p, off)
}

// The clock is reset.
fn cleared(m: Matrix) -> Matrix
    requires { Ready m 6 6 640002 }
    ensures { Ready result 6 12 640002 }
{
    let p = [0, 0, 2, 3, 4, 5, 0, 0, 0, 0, 0, 0, 0, 0, 0, 0, 0];
    let off = [0, 0, 0, 0, 0, 0, 0, 0, 0, 0, 0, 0, 0, 0, 0, 0, 0];
    bounds::remap(m, 6, p, off)
}

// Three bounds that make a chain: variable 1 is at most 12.
fn show_chain() {
    io::write_all(1, b"chain\n");
    let list = [
        Bound { i: 1, j: 2, c: 3 },
        Bound { i: 2, j: 3, c: 4 },
        Bound { i: 3, j: 0, c: 5 },
    ];
    print_zone(4, zone(4, &list));
}

// A clock at most 4 and at least 5.
fn show_contradiction() {
    io::write_all(1, b"contradiction\n");
    let list = [Bound { i: 1, j: 0, c: 4 }, Bound { i: 0, j: 1, c: -5 }];
    print_zone(2, zone(2, &list));
}

// Eight variables, each at least 32,000 below the next, all round. Without the last bound there are
// solutions.
fn show_round() {
    let c = -32_000;
    let list = [
        Bound { i: 0, j: 1, c },
        Bound { i: 1, j: 2, c },
        Bound { i: 2, j: 3, c },
        Bound { i: 3, j: 4, c },
        Bound { i: 4, j: 5, c },
        Bound { i: 5, j: 6, c },
        Bound { i: 6, j: 7, c },
        Bound { i: 7, j: 0, c },
    ];
    io::write_all(1, b"seven of eight\n");
    print_zone(8, zone(8, &list[..7]));
    io::write_all(1, b"all eight\n");
    print_zone(8, zone(8, &list));
}

fn show_moves(m: Matrix)
    requires { TwoJobs m }
{
    io::write_all(1, b"two jobs\n");
    print_matrix(&m, 6);
    io::write_all(1, b"tick\n");
    let t = ticked(m);
    print_matrix(&t, 6);
    io::write_all(1, b"finish\n");
    let f = finished(m);
    print_matrix(&f, 4);
    io::write_all(1, b"insertion\n");
    let i = inserted(m);
    print_matrix(&i, 8);
    io::write_all(1, b"reset\n");
    let r = cleared(m);
    print_matrix(&r, 6);
}

// The smallest solution, and the smallest in which the second job's age minus the clock is above 2.
fn show_least(m: Matrix)
    requires { TwoJobs m }
{
    io::write_all(1, b"least\n");
    let x = bounds::least(&m, 6);
    print_values(x, 6);
    io::write_all(1, b"least above\n");
    match bounds::tighten(m, 6, 1, 5, -3) {
        Some(r) => print_values(bounds::least(&r, 6), 6),
        None => {
            io::write_all(1, b" none\n");
        }
    }
}

// The claims start at the twelfth cell.
fn no_claims() -> [u32; 300]
    ensures { Cells result 11 }
{
    [0; 300]
}

// One claim more, that variable a minus variable b is at most v - 32,001.
fn claim(mut claims: [u32; 300], a: usize, b: usize, v: u32) -> [u32; 300]
    requires a_bound { (a < 17) × (b < 17) × (v ≤ 2 * bias - 1) }
    requires cells { Cells claims 11 }
    ensures { Cells result 11 }
{
    claims[11 + (a * 17 + b)] = v;
    claims
}

fn print_broken(broken: Option<Broken>) {
    match broken {
        Some(Broken { i, j }) => {
            io::write_all(1, b" broken ");
            io::print_decimal(1, i as u64);
            io::write_all(1, b" ");
            io::print_decimal(1, j as u64);
            io::write_all(1, b"\n");
        }
        None => {
            io::write_all(1, b" met\n");
        }
    }
}

// After a tick, the clock is at most 5 and the head's sum minus the clock at most -1: all met. With
// two more claims that are one too low, the first by rows is (1, 4); by columns it would be (4, 2).
fn show_broken(m: Matrix)
    requires { TwoJobs m }
{
    let p = tick_vars();
    let off = tick_offsets();
    let none = no_claims();
    let one = claim(none, 1, 0, 32_006);
    let two = claim(one, 2, 1, 32_000);
    io::write_all(1, b"claims met\n");
    let met = bounds::first_broken(&m, 6, p, off, &two, 11);
    print_broken(met);
    let three = claim(two, 4, 2, 32_003);
    let four = claim(three, 1, 4, 32_003);
    io::write_all(1, b"claims broken\n");
    let broken = bounds::first_broken(&m, 6, p, off, &four, 11);
    print_broken(broken);
}

fn main() {
    io::write_all(1, b"top\n");
    let m = bounds::top();
    print_matrix(&m, 3);
    show_chain();
    show_contradiction();
    show_round();
    match two_jobs() {
        Some(jobs) => {
            show_moves(jobs);
            show_least(jobs);
            show_broken(jobs);
        }
        None => {
            io::write_all(1, b" empty\n");
        }
    }
}
