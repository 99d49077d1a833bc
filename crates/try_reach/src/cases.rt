// The table, the zone and the step of a case.
use super::input::next_number;
use home::Home;
use zone::Zone;
use zone_bounds::less;
use zone_list::{Kind, Step};

// The table of a model's text, with the change that comes next: it may then be one that no text gives.
pub(crate) fn next_table(text: &[u8]) -> [u32; 1092] {
    let mut table = [0u32; 1092];
    // A text that is refused leaves the table 0, and that is a case too.
    let _ = model_text::read_model(text, &mut table);
    let cell = next_number() as usize;
    let value = next_number();
    if cell < 1092 {
        table[cell] = value;
    }
    table
}

// All six cells, those behind the queue too: they may be other than 0.
fn next_tasks() -> [u32; 6] {
    let mut tasks = [0u32; 6];
    for task in tasks.iter_mut() {
        *task = next_number();
    }
    tasks
}

// The bounds that are written; all others are "no bound".
fn next_bounds() -> [i32; 289] {
    let mut bounds = [Zone::NO_BOUND; 289];
    for _ in 0..next_number() {
        let i = next_number() as usize;
        let j = next_number() as usize;
        bounds[(i * 17 + j) % 289] = less(next_number(), 50000);
    }
    bounds
}

// The zone as it is written, which need not be one that may be lent.
pub(crate) fn next_zone() -> Zone {
    let location = next_number();
    let count = next_number();
    let tasks = next_tasks();
    let home = Home {
        location,
        tasks,
        count,
    };
    let bounds = next_bounds();
    Zone { home, bounds }
}

// A step with the first of so many positions.
fn step_of(kind: Kind, position: u32, count: u32) -> Step {
    Step {
        kind,
        positions: [position, 0, 0, 0],
        count,
    }
}

// Kind 1 is a tick and the head goes on, 2 a tick and it finishes, 3 an edge without a position, any
// other an edge with one.
pub(crate) fn next_step() -> Step {
    let kind = next_number();
    let edge = next_number();
    let position = next_number();
    match kind {
        1 => step_of(Kind::GoOn, 0, 0),
        2 => step_of(Kind::Finish, 0, 0),
        3 => step_of(Kind::Edge(edge), 0, 0),
        _ => step_of(Kind::Edge(edge), position, 1),
    }
}
