// The check on tables that no text gives: refusal 13. Beside each that differs by little from one that a
// text gives stands that one.
use super::show_check;

// Cells of the model's table: policy, clocks, tasks, locations, edges, guards, resets.
const MODEL_CELLS: [(usize, u32); 22] = [
    (0, 2),
    (0, 4),
    (0, 5),
    (1, 1),
    (1, 6),
    (2, 0),
    (2, 6),
    (3, 10001),
    (3, 10002),
    (4, 0),
    (4, 2),
    (8, 2),
    (20, 3),
    (21, 7),
    (22, 6),
    (30, 1),
    (100, 3),
    (102, 10001),
    (103, 9997),
    (103, 20002),
    (128, 3),
    (1091, 1),
];

// Cells of the proposal's table: locations, tasks, ends of claims, bounds, claims.
const ZONES_CELLS: [(usize, u32); 16] = [
    (0, 3),
    (1, 3),
    (2, 2),
    (7, 4),
    (16, 2),
    (673, 32001),
    (690, 32005),
    (690, 64001),
    (690, 64002),
    (707, 32001),
    (14256, 1),
    (14256, 3),
    (14256, 4),
    (14258, 2),
    (14262, 1),
    (47022, 1),
];

// Model A's table.
fn model_a() -> [u32; 1092] {
    let mut model = [0u32; 1092];
    let _ = model_text::read_model(
        b"PO 2\nCK 1\nTK 2 4 0\nLO 1\nIV 1 5\nED 1 1\nGU 0 1 -5\nRS 1\nEN\n",
        &mut model,
    );
    model
}

// Proposal A's table, over model A.
fn zones_a(model: &[u32]) -> [u32; 47023] {
    let mut zones = [0u32; 47023];
    let _ = zone_text::read_proposal(
        model,
        b"ZN 1 1\nBD 1 2 0\nBD 1 3 0\nBD 2 1 0\nBD 3 1 0\nGO 1 2 0\nZN 1\nBD 0 1 -2\nBD 1 0 5\nGO 2 0 1\nEN\n",
        &mut zones,
    );
    zones
}

// A number into a cell; a table that lacks the cell stays.
pub(crate) fn put(table: &mut [u32], at: usize, number: u32) {
    if let Some(cell) = table.get_mut(at) {
        *cell = number;
    }
}

// Tables of zeros, one or both; then both as the texts give them.
fn show_zeros() {
    let model = model_a();
    let zones = zones_a(&model);
    let none = [0u32; 1092];
    let nothing = [0u32; 47023];
    show_check(&none, &nothing);
    show_check(&model, &nothing);
    show_check(&none, &zones);
    show_check(&model, &zones);
}

// The model's table of the right length, then a cell too short or too long, or of no length, or the
// proposal's; and the same of the proposal's table.
fn show_lengths() {
    let mut model = [0u32; 1093];
    let mut zones = [0u32; 47024];
    let exact = model_a();
    model[..1092].copy_from_slice(&exact);
    zones[..47023].copy_from_slice(&zones_a(&exact));
    show_check(&model[..1092], &zones[..47023]);
    show_check(&model[..1091], &zones[..47023]);
    show_check(&model, &zones[..47023]);
    show_check(&model[..0], &zones[..47023]);
    show_check(&zones[..1092], &zones[..47023]);
    show_check(&model[..1092], &zones[..47022]);
    show_check(&model[..1092], &zones);
    show_check(&model[..1092], &zones[..0]);
    show_check(&model[..1092], &model[..1092]);
}

// Model A and proposal A with one cell of the model's table changed.
fn show_models() {
    let model = model_a();
    let zones = zones_a(&model);
    for (at, number) in MODEL_CELLS {
        let mut changed = model;
        put(&mut changed, at, number);
        show_check(&changed, &zones);
    }
}

// Model A and proposal A with one cell of the proposal's table changed.
fn show_proposals() {
    let model = model_a();
    let zones = zones_a(&model);
    for (at, number) in ZONES_CELLS {
        let mut changed = zones;
        put(&mut changed, at, number);
        show_check(&model, &changed);
    }
}

// All of them.
pub(crate) fn show_tables() {
    show_zeros();
    show_lengths();
    show_models();
    show_proposals();
}
