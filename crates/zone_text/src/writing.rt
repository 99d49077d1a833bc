// The writer of a proposal's text. Each function but the last two gives the place after what it wrote; those two answer with the length of the text.
ghost use Rattle.std.specs.Prelude.{[], ◌∷◌, map, ℕ, ◌+◌, ◌-◌, ◌≤◌, ltb, length, get_or};
ghost use Rattle.meaning.specs.Text.Choice.{pick};
ghost use Rattle.meaning.specs.Text.ModelText.{texts};
ghost use Rattle.meaning.specs.Text.ModelTable.{there};
ghost use Rattle.meaning.specs.Text.ModelReader.{words};
ghost use Rattle.meaning.specs.Text.ProposalTable.{zone_slot, pool_start, order_in, bounds_in, zone_in, decode};
ghost use Rattle.meaning.specs.Text.ProposalText.{order_text, bound_text, claims_text, zone_text, end_text, proposal_text};
ghost use Rattle.lines.specs.Put.{Put};
ghost use Rattle.zone_table.specs.Kept.{field_text, kept_bound};
ghost use Rattle.model_table.specs.Held.{model_of};
ghost use Rattle.zone_text.specs.Wrote.{WroteProposal};
ghost use Rattle.zone_text.specs.Over.{WroteOver};

use crate::refusing::refused;
use lines::Field;
use model_table::{ModelTable, cell, less_one};
use model_text::is_model;
use refusals::{Reason, Refusal};
use zone::Zone;
use zone_table::{
    BOUND_MOST, BOUNDS, POOL_START, ZONES_MOST, bounds_start, claims, claims_start, head_start,
    is_proposal, text_length,
};

// Some bytes as they are.
fn write_bytes(buf: &mut [u8], at: usize, bytes: &[u8]) -> usize
    requires { at + length bytes.now ≤ length buf.old }
    ensures { Put buf.old at bytes.now buf.new result }
{
    let end = at + bytes.len();
    buf[at..end].copy_from_slice(bytes);
    end
}

// A task's field, where its cell has something.
fn write_task(v: u32, buf: &mut [u8], at: usize) -> usize
    requires { at + length (pick (ltb 0 v) (field_text (v - 1)) []) ≤ length buf.old }
    ensures { Put buf.old at (pick (ltb 0 v) (field_text (v - 1)) []) buf.new result }
{
    if v == 0 {
        return at;
    }
    lines::write_field(buf, at, 0, v - 1)
}

// The fields of a zone's tasks.
fn write_tasks(zones: &[u32], zone: u32, buf: &mut [u8], at: usize) -> usize
    requires { (1 ≤ zone) × (zone ≤ 48) × (at + length (texts field_text (order_in zones.now (zone - 1))) ≤ length buf.old) }
    ensures { Put buf.old at (texts field_text (order_in zones.now (zone - 1))) buf.new result }
{
    let from = head_start(zone);
    let mut p = at;
    for x in 0..Zone::QUEUE {
        p = write_task(cell(zones, from + 1 + x), buf, p);
    }
    p
}

// The line of a zone's location and tasks.
fn write_order(zones: &[u32], zone: u32, buf: &mut [u8], at: usize) -> usize
    requires { (1 ≤ zone) × (zone ≤ 48) × (at + length (order_text (get_or zones.now (zone_slot (zone - 1)) 0 - 1) (order_in zones.now (zone - 1))) ≤ length buf.old) }
    ensures { Put buf.old at (order_text (get_or zones.now (zone_slot (zone - 1)) 0 - 1) (order_in zones.now (zone - 1))) buf.new result }
{
    let location = less_one(cell(zones, head_start(zone)));
    let p = write_bytes(buf, at, b"ZN");
    let q = lines::write_field(buf, p, 0, location);
    let r = write_tasks(zones, zone, buf, q);
    write_bytes(buf, r, b"\n")
}

// The line of a bound, where its cell has something.
fn write_bound(i: u32, j: u32, v: u32, buf: &mut [u8], at: usize) -> usize
    requires { at + length (pick (ltb 0 v) (bound_text (kept_bound i j (v - 1))) []) ≤ length buf.old }
    ensures { Put buf.old at (pick (ltb 0 v) (bound_text (kept_bound i j (v - 1))) []) buf.new result }
{
    if v == 0 {
        return at;
    }
    let p = write_bytes(buf, at, b"BD");
    let fields = [
        Field {
            below: 0,
            number: i,
        },
        Field {
            below: 0,
            number: j,
        },
        Field {
            below: BOUND_MOST,
            number: v - 1,
        },
    ];
    lines::write_fields(buf, p, &fields)
}

// The lines of a zone's bounds.
fn write_bounds(zones: &[u32], zone: u32, buf: &mut [u8], at: usize) -> usize
    requires { (1 ≤ zone) × (zone ≤ 48) × (at + length (texts bound_text (bounds_in zones.now (zone - 1))) ≤ length buf.old) }
    ensures { Put buf.old at (texts bound_text (bounds_in zones.now (zone - 1))) buf.new result }
{
    let from = bounds_start(zone);
    let mut p = at;
    for x in 0..BOUNDS {
        let v = cell(zones, from + x);
        let i = (x / Zone::VARIABLES) as u32;
        let j = (x % Zone::VARIABLES) as u32;
        p = write_bound(i, j, v, buf, p);
    }
    p
}

// The fields of n claims that stand in the pool from `from` on.
fn write_numbers(zones: &[u32], from: u32, n: u32, buf: &mut [u8], at: usize) -> usize
    requires { at + length (texts field_text (map (λ (x : ℕ). x - 1) (words zones.now (pool_start + from) n))) ≤ length buf.old }
    ensures { Put buf.old at (texts field_text (map (λ (x : ℕ). x - 1) (words zones.now (pool_start + from) n))) buf.new result }
{
    let mut p = at;
    for x in 0..n {
        let v = less_one(cell(zones, POOL_START + (from as usize) + (x as usize)));
        p = lines::write_field(buf, p, 0, v);
    }
    p
}

// The line of these claims.
fn write_claims(zones: &[u32], from: u32, n: u32, buf: &mut [u8], at: usize) -> usize
    requires { at + length (claims_text (map (λ (x : ℕ). x - 1) (words zones.now (pool_start + from) n))) ≤ length buf.old }
    ensures { Put buf.old at (claims_text (map (λ (x : ℕ). x - 1) (words zones.now (pool_start + from) n))) buf.new result }
{
    let p = write_bytes(buf, at, b"GO");
    let q = write_numbers(zones, from, n, buf, p);
    write_bytes(buf, q, b"\n")
}

// The lines of a zone, where there is one.
fn write_zone(zones: &[u32], zone: u32, buf: &mut [u8], at: usize) -> usize
    requires { (1 ≤ zone) × (zone ≤ 48) × (at + length (pick (there zones.now (zone_slot (zone - 1))) (zone_text (zone_in zones.now (zone - 1))) []) ≤ length buf.old) }
    ensures { Put buf.old at (pick (there zones.now (zone_slot (zone - 1))) (zone_text (zone_in zones.now (zone - 1))) []) buf.new result }
{
    if cell(zones, head_start(zone)) == 0 {
        return at;
    }
    let from = claims_start(zones, zone);
    let n = claims(zones, zone);
    let p = write_order(zones, zone, buf, at);
    let q = write_bounds(zones, zone, buf, p);
    write_claims(zones, from, n, buf, q)
}

// The whole text.
fn write_text(zones: &[u32], buf: &mut [u8]) -> usize
    requires { length (proposal_text (decode zones.now)) ≤ length buf.old }
    ensures { Put buf.old 0 (proposal_text (decode zones.now)) buf.new result }
{
    let mut p: usize = 0;
    for k in 0..ZONES_MOST {
        p = write_zone(zones, k + 1, buf, p);
    }
    write_bytes(buf, p, b"EN\n")
}

// The text of the proposal's table into the buffer, over a right model's table.
fn write_over(model: &ModelTable, zones: &[u32], buffer: &mut [u8]) -> Result<usize, Refusal>
    ensures { WroteOver (model_of model.now) zones.now buffer.old result buffer.new }
{
    if !is_proposal(model, zones) {
        return Err(refused(Reason::NotProper, 0));
    }
    if buffer.len() < text_length(zones) {
        return Err(refused(Reason::WrongRoom, 0));
    }
    Ok(write_text(zones, buffer))
}

// The text of the proposal's table into the buffer.
pub fn write_proposal(model: &[u32], zones: &[u32], buffer: &mut [u8]) -> Result<usize, Refusal>
    ensures { WroteProposal model.now zones.now buffer.old result buffer.new }
{
    if !is_model(model) {
        return Err(refused(Reason::NotProper, 0));
    }
    write_over(&ModelTable { cells: model }, zones, buffer)
}
