//! The table of attributes after the change bodies, and whether it differs.

ghost use Rattle.std.specs.Prelude.{◌≡◌, ◌+◌, ◌<◌, ◌≤◌, ◌^◌, ◌↔◌, false, true, IfOk, IfSome, IsTrue, OnOk, length, Some, None, slice_get, slice_index};
ghost use Rattle.tdf_dynamic.specs.Asked.{HasSameRates, IsQuiet, attrs_after, said_or, steps_after};
ghost use Rattle.tdf_dynamic.specs.machine.Asking.{AllTell, CanTell, told};
ghost use Rattle.tdf_dynamic.specs.machine.Rows.{AreAfter, AreFlagged, HoldsBelow, IsFirst};
ghost use Rattle.tdf_expr.specs.Made.{block_count, rate_spans_of};
ghost use Rattle.tdf_expr_state.specs.State.{standing};
ghost use Rattle.tdf_streams.specs.Places.{block_at};

use crate::frames::{Instance, ModuleFrame};
use std::alloc::Global;
use tdf_base::Memory;
use tdf_bind::Flat;
use tdf_dynamic_plans::ModuleAttrs;
use tdf_expr::{Frame, Ports};

/// The timestep that was assigned at a place, else the one from before.
fn step_after(before: u64, ports: &Ports, place: usize) -> u64
    requires few { length ports.now.spans ≤ 2 ^ 31 }
    requires long { length ports.now.state.steps ≡ 1 + length ports.now.spans }
    ensures { result ≡ said_or before (standing (slice_get ports.now.state.steps place)) }
{
    if place > ports.ports() {
        return before;
    }
    match ports.step(place as u32) {
        None => before,
        Some(step) => step,
    }
}

/// Writes the timesteps of a module and its ports.
fn put_steps(steps: &mut Vec<u64>, before: &[u64], ports: &Ports) -> Result<(), Memory>
    requires few { length ports.now.spans ≤ 2 ^ 31 }
    requires long { length ports.now.state.steps ≡ 1 + length ports.now.spans }
    ensures { OnOk result (steps.new.items ≡ steps_after before.now ports.now.state.steps) }
{
    steps.clear();
    for place in 0..before.len() {
        steps.push(step_after(before[place], ports, place))?;
    }
    Ok(())
}

/// Whether all timesteps are those from before.
fn are_same_steps(before: &[u64], ports: &Ports) -> bool
    requires few { length ports.now.spans ≤ 2 ^ 31 }
    requires long { length ports.now.state.steps ≡ 1 + length ports.now.spans }
    ensures { IsTrue result ↔ (steps_after before.now ports.now.state.steps ≡ before.now) }
{
    for place in 0..before.len() {
        if step_after(before[place], ports, place) != before[place] {
            return false;
        }
    }
    true
}

/// Writes the values of the rate variables.
fn put_rates(rates: &mut Vec<u32>, frame: &Frame, count: u32) -> Result<(), Memory>
    requires spans { count ≡ length frame.now.rates }
    requires values { count ≡ length frame.now.state.rates }
    ensures { OnOk result (rates.new.items ≡ frame.now.state.rates) }
{
    rates.clear();
    for i in 0..count {
        rates.push(frame.rate(i))?;
    }
    Ok(())
}

/// Whether all rates are those from before.
fn are_same_rates(before: &[u32], frame: &Frame, count: u32) -> bool
    requires spans { count ≡ length frame.now.rates }
    requires values { count ≡ length frame.now.state.rates }
    requires count { count ≡ length before.now }
    ensures { IsTrue result ↔ (frame.now.state.rates ≡ before.now) }
{
    for i in 0..count {
        if frame.rate(i) != before[i as usize] {
            return false;
        }
    }
    true
}

/// How many rate variables a module has.
fn rate_count(flat: &Flat, attrs: &ModuleAttrs) -> u32
    requires is_module { attrs.now.number < length flat.now.tables.modules }
    requires block { block_at flat.now.tables.modules attrs.now.number < block_count flat.now.checked }
    ensures { result ≡ length (rate_spans_of flat.now.checked (block_at flat.now.tables.modules attrs.now.number)) }
{
    flat.checked
        .rates(flat.tables.modules[attrs.number as usize].block)
}

/// The flag that was said last, else the one from before.
pub(crate) fn flag_after(before: bool, ports: &Ports) -> bool
    ensures { result ≡ said_or before ports.now.state.accepts }
{
    match ports.accepts() {
        None => before,
        Some(said) => said,
    }
}

/// Writes the numbers of ports.
fn put_ports(ports: &mut Vec<u32>, before: &[u32]) -> Result<(), Memory>
    ensures { OnOk result (ports.new.items ≡ before.now) }
{
    ports.clear();
    ports.extend_from_slice(before)?;
    Ok(())
}

/// Writes the attributes of a module after its change body.
fn put_after(
    after: &mut ModuleAttrs,
    flat: &Flat,
    attrs: &ModuleAttrs,
    instance: &Instance,
) -> Result<(), Memory>
    requires tells { CanTell flat.now attrs.now instance.now }
    ensures { OnOk result (after.new ≡ attrs_after attrs.now (told instance.now)) }
{
    let frame = &*instance.boxed;
    put_rates(&mut after.rates, &frame.frame, rate_count(flat, attrs))?;
    put_steps(&mut after.steps, &attrs.steps, &frame.ports)?;
    put_ports(&mut after.ports, &attrs.ports)?;
    after.number = attrs.number;
    after.accepts = flag_after(attrs.accepts, &frame.ports);
    Ok(())
}

/// Whether the rates and assigned timesteps of a module are those from before.
pub(crate) fn is_unchanged(flat: &Flat, attrs: &ModuleAttrs, instance: &ModuleFrame) -> bool
    requires tells { CanTell flat.now attrs.now instance.now }
    ensures { IsTrue result ↔ HasSameRates attrs.now (attrs_after attrs.now (told instance.now)) }
{
    let count = rate_count(flat, attrs);
    are_same_rates(&attrs.rates, &instance.frame, count)
        && are_same_steps(&attrs.steps, &instance.ports)
}

/// Whether a module differs in nothing. One without changes does not.
fn is_quiet(flat: &Flat, attrs: &ModuleAttrs, instance: &Instance) -> bool
    requires tells { CanTell flat.now attrs.now instance.now }
    ensures { IsTrue result ↔ IsQuiet attrs.now (told instance.now) }
{
    let row = &flat.tables.modules[attrs.number as usize];
    if !row.changes {
        return true;
    }
    let frame = &*instance.boxed;
    !frame.ports.out_of_range() && is_unchanged(flat, attrs, frame)
}

/// A row that holds nothing yet. It takes no memory.
fn blank(alloc: Global) -> ModuleAttrs
    ensures { length result.ports ≡ 0 }
{
    ModuleAttrs {
        number: 0,
        ports: Vec::new(alloc),
        accepts: false,
        rates: Vec::new(alloc),
        steps: Vec::new(alloc),
    }
}

/// So many rows to write into: those that are left of an earlier table, where there are such.
fn rows_for(
    alloc: Global,
    spare: Option<Vec<ModuleAttrs>>,
    count: usize,
) -> Result<Vec<ModuleAttrs>, Memory>
    ensures { IfOk result (λ rows. length rows.items ≡ count) }
{
    let mut rows = spare.unwrap_or(Vec::new(alloc));
    rows.truncate(count);
    while rows.len() < count {
        rows.push(blank(alloc))?;
    }
    Ok(rows)
}

/// The table after the change bodies, in the memory of a table that is left, where there is one.
///
/// # Errors
/// Out of memory.
pub(crate) fn table_after(
    alloc: Global,
    flat: &Flat,
    table: &[ModuleAttrs],
    frames: &[Instance],
    spare: Option<Vec<ModuleAttrs>>,
) -> Result<Vec<ModuleAttrs>, Memory>
    requires tells { AllTell flat.now table.now frames.now }
    ensures { IfOk result (λ after. AreAfter table.now frames.now (length table.now) after.items) }
{
    let mut after = rows_for(alloc, spare, table.len())?;
    for i in 0..table.len() {
        put_after(&mut after[i], flat, &table[i], &frames[i])?;
    }
    Ok(after)
}

/// Whether no module differs.
pub(crate) fn is_same(flat: &Flat, table: &[ModuleAttrs], frames: &[Instance]) -> bool
    requires tells { AllTell flat.now table.now frames.now }
    ensures { IsTrue result ↔ HoldsBelow (λ attrs f. IsQuiet attrs (told f)) table.now frames.now (length table.now) }
{
    for i in 0..table.len() {
        if !is_quiet(flat, &table[i], &frames[i]) {
            return false;
        }
    }
    true
}

/// The flags that were said. It takes no memory.
pub(crate) fn set_flags(table: &mut Vec<ModuleAttrs>, frames: &[Instance])
    requires long { length frames.now ≡ length table.old.items }
    ensures { AreFlagged table.old.items frames.now (length table.old.items) table.new.items }
{
    for i in 0..table.len() {
        let instance = &frames[i];
        let said = flag_after(table[i].accepts, &instance.boxed.ports);
        table[i].accepts = said;
    }
}

/// The place of the first module whose body gave a rate that is not allowed.
pub(crate) fn first_marked(table: &[ModuleAttrs], frames: &[Instance]) -> Option<usize>
    requires long { length frames.now ≡ length table.now }
    ensures first { IsFirst (λ attrs f. f.ports.state.out_of_range ≡ true) table.now frames.now result }
    ensures inside { IfSome result (λ place. place < length table.now) }
{
    for i in 0..table.len() {
        let instance = &frames[i];
        if instance.boxed.ports.out_of_range() {
            return Some(i);
        }
    }
    None
}
