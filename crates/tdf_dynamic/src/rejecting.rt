//! Whether a module rejects steps that others cause.

ghost use Rattle.std.specs.Prelude.{◌≡◌, ◌↔◌, All, IsTrue, true};
ghost use Rattle.tdf_dynamic.specs.Change.{HasSameSteps, step_of_module, step_at_port};
ghost use Rattle.tdf_dynamic.specs.machine.Asking.{AllTell, CanTell};
ghost use Rattle.tdf_dynamic.specs.machine.Rows.{CanRate, IsFirst, IsRefusing, TakeAll, TakesAll};
ghost use Rattle.tdf_dynamic_plans.specs.Rates.{AreRates, net_ports};

use crate::frames::Instance;
use crate::tables::{flag_after, is_unchanged};
use tdf_bind::Flat;
use tdf_bind_tables::FlatTables;
use tdf_dynamic_plans::{ModuleAttrs, are_rising, told_rate};
use tdf_timestep::Steps;

/// A table with the steps under it. It is known or not that each module has one row.
#[derive(Clone, Copy)]
struct Timed<'a> {
    table: &'a [ModuleAttrs],
    once: bool,
    steps: &'a Steps,
}

/// The time from one firing of a module to the next, 0 for one that isn't there.
fn module_step(steps: &Steps, module: u32) -> u64
    ensures { result ≡ step_of_module steps.now «module» }
{
    steps.actor_steps.get(module as usize)
}

/// The time from one sample of a port to the next.
fn port_step(tables: &FlatTables, at: &Timed, module: u32, port: u32) -> u64
    requires rated { CanRate tables.now at.now.table.now at.now.once }
    ensures { result ≡ step_at_port (net_ports tables.now at.now.table.now) at.now.steps.now «module» port }
{
    let rate = told_rate(tables, at.table, at.once, Some(port));
    module_step(at.steps, module) / u64::from(rate)
}

/// Whether a port of a module has the same steps.
fn is_same_port(tables: &FlatTables, module: u32, port: u32, before: &Timed, after: &Timed) -> bool
    requires before { CanRate tables.now before.now.table.now before.now.once }
    requires after { CanRate tables.now after.now.table.now after.now.once }
    ensures { IsTrue result ↔ (step_at_port (net_ports tables.now before.now.table.now) before.now.steps.now «module» port
        ≡ step_at_port (net_ports tables.now after.now.table.now) after.now.steps.now «module» port) }
{
    port_step(tables, before, module, port) == port_step(tables, after, module, port)
}

/// Whether the ports of a module have the same steps.
fn are_same_ports(
    tables: &FlatTables,
    module: u32,
    ports: &[u32],
    before: &Timed,
    after: &Timed,
) -> bool
    requires before { CanRate tables.now before.now.table.now before.now.once }
    requires after { CanRate tables.now after.now.table.now after.now.once }
    ensures { IsTrue result ↔ All (λ port. step_at_port (net_ports tables.now before.now.table.now) before.now.steps.now «module» port
        ≡ step_at_port (net_ports tables.now after.now.table.now) after.now.steps.now «module» port) ports.now }
{
    for i in 0..ports.len() {
        if !is_same_port(tables, module, ports[i], before, after) {
            return false;
        }
    }
    true
}

/// Whether a module and its ports have the same steps.
fn has_same_steps(tables: &FlatTables, attrs: &ModuleAttrs, before: &Timed, after: &Timed) -> bool
    requires before { CanRate tables.now before.now.table.now before.now.once }
    requires after { CanRate tables.now after.now.table.now after.now.once }
    ensures { IsTrue result ↔ HasSameSteps (net_ports tables.now before.now.table.now) (net_ports tables.now after.now.table.now) before.now.steps.now after.now.steps.now attrs.now }
{
    module_step(before.steps, attrs.number) == module_step(after.steps, attrs.number)
        && are_same_ports(tables, attrs.number, &attrs.ports, before, after)
}

/// Whether a module rejects: its flag says so, its own attributes are as before, and its steps are not.
fn rejects(
    flat: &Flat,
    attrs: &ModuleAttrs,
    instance: &Instance,
    before: &Timed,
    after: &Timed,
) -> bool
    requires tells { CanTell flat.now attrs.now instance.now }
    requires before { CanRate flat.now.tables before.now.table.now before.now.once }
    requires after { CanRate flat.now.tables after.now.table.now after.now.once }
    ensures { IsTrue result ↔ IsRefusing (net_ports flat.now.tables before.now.table.now) (net_ports flat.now.tables after.now.table.now) before.now.steps.now after.now.steps.now attrs.now instance.now }
{
    let frame = &*instance.boxed;
    !flag_after(attrs.accepts, &frame.ports)
        && is_unchanged(flat, attrs, frame)
        && !has_same_steps(&flat.tables, attrs, before, after)
}

/// Whether a module is seen to reject no steps: its flag says so, or its own attributes are others.
fn takes_all(flat: &Flat, attrs: &ModuleAttrs, instance: &Instance) -> bool
    requires tells { CanTell flat.now attrs.now instance.now }
    ensures { result ≡ true → TakesAll attrs.now instance.now }
{
    let frame = &*instance.boxed;
    flag_after(attrs.accepts, &frame.ports) || !is_unchanged(flat, attrs, frame)
}

/// Whether all modules are: then no rates and steps need be compared.
pub(crate) fn take_all(flat: &Flat, table: &[ModuleAttrs], frames: &[Instance]) -> bool
    requires tells { AllTell flat.now table.now frames.now }
    ensures { result ≡ true → TakeAll table.now frames.now }
{
    for i in 0..table.len() {
        if !takes_all(flat, &table[i], &frames[i]) {
            return false;
        }
    }
    true
}

/// The place of the first module that rejects, by the rates and steps before and after.
fn first_by(
    flat: &Flat,
    table: &[ModuleAttrs],
    frames: &[Instance],
    before: &Timed,
    after: &Timed,
) -> Option<usize>
    requires tells { AllTell flat.now table.now frames.now }
    requires before { CanRate flat.now.tables before.now.table.now before.now.once }
    requires after { CanRate flat.now.tables after.now.table.now after.now.once }
    ensures { IsFirst (IsRefusing (net_ports flat.now.tables before.now.table.now) (net_ports flat.now.tables after.now.table.now) before.now.steps.now after.now.steps.now) table.now frames.now result }
{
    for i in 0..table.len() {
        if rejects(flat, &table[i], &frames[i], before, after) {
            return Some(i);
        }
    }
    None
}

/// The place of the first module that rejects a new table with its steps.
pub(crate) fn first_rejecting(
    flat: &Flat,
    table: &[ModuleAttrs],
    new: &[ModuleAttrs],
    frames: &[Instance],
    old_steps: &Steps,
    new_steps: &Steps,
) -> Option<usize>
    requires tells { AllTell flat.now table.now frames.now }
    requires rates { AreRates flat.now.tables table.now }
    requires new_rates { AreRates flat.now.tables new.now }
    ensures { IsFirst (IsRefusing (net_ports flat.now.tables table.now) (net_ports flat.now.tables new.now) old_steps.now new_steps.now) table.now frames.now result }
{
    let before = Timed {
        table,
        once: are_rising(table),
        steps: old_steps,
    };
    let after = Timed {
        table: new,
        once: are_rising(new),
        steps: new_steps,
    };
    first_by(flat, table, frames, &before, &after)
}
