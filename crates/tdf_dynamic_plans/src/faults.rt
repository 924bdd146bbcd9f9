//! How the faults of a cluster are told.

ghost use Rattle.std.specs.Prelude.{◌≡◌, IfOk, Option, Some, slice_get};
ghost use Rattle.tdf_base.specs.declared.codes.Code.TheVariants as code;
ghost use Rattle.tdf_base.specs.declared.faults.Fault.{Fault};
ghost use Rattle.tdf_base.specs.declared.faults.Place.TheVariants as place;
ghost use Rattle.tdf_bind_tables.specs.Ranges.{AreInRange, module_path, port_path, actor_path, edge_path};
ghost use Rattle.tdf_dynamic_plans.specs.Assignments.{assignments};
ghost use Rattle.tdf_dynamic_plans.specs.Faults.{spot_path, assign_path, first_path, both_paths, fault_at, balance_fault, step_fault, plan_fault, IsToldFault};

use crate::attrs::ModuleAttrs;
use crate::err::ChangeErr;
use std::alloc::Global;
use tdf_balance::BalanceErr;
use tdf_base::{Code, Fault, Memory, Path, Place};
use tdf_bind_tables::FlatTables;
use tdf_schedule::PlanErr;
use tdf_timestep::{Assign, StepErr};

/// The path of a module.
///
/// # Errors
/// Out of memory.
pub fn module_path(alloc: Global, tables: &FlatTables, module: u32) -> Result<Path, Memory>
    ensures path { IfOk result (λ path.
        path ≡ module_path (slice_get tables.now.modules «module»)) }
{
    let place = module as usize;
    if place < tables.modules.len() {
        return tables.modules[place].path.text(alloc);
    }
    Ok(Path::new(Vec::new(alloc)))
}

fn port_path(alloc: Global, tables: &FlatTables, port: u32) -> Result<Path, Memory>
    ensures { IfOk result (λ path. path ≡ port_path (slice_get tables.now.ports port)) }
{
    let place = port as usize;
    if place < tables.ports.len() {
        return tables.ports[place].path.text(alloc);
    }
    Ok(Path::new(Vec::new(alloc)))
}

/// The path of a module, or of one of its ports.
fn spot_path(
    alloc: Global,
    tables: &FlatTables,
    module: u32,
    port: Option<u32>,
) -> Result<Path, Memory>
    ensures { IfOk result (λ path. path ≡ spot_path tables.now «module» port) }
{
    match port {
        None => module_path(alloc, tables, module),
        Some(port) => port_path(alloc, tables, port),
    }
}

fn assign_path(
    alloc: Global,
    tables: &FlatTables,
    assigned: &[Assign],
    number: u32,
) -> Result<Path, Memory>
    ensures { IfOk result (λ path. path ≡ assign_path tables.now (slice_get assigned.now number)) }
{
    let place = number as usize;
    if place < assigned.len() {
        return spot_path(alloc, tables, assigned[place].actor, assigned[place].port);
    }
    Ok(Path::new(Vec::new(alloc)))
}

/// The path of the first module of a table.
fn first_path(alloc: Global, tables: &FlatTables, table: &[ModuleAttrs]) -> Result<Path, Memory>
    ensures { IfOk result (λ path. path ≡ first_path tables.now table.now) }
{
    if table.len() == 0 {
        return Ok(Path::new(Vec::new(alloc)));
    }
    let first = &table[0];
    module_path(alloc, tables, first.number)
}

fn actor_path(alloc: Global, tables: &FlatTables, actor: u32) -> Result<Path, Memory>
    requires { AreInRange tables.now }
    ensures { IfOk result (λ path. path ≡ actor_path tables.now actor) }
{
    if (actor as usize) < tables.actors.len() {
        return tables.actor_path(actor).text(alloc);
    }
    Ok(Path::new(Vec::new(alloc)))
}

fn edge_path(alloc: Global, tables: &FlatTables, edge: u32) -> Result<Path, Memory>
    requires { AreInRange tables.now }
    ensures { IfOk result (λ path. path ≡ edge_path tables.now edge) }
{
    if (edge as usize) < tables.edges.len() {
        return tables.edge_path(edge).text(alloc);
    }
    Ok(Path::new(Vec::new(alloc)))
}

fn fault_at(code: Code, path: Path) -> Option<Fault>
    ensures { result ≡ fault_at code path }
{
    Some(Fault {
        code,
        place: Place::At(path),
    })
}

fn balance_fault(
    alloc: Global,
    tables: &FlatTables,
    table: &[ModuleAttrs],
    why: BalanceErr,
) -> Result<Option<Fault>, Memory>
    requires { AreInRange tables.now }
    ensures { IfOk result (λ fault. fault ≡ balance_fault tables.now table.now why) }
{
    match why {
        BalanceErr::Rates { edge } => Ok(fault_at(Code::Rates, edge_path(alloc, tables, edge)?)),
        BalanceErr::TooLarge => Ok(fault_at(Code::Size, first_path(alloc, tables, table)?)),
        BalanceErr::Memory => Ok(None),
    }
}

/// Two assignments that give different periods.
fn disagree(
    alloc: Global,
    tables: &FlatTables,
    assigned: &[Assign],
    a: u32,
    b: u32,
) -> Result<Option<Fault>, Memory>
    ensures { IfOk result (λ fault. fault ≡ Some (record {
      code = code.Disagree;
      place = both_paths tables.now assigned.now a b;
    })) }
{
    let first = assign_path(alloc, tables, assigned, a)?;
    let other = assign_path(alloc, tables, assigned, b)?;
    Ok(Some(Fault {
        code: Code::Disagree,
        place: Place::Both(first, other),
    }))
}

fn step_fault(
    alloc: Global,
    tables: &FlatTables,
    table: &[ModuleAttrs],
    assigned: &[Assign],
    why: StepErr,
) -> Result<Option<Fault>, Memory>
    requires { assigned.now ≡ assignments table.now }
    ensures { IfOk result (λ fault. fault ≡ step_fault tables.now table.now why) }
{
    match why {
        StepErr::NoTimestep => Ok(fault_at(Code::NoTimestep, first_path(alloc, tables, table)?)),
        StepErr::Disagree { a, b } => disagree(alloc, tables, assigned, a, b),
        StepErr::TooLong => Ok(fault_at(Code::TooLong, first_path(alloc, tables, table)?)),
        StepErr::Inexact { actor, port } => Ok(fault_at(
            Code::Inexact,
            spot_path(alloc, tables, actor, port)?,
        )),
        StepErr::Memory => Ok(None),
    }
}

/// A firing of a sink after it is due.
fn noncausal(
    alloc: Global,
    tables: &FlatTables,
    sink: u32,
    index: u64,
) -> Result<Option<Fault>, Memory>
    requires { AreInRange tables.now }
    ensures { IfOk result (λ fault. fault ≡ Some (record {
      code = code.Noncausal;
      place = place.AtIndex (actor_path tables.now sink) index;
    })) }
{
    Ok(Some(Fault {
        code: Code::Noncausal,
        place: Place::AtIndex(actor_path(alloc, tables, sink)?, index),
    }))
}

fn plan_fault(
    alloc: Global,
    tables: &FlatTables,
    table: &[ModuleAttrs],
    why: PlanErr,
) -> Result<Option<Fault>, Memory>
    requires { AreInRange tables.now }
    ensures { IfOk result (λ fault. fault ≡ plan_fault tables.now table.now why) }
{
    match why {
        PlanErr::TooLarge => Ok(fault_at(Code::Buffers, first_path(alloc, tables, table)?)),
        PlanErr::Deadlock { actor } => Ok(fault_at(
            Code::Deadlock,
            actor_path(alloc, tables, actor)?,
        )),
        PlanErr::Noncausal { sink, index } => noncausal(alloc, tables, sink, index),
        PlanErr::Memory => Ok(None),
    }
}

/// The refusal with a fault, where there is one and there was memory to tell it.
fn refusal(told: Result<Option<Fault>, Memory>) -> ChangeErr
    ensures { (fault : Option Fault) → IfOk told (λ f. f ≡ fault) → IsToldFault fault result }
{
    match told {
        Ok(Some(fault)) => ChangeErr::Refused(fault),
        Ok(None) => ChangeErr::Memory,
        Err(_) => ChangeErr::Memory,
    }
}

/// How want of counts is told.
pub fn balance_error(
    alloc: Global,
    tables: &FlatTables,
    table: &[ModuleAttrs],
    why: BalanceErr,
) -> ChangeErr
    requires { AreInRange tables.now }
    ensures { IsToldFault (balance_fault tables.now table.now why) result }
{
    refusal(balance_fault(alloc, tables, table, why))
}

/// How want of a period is told.
pub fn step_error(
    alloc: Global,
    tables: &FlatTables,
    table: &[ModuleAttrs],
    assigned: &[Assign],
    why: StepErr,
) -> ChangeErr
    requires { assigned.now ≡ assignments table.now }
    ensures { IsToldFault (step_fault tables.now table.now why) result }
{
    refusal(step_fault(alloc, tables, table, assigned, why))
}

/// How want of a plan is told.
pub fn plan_error(
    alloc: Global,
    tables: &FlatTables,
    table: &[ModuleAttrs],
    why: PlanErr,
) -> ChangeErr
    requires { AreInRange tables.now }
    ensures { IsToldFault (plan_fault tables.now table.now why) result }
{
    refusal(plan_fault(alloc, tables, table, why))
}
