//! The timesteps that a table assigns.

ghost use Rattle.std.specs.List.{cons_option, flat_map};
ghost use Rattle.std.specs.Prelude.{◌≡◌, ◌++◌, [], IfOk, OnOk};
ghost use Rattle.tdf_dynamic_plans.specs.Assignments.{port_at, assign_at, assigned_by, assignments};

use crate::attrs::ModuleAttrs;
use std::alloc::Global;
use tdf_base::Memory;
use tdf_timestep::Assign;

/// The number of the port at a place among the timesteps of a module, none for the module's own.
fn port_at(ports: &[u32], place: usize) -> Option<u32>
    ensures { result ≡ port_at ports.now place }
{
    if place == 0 || place > ports.len() {
        return None;
    }
    Some(ports[place - 1])
}

fn assign_at(attrs: &ModuleAttrs, place: usize, step: u64) -> Option<Assign>
    ensures { result ≡ assign_at attrs.now place step }
{
    if step == 0 {
        return None;
    }
    Some(Assign {
        actor: attrs.number,
        port: port_at(&attrs.ports, place),
        step,
    })
}

fn put_assign(assigned: &mut Vec<Assign>, assign: Option<Assign>) -> Result<(), Memory>
    ensures { OnOk result (assigned.new.items ≡ assigned.old.items ++ cons_option assign []) }
{
    match assign {
        None => Ok(()),
        Some(assign) => {
            assigned.push(assign)?;
            Ok(())
        }
    }
}

/// The timesteps that are assigned to a module and its ports.
fn put_assigned(assigned: &mut Vec<Assign>, attrs: &ModuleAttrs) -> Result<(), Memory>
    ensures { OnOk result (assigned.new.items ≡ assigned.old.items ++ assigned_by attrs.now) }
{
    for place in 0..attrs.steps.len() {
        put_assign(assigned, assign_at(attrs, place, attrs.steps[place]))?;
    }
    Ok(())
}

/// The assigned timesteps of a table: by module, the module's own before its ports'.
///
/// # Errors
/// Out of memory.
#[tactic(auto, unfolding(crate::specs::Assignments::assignments))]
pub fn assignments(alloc: Global, table: &[ModuleAttrs]) -> Result<Vec<Assign>, Memory>
    ensures { IfOk result (λ assigned. assigned.items ≡ assignments table.now) }
{
    let mut assigned = Vec::new(alloc);
    for i in 0..table.len() {
        put_assigned(&mut assigned, &table[i])?;
    }
    Ok(assigned)
}
