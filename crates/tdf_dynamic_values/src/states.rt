//! The table and the plan of a cluster by the states of its modules.

ghost use Rattle.std.specs.List.{flat_map};
ghost use Rattle.std.specs.Prelude.{◌≡◌, ◌⊎◌, Contains, Err, IfErr, IfOk, IsOk, List, map};
ghost use Rattle.tdf_base.specs.declared.faults.Fault.{Fault};
ghost use Rattle.tdf_streams.specs.Below.{AreWithinLimits};
ghost use Rattle.tdf_cluster_plans.specs.Groups.{AreTableGroups};
ghost use Rattle.tdf_dynamic_plans.specs.Attributes.{AttrsOf, clusters_of};
ghost use Rattle.tdf_dynamic_plans.specs.Faults.{IsRefusal, IsTablePlan};
ghost use Rattle.tdf_dynamic_plans.specs.declared.err.ChangeErr.TheVariants.{Memory, Refused};
ghost use Rattle.tdf_dynamic_values.specs.Planned.{IsTableFirst};
ghost use Rattle.tdf_dynamic_values.specs.States.{AreStatesFor, IsStatesFault, IsTableOfStates};
ghost use Rattle.tdf_schedule.specs.declared.entry.Plan.{Plan as PlanOf};

use crate::laws::law_one_table;
use crate::planned::plan_of;
use crate::values::from_values;
use std::alloc::Global;
use tdf_base::Memory as OutOfMemory;
use tdf_bind::Flat;
use tdf_cluster_plans::TableGroups;
use tdf_dynamic_first::First;
use tdf_dynamic_plans::ChangeErr;
use tdf_saved::ModuleState;

fn flags_of(alloc: Global, modules: &[ModuleState]) -> Result<Vec<bool>, OutOfMemory>
    ensures { IfOk result (λ flags. flags.items ≡ map (λ m. m.accept) modules.now) }
{
    let mut flags = Vec::new(alloc);
    for i in 0..modules.len() {
        let module = &modules[i];
        flags.push(module.accept)?;
    }
    Ok(flags)
}

fn rates_of(alloc: Global, modules: &[ModuleState]) -> Result<Vec<u32>, OutOfMemory>
    ensures { IfOk result (λ rates. rates.items ≡ flat_map (λ m. m.rates) modules.now) }
{
    let mut rates = Vec::new(alloc);
    for i in 0..modules.len() {
        let module = &modules[i];
        rates.extend_from_slice(&module.rates)?;
    }
    Ok(rates)
}

fn steps_of(alloc: Global, modules: &[ModuleState]) -> Result<Vec<u64>, OutOfMemory>
    ensures { IfOk result (λ steps. steps.items ≡ flat_map (λ m. m.steps) modules.now) }
{
    let mut steps = Vec::new(alloc);
    for i in 0..modules.len() {
        let module = &modules[i];
        steps.extend_from_slice(&module.steps)?;
    }
    Ok(steps)
}

/// The table of a cluster by the states of its modules, in order, with the plan under it. The things of the model by cluster are
/// given.
///
/// # Errors
/// The first fault of the cluster under this table, as for `plan_of`. Or out of memory.
pub fn plan_of_states(
    alloc: Global,
    flat: &Flat,
    groups: &TableGroups,
    cluster: u32,
    modules: &[ModuleState],
) -> Result<First, ChangeErr>
    requires limits { AreWithinLimits flat.now }
    requires groups { AreTableGroups flat.now.tables groups.now }
    requires has { Contains (clusters_of flat.now.tables) cluster }
    requires values { AreStatesFor flat.now cluster modules.now }
    ensures table { IfOk result (λ first.
        IsTableOfStates flat.now cluster modules.now first.attrs.rows) }
    ensures first { IfOk result (λ first. IsTableFirst flat.now cluster first.attrs.rows first) }
    ensures refused { IfErr result (IsRefusal (IsStatesFault flat.now cluster modules.now)) }

    // Each answer comes wherever its cause is there, but for want of memory.
    ensures refused_always { (fault : Fault) → IsStatesFault flat.now cluster modules.now fault
        → (result ≡ Err (Refused fault)) ⊎ (result ≡ Err Memory) }
    ensures first_always { (table : List AttrsOf) (plan : PlanOf)
        → IsTableOfStates flat.now cluster modules.now table
        → IsTablePlan flat.now.tables cluster table plan → IsOk result ⊎ (result ≡ Err Memory) }
{
    law_one_table();
    let accepts = flags_of(alloc, modules)?;
    let rates = rates_of(alloc, modules)?;
    let steps = steps_of(alloc, modules)?;
    let attrs = from_values(alloc, flat, groups, cluster, accepts, rates, steps)?;
    plan_of(alloc, flat, groups, attrs, cluster)
}
