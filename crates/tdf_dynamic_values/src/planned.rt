//! A table of attributes with its plan, or its first fault.

ghost use Rattle.std.specs.Prelude.{◌≡◌, ◌⊎◌, Contains, Err, IfErr, IfOk, IsOk};
ghost use Rattle.tdf_base.specs.declared.faults.Fault.{Fault};
ghost use Rattle.tdf_streams.specs.Below.{AreWithinLimits};
ghost use Rattle.tdf_cluster_plans.specs.Groups.{AreTableGroups};
ghost use Rattle.tdf_dynamic_plans.specs.Attributes.{clusters_of};
ghost use Rattle.tdf_dynamic_plans.specs.Faults.{IsRefusal, IsTableFault, IsTablePlan};
ghost use Rattle.tdf_dynamic_plans.specs.Known.{AreTrueFor, HasTablePlanned};
ghost use Rattle.tdf_dynamic_plans.specs.declared.err.ChangeErr.TheVariants.{Memory, Refused};
ghost use Rattle.tdf_dynamic_values.specs.Planned.{IsTableFirst};
ghost use Rattle.tdf_schedule.specs.declared.entry.Plan.{Plan as PlanOf};
ghost use Rattle.tdf_streams.specs.Periods.{AreAttributes};

use std::alloc::Global;
use tdf_balance::law_counts;
use tdf_bind::Flat;
use tdf_cluster_plans::{TableGroups, table_plan};
use tdf_dynamic_first::First;
use tdf_dynamic_plans::{Attrs, ChangeErr};

/// A table of attributes of a cluster, with the plan under it. One that is known is not made again. The things of the model by cluster
/// are given.
///
/// # Errors
/// The first fault of the cluster under this table: of rates and counts, then of timesteps, then of buffers, then of firings
/// that wait for themselves, then of sinks that are late. Or out of memory.
pub fn plan_of(
    alloc: Global,
    flat: &Flat,
    groups: &TableGroups,
    mut attrs: Attrs,
    cluster: u32,
) -> Result<First, ChangeErr>
    requires limits { AreWithinLimits flat.now }
    requires groups { AreTableGroups flat.now.tables groups.now }
    requires has { Contains (clusters_of flat.now.tables) cluster }
    requires attributes { AreAttributes flat.now cluster attrs.rows }
    requires known { AreTrueFor flat.now.tables cluster attrs.known.plans }
    ensures first { IfOk result (IsTableFirst flat.now cluster attrs.rows) }
    ensures planned { IfOk result (λ first. HasTablePlanned flat.now.tables cluster attrs.rows
        first.plan attrs.known first.attrs.known) }
    ensures refused { IfErr result (IsRefusal (IsTableFault flat.now.tables cluster attrs.rows)) }

    // Each answer comes wherever its cause is there, but for want of memory.
    ensures refused_always { (fault : Fault) → IsTableFault flat.now.tables cluster attrs.rows fault
        → (result ≡ Err (Refused fault)) ⊎ (result ≡ Err Memory) }
    ensures first_always { (plan : PlanOf) → IsTablePlan flat.now.tables cluster attrs.rows plan
        → IsOk result ⊎ (result ≡ Err Memory) }
{
    law_counts();
    match table_plan(
        alloc,
        &flat.tables,
        groups,
        cluster,
        &attrs.rows,
        &mut attrs.known,
    ) {
        Ok(plan) => Ok(First { attrs, plan }),
        Err(refused) => {
            drop(attrs);
            Err(refused)
        }
    }
}
