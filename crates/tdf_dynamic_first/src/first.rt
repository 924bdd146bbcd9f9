//! The plan of a cluster as the text says it, or its first fault.

ghost use Rattle.std.specs.Prelude.{◌≡◌, ◌⊎◌, Contains, Err, IfOk, IfErr, IsOk};
ghost use Rattle.tdf_base.specs.declared.faults.Fault.{Fault};
ghost use Rattle.tdf_cluster_plans.specs.Groups.{AreTableGroups};
ghost use Rattle.tdf_dynamic_plans.specs.Attributes.{clusters_of};
ghost use Rattle.tdf_dynamic_plans.specs.Faults.{IsRefusal};
ghost use Rattle.tdf_dynamic_plans.specs.Known.{HasTablePlanned};
ghost use Rattle.tdf_dynamic_first.specs.First.{IsFirstPlan, IsClusterFault, IsPlannable};
ghost use Rattle.tdf_dynamic_first.specs.Text.{none_known};
ghost use Rattle.tdf_dynamic_plans.specs.declared.err.ChangeErr.TheVariants.{Refused, Memory};
ghost use Rattle.tdf_dynamic_first.specs.declared.first.First.{First};

use crate::laws::law_one_plan;
use crate::table::first_table;
use std::alloc::Global;
use tdf_bind::Flat;
use tdf_cluster_plans::{TableGroups, table_plan};
use tdf_dynamic_plans::{Attrs, ChangeErr};
use tdf_schedule::Plan;

/// The first attributes of a cluster and the plan under them.
#[derive(Drop)]
pub struct First {
    /// The attributes as the text says them.
    pub attrs: Attrs,
    /// The plan under them.
    pub plan: Plan,
}

/// The attributes of a cluster as the text says them, and the plan under them. The things of the model by cluster are given.
///
/// # Errors
/// The first fault of the cluster: of rates and counts, then of timesteps, then of buffers, then of firings that wait for
/// themselves, then of sinks that are late. Or out of memory.
pub fn first_plan(
    alloc: Global,
    flat: &Flat,
    groups: &TableGroups,
    cluster: u32,
) -> Result<First, ChangeErr>
    requires plannable { IsPlannable flat.now }
    requires groups { AreTableGroups flat.now.tables groups.now }
    requires has { Contains (clusters_of flat.now.tables) cluster }
    ensures first { IfOk result (IsFirstPlan flat.now cluster) }
    ensures planned { IfOk result (λ first. HasTablePlanned flat.now.tables cluster
        first.attrs.rows first.plan (none_known flat.now.tables first.attrs.rows)
        first.attrs.known) }
    ensures refused { IfErr result (IsRefusal (IsClusterFault flat.now cluster)) }

    // Each answer comes wherever its cause is there, but for want of memory.
    ensures refused_always { (fault : Fault) → IsClusterFault flat.now cluster fault
        → (result ≡ Err (Refused fault)) ⊎ (result ≡ Err Memory) }
    ensures first_always { (first : First) → IsFirstPlan flat.now cluster first
        → IsOk result ⊎ (result ≡ Err Memory) }
{
    law_one_plan();
    let mut attrs = first_table(alloc, flat, groups, cluster)?;
    match table_plan(
        alloc,
        &flat.tables,
        groups,
        cluster,
        &attrs.rows,
        &mut attrs.known,
    ) {
        Ok(plan) => Ok(First { attrs, plan }),
        Err(refused) => {
            drop(attrs);
            Err(refused)
        }
    }
}
