//! The second phase of a cluster by its own net: its plan, with the numbers of the whole model.

ghost use Rattle.std.specs.Prelude.{◌≡◌, ◌+◌, ◌-◌, ◌^◌, Err, IfOk, IfErr, OnOk, min};
ghost use Rattle.tdf_base.specs.declared.faults.Fault.{Fault as FaultOf};
ghost use Rattle.tdf_bind_tables.specs.Ranges.{AreInRange};
ghost use Rattle.tdf_dynamic_plans.specs.Faults.{HasTiming, IsPlanFault, IsPlanOf, IsRefusal};
ghost use Rattle.tdf_cluster_plans.specs.Own.{IsNetOfCluster};
ghost use Rattle.tdf_dynamic_plans.specs.Known.{HasKept, table_key};
ghost use Rattle.tdf_dynamic_plans.specs.Rates.{net_of};
ghost use Rattle.tdf_dynamic_plans.specs.declared.err.ChangeErr.TheVariants.{Refused};

use std::alloc::Global;
use tdf_bind_tables::FlatTables;
use tdf_cluster_net::ClusterNet;
use tdf_dynamic_plans::{ChangeErr, KnownPlans, ModuleAttrs, Timing, plan_error};
use tdf_schedule::{Plan, plan};

/// The plan of a cluster under a table, by the own net of the cluster; its counts and steps are given.
///
/// # Errors
/// The first fault of buffers, firings that wait for themselves, or sinks that are late; or out of memory.
fn own_plan_of(
    alloc: Global,
    tables: &FlatTables,
    own: &ClusterNet,
    cluster: u32,
    table: &[ModuleAttrs],
    timing: &Timing,
) -> Result<Plan, ChangeErr>
    requires in_range { AreInRange tables.now }
    requires net { IsNetOfCluster tables.now cluster table.now own.now }
    requires timing { HasTiming tables.now (net_of tables.now table.now) cluster table.now timing.now.counts.items timing.now.steps }
    ensures plan { IfOk result (IsPlanOf (net_of tables.now table.now) timing.now.counts.items
        timing.now.steps) }
    ensures refused { IfErr result (IsRefusal (IsPlanFault tables.now (net_of tables.now table.now) table.now
        timing.now.counts.items timing.now.steps)) }
{
    let counts = own.picked(alloc, &timing.counts)?;
    let steps = own.picked_steps(alloc, &timing.steps)?;
    match plan(alloc, own.net(), &counts, &steps) {
        Ok(plan) => Ok(own.whole_plan(tables.edges.len(), plan)),
        Err(why) => Err(plan_error(alloc, tables, table, own.whole_planning(why))),
    }
}

/// The plan of a cluster under a table, by the own net of the cluster; its counts and steps are given. It is made and kept.
///
/// # Errors
/// The first fault of buffers, firings that wait for themselves, or sinks that are late; or out of memory.
pub fn make_plan(
    alloc: Global,
    tables: &FlatTables,
    own: &ClusterNet,
    cluster: u32,
    table: &[ModuleAttrs],
    timing: Timing,
    known: &mut KnownPlans,
) -> Result<Plan, ChangeErr>
    requires in_range { AreInRange tables.now }
    requires net { IsNetOfCluster tables.now cluster table.now own.now }
    requires timing { HasTiming tables.now (net_of tables.now table.now) cluster table.now
        timing.counts.items timing.steps }
    ensures plan { IfOk result (IsPlanOf (net_of tables.now table.now) timing.counts.items
        timing.steps) }
    ensures refused { IfErr result (IsRefusal (IsPlanFault tables.now
        (net_of tables.now table.now) table.now timing.counts.items timing.steps)) }
    ensures kept { IfOk result (λ plan. HasKept (table_key table.now) timing.counts.items
        timing.steps plan known.old known.new) }
    ensures made { OnOk result (known.new.made ≡ min (known.old.made + 1) (2 ^ 64 - 1)) }
    ensures most { known.new.most ≡ known.old.most }
    ensures unplanned { (fault : FaultOf) → result ≡ Err (Refused fault)
        → known.new ≡ known.old }
{
    match own_plan_of(alloc, tables, own, cluster, table, &timing) {
        Ok(plan) => match known.keep(alloc, table, timing, &plan) {
            Ok(()) => Ok(plan),
            Err(refused) => {
                drop(plan);
                Err(ChangeErr::from(refused))
            }
        },
        Err(refused) => {
            drop(timing);
            Err(refused)
        }
    }
}
