//! The first phase of a cluster by its own net: its counts, then its period and the steps of its actors, in lists of the whole model.

ghost use Rattle.std.specs.Prelude.{◌≡◌, ◌≤◌, All, IfOk, IfErr, length};
ghost use Rattle.tdf_dynamic_plans.specs.Assignments.{assignments};
ghost use Rattle.tdf_dynamic_plans.specs.Attributes.{IsOfCluster};
ghost use Rattle.tdf_dynamic_plans.specs.Faults.{HasCountsOf, IsCountsFault, HasStepsOf, IsPeriodFault, HasTiming, IsStepsFault, IsRefusal};
ghost use Rattle.tdf_cluster_plans.specs.Own.{IsNetOfCluster};
ghost use Rattle.tdf_dynamic_plans.specs.Rates.{net_of};
ghost use Rattle.tdf_bind_tables.specs.Ranges.{AreInRange};
ghost use Rattle.tdf_timestep.specs.Period.{IsAssigned};

use std::alloc::Global;
use tdf_balance::counts;
use tdf_base::row_number;
use tdf_bind_tables::FlatTables;
use tdf_cluster_net::ClusterNet;
use tdf_dynamic_plans::{
    ChangeErr, ModuleAttrs, Timing, assignments, balance_error, ones, step_error,
};
use tdf_places::Sparse;
use tdf_timestep::{Assign, Steps, steps};

/// The counts of a cluster by its own net, or the fault that it has none.
fn own_counts(
    alloc: Global,
    tables: &FlatTables,
    own: &ClusterNet,
    cluster: u32,
    table: &[ModuleAttrs],
) -> Result<Sparse, ChangeErr>
    requires in_range { AreInRange tables.now }
    requires net { IsNetOfCluster tables.now cluster table.now own.now }
    ensures counts { IfOk result (λ counts. HasCountsOf tables.now (net_of tables.now table.now) cluster counts.items) }
    ensures refused { IfErr result (IsRefusal (IsCountsFault tables.now (net_of tables.now table.now) cluster table.now)) }
{
    let clusters = ones(alloc, own.net().actors.len())?;
    let found = counts(alloc, own.net(), &clusters, 1);
    drop(clusters);
    match found {
        Ok(counts) => {
            let all = own.spread(alloc, tables.actors.len(), &counts);
            drop(counts);
            Ok(all?)
        }
        Err(why) => Err(balance_error(alloc, tables, table, own.whole_balance(why))),
    }
}

/// The steps that assignments give in the own net of a cluster, or the fault that they give none.
fn own_steps_by(
    alloc: Global,
    tables: &FlatTables,
    own: &ClusterNet,
    cluster: u32,
    counts: &Sparse,
    table: &[ModuleAttrs],
    assigned: &[Assign],
) -> Result<Steps, ChangeErr>
    requires net { IsNetOfCluster tables.now cluster table.now own.now }
    requires are { assigned.now ≡ assignments table.now }
    requires counts { HasCountsOf tables.now (net_of tables.now table.now) cluster counts.now.items }
    requires assigned { All (IsAssigned (net_of tables.now table.now).ports counts.now.items) assigned.now }
    ensures steps { IfOk result (HasStepsOf (net_of tables.now table.now) table.now counts.now.items) }
    ensures refused { IfErr result (IsRefusal (IsPeriodFault tables.now (net_of tables.now table.now) table.now counts.now.items)) }
{
    let own_counts = own.picked(alloc, counts)?;
    let own_assigned = own.own_assigned(alloc, assigned)?;
    row_number(own_assigned.len())?;
    match steps(alloc, own.net(), &own_counts, &own_assigned) {
        Ok(steps) => Ok(own.spread_steps(counts.len(), steps)),
        Err(why) => Err(step_error(alloc, tables, table, assigned, own.whole_timing(why))),
    }
}

/// The steps of a cluster by its own net, or the fault that it has none.
fn own_steps_or(
    alloc: Global,
    tables: &FlatTables,
    own: &ClusterNet,
    cluster: u32,
    counts: &Sparse,
    table: &[ModuleAttrs],
) -> Result<Steps, ChangeErr>
    requires net { IsNetOfCluster tables.now cluster table.now own.now }
    requires counts { HasCountsOf tables.now (net_of tables.now table.now) cluster counts.now.items }
    requires assigned { All (IsAssigned (net_of tables.now table.now).ports counts.now.items) (assignments table.now) }
    ensures steps { IfOk result (HasStepsOf (net_of tables.now table.now) table.now counts.now.items) }
    ensures refused { IfErr result (IsRefusal (IsPeriodFault tables.now (net_of tables.now table.now) table.now counts.now.items)) }
{
    let assigned = assignments(alloc, table)?;
    let found = own_steps_by(alloc, tables, own, cluster, counts, table, &assigned);
    drop(assigned);
    found
}

/// The counts and steps of a cluster under a table, by the own net of the cluster.
///
/// # Errors
/// The first fault of the counts, the period or the steps; or out of memory.
pub fn cluster_timing(
    alloc: Global,
    tables: &FlatTables,
    own: &ClusterNet,
    cluster: u32,
    table: &[ModuleAttrs],
) -> Result<Timing, ChangeErr>
    requires in_range { AreInRange tables.now }
    requires net { IsNetOfCluster tables.now cluster table.now own.now }
    requires table { All (IsOfCluster tables.now cluster) table.now }
    requires modules { length tables.now.modules ≤ length tables.now.actors }
    ensures timing { IfOk result (λ t. HasTiming tables.now (net_of tables.now table.now) cluster
        table.now t.counts.items t.steps) }
    ensures refused { IfErr result (IsRefusal (IsStepsFault tables.now
        (net_of tables.now table.now) cluster table.now)) }
{
    let counts = match own_counts(alloc, tables, own, cluster, table) {
        Ok(counts) => counts,
        Err(refused) => return Err(refused),
    };
    match own_steps_or(alloc, tables, own, cluster, &counts, table) {
        Ok(steps) => Ok(Timing { counts, steps }),
        Err(refused) => {
            drop(counts);
            Err(refused)
        }
    }
}
