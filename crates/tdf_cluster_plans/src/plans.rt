//! The plan of a cluster under a table of attributes, or its first fault.

ghost use Rattle.std.specs.Prelude.{◌≡◌, All, Contains, IfOk, IfErr};
ghost use Rattle.tdf_dynamic_plans.specs.Attributes.{clusters_of, IsOfCluster};
ghost use Rattle.tdf_dynamic_plans.specs.Faults.{IsTableFault, IsTablePlan, IsRefusal};
ghost use Rattle.tdf_dynamic_plans.specs.Known.{AreTrueFor, HasTablePlanned, IsKnown, table_key};
ghost use Rattle.tdf_cluster_plans.specs.Groups.{AreTableGroups};
ghost use Rattle.tdf_cluster_plans.specs.Own.{IsNetOfCluster};
ghost use Rattle.tdf_dynamic_plans.specs.Rates.{AreRates, IsWired};

use crate::groups::TableGroups;
use crate::own_parts::{own_actors, own_edges, own_ports};
use crate::own_planning::make_plan;
use crate::own_timing::cluster_timing;
use std::alloc::Global;
use tdf_base::{Memory, row_number};
use tdf_bind_tables::FlatTables;
use tdf_cluster_net::ClusterNet;
use tdf_dynamic_plans::{ChangeErr, KnownPlans, ModuleAttrs, are_rising};
use tdf_schedule::Plan;

/// The cluster's own net under a table, made of the numbers of what is the cluster's.
///
/// # Errors
/// Out of memory.
pub fn own_net<'g>(
    alloc: Global,
    tables: &FlatTables,
    groups: &'g TableGroups,
    cluster: u32,
    table: &[ModuleAttrs],
) -> Result<ClusterNet<'g>, Memory>
    requires wired { IsWired tables.now }
    requires has { Contains (clusters_of tables.now) cluster }
    requires rates { AreRates tables.now table.now }
    requires groups { AreTableGroups tables.now groups.now }
    ensures { IfOk result (IsNetOfCluster tables.now cluster table.now) }
{
    let once = are_rising(table);
    let actor_numbers = groups.actors(cluster);
    let edge_numbers = groups.edges(cluster);
    let port_numbers = groups.ports(cluster);
    row_number(actor_numbers.len())?;
    row_number(edge_numbers.len())?;
    row_number(port_numbers.len())?;
    let actors = own_actors(alloc, &tables.actors, actor_numbers)?;
    let edges = own_edges(alloc, tables, table, once, edge_numbers)?;
    let ports = own_ports(alloc, table, once, &tables.ports, port_numbers)?;
    ClusterNet::made(
        alloc,
        actor_numbers,
        edge_numbers,
        port_numbers,
        actors,
        &edges,
        &ports,
    )
}

/// The plan of a cluster under a table that is not known, by the own net of the cluster. It is made and kept.
fn net_plan(
    alloc: Global,
    tables: &FlatTables,
    own: &ClusterNet,
    cluster: u32,
    table: &[ModuleAttrs],
    known: &mut KnownPlans,
) -> Result<Plan, ChangeErr>
    requires wired { IsWired tables.now }
    requires net { IsNetOfCluster tables.now cluster table.now own.now }
    requires table { All (IsOfCluster tables.now cluster) table.now }
    requires unknown { IsKnown known.old.plans (table_key table.now) → ⊥ }
    ensures planned { IfOk result (λ plan. HasTablePlanned tables.now cluster table.now plan known.old known.new) }
    ensures refused { IfErr result (IsRefusal (IsTableFault tables.now cluster table.now)) }
{
    match cluster_timing(alloc, tables, own, cluster, table) {
        Ok(timing) => make_plan(alloc, tables, own, cluster, table, timing, known),
        Err(refused) => Err(refused),
    }
}

/// The same, where no net is given.
fn new_plan(
    alloc: Global,
    tables: &FlatTables,
    groups: &TableGroups,
    cluster: u32,
    table: &[ModuleAttrs],
    known: &mut KnownPlans,
) -> Result<Plan, ChangeErr>
    requires wired { IsWired tables.now }
    requires has { Contains (clusters_of tables.now) cluster }
    requires table { All (IsOfCluster tables.now cluster) table.now }
    requires rates { AreRates tables.now table.now }
    requires groups { AreTableGroups tables.now groups.now }
    requires unknown { IsKnown known.old.plans (table_key table.now) → ⊥ }
    ensures planned { IfOk result (λ plan. HasTablePlanned tables.now cluster table.now plan known.old known.new) }
    ensures refused { IfErr result (IsRefusal (IsTableFault tables.now cluster table.now)) }
{
    let own = own_net(alloc, tables, groups, cluster, table)?;
    let found = net_plan(alloc, tables, &own, cluster, table, known);
    drop(own);
    found
}

/// The plan of a cluster under a table, which is then known: one that is known is not made again. The things of the model by cluster are
/// given.
///
/// # Errors
/// The first fault of the cluster under this table; or out of memory.
pub fn table_plan(
    alloc: Global,
    tables: &FlatTables,
    groups: &TableGroups,
    cluster: u32,
    table: &[ModuleAttrs],
    known: &mut KnownPlans,
) -> Result<Plan, ChangeErr>
    requires wired { IsWired tables.now }
    requires has { Contains (clusters_of tables.now) cluster }
    requires table { All (IsOfCluster tables.now cluster) table.now }
    requires rates { AreRates tables.now table.now }
    requires groups { AreTableGroups tables.now groups.now }
    requires known { AreTrueFor tables.now cluster known.old.plans }
    ensures plan { IfOk result (IsTablePlan tables.now cluster table.now) }
    ensures refused { IfErr result (IsRefusal (IsTableFault tables.now cluster table.now)) }
    ensures planned { IfOk result (λ plan. HasTablePlanned tables.now cluster table.now plan
        known.old known.new) }
{
    match known.find(table) {
        Some(place) => Ok(known.plan(alloc, place)?),
        None => new_plan(alloc, tables, groups, cluster, table, known),
    }
}
