//! The members of clusters: modules and edges.

ghost use Rattle.std.specs.Prelude.{◌≡◌, ◌<◌, All, Contains, IfOk, length, map};
ghost use Rattle.tdf_bind_invariants.specs.Limits.{AreWithinLimits};
ghost use Rattle.tdf_bind_tables.specs.Ranges.{AreInRange, edge_path};
ghost use Rattle.tdf_cluster_net.specs.Numbers.{AllBelow};
ghost use Rattle.tdf_cluster_plans.specs.Groups.{AreTableGroups};
ghost use Rattle.tdf_dynamic_plans.specs.Attributes.{clusters_of};
ghost use Rattle.tdf_expr.specs.Checked.{IsChecked};
ghost use Rattle.tdf_expr.specs.Made.{block_count, cell_formats};
ghost use Rattle.tdf_save_members.specs.OfFlat.{cluster_members, clusters_in, module_members};

use std::alloc::Global;
use tdf_base::Memory;
use tdf_bind::Flat;
use tdf_bind_hierarchy::SharedPath;
use tdf_cluster_plans::TableGroups;
use tdf_dynamic_first::{first_table, law_numbers};
use tdf_dynamic_plans::ModuleAttrs;
use tdf_expr::Frame;
use tdf_save::{ClusterMembers, ModuleMembers};

/// The text of a path.
pub(crate) fn text_of(alloc: Global, path: &SharedPath) -> Result<Vec<u8>, Memory>
    ensures { IfOk result (λ text. text.items ≡ path.now) }
{
    let mut text = Vec::new(alloc);
    path.push_text(&mut text)?;
    Ok(text)
}

/// How many variables and elements a block has.
pub(crate) fn cell_count(alloc: Global, flat: &Flat, block: u32) -> Result<usize, Memory>
    requires checked { IsChecked flat.now.checked }
    requires block { block < block_count flat.now.checked }
    ensures { IfOk result (λ count. count ≡ length (cell_formats flat.now.checked block)) }
{
    let frame = Frame::new(alloc, &flat.checked, block)?;
    Ok(frame.nums().len())
}

/// A module of a table.
fn module_members(alloc: Global, flat: &Flat, attrs: &ModuleAttrs) -> Result<ModuleMembers, Memory>
    requires limits { AreWithinLimits flat.now }
    requires module { attrs.now.number < length flat.now.tables.modules }
    ensures { IfOk result (λ member. member ≡ module_members flat.now attrs.now) }
{
    let row = &flat.tables.modules[attrs.number as usize];
    let path = text_of(alloc, &row.path)?;
    let cells = cell_count(alloc, flat, row.block)?;
    Ok(ModuleMembers {
        path,
        rates: attrs.rates.len(),
        steps: attrs.steps.len(),
        cells,
    })
}

/// The modules of a table.
fn module_list(
    alloc: Global,
    flat: &Flat,
    table: &[ModuleAttrs],
) -> Result<Vec<ModuleMembers>, Memory>
    requires limits { AreWithinLimits flat.now }
    requires modules { All (λ attrs. attrs.number < length flat.now.tables.modules) table.now }
    ensures { IfOk result (λ list. list.items ≡ map (module_members flat.now) table.now) }
{
    let mut list = Vec::new(alloc);
    for i in 0..table.len() {
        list.push(module_members(alloc, flat, &table[i])?)?;
    }
    Ok(list)
}

/// The paths of the edges with these numbers.
fn edge_paths(alloc: Global, flat: &Flat, numbers: &[u32]) -> Result<Vec<Vec<u8>>, Memory>
    requires range { AreInRange flat.now.tables }
    requires inside { AllBelow (length flat.now.tables.edges) numbers.now }
    ensures { IfOk result (λ list. map (λ path. path.items) list.items
        ≡ map (edge_path flat.now.tables) numbers.now) }
{
    let mut list = Vec::with_capacity(alloc, numbers.len())?;
    for i in 0..numbers.len() {
        let path = flat.edge_path(numbers[i]);
        list.push(text_of(alloc, path)?)?;
    }
    Ok(list)
}

/// A cluster: its modules, and the paths of its edges.
fn cluster_members(
    alloc: Global,
    flat: &Flat,
    groups: &TableGroups,
    cluster: u32,
) -> Result<ClusterMembers, Memory>
    requires limits { AreWithinLimits flat.now }
    requires groups { AreTableGroups flat.now.tables groups.now }
    requires has { Contains (clusters_of flat.now.tables) cluster }
    ensures { IfOk result (λ member. member ≡ cluster_members flat.now cluster) }
{
    let attrs = first_table(alloc, flat, groups, cluster)?;
    let modules = module_list(alloc, flat, &attrs.rows)?;
    let edges = edge_paths(alloc, flat, groups.edges(cluster))?;
    Ok(ClusterMembers {
        number: cluster,
        modules,
        edges,
    })
}

/// The clusters of a model, from number 1 on.
pub(crate) fn cluster_list(alloc: Global, flat: &Flat) -> Result<Vec<ClusterMembers>, Memory>
    requires limits { AreWithinLimits flat.now }
    ensures { IfOk result (λ list. list.items ≡ map (cluster_members flat.now) (clusters_in flat.now)) }
{
    law_numbers();
    let groups = TableGroups::of(alloc, &flat.tables, flat.cluster_count())?;
    let mut list = Vec::new(alloc);
    for made in 0..flat.cluster_count() {
        list.push(cluster_members(alloc, flat, &groups, made + 1)?)?;
    }
    Ok(list)
}
