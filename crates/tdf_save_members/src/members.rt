//! All members of a model.

ghost use Rattle.std.specs.Prelude.{◌≡◌, ◌<◌, All, IfOk, length, map};
ghost use Rattle.tdf_bind_invariants.specs.Limits.{AreWithinLimits};
ghost use Rattle.tdf_events.specs.Runnable.{IsRunnable};
ghost use Rattle.tdf_expr.specs.Checked.{IsChecked};
ghost use Rattle.tdf_expr.specs.Made.{block_count};
ghost use Rattle.tdf_save_members.specs.OfFlat.{block_members, named_event, members_of};

use crate::modules::{cell_count, cluster_list, text_of};
use std::alloc::Global;
use tdf_base::{Memory, push_word};
use tdf_bind::Flat;
use tdf_bind_connections::{BlockRow, EventRow};
use tdf_save::{BlockMembers, Members};

/// The paths of the event signals.
fn value_paths(alloc: Global, flat: &Flat) -> Result<Vec<Vec<u8>>, Memory>
    ensures { IfOk result (λ list. map (λ path. path.items) list.items
        ≡ map (λ row. row.path) flat.now.tables.de_signals) }
{
    let mut list = Vec::new(alloc);
    for i in 0..flat.tables.de_signals.len() {
        list.push(text_of(alloc, &flat.tables.de_signals[i].path)?)?;
    }
    Ok(list)
}

/// An instance of a block of processes.
fn block_members(alloc: Global, flat: &Flat, row: &BlockRow) -> Result<BlockMembers, Memory>
    requires checked { IsChecked flat.now.checked }
    requires block { row.now.block < block_count flat.now.checked }
    ensures { IfOk result (λ member. member ≡ block_members flat.now row.now) }
{
    let path = text_of(alloc, &row.path)?;
    let cells = cell_count(alloc, flat, row.block)?;
    Ok(BlockMembers { path, cells })
}

/// The instances of blocks of processes.
fn block_list(alloc: Global, flat: &Flat) -> Result<Vec<BlockMembers>, Memory>
    requires checked { IsChecked flat.now.checked }
    requires blocks { All (λ row. row.block < block_count flat.now.checked)
        flat.now.tables.blocks }
    ensures { IfOk result (λ list. list.items ≡ map (block_members flat.now) flat.now.tables.blocks) }
{
    let mut list = Vec::new(alloc);
    for i in 0..flat.tables.blocks.len() {
        list.push(block_members(alloc, flat, &flat.tables.blocks[i])?)?;
    }
    Ok(list)
}

/// The name of an event: the path of its instance, a space, and its own name.
fn named_event(alloc: Global, flat: &Flat, row: &EventRow) -> Result<Vec<u8>, Memory>
    requires owner { row.now.owner < length flat.now.tables.blocks }
    ensures { IfOk result (λ name. name.items ≡ named_event flat.now.tables row.now) }
{
    let mut name = Vec::new(alloc);
    flat.tables.blocks[row.owner as usize]
        .path
        .push_text(&mut name)?;
    push_word(&mut name, b" ")?;
    push_word(&mut name, row.name.as_bytes())?;
    Ok(name)
}

/// The names of the events.
fn event_names(alloc: Global, flat: &Flat) -> Result<Vec<Vec<u8>>, Memory>
    requires owners { All (λ row. row.owner < length flat.now.tables.blocks)
        flat.now.tables.events }
    ensures { IfOk result (λ list. map (λ name. name.items) list.items
        ≡ map (named_event flat.now.tables) flat.now.tables.events) }
{
    let mut list = Vec::new(alloc);
    for i in 0..flat.tables.events.len() {
        list.push(named_event(alloc, flat, &flat.tables.events[i])?)?;
    }
    Ok(list)
}

/// The labels of the columns of the trace.
fn labels(alloc: Global, flat: &Flat) -> Result<Vec<Vec<u8>>, Memory>
    ensures { IfOk result (λ list. map (λ label. label.items) list.items
        ≡ map (λ row. row.label) flat.now.tables.traces) }
{
    let mut list = Vec::new(alloc);
    for i in 0..flat.tables.traces.len() {
        let label = &flat.tables.traces[i].label;
        list.push(Vec::from_slice(alloc, label.as_bytes())?)?;
    }
    Ok(list)
}

/// What the text of a snapshot needs of a model: the paths of its parts, and how many numbers each of them has. Clusters, modules,
/// edges, signals, instances, events and traces stand in the order of their numbers.
///
/// # Errors
/// Out of memory.
pub fn members_of(alloc: Global, flat: &Flat) -> Result<Members, Memory>
    requires limits { AreWithinLimits flat.now }
    requires runnable { IsRunnable flat.now }
    ensures members { IfOk result (λ members. members ≡ members_of flat.now) }
{
    let clusters = cluster_list(alloc, flat)?;
    let values = value_paths(alloc, flat)?;
    let blocks = block_list(alloc, flat)?;
    let events = event_names(alloc, flat)?;
    let columns = labels(alloc, flat)?;
    Ok(Members {
        clusters,
        values,
        blocks,
        events,
        columns,
    })
}
