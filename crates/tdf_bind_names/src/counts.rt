//! What a model holds of each kind that there is a limit for, counted block by block.

ghost use Rattle.std.specs.Prelude.{◌≡◌, length, slice_index, IfOk};
ghost use Rattle.tdf_bind_names.specs.Counts.{is_past, is_too_many};
ghost use Rattle.tdf_bind_names.specs.Resolved.{AreResolved};
ghost use Rattle.tdf_bind_names.specs.machine.Counts.{capped, counted, own_signals, AreCounts};
ghost use Rattle.tdf_lang_tree.specs.Views.{pure_tree};
ghost use Rattle.tdf_bind_hierarchy.specs.Laws.{AreEarlier};

use crate::measures::{Measure, add, counts_signals, limit_of, weights_of};
use std::alloc::Global;
use tdf_base::Memory;
use tdf_bind_hierarchy::{Block, Instance};
use tdf_lang_tree::Tree;

fn at(list: &[u64], k: usize) -> u64
    ensures { result ≡ slice_index list.now k }
{
    if k < list.len() {
        return list[k];
    }
    0
}

#[tactic(auto, unfolding(crate::specs::machine::Counts::capped))]
fn own_signals(signals: bool, count: usize) -> u64
    ensures count { result ≡ own_signals signals count }
    ensures small { capped result ≡ result }
{
    if signals {
        return count as u64;
    }
    0
}

/// What is inside a block, by the counts of the blocks before it.
#[tactic(auto, using(crate::proofs::Counting::count_laws))]
fn count_block(counts: &[u64], weights: &[u64], start: u64, instances: &Vec<Instance>) -> u64
    ensures { result ≡ counted counts.now weights.now start instances.now.items }
{
    let mut total = start;
    for instance in instances {
        let inner = add(at(weights, instance.block), at(counts, instance.block));
        total = add(total, inner);
    }
    total
}

/// What is inside each block, at all depths.
///
/// # Errors
/// Out of memory.
fn counts_of(
    alloc: Global,
    signals: bool,
    weights: &[u64],
    blocks: &Vec<Block>,
) -> Result<Vec<u64>, Memory>
    requires { AreEarlier blocks.now.items }
    ensures { IfOk result (λ counts.
        AreCounts (length blocks.now.items) signals weights.now blocks.now.items counts.items) }
{
    let mut counts = Vec::new(alloc);
    for block in blocks {
        let start = own_signals(signals, block.signals.len());
        let total = count_block(&counts, weights, start, &block.instances);
        counts.push(total)?;
    }
    Ok(counts)
}

/// Whether a model holds more of one kind than there may be.
///
/// # Errors
/// Out of memory.
fn is_past(
    alloc: Global,
    measure: Measure,
    tree: &Tree,
    blocks: &Vec<Block>,
) -> Result<bool, Memory>
    requires { AreEarlier blocks.now.items }
    ensures { IfOk result (λ is. is ≡ is_past measure (pure_tree tree.now) blocks.now.items) }
{
    let weights = weights_of(alloc, measure, tree)?;
    let counts = counts_of(alloc, counts_signals(measure), &weights, blocks)?;
    let top = blocks.len().saturating_sub(1);
    Ok(limit_of(measure) < at(&counts, top))
}

fn is_any_past(alloc: Global, tree: &Tree, blocks: &Vec<Block>) -> Result<bool, Memory>
    requires { AreEarlier blocks.now.items }
    ensures { IfOk result (λ is. is ≡ is_too_many (pure_tree tree.now) blocks.now.items) }
{
    let instances = is_past(alloc, Measure::Instances, tree, blocks)?;
    let ports = is_past(alloc, Measure::Ports, tree, blocks)?;
    let signals = is_past(alloc, Measure::Signals, tree, blocks)?;
    let cells = is_past(alloc, Measure::Cells, tree, blocks)?;
    let processes = is_past(alloc, Measure::Processes, tree, blocks)?;
    let events = is_past(alloc, Measure::Events, tree, blocks)?;
    Ok(instances || ports || signals || cells || processes || events)
}

/// Whether a model holds more instances, ports, signals, state cells, processes or events than there may be, by its resolved blocks.
/// It walks no hierarchy: each block is looked at once for each kind.
///
/// # Errors
/// Out of memory.
#[tactic(auto, using(crate::proofs::Bounds::refers_back))]
pub fn is_too_many(alloc: Global, tree: &Tree, blocks: &Vec<Block>) -> Result<bool, Memory>
    requires { AreResolved (pure_tree tree.now) blocks.now.items }
    ensures { IfOk result (λ is. is ≡ is_too_many (pure_tree tree.now) blocks.now.items) }
{
    is_any_past(alloc, tree, blocks)
}
