//! The walk.

ghost use Rattle.std.specs.Prelude.{◌≡◌, OnOk, IfOk, map};
ghost use Rattle.tdf_bind_hierarchy.specs.Bound.{AreBound};
ghost use Rattle.tdf_bind_hierarchy.specs.Met.{met_in, placed_signal};
ghost use Rattle.tdf_bind_hierarchy.specs.Tables.{IsTable};
ghost use Rattle.tdf_bind_hierarchy.specs.machine.Walk.{number_at, number_of, row_of, IsPut, walked, walked_all, walked_row};

use crate::blocks::{Block, Instance, SignalLine, Target};
use crate::paths::SharedPath;
use crate::tables::{InstanceRow, Signal, SignalNumber, Tables, no_tables};
use smallvec::SmallVec;
use std::alloc::Global;
use tdf_base::Memory;

/// Where the instances of a block stand: the path of the block, the numbers of its own signals, and those that its ports
/// reach.
#[derive(Clone, Copy)]
struct Around<'a> {
    path: &'a Option<SharedPath>,
    own: &'a [SignalNumber],
    outer: &'a [SignalNumber],
}

/// A walk through the blocks of a model.
#[derive(Clone, Copy)]
struct Walk<'b> {
    model: &'b [Block],
    /// How many blocks it still enters, one inside the other.
    depth: usize,
}

#[tactic(auto, using(crate::proofs::Steps::place_laws))]
fn number_at(numbers: &[SignalNumber], place: usize) -> SignalNumber
    ensures { result ≡ number_at numbers.now place }
{
    if place < numbers.len() {
        return numbers[place];
    }
    SignalNumber {
        event: false,
        number: 0,
    }
}

fn number_of(around: &Around, target: Target) -> SignalNumber
    ensures { result ≡ number_of around.now.own.now around.now.outer.now target }
{
    match target {
        Target::Own(signal) => number_at(around.own, signal),
        Target::Outer(port) => number_at(around.outer, port),
    }
}

#[tactic(auto, using(crate::proofs::Steps::number_laws))]
fn numbers_of(
    alloc: Global,
    around: &Around,
    targets: &Vec<Target>,
) -> Result<Vec<SignalNumber>, Memory>
    ensures { IfOk result (λ numbers. numbers.items ≡ map (number_of around.now.own.now around.now.outer.now) targets.now.items) }
{
    let mut numbers = Vec::new(alloc);
    for target in targets {
        numbers.push(number_of(around, *target))?;
    }
    Ok(numbers)
}

fn signal_of(alloc: Global, path: &Option<SharedPath>, line: &SignalLine) -> Result<Signal, Memory>
    ensures { IfOk result (λ signal. signal ≡ placed_signal path.now line.now) }
{
    Ok(Signal {
        event: line.event,
        path: SharedPath::named(alloc, path, &line.name)?,
        format: line.format,
        start: line.start,
    })
}

/// Adds the signals of a block, and tells their numbers.
#[tactic(auto, using(crate::proofs::Steps::signal_laws))]
fn put_signals(
    alloc: Global,
    tables: &mut Tables,
    path: &Option<SharedPath>,
    lines: &Vec<SignalLine>,
) -> Result<Vec<SignalNumber>, Memory>
    ensures { IfOk result (λ own. IsPut path.now lines.now.items tables.old own.items tables.new) }
{
    let mut own = Vec::new(alloc);
    for line in lines {
        let signal = signal_of(alloc, path, line)?;
        own.push(tables.put_signal(signal)?)?;
    }
    Ok(own)
}

/// The row of an instance.
fn row_of(alloc: Global, around: &Around, instance: &Instance) -> Result<InstanceRow, Memory>
    ensures { IfOk result (λ row. row ≡ row_of around.now.path.now around.now.own.now around.now.outer.now instance.now) }
{
    Ok(InstanceRow {
        path: SharedPath::named(alloc, around.path, &instance.name)?,
        block: instance.block,
        signals: numbers_of(alloc, around, &instance.targets)?,
    })
}

/// What a block holds: its signals, then its instances, each before what is inside it.
#[cycle(blocks)]
#[tactic(auto, using(crate::proofs::Steps::walk_laws))]
fn walk_block(
    alloc: Global,
    tables: &mut Tables,
    walk: &Walk,
    block: usize,
    path: &Option<SharedPath>,
    outer: &[SignalNumber],
) -> Result<(), Memory>
    ensures { OnOk result (tables.new ≡ walked walk.now.model.now walk.now.depth block path.now outer.now tables.old) }
{
    if walk.depth == 0 {
        return Ok(());
    }
    if block >= walk.model.len() {
        return Ok(());
    }
    let inner = &walk.model[block];
    let own = put_signals(alloc, tables, path, &inner.signals)?;
    let around = Around {
        path,
        own: &own,
        outer,
    };
    let below = Walk {
        model: walk.model,
        depth: walk.depth - 1,
    };
    walk_all(alloc, tables, &below, &inner.instances, &around)
}

#[cycle(blocks)]
#[tactic(auto, using(crate::proofs::Steps::walk_laws))]
fn walk_all(
    alloc: Global,
    tables: &mut Tables,
    walk: &Walk,
    instances: &Vec<Instance>,
    around: &Around,
) -> Result<(), Memory>
    ensures { OnOk result (tables.new ≡ walked_all (walked walk.now.model.now walk.now.depth) instances.now.items
        around.now.path.now around.now.own.now around.now.outer.now tables.old) }
{
    for instance in instances {
        let row = row_of(alloc, around, instance)?;
        walk_row(alloc, tables, walk, row)?;
    }
    Ok(())
}

/// Adds an instance, and what is inside it.
#[cycle(blocks)]
#[tactic(auto, using(crate::proofs::Steps::walk_laws))]
fn walk_row(alloc: Global, tables: &mut Tables, walk: &Walk, row: InstanceRow) -> Result<(), Memory>
    ensures { OnOk result (tables.new ≡ walked_row (walked walk.now.model.now walk.now.depth) row tables.old) }
{
    let block = row.block;
    let path = Some(row.path.shared()?);
    // The row goes into the tables; a copy of a few numbers takes no memory.
    let numbers = SmallVec::<SignalNumber, 4>::from_slice(alloc, &row.signals)?;
    tables.put_row(row)?;
    walk_block(alloc, tables, walk, block, &path, numbers.as_slice())
}

/// The tables of a model by its blocks, where `top` is the place of the outermost one.
///
/// # Errors
/// Out of memory.
#[tactic(auto, using(crate::proofs::Whole::table_laws))]
pub fn tables_of(alloc: Global, blocks: &[Block], top: usize) -> Result<Tables, Memory>
    requires { AreBound blocks.now top }
    ensures { IfOk result (λ tables. IsTable (met_in blocks.now top) tables) }
{
    let mut tables = no_tables(alloc);
    let outer = Vec::new(alloc);
    let walk = Walk {
        model: blocks,
        depth: blocks.len(),
    };
    walk_block(alloc, &mut tables, &walk, top, &None, &outer)?;
    Ok(tables)
}
