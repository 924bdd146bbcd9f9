//! The keys of all firings that are grounded, by a worklist of actors.

ghost use Rattle.std.specs.Prelude.{◌≡◌, ◌<◌, ◌≤◌, ◌+◌, ◌*◌, ◌^◌, ◌++◌, ◌∷◌, [], ℕ, List, All, false, length, sum, replicate, slice_index, slice_get, Some, IfOk, OnOk};
ghost use Rattle.tdf_base.specs.Limits.{most_firings};
ghost use Rattle.tdf_graph.specs.Ranges.{IsEdge};
ghost use Rattle.tdf_schedule.specs.views.Parts.{AreParts, no_part};
ghost use Rattle.tdf_schedule.specs.views.Table.{row_at, key_of};
ghost use Rattle.tdf_schedule.specs.views.Work.{links_at, with_key, weight, AreGiven, AreRows, HasGrown, IsSettled, IsStarted, IsWorked, ArePushed, readers_in};

use crate::join::{Asked, Part, greatest_need, row_len};
use crate::key::{Key, Row};
use crate::lists::Lists;
use std::alloc::Global;
use tdf_base::Memory;
use tdf_graph::Edge;

/// No edge of an actor was asked.
const NO_PART: Part = Part {
    asked: 0,
    key: Key {
        level: 0,
        offset: 0,
    },
};

/// What the work is done on.
#[derive(Clone, Copy)]
pub(crate) struct Given<'g> {
    pub edges: &'g [Edge],
    /// How often each actor fires in a period.
    pub counts: &'g [u64],
    /// The time from one firing of each actor to the next.
    pub paces: &'g [u64],
    /// The edges that each actor reads.
    pub inputs: &'g Lists,
    /// The edges that each actor writes.
    pub outputs: &'g Lists,
}

/// The actors that may have a firing whose needs all have their keys.
#[derive(Drop)]
struct Worklist {
    stack: Vec<u32>,
    /// Whether each actor is on the stack.
    on: Vec<bool>,
}

fn push_one(actor: u32, work: &mut Worklist) -> Result<(), Memory>
    requires { actor < length work.old.on.items }
    ensures { OnOk result (ArePushed (actor ∷ []) 1 work.old.stack.items work.new.stack.items work.old.on.items work.new.on.items) }
{
    if work.on[actor as usize] {
        return Ok(());
    }
    work.stack.push(actor)?;
    work.on[actor as usize] = true;
    Ok(())
}

/// Puts the readers of these edges on the stack.
fn push_readers(edges: &[Edge], list: &[u32], work: &mut Worklist) -> Result<(), Memory>
    requires fit { All (IsEdge (length work.old.on.items)) edges.now }
    requires inside { (j : ℕ) → j < length list.now → slice_index list.now j < length edges.now }
    ensures { OnOk result (ArePushed (readers_in edges.now list.now) (length list.now) work.old.stack.items work.new.stack.items work.old.on.items work.new.on.items) }
{
    for i in 0..list.len() {
        push_one(edges[list[i] as usize].reader, work)?;
    }
    Ok(())
}

/// Gives the next firing of an actor its key.
fn give(table: &mut Vec<Row>, actor: u32, need: Key) -> Result<(), Memory>
    requires actor { actor < length table.old.items }
    requires level { need.level + 1 < 2 ^ 32 }
    ensures { OnOk result (table.new.items ≡ with_key table.old.items actor (key_of (need.level + 1) need.offset)) }
{
    table[actor as usize].push(Key {
        level: need.level + 1,
        offset: need.offset,
    })
}

/// Gives an actor's next firings their keys, as long as all that they need have theirs.
fn fire(
    actor: u32,
    given: &Given,
    table: &mut Vec<Row>,
    parts: &mut Vec<Part>,
) -> Result<(), Memory>
    requires given { AreGiven given.now.edges.now given.now.counts.now given.now.paces.now given.now.inputs.now given.now.outputs.now }
    requires actor { actor < length given.now.counts.now }
    requires rows { AreRows given.now.edges.now (slice_index given.now.paces.now) given.now.counts.now table.old.items }
    requires parts { AreParts given.now.edges.now (slice_index given.now.paces.now) given.now.counts.now table.old.items given.now.inputs.now parts.old.items }
    ensures parts { OnOk result (AreParts given.now.edges.now (slice_index given.now.paces.now) given.now.counts.now table.new.items given.now.inputs.now parts.new.items) }
    ensures rows { OnOk result (AreRows given.now.edges.now (slice_index given.now.paces.now) given.now.counts.now table.new.items) }
    ensures grown { OnOk result (HasGrown actor table.old.items table.new.items) }
    ensures settled { OnOk result (IsSettled given.now.edges.now given.now.counts.now table.new.items actor) }
{
    let inputs = given.inputs.list(actor);
    let place = actor as usize;
    for firing in row_len(table, actor)..given.counts[place] {
        match greatest_need(given.edges, inputs, given.paces, table, actor, parts[place]) {
            Asked::Part(part) => {
                parts[place] = part;
                return Ok(());
            }
            Asked::Whole(need) => {
                parts[place] = NO_PART;
                give(table, actor, need)?;
            }
        }
    }
    Ok(())
}

/// Works on an actor that was taken from the stack.
fn work_one(
    actor: u32,
    given: &Given,
    table: &mut Vec<Row>,
    parts: &mut Vec<Part>,
    work: &mut Worklist,
) -> Result<(), Memory>
    requires given { AreGiven given.now.edges.now given.now.counts.now given.now.paces.now given.now.inputs.now given.now.outputs.now }
    requires rows { AreRows given.now.edges.now (slice_index given.now.paces.now) given.now.counts.now table.old.items }
    requires parts { AreParts given.now.edges.now (slice_index given.now.paces.now) given.now.counts.now table.old.items given.now.inputs.now parts.old.items }
    requires worked { IsWorked given.now.edges.now given.now.counts.now table.old.items (work.old.stack.items ++ actor ∷ []) work.old.on.items }
    ensures parts { OnOk result (AreParts given.now.edges.now (slice_index given.now.paces.now) given.now.counts.now table.new.items given.now.inputs.now parts.new.items) }
    ensures rows { OnOk result (AreRows given.now.edges.now (slice_index given.now.paces.now) given.now.counts.now table.new.items) }
    ensures worked { OnOk result (IsWorked given.now.edges.now given.now.counts.now table.new.items work.new.stack.items work.new.on.items) }
    ensures less { OnOk result (weight given.now.edges.now given.now.counts.now table.new.items work.new.stack.items
        ≤ weight given.now.edges.now given.now.counts.now table.old.items work.old.stack.items) }
{
    work.on[actor as usize] = false;
    let before = row_len(table, actor);
    fire(actor, given, table, parts)?;
    if row_len(table, actor) == before {
        return Ok(());
    }
    push_readers(given.edges, given.outputs.list(actor), work)?;
    Ok(())
}

/// No actor is on the stack.
fn no_work(alloc: Global, count: usize) -> Result<Worklist, Memory>
    ensures stack { IfOk result (λ work. work.stack.items ≡ []) }
    ensures on { IfOk result (λ work. work.on.items ≡ replicate count false) }
{
    let on = vec![in alloc; false; count]?;
    Ok(Worklist {
        stack: Vec::new(alloc),
        on,
    })
}

/// Every actor that fires is on the stack.
fn first_work(alloc: Global, counts: &[u64]) -> Result<Worklist, Memory>
    requires { length counts.now < 2 ^ 32 }
    ensures { IfOk result (λ work. IsStarted (length counts.now) counts.now work.stack.items work.on.items) }
{
    let mut work = no_work(alloc, counts.len())?;
    for actor in 0..counts.len() as u32 {
        if counts[actor as usize] != 0 {
            push_one(actor, &mut work)?;
        }
    }
    Ok(work)
}

/// A row without keys for each actor.
fn no_rows(alloc: Global, count: u32) -> Result<Vec<Row>, Memory>
    ensures { IfOk result (λ rows. rows.items ≡ replicate count []) }
{
    let mut rows = Vec::with_capacity(alloc, count as usize)?;
    for made in 0..count {
        rows.push(Row::new(alloc))?;
    }
    Ok(rows)
}

/// Nothing is known of the next firing of each actor.
fn no_parts(alloc: Global, count: u32) -> Result<Vec<Part>, Memory>
    ensures { IfOk result (λ parts. parts.items ≡ replicate count no_part) }
{
    let mut parts = Vec::with_capacity(alloc, count as usize)?;
    for made in 0..count {
        parts.push(NO_PART)?;
    }
    Ok(parts)
}

/// The keys of all firings that are grounded, each actor's from its first firing on.
pub(crate) fn fill(alloc: Global, given: &Given) -> Result<Vec<Row>, Memory>
    requires given { AreGiven given.now.edges.now given.now.counts.now given.now.paces.now given.now.inputs.now given.now.outputs.now }
    requires small { length given.now.counts.now < 2 ^ 32 }
    ensures rows { IfOk result (λ table. AreRows given.now.edges.now (slice_index given.now.paces.now) given.now.counts.now table.items) }
    ensures settled { IfOk result (λ table. (m : ℕ) → m < length given.now.counts.now → IsSettled given.now.edges.now given.now.counts.now table.items m) }
{
    let mut table = no_rows(alloc, given.counts.len() as u32)?;
    let mut parts = no_parts(alloc, given.counts.len() as u32)?;
    let mut work = first_work(alloc, given.counts)?;
    while let Some(actor) = work.stack.pop() {
        work_one(actor, given, &mut table, &mut parts, &mut work)?;
    }
    drop(work);
    Ok(table)
}
