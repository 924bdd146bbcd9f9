//! The firings of a table of keys, laid out by level and actor. That is the order of a plan in which no firing waits for a time.

ghost use Rattle.std.specs.Prelude.{◌≡◌, ◌+◌, ◌-◌, ◌<◌, ◌≤◌, ◌^◌, ◌++◌, ◌∷◌, [], ℕ, length, replicate, slice_index, slice_set, IfOk, OnOk};
ghost use Rattle.tdf_schedule.specs.views.Entries.{IsComplete, HasOwnKeys};
ghost use Rattle.tdf_schedule.specs.views.Table.{row_at, total};
ghost use Rattle.tdf_schedule.specs.views.Work.{links_at};
ghost use Rattle.tdf_schedule.specs.views.Turns.{turns_in, turns_of, GainsTurns, AreByLevel, AreLaid, HasAllTurns};

use crate::entry::Entry;
use crate::key::{Links, Row};
use std::alloc::Global;
use tdf_base::Memory;

/// Adds empty lists, up to that of a level.
fn reach(alloc: Global, levels: &mut Vec<Links>, level: u32) -> Result<(), Memory>
    ensures there { OnOk result (level < length levels.new.items) }
    ensures more { OnOk result (levels.new.items ≡ levels.old.items ++ replicate (length levels.new.items - length levels.old.items) []) }
{
    for made in levels.len()..level as usize + 1 {
        levels.push(Links::new(alloc))?;
    }
    Ok(())
}

/// Adds a number to the list of a level.
fn add(lists: &mut Vec<Links>, level: u32, number: u32) -> Result<(), Memory>
    requires { level < length lists.old.items }
    ensures { OnOk result (lists.new.items ≡ slice_set lists.old.items level (links_at lists.old.items level ++ number ∷ [])) }
{
    lists[level as usize].push(number)
}

/// Adds the turns of an actor, each to the list of the level of its firing.
fn add_turns(
    alloc: Global,
    levels: &mut Vec<Links>,
    table: &Vec<Row>,
    actor: u32,
) -> Result<(), Memory>
    requires actor { actor < length table.now.items }
    ensures { OnOk result (GainsTurns actor (row_at table.now.items actor) levels.old.items levels.new.items) }
{
    let row = &table[actor as usize];
    for index in 0..row.len() {
        let level = row.key(index).level;
        reach(alloc, levels, level)?;
        add(levels, level, actor)?;
    }
    Ok(())
}

/// The actors that fire at each level, in order.
fn turns_by_level(alloc: Global, table: &Vec<Row>) -> Result<Vec<Links>, Memory>
    requires few { length table.now.items < 2 ^ 32 }
    ensures { IfOk result (λ levels. AreByLevel (length table.now.items) table.now.items levels.items) }
{
    let mut levels = Vec::new(alloc);
    for actor in 0..table.len() as u32 {
        add_turns(alloc, &mut levels, table, actor)?;
    }
    Ok(levels)
}

/// The firings that are laid out.
#[derive(Drop)]
struct Laid {
    entries: Vec<Entry>,
    /// How many firings of each actor are among them.
    done: Vec<u64>,
}

/// No firing is laid out.
fn nothing_laid(alloc: Global, table: &Vec<Row>, count: usize) -> Result<Laid, Memory>
    ensures laid { IfOk result (λ laid. AreLaid table.now.items laid.done.items laid.entries.items) }
    ensures done { IfOk result (λ laid. (k : ℕ) → slice_index laid.done.items k ≡ 0) }
{
    let entries = Vec::with_capacity(alloc, count)?;
    let done = vec![in alloc; 0; table.len()]?;
    Ok(Laid { entries, done })
}

/// Lays out the next firing of an actor.
fn lay_next(laid: &mut Laid, table: &Vec<Row>, actor: u32) -> Result<(), Memory>
    requires laid { AreLaid table.now.items laid.old.done.items laid.old.entries.items }
    requires more { slice_index laid.old.done.items actor < length (row_at table.now.items actor) }
    ensures laid { OnOk result (AreLaid table.now.items laid.new.done.items laid.new.entries.items) }
    ensures done { OnOk result (laid.new.done.items ≡ slice_set laid.old.done.items actor (slice_index laid.old.done.items actor + 1)) }
{
    let index = laid.done[actor as usize];
    let key = table[actor as usize].key(index as usize);
    laid.entries.push(Entry {
        offset: key.offset,
        level: key.level,
        actor,
        index,
    })?;
    laid.done[actor as usize] = index + 1;
    Ok(())
}

/// Lays out a firing for each turn of a list.
fn lay_turns(laid: &mut Laid, table: &Vec<Row>, turns: &[u32]) -> Result<(), Memory>
    requires laid { AreLaid table.now.items laid.old.done.items laid.old.entries.items }
    requires more { (k : ℕ) → slice_index laid.old.done.items k + turns_in turns.now k ≤ length (row_at table.now.items k) }
    ensures laid { OnOk result (AreLaid table.now.items laid.new.done.items laid.new.entries.items) }
    ensures done { OnOk result ((k : ℕ) → slice_index laid.new.done.items k ≡ slice_index laid.old.done.items k + turns_in turns.now k) }
{
    for i in 0..turns.len() {
        lay_next(laid, table, turns[i])?;
    }
    Ok(())
}

/// A firing for each turn of these lists, in their order.
fn entries_in_turn(
    alloc: Global,
    table: &Vec<Row>,
    lists: &Vec<Links>,
    count: usize,
) -> Result<Vec<Entry>, Memory>
    requires { HasAllTurns table.now.items lists.now.items }
    ensures complete { IfOk result (λ v. IsComplete table.now.items v.items) }
    ensures keys { IfOk result (λ v. HasOwnKeys table.now.items v.items) }
    ensures long { IfOk result (λ v. length v.items ≡ total table.now.items) }
{
    let mut laid = nothing_laid(alloc, table, count)?;
    for place in 0..lists.len() {
        lay_turns(&mut laid, table, lists[place].list())?;
    }
    Ok(laid.entries)
}

/// All firings, `count` of them, by level and actor.
pub(crate) fn entries_by_level(
    alloc: Global,
    table: &Vec<Row>,
    count: usize,
) -> Result<Vec<Entry>, Memory>
    requires few { length table.now.items < 2 ^ 32 }
    ensures complete { IfOk result (λ v. IsComplete table.now.items v.items) }
    ensures keys { IfOk result (λ v. HasOwnKeys table.now.items v.items) }
    ensures long { IfOk result (λ v. length v.items ≡ total table.now.items) }
{
    let levels = turns_by_level(alloc, table)?;
    let entries = entries_in_turn(alloc, table, &levels, count);
    drop(levels);
    entries
}
