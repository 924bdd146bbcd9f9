//! The firings of a table of keys, sorted.

ghost use Rattle.std.specs.Prelude.{◌≡◌, ◌+◌, ◌<◌, ◌^◌, ℕ, length, IfOk, OnOk};
ghost use Rattle.tdf_schedule.specs.views.Entries.{IsCounted, IsComplete, HasOwnKeys, AreSorted};
ghost use Rattle.tdf_schedule.specs.views.Table.{row_at, total};

use crate::entry::Entry;
use crate::key::Row;
use crate::turns::entries_by_level;
use std::alloc::Global;
use tdf_base::Memory;

/// So few firings are sorted as they come, actor by actor.
const FEW: usize = 64;

/// How many firings have their keys.
fn firings(table: &Vec<Row>) -> usize
    requires { total table.now.items < 2 ^ 31 }
    ensures { result ≡ total table.now.items }
{
    let mut count = 0;
    for actor in 0..table.len() {
        count += table[actor].len();
    }
    count
}

/// Adds the firings of an actor.
fn push_row(entries: &mut Vec<Entry>, table: &Vec<Row>, actor: u32) -> Result<(), Memory>
    requires actor { actor < length table.now.items }
    requires before { IsCounted table.now.items actor 0 entries.old.items }
    requires keys { HasOwnKeys table.now.items entries.old.items }
    ensures counted { OnOk result (IsCounted table.now.items actor (length (row_at table.now.items actor)) entries.new.items) }
    ensures keys { OnOk result (HasOwnKeys table.now.items entries.new.items) }
    ensures long { OnOk result (length entries.new.items ≡ length entries.old.items + length (row_at table.now.items actor)) }
{
    for index in 0..table[actor as usize].len() {
        let key = table[actor as usize].key(index);
        entries.push(Entry {
            offset: key.offset,
            level: key.level,
            actor,
            index: index as u64,
        })?;
    }
    Ok(())
}

/// All firings, `count` of them, by actor.
fn entries_by_actor(alloc: Global, table: &Vec<Row>, count: usize) -> Result<Vec<Entry>, Memory>
    requires { length table.now.items < 2 ^ 32 }
    ensures complete { IfOk result (λ v. IsComplete table.now.items v.items) }
    ensures keys { IfOk result (λ v. HasOwnKeys table.now.items v.items) }
    ensures long { IfOk result (λ v. length v.items ≡ total table.now.items) }
{
    let mut entries = Vec::with_capacity(alloc, count)?;
    for actor in 0..table.len() as u32 {
        push_row(&mut entries, table, actor)?;
    }
    Ok(entries)
}

/// All firings. Where they are many, they come nearly in order.
fn entries_in(alloc: Global, table: &Vec<Row>) -> Result<Vec<Entry>, Memory>
    requires actors { length table.now.items < 2 ^ 32 }
    requires firings { total table.now.items < 2 ^ 31 }
    ensures complete { IfOk result (λ v. IsComplete table.now.items v.items) }
    ensures keys { IfOk result (λ v. HasOwnKeys table.now.items v.items) }
    ensures long { IfOk result (λ v. length v.items ≡ total table.now.items) }
{
    let count = firings(table);
    if count <= FEW {
        entries_by_actor(alloc, table, count)
    } else {
        entries_by_level(alloc, table, count)
    }
}

/// All firings, in the order of the plan.
pub(crate) fn entries_of(alloc: Global, table: &Vec<Row>) -> Result<Vec<Entry>, Memory>
    requires actors { length table.now.items < 2 ^ 32 }
    requires firings { total table.now.items < 2 ^ 31 }
    ensures complete { IfOk result (λ v. IsComplete table.now.items v.items) }
    ensures keys { IfOk result (λ v. HasOwnKeys table.now.items v.items) }
    ensures sorted { IfOk result (λ v. AreSorted v.items) }
    ensures long { IfOk result (λ v. length v.items ≡ total table.now.items) }
{
    let mut entries = entries_in(alloc, table)?;
    entries.sort_unstable();
    Ok(entries)
}
