//! The key of an actor's next firing.

ghost use Rattle.std.specs.Prelude.{◌≡◌, ◌<◌, ◌≤◌, ◌+◌, ◌*◌, ◌^◌, ℕ, All, Option, length, slice_get, slice_index, vec_len};
ghost use Rattle.tdf_graph.specs.Ranges.{IsEdge};
ghost use Rattle.tdf_schedule.specs.Needs.{HasKey};
ghost use Rattle.tdf_schedule.specs.views.Parts.{IsAsked, IsPart};
ghost use Rattle.tdf_schedule.specs.views.Table.{need_of, row_at, joined, AreLow, MeetsNeed, IsStart, HasKeys, AreInputs};

use crate::key::{Key, Row};
use tdf_graph::Edge;

/// What is known of the key of an actor's next firing: the later of its own and of what the first so many of its edges ask.
#[derive(Clone, Copy)]
pub(crate) struct Part {
    /// How many of its edges were asked, in order; where none was, the key says nothing.
    pub asked: usize,
    /// What they need together.
    pub key: Key,
}

/// What an actor's next firing asks for.
pub(crate) enum Asked {
    /// All its edges were asked, and need this together.
    Whole(Key),
    /// The next of its edges needs a firing that has no key yet.
    Part(Part),
}

/// The later of two keys.
#[tactic(auto, unfolding(crate::specs::views::Table::joined))]
fn join(one: Key, other: Key) -> Key
    ensures { result ≡ joined one other }
{
    Key {
        level: one.level.max(other.level),
        offset: one.offset.max(other.offset),
    }
}

/// The firing of the writer that the last sample of a firing needs.
fn need(edge: &Edge, firing: u64) -> Option<u64>
    requires some { (1 ≤ edge.now.write_rate) }
    requires rate { 1 ≤ edge.now.read_rate }
    requires few { firing < 2 ^ 31 }
    ensures { result ≡ need_of edge.now firing }
{
    let last = firing * u64::from(edge.read_rate) + (u64::from(edge.read_rate) - 1);
    if last < u64::from(edge.initial) {
        return None;
    }
    Some((last - u64::from(edge.initial)) / u64::from(edge.write_rate))
}

/// A key joined with what an edge asks of a firing of its reader; `None` where that has no key yet.
fn meet(edge: &Edge, firing: u64, table: &Vec<Row>, key: Key) -> Option<Key>
    requires some { 1 ≤ edge.now.write_rate }
    requires rate { 1 ≤ edge.now.read_rate }
    requires few { firing < 2 ^ 31 }
    requires writer { edge.now.writer < length table.now.items }
    ensures { MeetsNeed table.now.items edge.now (need_of edge.now firing) key result }
{
    match need(edge, firing) {
        None => Some(key),
        Some(number) => {
            let row = &table[edge.writer as usize];
            if row.len() as u64 <= number {
                return None;
            }
            Some(join(key, row.key(number as usize)))
        }
    }
}

/// What an actor's next firing needs of itself: the key of the one before, and its due time.
fn start(table: &Vec<Row>, actor: u32, due: u64) -> Key
    requires actor { actor < length table.now.items }
    ensures { IsStart (row_at table.now.items actor) due result }
{
    let row = &table[actor as usize];
    let first = Key {
        level: 0,
        offset: due,
    };
    if row.len() == 0 {
        return first;
    }
    join(first, row.key(row.len() - 1))
}

/// What an actor's next firing needs before the next of its edges is asked.
fn begin(table: &Vec<Row>, actor: u32, due: u64, part: Part) -> Key
    requires actor { actor < length table.now.items }
    ensures first { part.asked ≡ 0 → IsStart (row_at table.now.items actor) due result }
    ensures later { 0 < part.asked → result ≡ part.key }
{
    if 0 < part.asked {
        return part.key;
    }
    start(table, actor, due)
}

/// How many firings of an actor have their keys.
pub(crate) fn row_len(table: &Vec<Row>, actor: u32) -> u64
    requires { actor < length table.now.items }
    ensures { result ≡ length (row_at table.now.items actor) }
{
    table[actor as usize].len() as u64
}

/// The greatest key that an actor's next firing needs, if each has its key; the edges that were asked before aren't asked again.
pub(crate) fn greatest_need(
    edges: &[Edge],
    inputs: &[u32],
    paces: &[u64],
    table: &Vec<Row>,
    actor: u32,
    part: Part,
) -> Asked
    requires fit { All (IsEdge (length table.now.items)) edges.now }
    requires actor { actor < length table.now.items }
    requires few { length (row_at table.now.items actor) < 2 ^ 31 }
    requires inputs { AreInputs edges.now actor inputs.now }
    requires keys { HasKeys edges.now (slice_index paces.now) table.now.items }
    requires low { AreLow table.now.items }
    requires paces { length paces.now ≡ length table.now.items }
    requires due { length (row_at table.now.items actor) * slice_index paces.now actor < 2 ^ 63 }
    requires part { IsPart edges.now (slice_index paces.now) table.now.items actor inputs.now part }
    ensures { IsAsked edges.now (slice_index paces.now) table.now.items actor inputs.now result }
{
    let firing = row_len(table, actor);
    let mut key = begin(table, actor, firing * paces[actor as usize], part);
    for place in part.asked..inputs.len() {
        let edge = &edges[inputs[place] as usize];
        match meet(edge, firing, table, key) {
            None => return Asked::Part(Part { asked: place, key }),
            Some(next) => key = next,
        }
    }
    Asked::Whole(key)
}
