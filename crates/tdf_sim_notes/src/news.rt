//! The plan of a cluster as a note.

ghost use Rattle.std.specs.Prelude.{◌≡◌, ◌+◌, ◌++◌, OnErr, OnOk, length};
ghost use Rattle.tdf_bind_tables.specs.Ranges.{AreInRange};
ghost use Rattle.tdf_cluster_plans.specs.Groups.{AreTableGroups};
ghost use Rattle.tdf_dynamic_texts.specs.Plans.{plan_text, rows_of_plan};
ghost use Rattle.tdf_io.specs.Bytes.{WritesText};

use tdf_base::{Memory, cluster_number};
use tdf_bind::Flat;
use tdf_cluster_plans::TableGroups;
use tdf_dynamic_texts::push_plan;
use tdf_io::{Sink, SinkErr, put_all};
use tdf_schedule::Plan;

/// Appends the plan of the cluster at a place, from a time on. Clusters have numbers from 1 on, and places from 0 on. The things
/// of the model by cluster are given.
///
/// # Errors
/// Out of memory; `text` is then unchanged.
pub fn push_plan_at(
    text: &mut Vec<u8>,
    flat: &Flat,
    groups: &TableGroups,
    time: u64,
    place: usize,
    plan: &Plan,
) -> Result<(), Memory>
    requires range { AreInRange flat.now.tables }
    requires groups { AreTableGroups flat.now.tables groups.now }
    requires bounds { length plan.now.bounds.items ≡ length flat.now.tables.edges }
    ensures plan { OnOk result (text.new.items ≡ text.old.items
        ++ plan_text flat.now.resolution flat.now.tables (place + 1) time (rows_of_plan plan.now)) }
    ensures kept { OnErr result (text.new.items ≡ text.old.items) }
{
    let number = cluster_number(place)?;
    push_plan(
        text,
        &flat.tables,
        groups,
        number,
        time,
        plan,
        flat.resolution,
    )
}

/// Writes the plan of the cluster at a place, from a time on, as one piece; `text` is room for it. The things of the model by
/// cluster are given.
///
/// # Errors
/// A write failed, or out of memory.
pub fn write_plan<N: Sink>(
    text: &mut Vec<u8>,
    flat: &Flat,
    groups: &TableGroups,
    time: u64,
    place: usize,
    plan: &Plan,
    notes: &mut N,
) -> Result<(), SinkErr>
    requires range { AreInRange flat.now.tables }
    requires groups { AreTableGroups flat.now.tables groups.now }
    requires bounds { length plan.now.bounds.items ≡ length flat.now.tables.edges }
    ensures { WritesText N.taken N.faults notes.old notes.new
        (plan_text flat.now.resolution flat.now.tables (place + 1) time (rows_of_plan plan.now))
        result }
{
    text.clear();
    match push_plan_at(text, flat, groups, time, place, plan) {
        Ok(()) => put_all(notes, text),
        Err(Memory) => Err(SinkErr::Memory),
    }
}
