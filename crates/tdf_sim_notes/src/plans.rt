//! The plans of all clusters at the start.

ghost use Rattle.tdf_cluster_plans.specs.Groups.{AreTableGroups};
ghost use Rattle.tdf_dynamic_plans.specs.Rates.{IsWired};
ghost use Rattle.tdf_io.specs.Bytes.{WritesText};
ghost use Rattle.tdf_sim_notes.specs.Plans.{ArePrintable, plans_of};

use crate::news::write_plan;
use std::alloc::Global;
use tdf_bind::Flat;
use tdf_cluster_plans::TableGroups;
use tdf_dynamic_first::First;
use tdf_io::{Sink, SinkErr};

/// Writes the first plans of all clusters, in order, each as one piece. The things of the model by cluster are given.
fn write_each<N: Sink>(
    alloc: Global,
    flat: &Flat,
    groups: &TableGroups,
    firsts: &[First],
    notes: &mut N,
) -> Result<(), SinkErr>
    requires printable { ArePrintable flat.now firsts.now }
    requires groups { AreTableGroups flat.now.tables groups.now }
    ensures { WritesText N.taken N.faults notes.old notes.new
        (plans_of flat.now firsts.now) result }
{
    let mut text = Vec::new(alloc);
    for place in 0..firsts.len() {
        match write_plan(
            &mut text,
            flat,
            groups,
            0,
            place,
            &firsts[place].plan,
            notes,
        ) {
            Ok(()) => {}
            Err(error) => return Err(error),
        }
    }
    Ok(())
}

/// Writes the first plans of all clusters, in order, each as one piece.
///
/// # Errors
/// A write failed, or out of memory.
pub fn write_plans<N: Sink>(
    alloc: Global,
    flat: &Flat,
    firsts: &[First],
    notes: &mut N,
) -> Result<(), SinkErr>
    requires wired { IsWired flat.now.tables }
    requires printable { ArePrintable flat.now firsts.now }
    ensures { WritesText N.taken N.faults notes.old notes.new
        (plans_of flat.now firsts.now) result }
{
    match TableGroups::of(alloc, &flat.tables, flat.cluster_count()) {
        Ok(groups) => write_each(alloc, flat, &groups, firsts, notes),
        Err(_) => Err(SinkErr::Memory),
    }
}
