//! The edges into each actor that fires, and those from it.

ghost use Rattle.std.specs.Prelude.{◌<◌, ◌^◌, All, length, IfOk};
ghost use Rattle.tdf_graph.specs.Ranges.{IsEdge};
ghost use Rattle.tdf_schedule.specs.views.Work.{AreInputsUpTo, AreOutputsUpTo};

use crate::lists::Lists;
use std::alloc::Global;
use tdf_base::Memory;
use tdf_graph::Edge;

/// The numbers of the edges into each actor that fires.
fn inputs_of(alloc: Global, counts: &[u64], edges: &[Edge]) -> Result<Lists, Memory>
    requires fit { All (IsEdge (length counts.now)) edges.now }
    requires few { length edges.now < 2 ^ 32 }
    ensures { IfOk result (λ lists. AreInputsUpTo (length edges.now) counts.now edges.now lists) }
{
    let mut lists = Lists::new(alloc, counts.len())?;
    for k in 0..edges.len() as u32 {
        let reader = edges[k as usize].reader;
        if counts[reader as usize] != 0 {
            lists.add(reader, k)?;
        }
    }
    Ok(lists)
}

/// The numbers of the edges from each actor that fires.
fn outputs_of(alloc: Global, counts: &[u64], edges: &[Edge]) -> Result<Lists, Memory>
    requires fit { All (IsEdge (length counts.now)) edges.now }
    requires few { length edges.now < 2 ^ 32 }
    ensures { IfOk result (λ lists. AreOutputsUpTo (length edges.now) counts.now edges.now lists) }
{
    let mut lists = Lists::new(alloc, counts.len())?;
    for k in 0..edges.len() as u32 {
        let writer = edges[k as usize].writer;
        if counts[writer as usize] != 0 {
            lists.add(writer, k)?;
        }
    }
    Ok(lists)
}

/// The edges into each actor that fires, and those from it.
#[derive(Drop)]
pub(crate) struct Ends {
    pub inputs: Lists,
    pub outputs: Lists,
}

/// The edges into each actor that fires, and those from it.
pub(crate) fn ends_of(alloc: Global, counts: &[u64], edges: &[Edge]) -> Result<Ends, Memory>
    requires fit { All (IsEdge (length counts.now)) edges.now }
    requires few { length edges.now < 2 ^ 32 }
    ensures into { IfOk result (λ ends. AreInputsUpTo (length edges.now) counts.now edges.now ends.inputs) }
    ensures out { IfOk result (λ ends. AreOutputsUpTo (length edges.now) counts.now edges.now ends.outputs) }
{
    let inputs = inputs_of(alloc, counts, edges)?;
    let outputs = outputs_of(alloc, counts, edges)?;
    Ok(Ends { inputs, outputs })
}
