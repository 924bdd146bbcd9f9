//! What each actor reads and writes.

ghost use Rattle.std.specs.Prelude.{◌≡◌, ◌<◌, ℕ, IfOk, length, map, Some, slice_get};
ghost use Rattle.tdf_bind_tables.specs.Ranges.{AreInRange};
ghost use Rattle.tdf_bind_tables.specs.declared.actors.ActorRow.{ActorRow as ActorRowOf};
ghost use Rattle.tdf_exec_firing.specs.declared.wires.InWire.{InWire as InWireOf};
ghost use Rattle.tdf_exec_layout.specs.Wires.{AreAllWires, SinksHaveOne};
ghost use Rattle.tdf_exec_layout.specs.machine.Ends.{HasInput, IsTold, ToldUpTo, ends_at};

use crate::ends::Ends;
use crate::gathering::gathered;
use crate::places::port_places;
use std::alloc::Global;
use std::mem;
use tdf_base::Memory;
use tdf_bind_tables::{ActorRow, FlatTables};
use tdf_exec_firing::Wires;
use tdf_graph::Actor;

/// What an actor reads and writes; edges are numbered through the whole model.
#[derive(Drop)]
pub enum ActorWires {
    /// The edges of a module, with the ports of its block.
    Module(Wires),
    /// The edges of a sampler.
    Sampler(Vec<u32>),
    /// The edge of a sink.
    Sink(u32),
    /// Nothing: of an actor whose edges have been taken.
    Elsewhere,
}

/// The edges that a sampler writes.
fn sampler_edges(alloc: Global, ends: Ends) -> Result<Vec<u32>, Memory>
    ensures { IfOk result (λ edges. edges.items ≡ map (λ w. w.edge) ends.outs) }
{
    let edges = ends.edges_out(alloc);
    drop(ends);
    edges
}

/// The edge that a sink reads.
fn sink_edge(ends: Ends) -> u32
    requires { 0 < length ends.ins }
    ensures { (w : InWireOf) × (slice_get ends.ins 0 ≡ Some w) × (result ≡ w.edge) }
{
    let edge = ends.first_in();
    drop(ends);
    edge
}

/// What an actor is told of its edges.
fn told(alloc: Global, kind: Actor, ends: Ends) -> Result<ActorWires, Memory>
    requires { HasInput kind ends }
    ensures { IfOk result (λ wires. IsTold kind ends wires) }
{
    match kind {
        Actor::Module => Ok(ActorWires::Module(ends.wires())),
        Actor::Sampler => Ok(ActorWires::Sampler(sampler_edges(alloc, ends)?)),
        Actor::Sink => Ok(ActorWires::Sink(sink_edge(ends))),
    }
}

/// What each actor is told.
fn all_told(
    alloc: Global,
    actors: &[ActorRow],
    rows: &mut Vec<Ends>,
) -> Result<Vec<ActorWires>, Memory>
    requires rows { length rows.old.items ≡ length actors.now }
    requires sinks { (m : ℕ) (row : ActorRowOf) → slice_get actors.now m ≡ Some row
        → HasInput row.kind (ends_at rows.old.items m) }
    ensures { IfOk result (λ wires.
        ToldUpTo actors.now (length actors.now) rows.old.items rows.new.items wires.items) }
{
    let mut wires = Vec::with_capacity(alloc, actors.len())?;
    for m in 0..actors.len() {
        let ends = mem::replace(&mut rows[m], Ends::new(alloc));
        let row = told(alloc, actors[m].kind, ends)?;
        wires.push(row)?;
    }
    Ok(wires)
}

/// What each actor reads and writes, by one look at each edge. The numbers in the tables are those of rows, and each sink
/// has one edge, as in each flat model.
///
/// # Errors
/// Out of memory.
pub fn all_wires(alloc: Global, tables: &FlatTables) -> Result<Vec<ActorWires>, Memory>
    requires in_range { AreInRange tables.now }
    requires sinks { SinksHaveOne tables.now }
    ensures { IfOk result (λ wires. AreAllWires tables.now wires.items) }
{
    let places = port_places(alloc, tables.modules.len(), &tables.ports)?;
    let mut rows = gathered(alloc, tables, &places)?;
    all_told(alloc, &tables.actors, &mut rows)
}
