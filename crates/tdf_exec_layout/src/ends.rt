//! The edges of an actor, as they are found.

use std::marker::Model;
use tdf_exec_firing::{InWire, OutWire, Wires};

/// The edges that an actor reads, and those that it writes.
#[derive(Drop)]
pub(crate) struct Ends {
    ins: Vec<InWire>,
    outs: Vec<OutWire>,
}

impl Model for Ends {
    ghost use Rattle.tdf_exec_firing.specs.Wires.{WiresOf};

    ghost Value = { WiresOf };

    ghost view = { λ a. record { ins = a.ins.items; outs = a.outs.items } };
}

ghost use Rattle.std.specs.Prelude.{◌≡◌, ◌<◌, IfOk, OnOk, length, map, replicate, Some, slice_get};
ghost use Rattle.tdf_exec_firing.specs.declared.wires.InWire.{InWire as InWireOf};
ghost use Rattle.tdf_exec_layout.specs.machine.Ends.{no_ends, with_in, with_out};

use std::alloc::Global;
use tdf_base::Memory;

impl Ends {
    /// None.
    pub(crate) fn new(alloc: Global) -> Ends
        ensures { result ≡ no_ends }
    {
        Ends {
            ins: Vec::new(alloc),
            outs: Vec::new(alloc),
        }
    }

    /// The actor reads an edge, too.
    pub(crate) fn put_in(&mut self, wire: InWire) -> Result<(), Memory>
        ensures { OnOk result (self.new ≡ with_in wire self.old) }
    {
        self.ins.push(wire)?;
        Ok(())
    }

    /// The actor writes an edge, too.
    pub(crate) fn put_out(&mut self, wire: OutWire) -> Result<(), Memory>
        ensures { OnOk result (self.new ≡ with_out wire self.old) }
    {
        self.outs.push(wire)?;
        Ok(())
    }

    /// They are the wires of a module.
    pub(crate) fn wires(self) -> Wires
        ensures { result ≡ self }
    {
        Wires::new(self.ins, self.outs)
    }

    /// The first edge that is read.
    pub(crate) fn first_in(&self) -> u32
        requires { 0 < length self.now.ins }
        ensures { (w : InWireOf) × (slice_get self.now.ins 0 ≡ Some w) × (result ≡ w.edge) }
    {
        self.ins[0].edge
    }

    /// The edges that are written.
    pub(crate) fn edges_out(&self, alloc: Global) -> Result<Vec<u32>, Memory>
        ensures { IfOk result (λ edges. edges.items ≡ map (λ w. w.edge) self.now.outs) }
    {
        edges_of(alloc, &self.outs)
    }
}

fn edges_of(alloc: Global, outs: &[OutWire]) -> Result<Vec<u32>, Memory>
    ensures { IfOk result (λ edges. edges.items ≡ map (λ w. w.edge) outs.now) }
{
    let mut edges = Vec::new(alloc);
    for i in 0..outs.len() {
        edges.push(outs[i].edge)?;
    }
    Ok(edges)
}

/// No edges for any of so many actors.
pub(crate) fn no_ends(alloc: Global, count: usize) -> Result<Vec<Ends>, Memory>
    ensures { IfOk result (λ rows. rows.items ≡ replicate count no_ends) }
{
    let mut rows = Vec::with_capacity(alloc, count)?;
    for _ in 0..count {
        rows.push(Ends::new(alloc))?;
    }
    Ok(rows)
}
