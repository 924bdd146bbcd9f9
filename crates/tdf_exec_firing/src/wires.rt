//! Which edges a module reads and writes.

use std::marker::Model;

/// A port that a body reads, by its place in the block, and the edge that it reads.
#[derive(Clone, Copy, Debug, PartialEq, Eq)]
pub struct InWire {
    pub edge: u32,
    pub port: u32,
}

/// An edge, and the port that writes it, by its place in the block.
#[derive(Clone, Copy, Debug, PartialEq, Eq)]
pub struct OutWire {
    pub edge: u32,
    pub port: u32,
}

/// The edges of a module: a port that bodies read has at most one, a port that bodies write any number.
#[derive(Drop)]
pub struct Wires {
    ins: Vec<InWire>,
    outs: Vec<OutWire>,
}

impl Model for Wires {
    ghost use Rattle.tdf_exec_firing.specs.Wires.{WiresOf};

    ghost Value = { WiresOf };

    ghost view = { λ a. record { ins = a.ins.items; outs = a.outs.items } };
}

ghost use Rattle.std.specs.Prelude.{◌≡◌};

impl Wires {
    /// Those of these lists.
    pub fn new(ins: Vec<InWire>, outs: Vec<OutWire>) -> Wires
        ensures { result ≡ record { ins = ins.items; outs = outs.items } }
    {
        Wires { ins, outs }
    }

    /// The edges that the module reads.
    pub fn ins(&self) -> &[InWire]
        ensures { result.now ≡ self.now.ins }
    {
        &self.ins
    }

    /// The edges that the module writes.
    pub fn outs(&self) -> &[OutWire]
        ensures { result.now ≡ self.now.outs }
    {
        &self.outs
    }
}
