//! A sink that keeps nothing.

ghost use Rattle.std.specs.Prelude.{None};

use tdf_io::{Sink, SinkErr};

/// A sink that takes all bytes and keeps none of them. It never fails, and needs no memory.
#[derive(Drop)]
pub(crate) struct Nowhere {}

impl Nowhere {
    /// Such a sink.
    pub(crate) fn new() -> Nowhere {
        Nowhere {}
    }
}

impl Sink for Nowhere {
    ghost taken = { λ _. None };

    ghost faults = { λ _. 0 };

    fn write(&mut self, piece: &[u8]) -> Result<usize, SinkErr> {
        Ok(piece.len())
    }
}
