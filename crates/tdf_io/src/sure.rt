ghost use Rattle.std.specs.Prelude.{◌≡◌, List, ℕ, Some, [], ◌++◌, min, take, drop, length, IsOkAnd, IfOk, OnErr, IsErrOf};
ghost use Rattle.tdf_io.specs.declared.writing.SinkErr.TheVariants.{Memory};

use crate::moves::fill;
use crate::{Failed, Sink, SinkErr, Source};
use std::alloc::Global;
use std::marker::Model;

/// Bytes in memory, as a source that never fails. Contracts see it as the bytes that are left.
#[derive(Drop)]
pub struct SureSource {
    bytes: Vec<u8>,
    read: usize,
}

impl Model for SureSource {
    ghost use Rattle.std.specs.Prelude.{List, ℕ, drop, length, ◌≤◌};

    ghost Value = { List ℕ };

    ghost view = { λ s. drop s.read s.bytes.items };

    ghost invariant = { λ s. s.read ≤ length s.bytes.items };
}

impl SureSource {
    /// A source of just these bytes. It takes no memory.
    pub fn new(bytes: Vec<u8>) -> SureSource
        ensures { result ≡ bytes.items }
    {
        SureSource { bytes, read: 0 }
    }
}

impl Source for SureSource {
    ghost left = { λ s. Some s };

    ghost faults = { λ _. 0 };

    ghost reads = { λ _. 0 };

    #[tactic(auto, using(crate::proofs::Gives::moves))]
    fn read(&mut self, buf: &mut [u8]) -> Result<usize, Failed> {
        let room = buf.len();
        let count = fill(buf, &self.bytes[self.read..], room);
        self.read += count;
        Ok(count)
    }
}

/// A sink in memory that never fails but for being out of memory. Contracts see it as the bytes that it took.
#[derive(Drop)]
pub struct SureSink {
    taken: Vec<u8>,
}

impl Model for SureSink {
    ghost use Rattle.std.specs.Prelude.{List, ℕ};

    ghost Value = { List ℕ };

    ghost view = { λ s. s.taken.items };
}

impl SureSink {
    /// A sink that has taken nothing. It takes no memory.
    pub fn new(alloc: Global) -> SureSink
        ensures { result ≡ [] }
    {
        SureSink {
            taken: Vec::new(alloc),
        }
    }

    /// The bytes that it took.
    pub fn bytes(&self) -> &[u8]
        ensures { result.now ≡ self.now }
    {
        self.taken.as_slice()
    }
}

impl Sink for SureSink {
    ghost taken = { λ s. Some s };

    ghost faults = { λ _. 0 };

    fn write(&mut self, piece: &[u8]) -> Result<usize, SinkErr> {
        self.taken.extend_from_slice(piece)?;
        Ok(piece.len())
    }
}
