ghost use Rattle.std.specs.Prelude.{◌≡◌, List, Option, ℕ, ◌<◌, ◌≤◌, length, IfOk, OnOk, OnErr, IsErrOf};
ghost use Rattle.std.specs.Io.{WritesAtMost};
ghost use Rattle.std.specs.Io.KnownBytes.{Appends, WriteAppends};
ghost use Rattle.tdf_io.specs.declared.writing.SinkErr.TheVariants.{Failed, Memory};
ghost use Rattle.tdf_io.specs.Faults.{FaultsRose, CountsSinkFaults};
ghost use Rattle.tdf_io.specs.Bytes.{WritesText};

use std::alloc::AllocError;
use thiserror::Error;

/// Why a sink did not take bytes.
#[derive(Clone, Copy, Debug, PartialEq, Eq, Error)]
pub enum SinkErr {
    /// A write failed. The sink's count of faults rose.
    #[error("a write failed")]
    Failed,
    /// No memory was found.
    #[error("out of memory")]
    Memory,
}

impl From<AllocError> for SinkErr {
    ghost from_gives = { λ _ e. e ≡ Memory };

    fn from(_: AllocError) -> Self {
        SinkErr::Memory
    }
}

/// Takes bytes, in order.
pub trait Sink {
    /// The bytes that it took so far, where the sink tells them.
    ghost taken: { Self → Option (List ℕ) };

    /// How often the device has failed: a number that never falls, and stays at 2^64 - 1.
    ghost faults: { Self → ℕ };

    /// Takes the front of `piece`, at least one byte, and says how many. After an `Err` it took nothing.
    fn write(&mut self, piece: &[u8]) -> Result<usize, SinkErr>
        requires { 0 < length piece.now }
        ensures some { IfOk result (λ n. 0 < n) }
        ensures bound { WritesAtMost result piece.now }
        ensures bytes { WriteAppends (taken self.old) (taken self.new) result piece.now }
        ensures counted { CountsSinkFaults (faults self.old) (faults self.new) result };
}

/// Writes all of `bytes`. After an `Err` the sink took a front part of them.
pub fn put_all<K: Sink>(sink: &mut K, bytes: &[u8]) -> Result<(), SinkErr>
    ensures { WritesText K.taken K.faults sink.old sink.new bytes.now result }
{
    let mut done = 0;
    while done < bytes.len() {
        match sink.write(&bytes[done..]) {
            Ok(count) => done += count,
            Err(error) => return Err(error),
        }
    }
    Ok(())
}
