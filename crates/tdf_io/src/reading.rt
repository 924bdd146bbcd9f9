ghost use Rattle.std.specs.Prelude.{◌≡◌, List, Option, ℕ, ◌+◌, ◌<◌, ◌≤◌, length, IfOk, OnOk, IsErrOf};
ghost use Rattle.std.specs.Io.{ReadsAtMost};
ghost use Rattle.std.specs.Io.KnownBytes.{Consumes, IsAtEnd, ReadConsumes};
ghost use Rattle.tdf_io.specs.declared.reading.LoadErr.TheVariants.{Memory, ReadFault, TooLong};
ghost use Rattle.tdf_io.specs.Faults.{FaultsRose, CountsFaults};
ghost use Rattle.tdf_io.specs.Bytes.{GivesExactly, GivesAtMost};

use std::alloc::{AllocError, Global};
use thiserror::Error;

/// A read failed. The source's count of faults rose.
#[derive(Clone, Copy, Debug, PartialEq, Eq, Error)]
#[error("a read failed")]
pub struct Failed;

/// Why a source could not be read to its end.
#[derive(Clone, Copy, Debug, PartialEq, Eq, Error)]
pub enum LoadErr {
    /// A read failed.
    #[error("a read failed")]
    ReadFault,
    /// There are more bytes than the limit.
    #[error("the input is too long")]
    TooLong,
    /// No memory was found.
    #[error("out of memory")]
    Memory,
}

impl From<AllocError> for LoadErr {
    ghost from_gives = { λ _ e. e ≡ Memory };

    fn from(_: AllocError) -> Self {
        LoadErr::Memory
    }
}

/// Gives bytes, in order, to the end of the input.
pub trait Source {
    /// The bytes still to come, where the source tells them.
    ghost left: { Self → Option (List ℕ) };

    /// How often the device has failed: a number that never falls, and stays at 2^64 - 1.
    ghost faults: { Self → ℕ };

    /// How often it was read, where the source counts that: a number that never falls.
    ghost reads: { Self → ℕ };

    /// Reads into the front of `buf`, and says how many bytes. `Ok(0)` is the end of the input. After `Failed` nothing
    /// was read.
    fn read(&mut self, buf: &mut [u8]) -> Result<usize, Failed>
        requires { 0 < length buf.old }
        ensures bound { ReadsAtMost result buf.new }
        ensures bytes { ReadConsumes (left self.old) (left self.new) result buf.new }
        ensures counted { CountsFaults (faults self.old) (faults self.new) result }
        ensures counts { reads self.old ≤ reads self.new }
        ensures one_read { reads self.new ≤ reads self.old + 1 };
}

/// The most bytes that one read asks for.
const PIECE: usize = 4096;

/// Reads a source to its end: at most `limit` bytes. Where it tells the bytes that are left, the answer is all of them.
/// `TooLong` comes exactly where byte `limit + 1` was read. After an `Err` the source is after the bytes that were read.
pub fn read_all<S: Source>(alloc: Global, src: &mut S, limit: usize) -> Result<Vec<u8>, LoadErr>
    ensures whole { IfOk result (λ v. Consumes (S.left src.old) (S.left src.new) v.items) }
    ensures end { IfOk result (λ v. IsAtEnd (S.left src.new)) }
    ensures within { IfOk result (λ v. length v.items ≤ limit) }

    ensures too_long { IsErrOf result TooLong → GivesExactly (S.left src.old) (S.left src.new) (limit + 1) }
    ensures no_more { ¬ IsErrOf result TooLong → GivesAtMost (S.left src.old) (S.left src.new) limit }

    ensures read_fault { IsErrOf result ReadFault → FaultsRose (S.faults src.old) (S.faults src.new) }
    ensures no_fault { ¬ IsErrOf result ReadFault → S.faults src.new ≡ S.faults src.old }
    ensures later { S.faults src.old ≤ S.faults src.new }
    ensures reads { S.reads src.new ≤ S.reads src.old + limit + 2 }
{
    let mut bytes = Vec::new(alloc);
    let mut piece = [0; PIECE];
    while bytes.len() < limit {
        let room = PIECE.min(limit - bytes.len());
        match src.read(&mut piece[..room]) {
            Ok(0) => return Ok(bytes),
            Ok(count) => match bytes.extend_from_slice(&piece[..count]) {
                Ok(()) => {}
                Err(_) => return Err(LoadErr::Memory),
            },
            Err(Failed) => return Err(LoadErr::ReadFault),
        }
    }
    match src.read(&mut piece[..1]) {
        Ok(0) => Ok(bytes),
        Ok(_) => Err(LoadErr::TooLong),
        Err(Failed) => Err(LoadErr::ReadFault),
    }
}
