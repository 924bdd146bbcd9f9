//! Out of memory, as every crate of the tool says it.

use std::alloc::{AllocError, AllocFailed};
use thiserror::Error;

/// Out of memory: a growth of a list was refused.
#[derive(Clone, Copy, Debug, Drop, Error, PartialEq, Eq)]
#[error("out of memory")]
pub struct Memory;

impl From<AllocError> for Memory {
    ghost use Rattle.std.specs.Prelude.{◌≡◌};

    ghost from_gives = { λ _ e. e ≡ record {} };

    fn from(_refused: AllocError) -> Memory {
        Memory
    }
}

impl<T: Drop> From<AllocFailed<T>> for Memory {
    ghost use Rattle.std.specs.Prelude.{◌≡◌};

    ghost from_gives = { λ _ e. e ≡ record {} };

    fn from(_refused: AllocFailed<T>) -> Memory {
        Memory
    }
}
