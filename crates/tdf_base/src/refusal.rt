//! The answer of a check that goes by line.

ghost use Rattle.std.specs.Prelude.{◌≡◌};
ghost use Rattle.tdf_base.specs.First.{verdict_of};

use crate::codes::Code;
use crate::first::LineFault;
use crate::memory::Memory;
use std::alloc::{AllocError, AllocFailed};
use thiserror::Error;

/// Why a check refuses a tree.
#[derive(Clone, Copy, Debug, Drop, Error, PartialEq, Eq)]
pub enum TypeErr {
    /// The first fault.
    #[error("line {line} has a fault")]
    Line { code: Code, line: u32 },
    /// Out of memory.
    #[error("out of memory")]
    Memory,
}

impl From<AllocError> for TypeErr {
    ghost use Rattle.std.specs.Prelude.{◌≡◌};
    ghost use Rattle.tdf_base.specs.declared.refusal.TypeErr.TheVariants as why;

    ghost from_gives = { λ _ e. e ≡ why.Memory };

    fn from(_refused: AllocError) -> TypeErr {
        TypeErr::Memory
    }
}

impl<T: Drop> From<AllocFailed<T>> for TypeErr {
    ghost use Rattle.std.specs.Prelude.{◌≡◌};
    ghost use Rattle.tdf_base.specs.declared.refusal.TypeErr.TheVariants as why;

    ghost from_gives = { λ _ e. e ≡ why.Memory };

    fn from(_refused: AllocFailed<T>) -> TypeErr {
        TypeErr::Memory
    }
}

impl From<Memory> for TypeErr {
    ghost use Rattle.std.specs.Prelude.{◌≡◌};
    ghost use Rattle.tdf_base.specs.declared.refusal.TypeErr.TheVariants as why;

    ghost from_gives = { λ _ e. e ≡ why.Memory };

    fn from(_refused: Memory) -> TypeErr {
        TypeErr::Memory
    }
}

/// The answer of a check that found this fault, or none.
pub fn verdict(first: Option<LineFault>) -> Result<(), TypeErr>
    ensures { result ≡ verdict_of first }
{
    match first {
        None => Ok(()),
        Some(fault) => Err(TypeErr::Line {
            code: fault.code,
            line: fault.line,
        }),
    }
}
