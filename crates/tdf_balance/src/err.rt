//! Why a cluster has no counts.

use std::alloc::{AllocError, AllocFailed};
use tdf_base::Memory;
use thiserror::Error;

/// Why a cluster has no counts.
#[derive(Clone, Copy, Debug, Drop, Error, PartialEq, Eq)]
pub enum BalanceErr {
    /// The balance equations of the cluster's edges up to this one have no solution of positive numbers.
    #[error("the rates up to edge {edge} have no common period")]
    Rates {
        /// The number of the edge.
        edge: u32,
    },
    /// A count, or the sum of all, is above 262,144.
    #[error("too many firings in one period")]
    TooLarge,
    /// Out of memory.
    #[error("out of memory")]
    Memory,
}

impl From<Memory> for BalanceErr {
    ghost use Rattle.std.specs.Prelude.{◌≡◌};
    ghost use Rattle.tdf_balance.specs.declared.err.BalanceErr.TheVariants as why;

    ghost from_gives = { λ _ e. e ≡ why.Memory };

    fn from(_refused: Memory) -> BalanceErr {
        BalanceErr::Memory
    }
}

impl From<AllocError> for BalanceErr {
    ghost use Rattle.std.specs.Prelude.{◌≡◌};
    ghost use Rattle.tdf_balance.specs.declared.err.BalanceErr.TheVariants as why;

    ghost from_gives = { λ _ e. e ≡ why.Memory };

    fn from(_refused: AllocError) -> BalanceErr {
        BalanceErr::Memory
    }
}

impl<T: Drop> From<AllocFailed<T>> for BalanceErr {
    ghost use Rattle.std.specs.Prelude.{◌≡◌};
    ghost use Rattle.tdf_balance.specs.declared.err.BalanceErr.TheVariants as why;

    ghost from_gives = { λ _ e. e ≡ why.Memory };

    fn from(_refused: AllocFailed<T>) -> BalanceErr {
        BalanceErr::Memory
    }
}
