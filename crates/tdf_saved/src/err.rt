//! Why no part of a run goes on from a state.

use tdf_base::Memory;
use thiserror::Error;

/// Why nothing is made of a state.
#[derive(Clone, Copy, Debug, Drop, Error, PartialEq, Eq)]
pub enum StateErr {
    /// It is no state of this model.
    #[error("bad state")]
    Bad,
    /// Out of memory.
    #[error("out of memory")]
    Memory,
}

impl From<Memory> for StateErr {
    ghost use Rattle.std.specs.Prelude.{◌≡◌};
    ghost use Rattle.tdf_saved.specs.declared.err.StateErr.TheVariants as why;

    ghost from_gives = { λ _ e. e ≡ why.Memory };

    fn from(_refused: Memory) -> StateErr {
        StateErr::Memory
    }
}
