//! Why a text is not accepted.

use tdf_base::{Fault, Memory};
use thiserror::Error;

/// Why a text is not accepted.
#[derive(Drop)]
pub enum SimErr {
    /// The first fault of the text.
    Refused(Fault),
    /// Out of memory.
    Memory,
}

impl From<Memory> for SimErr {
    ghost use Rattle.std.specs.Prelude.{◌≡◌};
    ghost use Rattle.tdf_sim.specs.declared.err.SimErr.TheVariants as why;

    ghost from_gives = { λ _ e. e ≡ why.Memory };

    fn from(_refused: Memory) -> SimErr {
        SimErr::Memory
    }
}
