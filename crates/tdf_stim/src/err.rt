//! Why there is no driven tree.

use tdf_base::Memory;
use thiserror::Error;

/// Why a table can't drive a model.
#[derive(Clone, Copy, Debug, Drop, Error, PartialEq, Eq)]
pub enum StimErr {
    /// There are too many rows, or too many rows and columns together.
    #[error("too many rows and columns")]
    TooMany,
    /// The first line with a driving cell of more than 18 digits on one side of its point.
    #[error("a cell with too many digits on line {0}")]
    Digits(u32),
    /// The first line whose time is no whole count of the model's resolution, or 10^18 counts or more.
    #[error("a time that is no count on line {0}")]
    Time(u32),
    /// Out of memory.
    #[error("out of memory")]
    Memory,
}

impl From<Memory> for StimErr {
    ghost use Rattle.std.specs.Prelude.{◌≡◌};
    ghost use Rattle.tdf_stim.specs.declared.err.StimErr.TheVariants as why;

    ghost from_gives = { λ _ e. e ≡ why.Memory };

    fn from(_refused: Memory) -> StimErr {
        StimErr::Memory
    }
}
