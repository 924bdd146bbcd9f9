//! What a choice is, and why there is none.

use tdf_base::Memory;
use thiserror::Error;

/// Which rows of a table are taken.
#[derive(Clone, Copy, Debug, PartialEq, Eq)]
pub enum Choice {
    /// Those whose number, from 0, is a multiple of this, which is 1 at least.
    Nth(u64),
    /// One at each multiple of so many ps, 1 at least, with the cells of the last row at or before it.
    Every(u64),
}

/// Why no rows are taken.
#[derive(Clone, Copy, Debug, Drop, Error, PartialEq, Eq)]
pub enum ChooseErr {
    /// The last time is 10,000,000 steps away, or more.
    #[error("too many rows")]
    Grid,
    /// Out of memory.
    #[error("out of memory")]
    Memory,
}

impl From<Memory> for ChooseErr {
    ghost use Rattle.std.specs.Prelude.{◌≡◌};
    ghost use Rattle.tdf_sampling.specs.declared.asked.ChooseErr.TheVariants as why;

    ghost from_gives = { λ _ e. e ≡ why.Memory };

    fn from(_refused: Memory) -> ChooseErr {
        ChooseErr::Memory
    }
}
