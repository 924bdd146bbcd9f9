//! Why a text is no table.

use tdf_base::Memory;
use thiserror::Error;

/// Why there is no table.
#[derive(Clone, Copy, Debug, Drop, Error, PartialEq, Eq)]
pub enum TableErr {
    /// The line is the first that breaks the form, counted from the head.
    #[error("a fault of a table on line {0}")]
    Line(u32),
    /// Out of memory.
    #[error("out of memory")]
    Memory,
}

impl From<Memory> for TableErr {
    ghost use Rattle.std.specs.Prelude.{◌≡◌};
    ghost use Rattle.tdf_tables.specs.declared.err.TableErr.TheVariants as why;

    ghost from_gives = { λ _ e. e ≡ why.Memory };

    fn from(_refused: Memory) -> TableErr {
        TableErr::Memory
    }
}
