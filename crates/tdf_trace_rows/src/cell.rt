//! A cell of a trace, as it is noted.

use tdf_fixed::Raw;

/// A cell of a row: what a column shows from a time on.
#[derive(Clone, Copy, Debug, PartialEq, Eq)]
pub struct Cell {
    /// The number of the column, from 0.
    pub column: u32,
    /// The time, in counts of the model's resolution.
    pub time: u64,
    /// The value, or `None` where it is only announced: a later cell of this column and time gives it, and where none does it is
    /// unknown.
    pub value: Option<Raw>,
}
