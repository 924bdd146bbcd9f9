//! Literals; names and numbers as they are written are those of `tdf_base`.

use tdf_fixed::Digits;

/// A literal: a number, or `-` and a number. Zero has no `-`.
#[derive(Debug, Drop, PartialEq, Eq)]
pub struct Lit {
    pub minus: bool,
    pub digits: Digits,
}
