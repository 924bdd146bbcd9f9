//! Number formats, and the `type` lines that name them.

use tdf_fixed::{Name, Over, Quant};

/// A fixed-point format as it is written: `wl` bits in all, `iwl` of them before the point.
#[derive(Clone, Copy, Debug, PartialEq, Eq)]
pub struct Shape {
    pub signed: bool,
    pub wl: u64,
    pub iwl: u64,
    pub quant: Quant,
    pub over: Over,
}

/// A format: written out, or the name of a `type` line.
#[derive(Debug, Drop, PartialEq, Eq)]
pub enum FormatRef {
    Own(Shape),
    Named(Name),
}

/// `type NAME SHAPE`.
#[derive(Debug, Drop, PartialEq, Eq)]
pub struct TypeDecl {
    pub line: u32,
    pub name: Name,
    pub shape: Shape,
}
