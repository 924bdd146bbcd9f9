//! What the values of a block look like.

use tdf_fixed::Format;
use tdf_lang_tree::PortKind;

/// A rate variable: its least, greatest and starting value.
#[derive(Clone, Copy, Debug, PartialEq, Eq)]
pub struct RateSpan {
    pub least: u32,
    pub greatest: u32,
    pub start: u32,
}

/// A port: its word, its format, and the places of its samples, as many as its greatest rate.
#[derive(Clone, Copy, Debug, PartialEq, Eq)]
pub struct PortSpan {
    pub word: PortKind,
    pub format: Format,
    pub first: u32,
    pub count: u32,
}
