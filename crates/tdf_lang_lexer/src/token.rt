//! A token.

use crate::key::{Key, Symbol};

/// One token of a line. It borrows from the text.
#[derive(Clone, Copy, Debug, PartialEq, Eq)]
pub enum Token<'t> {
    /// A name: a letter or `_`, then letters, digits or `_`; 1 to 64 characters; no reserved word.
    Name(&'t [u8]),
    /// A reserved word.
    Key(Key),
    /// A number as it is written, with or without a point.
    Number(&'t [u8]),
    /// A time: its count of ps, or of what the text's resolution is.
    Time(u64),
    /// A symbol.
    Symbol(Symbol),
    /// A piece of the line that is no token.
    Wrong,
}
