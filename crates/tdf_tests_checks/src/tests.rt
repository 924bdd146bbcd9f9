//! Tests of the checks of a model, and of compiled bodies.
//!
//! - `names`, `types`: the first fault of whole texts.
//! - `scopes`: what names stand for.
//! - `states`: cells and signals.
//! - `acts`: compiled statements.
//! - `instances`: bodies that are parsed, checked, compiled and run.

use std::alloc::Global;
use tdf_base::{Code, Memory, TypeErr};
use tdf_lang_parser::parse;
use tdf_lang_tree::Tree;

mod acts;
mod instances;
mod names;
mod scopes;
mod states;
mod types;

/// A fault: what is wrong, and the line.
type At = Option<(Code, u32)>;

/// A text without a fault.
const OK: At = None;

/// The tree of a text. None of the texts here has 10,000 bytes, or a fault of its syntax.
///
/// # Errors
/// Out of memory, and where it is no such text.
fn tree_of(alloc: Global, text: &[u8]) -> Result<Tree, Memory> {
    if 10_000 < text.len() {
        return Err(Memory);
    }
    match parse(alloc, text) {
        Ok(tree) => Ok(tree),
        Err(_) => Err(Memory),
    }
}

/// The fault that a check answers.
///
/// # Errors
/// Out of memory.
fn fault_at(verdict: Result<(), TypeErr>) -> Result<At, Memory> {
    match verdict {
        Ok(()) => Ok(None),
        Err(TypeErr::Line { code, line }) => Ok(Some((code, line))),
        Err(TypeErr::Memory) => Err(Memory),
    }
}
