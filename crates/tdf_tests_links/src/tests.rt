//! Tests of how a model is linked.
//!
//! - `links`: the first fault of the `bind` and `instance` lines of whole texts.
//! - `blocks`: the resolved blocks of a text.
//! - `counts`: models at a limit and just past it.

use std::alloc::Global;
use tdf_base::Memory;
use tdf_lang_parser::parse;
use tdf_lang_tree::Tree;

mod blocks;
mod counts;
mod links;

/// The tree of a text. None of the texts here has 10,000 bytes, or a fault of its syntax.
///
/// # Errors
/// Out of memory, and where it is no such text.
fn tree_of(alloc: Global, text: &[u8]) -> Result<Tree, Memory> {
    if 10_000 < text.len() {
        return Err(Memory);
    }
    match parse(alloc, text) {
        Ok(tree) => Ok(tree),
        Err(_) => Err(Memory),
    }
}
