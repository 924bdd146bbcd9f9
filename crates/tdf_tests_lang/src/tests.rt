//! Tests of the language.
//!
//! - `texts`: the faults of texts and lines, and a tree.
//! - `canonical`: canonical texts.

use std::alloc::Global;
use tdf_base::Memory;

mod canonical;
mod texts;

/// The bytes of some texts, one after another.
fn joined(alloc: Global, parts: &[&str]) -> Result<Vec<u8>, Memory> {
    let mut out = Vec::new(alloc);
    for part in parts {
        out.extend_from_slice(part.as_bytes())?;
    }
    Ok(out)
}
