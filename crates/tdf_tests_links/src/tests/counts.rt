//! Models at a limit and just past it.

use super::tree_of;
use std::alloc::Global;
use std::test::Fail;
use tdf_base::Memory;
use tdf_bind_names::{is_too_many, resolve};

/// A text with `deep` composites, each with two instances of the one before, and `top` with one of the last and `more` of the first.
fn text_of(alloc: Global, deep: u32, more: u32) -> Result<Vec<u8>, Memory> {
    let mut out = Vec::new(alloc);
    out.extend_from_slice(b"language 1\ncomposite c0\nend\n")?;
    for i in 0..deep {
        let next = u64::from(i) + 1;
        let text = format!(in alloc; "composite c{next}\ninstance a c{i}\ninstance b c{i}\nend\n")?;
        out.extend_from_slice(text.as_bytes())?;
    }
    let top = format!(in alloc; "top\ninstance a c{deep}\n")?;
    out.extend_from_slice(top.as_bytes())?;
    for i in 0..more {
        let text = format!(in alloc; "instance b{i} c0\n")?;
        out.extend_from_slice(text.as_bytes())?;
    }
    out.extend_from_slice(b"end\n")?;
    Ok(out)
}

fn is_past(alloc: Global, deep: u32, more: u32) -> Result<bool, Memory> {
    let text = text_of(alloc, deep, more)?;
    let tree = tree_of(alloc, &text)?;
    let blocks = resolve(alloc, &tree)?;
    is_too_many(alloc, &tree, &blocks)
}

/// Whether a text holds too much.
fn is_text_past(alloc: Global, text: &str) -> Result<bool, Memory> {
    let tree = tree_of(alloc, text.as_bytes())?;
    let blocks = resolve(alloc, &tree)?;
    is_too_many(alloc, &tree, &blocks)
}

/// An array with as many elements as there may be cells, which the check of types would refuse; and one variable more, used or not.
const CELLS: &str = "language 1\ntdf m\narray a fixed 8 8 1048576\nend\ntop\ninstance u m\nend";

const ONE_MORE: &str = "language 1\ntdf m\narray a fixed 8 8 1048576\nvar v fixed 8 8\nend\ntop\n\
    instance u m\nend";

const UNUSED: &str = "language 1\ntdf m\narray a fixed 8 8 1048576\nvar v fixed 8 8\nend\ntop\nend";

#[test]
fn instances(rt: HostRuntime) -> Result<(), Fail> {
    assert!(rt; !is_past(rt.alloc(), 9, 1)?);
    assert!(rt; is_past(rt.alloc(), 9, 2)?);
    assert!(rt; is_past(rt.alloc(), 60, 0)?);
    Ok(())
}

#[test]
fn cells(rt: HostRuntime) -> Result<(), Fail> {
    assert!(rt; !is_text_past(rt.alloc(), CELLS)?);
    assert!(rt; is_text_past(rt.alloc(), ONE_MORE)?);
    assert!(rt; !is_text_past(rt.alloc(), UNUSED)?);
    Ok(())
}
