//! The resolved blocks of a text.

use super::tree_of;
use std::alloc::Global;
use std::test::Fail;
use tdf_base::Memory;
use tdf_bind_hierarchy::{Block, Instance, Target};
use tdf_bind_names::{law_bound, law_earlier, resolve};

/// A module, a composite around it with a signal of its own, and `top` with both.
const TEXT: &str =
    "language 1\ntype w fixed 8 4\ntdf m\nin x w\nout y w\nend\ncomposite c\nout a w\n\
    in b w\nsignal t w\ninstance u m\ninstance v m\nbind u.x b\nbind u.y t\nbind v.x t\nbind v.y a\n\
    end\ntop\nsignal s w\nde_signal e w -0.5\ninstance k c\nbind k.a s\nbind k.b s\nend";

/// Its blocks: ports, signals and instances of each, then of each instance the block and the targets.
const BLOCKS: &str = "2 0 0; 2 1 2 0:p1o0 0:o0p0; 0 2 1 1:o0o0; ";

fn push_target(out: &mut Vec<u8>, alloc: Global, target: Target) -> Result<(), Memory> {
    let text = match target {
        Target::Own(k) => format!(in alloc; "o{k}")?,
        Target::Outer(k) => format!(in alloc; "p{k}")?,
    };
    out.extend_from_slice(text.as_bytes())?;
    Ok(())
}

fn push_instance(out: &mut Vec<u8>, alloc: Global, instance: &Instance) -> Result<(), Memory> {
    let block = instance.block;
    let text = format!(in alloc; " {block}:")?;
    out.extend_from_slice(text.as_bytes())?;
    for target in &instance.targets {
        push_target(out, alloc, *target)?;
    }
    Ok(())
}

fn push_block(out: &mut Vec<u8>, alloc: Global, block: &Block) -> Result<(), Memory> {
    let ports = block.ports;
    let signals = block.signals.len();
    let instances = block.instances.len();
    let text = format!(in alloc; "{ports} {signals} {instances}")?;
    out.extend_from_slice(text.as_bytes())?;
    for instance in &block.instances {
        push_instance(out, alloc, instance)?;
    }
    out.extend_from_slice(b"; ")?;
    Ok(())
}

fn blocks_text(alloc: Global) -> Result<Vec<u8>, Memory> {
    let tree = tree_of(alloc, TEXT.as_bytes())?;
    let blocks = resolve(alloc, &tree)?;
    let mut out = Vec::new(alloc);
    for block in &blocks {
        push_block(&mut out, alloc, block)?;
    }
    Ok(out)
}

/// The first value of the event signal, and its format's bits after the point.
fn start(alloc: Global) -> Result<Option<(i128, u32)>, Memory> {
    let tree = tree_of(alloc, TEXT.as_bytes())?;
    let blocks = resolve(alloc, &tree)?;
    for block in &blocks {
        for signal in &block.signals {
            if signal.event {
                return Ok(Some((signal.start.num, signal.start.frac)));
            }
        }
    }
    Ok(None)
}

#[test]
fn resolved_blocks(rt: HostRuntime) -> Result<(), Fail> {
    law_earlier();
    law_bound();
    assert!(rt; blocks_text(rt.alloc())?.as_slice() == BLOCKS.as_bytes());
    assert!(rt; start(rt.alloc())? == Some((-8, 4)));
    Ok(())
}
