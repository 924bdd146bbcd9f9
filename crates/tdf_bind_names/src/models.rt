//! The blocks of a whole model.

ghost use Rattle.std.specs.List.{flat_map};
ghost use Rattle.std.specs.Prelude.{◌≡◌, ◌∷◌, [], ◌++◌, length, map, IfOk, OnOk};
ghost use Rattle.tdf_bind_ports.specs.Ports.{known_after_all, no_blocks, ports_of_composite, ports_of_de, ports_of_tdf};
ghost use Rattle.tdf_bind_names.specs.Resolved.{leaf, whole, AreBlocks, AreResolved, IsComposite};
ghost use Rattle.tdf_bind_names.specs.machine.Lists.{list_of};
ghost use Rattle.tdf_expr_symbols.specs.Names.{globals_of};
ghost use Rattle.tdf_lang_tree.specs.Views.{pure_composite, pure_de, pure_global, pure_tdf, pure_tree};

use crate::instances::instances_of;
use crate::signals::signals_of;
use std::alloc::Global;
use tdf_base::Memory;
use tdf_bind_hierarchy::Block;
use tdf_bind_ports::{Known, ports_of_composite, ports_of_de, ports_of_tdf};
use tdf_expr_symbols::{Table, globals_of};
use tdf_lang_tree::{Composite, DeDecl, Global1, TdfDecl, Tree};

fn leaf(alloc: Global, ports: usize) -> Block
    ensures { result ≡ record { ports = ports; signals = []; instances = [] } }
{
    Block {
        ports,
        signals: Vec::new(alloc),
        instances: Vec::new(alloc),
    }
}

fn tdf_block(alloc: Global, block: &TdfDecl) -> Result<Block, Memory>
    ensures { IfOk result (λ b. b ≡ leaf (ports_of_tdf (pure_tdf block.now))) }
{
    let ports = ports_of_tdf(alloc, block)?;
    Ok(leaf(alloc, ports.len()))
}

fn de_block(alloc: Global, block: &DeDecl) -> Result<Block, Memory>
    ensures { IfOk result (λ b. b ≡ leaf (ports_of_de (pure_de block.now))) }
{
    let ports = ports_of_de(alloc, block)?;
    Ok(leaf(alloc, ports.len()))
}

fn port_count(alloc: Global, block: &Composite) -> Result<usize, Memory>
    ensures { IfOk result (λ count. count ≡ length (ports_of_composite (pure_composite block.now))) }
{
    let ports = ports_of_composite(alloc, block)?;
    Ok(ports.len())
}

fn composite_block(
    alloc: Global,
    globals: &Table,
    known: &Known,
    block: &Composite,
) -> Result<Block, Memory>
    ensures { IfOk result (λ b. IsComposite globals.now known.now (pure_composite block.now) b) }
{
    let ports = port_count(alloc, block)?;
    let signals = signals_of(alloc, globals, &block.members)?;
    match instances_of(alloc, known, block) {
        Ok(instances) => Ok(Block {
            ports,
            signals,
            instances,
        }),
        Err(failed) => {
            drop(signals);
            Err(failed)
        }
    }
}

/// The block of a declaration, if it is not a type.
fn block_of(
    alloc: Global,
    globals: &Table,
    known: &Known,
    global: &Global1,
) -> Result<Option<Block>, Memory>
    ensures { IfOk result (λ b. AreBlocks globals.now known.now (pure_global global.now ∷ []) (list_of b)) }
{
    match global {
        Global1::Shape(_) => Ok(None),
        Global1::Tdf(block) => Ok(Some(tdf_block(alloc, block)?)),
        Global1::De(block) => Ok(Some(de_block(alloc, block)?)),
        Global1::Net(block) => Ok(Some(composite_block(alloc, globals, known, block)?)),
    }
}

fn push_block(out: &mut Vec<Block>, block: Option<Block>) -> Result<(), Memory>
    ensures { OnOk result (out.new.items ≡ out.old.items ++ list_of block) }
{
    match block {
        None => Ok(()),
        Some(block) => {
            out.push(block)?;
            Ok(())
        }
    }
}

/// The blocks of all declarations before `top`.
fn push_globals<'t>(
    alloc: Global,
    out: &mut Vec<Block>,
    globals: &Table<'t>,
    known: &mut Known<'t>,
    list: &'t Vec<Global1>,
) -> Result<(), Memory>
    requires none { out.old.items ≡ [] }
    requires known { known.old ≡ no_blocks }
    ensures blocks { OnOk result (AreBlocks globals.now no_blocks (map pure_global list.entry.now.items) out.new.items) }
    ensures known { OnOk result (known.new ≡ known_after_all (map pure_global list.entry.now.items) no_blocks) }
{
    for global in list {
        let block = block_of(alloc, globals, known, global)?;
        push_block(out, block)?;
        known.declare(alloc, global)?;
    }
    Ok(())
}

fn push_all(alloc: Global, out: &mut Vec<Block>, tree: &Tree) -> Result<(), Memory>
    requires { out.old.items ≡ [] }
    ensures { OnOk result (AreResolved (pure_tree tree.now) out.new.items) }
{
    let globals = globals_of(alloc, &tree.globals)?;
    let mut known = Known::new(alloc);
    push_globals(alloc, out, &globals, &mut known, &tree.globals)?;
    let top = composite_block(alloc, &globals, &known, &tree.top)?;
    out.push(top)?;
    Ok(())
}

/// The blocks of a model with their names resolved to numbers: one for each block in the order of the text, and `top` last.
///
/// # Errors
/// Out of memory.
pub fn resolve(alloc: Global, tree: &Tree) -> Result<Vec<Block>, Memory>
    ensures { IfOk result (λ blocks. AreResolved (pure_tree tree.now) blocks.items) }
{
    let mut out = Vec::new(alloc);
    match push_all(alloc, &mut out, tree) {
        Ok(()) => Ok(out),
        Err(failed) => {
            drop(out);
            Err(failed)
        }
    }
}
