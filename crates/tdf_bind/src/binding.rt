//! How a tree is made flat.

ghost use Rattle.std.specs.Prelude.{◌≡◌, [], Some, IfOk, IfErr};
ghost use Rattle.tdf_bind_tables.specs.declared.flat.BindErr.TheVariants as why;
ghost use Rattle.tdf_expr.specs.Below.{type_faults};
ghost use Rattle.tdf_expr.specs.Checked.{IsCheckedOf};
ghost use Rattle.tdf_bind.specs.Flat.{IsBindRefusal, IsFlatOf, IsLinked, too_many_fault};
ghost use Rattle.tdf_bind.specs.machine.Steps.{HasTables, IsTabled};
ghost use Rattle.tdf_bind_ports.specs.Links.{link_faults};
ghost use Rattle.tdf_bind_ports.specs.Ports.{ports_of_composite};
ghost use Rattle.tdf_bind_names.specs.Resolved.{AreResolved};
ghost use Rattle.tdf_bind_attributes.specs.Roles.{AreModulesSound};
ghost use Rattle.tdf_expr_symbols.specs.Names.{globals_of};
ghost use Rattle.tdf_lang_tree.specs.Kept.{IsKept};
ghost use Rattle.tdf_lang_tree.specs.Views.{pure_tree};

use crate::laws::law_delays;
use crate::lines::trace_lines;
use crate::model::Flat;
use std::alloc::Global;
use tdf_base::{Code, Fault, Memory, Place};
use tdf_bind_attributes::roles_of;
use tdf_bind_hierarchy::Block;
use tdf_bind_names::{is_too_many, law_bound, resolve};
use tdf_bind_ports::link_fault;
use tdf_bind_tables::{BindErr, FlatTables, flat_of};
use tdf_expr::Checked;
use tdf_lang_tree::Tree;

fn too_many() -> BindErr
    ensures { result ≡ why.Refused too_many_fault }
{
    BindErr::Refused(Fault {
        code: Code::TooMany,
        place: Place::Nowhere,
    })
}

/// The blocks, where the model isn't too large.
///
/// # Errors
/// TOO_MANY where it is, or out of memory.
fn sized(alloc: Global, tree: &Tree, blocks: Vec<Block>) -> Result<Vec<Block>, BindErr>
    requires links { link_faults (pure_tree tree.now) ≡ [] }
    requires resolved { AreResolved (pure_tree tree.now) blocks.items }
    ensures linked { IfOk result (λ blocks. IsLinked (pure_tree tree.now) blocks.items) }
    ensures refused { IfErr result (IsBindRefusal (pure_tree tree.now)) }
{
    match is_too_many(alloc, tree, &blocks) {
        Ok(false) => Ok(blocks),
        Ok(true) => {
            drop(blocks);
            Err(too_many())
        }
        Err(_) => {
            drop(blocks);
            Err(BindErr::Memory)
        }
    }
}

/// The blocks of a model whose lines have no fault.
///
/// # Errors
/// TOO_MANY where the model is too large, or out of memory.
fn resolved(alloc: Global, tree: &Tree) -> Result<Vec<Block>, BindErr>
    requires links { link_faults (pure_tree tree.now) ≡ [] }
    ensures linked { IfOk result (λ blocks. IsLinked (pure_tree tree.now) blocks.items) }
    ensures refused { IfErr result (IsBindRefusal (pure_tree tree.now)) }
{
    match resolve(alloc, tree) {
        Ok(blocks) => sized(alloc, tree, blocks),
        Err(_) => Err(BindErr::Memory),
    }
}

/// The blocks of a model.
///
/// # Errors
/// The first fault by line, else TOO_MANY where the model is too large; or out of memory.
#[tactic(auto, using(crate::proofs::Linked::link_laws))]
fn linked(alloc: Global, tree: &Tree) -> Result<Vec<Block>, BindErr>
    ensures linked { IfOk result (λ blocks. IsLinked (pure_tree tree.now) blocks.items) }
    ensures refused { IfErr result (IsBindRefusal (pure_tree tree.now)) }
{
    match link_fault(alloc, tree) {
        Ok(None) => resolved(alloc, tree),
        Ok(Some(fault)) => Err(BindErr::Refused(fault)),
        Err(_) => Err(BindErr::Memory),
    }
}

/// The tables of a model, by its blocks.
///
/// # Errors
/// The first fault of drivers, traces or clusters; or out of memory.
fn tables_by(alloc: Global, tree: &Tree, blocks: &Vec<Block>) -> Result<FlatTables, BindErr>
    requires kept { IsKept (pure_tree tree.now) }
    requires sound { AreModulesSound (globals_of (pure_tree tree.now).globals)
        (pure_tree tree.now).globals }
    requires types { type_faults (pure_tree tree.now) ≡ [] }
    requires closed { ports_of_composite (pure_tree tree.now).top ≡ [] }
    requires linked { IsLinked (pure_tree tree.now) blocks.now.items }
    ensures tables { IfOk result (HasTables (pure_tree tree.now) blocks.now.items) }
    ensures refused { IfErr result (IsBindRefusal (pure_tree tree.now)) }
{
    law_bound();
    law_delays();
    let roles = roles_of(alloc, tree)?;
    let lines = trace_lines(alloc, &tree.traces)?;
    flat_of(
        alloc,
        blocks,
        blocks.len().saturating_sub(1),
        &roles,
        &lines,
    )
}

/// The tables of a model.
///
/// # Errors
/// The first fault, or out of memory.
fn tables_of(alloc: Global, tree: &Tree) -> Result<FlatTables, BindErr>
    requires kept { IsKept (pure_tree tree.now) }
    requires sound { AreModulesSound (globals_of (pure_tree tree.now).globals)
        (pure_tree tree.now).globals }
    requires types { type_faults (pure_tree tree.now) ≡ [] }
    requires closed { ports_of_composite (pure_tree tree.now).top ≡ [] }
    ensures tables { IfOk result (IsTabled (pure_tree tree.now)) }
    ensures refused { IfErr result (IsBindRefusal (pure_tree tree.now)) }
{
    let blocks = linked(alloc, tree)?;
    let tables = tables_by(alloc, tree, &blocks);
    drop(blocks);
    tables
}

/// The flat model of a tree that was checked: all modules, signals, edges, processes, events and traces.
///
/// # Errors
/// The first fault of binding: by line, then TOO_MANY, then drivers, traces and clusters; or out of memory.
pub fn flatten(alloc: Global, tree: &Tree, checked: Checked) -> Result<Flat, BindErr>
    requires kept { IsKept (pure_tree tree.now) }
    requires none { type_faults (pure_tree tree.now) ≡ [] }
    requires closed { ports_of_composite (pure_tree tree.now).top ≡ [] }
    requires bodies { IsCheckedOf (pure_tree tree.now) checked }
    ensures flat { IfOk result (IsFlatOf (pure_tree tree.now)) }
    ensures refused { IfErr result (IsBindRefusal (pure_tree tree.now)) }
{
    match tables_of(alloc, tree) {
        Ok(tables) => Ok(Flat {
            tables,
            checked,
            resolution: tree.resolution,
        }),
        Err(refused) => {
            drop(checked);
            Err(refused)
        }
    }
}
