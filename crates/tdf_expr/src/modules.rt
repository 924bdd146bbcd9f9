//! The blocks of a model, compiled.

ghost use Rattle.std.specs.Prelude.{◌≡◌, ℕ, IfOk, OnOk, List, ◌++◌, [], map, slice_get, Some};
ghost use Rattle.tdf_base.specs.Limits.{deepest_nesting};
ghost use Rattle.tdf_expr_compiler.specs.Promises.{AreFaultless, PerformsAll};
ghost use Rattle.tdf_expr.specs.Blocks.{PureBlock, Module, Events, block_of, blocks_of, body_of};
ghost use Rattle.tdf_expr.specs.machine.Fine.{IsBlockFine};
ghost use Rattle.tdf_expr.specs.Compiled.{AreBlocksOf, IsBlockOf, IsActOf, AreProcesses, act_of};
ghost use Rattle.tdf_expr.specs.declared.bodies.Body.{Body as BodyOf};
ghost use Rattle.tdf_expr_symbols.specs.Sound.{IsSound};
ghost use Rattle.tdf_lang_tree.specs.Pure.{PureGlobal, PureProcess};
ghost use Rattle.tdf_lang_tree.specs.Kept.{KeepsStmts};
ghost use Rattle.tdf_lang_tree.specs.Views.{pure_global, pure_tdf, pure_de, pure_process, pure_stmts};

use crate::blocks::{Acts, Block};
use crate::cells::cell_plan;
use crate::events::event_count;
use crate::ports::port_plan;
use crate::rates::rate_plan;
use std::alloc::Global;
use tdf_base::Memory;
use tdf_expr_compiler::{Layout, compile_body};
use tdf_expr_machine::Act;
use tdf_expr_symbols::{Scope, Table, de_scope, tdf_scope};
use tdf_lang_tree::{DeDecl, Global1, Process, TdfDecl};

/// The compiled bodies of a `tdf` block.
fn module_acts(alloc: Global, scope: &Scope, block: &TdfDecl) -> Result<Acts, Memory>
    requires sound { IsSound scope.now }
    requires faultless { (part : BodyOf) → AreFaultless scope.now (body_of (Module (pure_tdf block.now)) part) }
    requires nested { (part : BodyOf) → KeepsStmts deepest_nesting (body_of (Module (pure_tdf block.now)) part) }
    ensures { IfOk result (λ acts. (part : BodyOf) → IsActOf scope.now (body_of (Module (pure_tdf block.now)) part) (act_of acts part)) }
{
    let layout = Layout::of(alloc, scope)?;
    let initialize = compile_body(alloc, scope, &layout, &block.initialize.list)?;
    let processing = compile_body(alloc, scope, &layout, &block.processing.list)?;
    let change = compile_body(alloc, scope, &layout, &block.change.list)?;
    let reinitialize = compile_body(alloc, scope, &layout, &block.reinitialize.list)?;
    Ok(Acts::Module(initialize, processing, change, reinitialize))
}

/// A `tdf` block, compiled.
fn module_block(alloc: Global, scope: &Scope, block: &TdfDecl) -> Result<Block, Memory>
    requires sound { IsSound scope.now }
    requires faultless { (part : BodyOf) → AreFaultless scope.now (body_of (Module (pure_tdf block.now)) part) }
    requires nested { (part : BodyOf) → KeepsStmts deepest_nesting (body_of (Module (pure_tdf block.now)) part) }
    ensures { IfOk result (λ b. IsBlockOf scope.now (Module (pure_tdf block.now)) b) }
{
    let cells = cell_plan(alloc, scope)?;
    let rates = rate_plan(alloc, scope)?;
    let ports = port_plan(alloc, scope)?;
    let events = event_count(scope)?;
    let acts = module_acts(alloc, scope, block)?;
    Ok(Block {
        cells,
        rates,
        ports,
        events,
        acts,
    })
}

/// The compiled processes of a `de` block.
#[tactic(auto, using(crate::proofs::Blocked::process_laws))]
fn process_acts(alloc: Global, scope: &Scope, list: &Vec<Process>) -> Result<Vec<Act>, Memory>
    requires sound { IsSound scope.now }
    requires faultless { (n : ℕ) (p : PureProcess) → slice_get (map pure_process list.now.items) n ≡ Some p → AreFaultless scope.now p.body.list }
    requires nested { (n : ℕ) (p : PureProcess) → slice_get (map pure_process list.now.items) n ≡ Some p → KeepsStmts deepest_nesting p.body.list }
    ensures { IfOk result (λ acts. AreProcesses scope.now (map pure_process list.now.items) acts.items) }
{
    let layout = Layout::of(alloc, scope)?;
    let mut acts = Vec::new(alloc);
    for place in 0..list.len() {
        let act = compile_body(alloc, scope, &layout, &list[place].body.list)?;
        acts.push(act)?;
    }
    Ok(acts)
}

/// A `de` block, compiled.
#[tactic(auto, using(crate::proofs::Blocked::event_laws))]
fn event_block(alloc: Global, scope: &Scope, block: &DeDecl) -> Result<Block, Memory>
    requires sound { IsSound scope.now }
    requires faultless { (part : BodyOf) → AreFaultless scope.now (body_of (Events (pure_de block.now)) part) }
    requires nested { (part : BodyOf) → KeepsStmts deepest_nesting (body_of (Events (pure_de block.now)) part) }
    ensures { IfOk result (λ b. IsBlockOf scope.now (Events (pure_de block.now)) b) }
{
    let cells = cell_plan(alloc, scope)?;
    let rates = rate_plan(alloc, scope)?;
    let ports = port_plan(alloc, scope)?;
    let events = event_count(scope)?;
    let acts = Acts::Processes(process_acts(alloc, scope, &block.processes)?);
    Ok(Block {
        cells,
        rates,
        ports,
        events,
        acts,
    })
}

/// The block of a global name, if it has one.
fn push_block<'t>(
    alloc: Global,
    blocks: &mut Vec<Block>,
    globals: &Table<'t>,
    global: &'t Global1,
) -> Result<(), Memory>
    requires { IsBlockFine globals.now (pure_global global.now) }
    ensures { (done : List PureBlock) → AreBlocksOf globals.now done blocks.old.items
        → OnOk result (AreBlocksOf globals.now (done ++ block_of (pure_global global.now)) blocks.new.items) }
{
    match global {
        Global1::Shape(_) => Ok(()),
        Global1::Net(_) => Ok(()),
        Global1::Tdf(block) => {
            let scope = tdf_scope(alloc, globals, block)?;
            let made = module_block(alloc, &scope, block)?;
            blocks.push(made)?;
            Ok(())
        }
        Global1::De(block) => {
            let scope = de_scope(alloc, globals, block)?;
            let made = event_block(alloc, &scope, block)?;
            blocks.push(made)?;
            Ok(())
        }
    }
}

/// The blocks of a model.
///
/// # Errors
/// Out of memory.
pub(crate) fn block_list<'t>(
    alloc: Global,
    globals: &Table<'t>,
    list: &'t Vec<Global1>,
) -> Result<Vec<Block>, Memory>
    requires fine { (n : ℕ) (g : PureGlobal) → slice_get (map pure_global list.now.items) n ≡ Some g → IsBlockFine globals.now g }
    ensures { IfOk result (λ blocks. AreBlocksOf globals.now (blocks_of (map pure_global list.entry.now.items)) blocks.items) }
{
    let mut blocks = Vec::new(alloc);
    for place in 0..list.len() {
        push_block(alloc, &mut blocks, globals, &list[place])?;
    }
    Ok(blocks)
}
