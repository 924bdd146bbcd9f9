//! The roles of all blocks of a model.

ghost use Rattle.std.specs.Prelude.{◌≡◌, ◌++◌, ◌∷◌, [], ◌+◌, ℕ, map, List, Some, slice_get, IfOk, OnOk};
ghost use Rattle.tdf_bind_attributes.specs.Roles.{AreModulesSound, module_role, roles_from, roles_of};
ghost use Rattle.tdf_bind_attributes.specs.machine.Sound.{IsGood};
ghost use Rattle.tdf_expr_symbols.specs.Names.{globals_of};
ghost use Rattle.tdf_expr_symbols.specs.Scope.{tdf_scope};
ghost use Rattle.tdf_expr_symbols.specs.Sound.{IsSound};
ghost use Rattle.tdf_lang_tree.specs.Kept.{IsKept, KeepsTdf};
ghost use Rattle.tdf_lang_tree.specs.Pure.{PureGlobal, GNet};
ghost use Rattle.tdf_lang_tree.specs.Views.{pure_global, pure_tdf, pure_tree};

use crate::ports::ports_of;
use crate::processes::processes_role;
use crate::steps::{accepts, changes, module_step};
use std::alloc::Global;
use tdf_base::Memory;
use tdf_bind_connections::{ModuleData, Role};
use tdf_expr_symbols::{Table, globals_of, tdf_scope};
use tdf_lang_tree::{Global1, TdfDecl, Tree};

/// A module, where so many blocks stand before it.
///
/// # Errors
/// Out of memory.
fn module_role(
    alloc: Global,
    globals: &Table,
    number: u32,
    block: &TdfDecl,
) -> Result<ModuleData, Memory>
    requires sound { IsSound (tdf_scope globals.now (pure_tdf block.now)) }
    requires kept { KeepsTdf (pure_tdf block.now) }
    ensures { IfOk result (λ role. role ≡ module_role globals.now number (pure_tdf block.now)) }
{
    let scope = tdf_scope(alloc, globals, block)?;
    let ports = ports_of(alloc, &scope, block)?;
    Ok(ModuleData {
        block: number,
        changes: changes(&block.attrs),
        accepts: accepts(&block.attrs),
        step: module_step(&block.attrs),
        ports,
    })
}

/// The count of blocks, and one more.
///
/// # Errors
/// Out of memory, where there are 2^32.
fn one_more(count: u32) -> Result<u32, Memory>
    ensures { IfOk result (λ n. n ≡ count + 1) }
{
    match count.checked_add(1) {
        None => Err(Memory),
        Some(next) => Ok(next),
    }
}

/// Adds the role of a declaration, if it has one, and tells how many `tdf` and `de` blocks there are then.
///
/// # Errors
/// Out of memory.
#[tactic(auto, unfolding(crate::specs::Roles::roles_from))]
fn push_role(
    alloc: Global,
    roles: &mut Vec<Role>,
    globals: &Table,
    number: u32,
    global: &Global1,
) -> Result<u32, Memory>
    requires { IsGood globals.now (pure_global global.now) }
    ensures { (rest : List PureGlobal) → IfOk result (λ next. roles.new.items ++ roles_from globals.now next rest
        ≡ roles.old.items ++ roles_from globals.now number (pure_global global.now ∷ rest)) }
{
    match global {
        Global1::Shape(_) => Ok(number),
        Global1::Tdf(block) => {
            let next = one_more(number)?;
            roles.push(Role::Module(module_role(alloc, globals, number, block)?))?;
            Ok(next)
        }
        Global1::De(block) => {
            let next = one_more(number)?;
            roles.push(Role::Processes(processes_role(alloc, number, block)?))?;
            Ok(next)
        }
        Global1::Net(_) => {
            roles.push(Role::Composite)?;
            Ok(number)
        }
    }
}

/// The roles of some declarations.
///
/// # Errors
/// Out of memory.
fn roles_in(alloc: Global, globals: &Table, list: &Vec<Global1>) -> Result<Vec<Role>, Memory>
    requires { (n : ℕ) (g : PureGlobal) → slice_get (map pure_global list.now.items) n ≡ Some g → IsGood globals.now g }
    ensures { IfOk result (λ roles. roles.items ≡ roles_from globals.now 0 (map pure_global list.now.items)) }
{
    let mut roles = Vec::new(alloc);
    let mut number = 0;
    for place in 0..list.len() {
        number = push_role(alloc, &mut roles, globals, number, &list[place])?;
    }
    Ok(roles)
}

/// The roles of all blocks of a model: each `tdf`, `de` and `composite` block in the order of the text, and `top` last.
///
/// # Errors
/// Out of memory.
pub fn roles_of(alloc: Global, tree: &Tree) -> Result<Vec<Role>, Memory>
    requires kept { IsKept (pure_tree tree.now) }
    requires sound { AreModulesSound (globals_of (pure_tree tree.now).globals)
        (pure_tree tree.now).globals }
    ensures { IfOk result (λ roles. roles.items ≡ roles_of (pure_tree tree.now)) }
{
    let globals = globals_of(alloc, &tree.globals)?;
    let mut roles = roles_in(alloc, &globals, &tree.globals)?;
    roles.push(Role::Composite)?;
    Ok(roles)
}
