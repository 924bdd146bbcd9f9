//! The names of whole blocks.

ghost use Rattle.std.specs.Prelude.{◌≡◌, ◌++◌, map, IfOk, OnOk};
ghost use Rattle.tdf_base.specs.First.{least_with};
ghost use Rattle.tdf_expr_names.specs.Names.{parts_faults, tdf_name_faults, process_name_faults, de_name_faults, composite_name_faults, tdf_lines_faults, names_of_tdf_lines, de_lines_faults, names_of_de_lines, processes_faults};
ghost use Rattle.tdf_expr_names.specs.machine.Scope.{locals, declared};
ghost use Rattle.tdf_lang_tree.specs.Views.{pure_tdf, pure_process, pure_de, pure_composite};

use crate::lists::{
    check_attrs, check_de_lines, check_initials, check_members, check_senses, check_tdf_lines,
};
use crate::scope::Scope;
use crate::stmts::check_stmts;
use crate::table::Table;
use std::alloc::{AllocError, Global};
use tdf_base::LineFault;
use tdf_lang_tree::{Composite, DeDecl, Process, TdfDecl};

/// The first fault so far, with those of the parts of a `tdf` block.
///
/// # Errors
/// Out of memory.
#[tactic(auto, using(crate::proofs::LineFirsts::line_laws))]
fn check_parts<'t>(
    first: Option<LineFault>,
    scope: &mut Scope<'_, 't>,
    block: &'t TdfDecl,
) -> Result<Option<LineFault>, AllocError>
    ensures { IfOk result (λ f. f ≡ least_with first
        (parts_faults scope.old.globals (locals scope.old) (pure_tdf block.entry.now))) }
{
    let first = check_attrs(first, scope, &block.attrs);
    let first = check_initials(first, scope, &block.initials);
    let first = check_stmts(first, scope, &block.initialize.list)?;
    let first = check_stmts(first, scope, &block.processing.list)?;
    let first = check_stmts(first, scope, &block.change.list)?;
    check_stmts(first, scope, &block.reinitialize.list)
}

/// The first fault so far, with those of a `tdf` block on whose first line these names are in force.
///
/// # Errors
/// Out of memory.
#[tactic(auto, using(crate::proofs::LineFirsts::line_laws))]
fn tdf_within<'t>(
    first: Option<LineFault>,
    scope: &mut Scope<'_, 't>,
    block: &'t TdfDecl,
) -> Result<Option<LineFault>, AllocError>
    ensures { IfOk result (λ f. f ≡ least_with first
        (tdf_lines_faults scope.old.globals scope.old.own (pure_tdf block.entry.now).decls
        ++ parts_faults scope.old.globals
        (locals (declared scope.old (names_of_tdf_lines (pure_tdf block.entry.now).decls)))
        (pure_tdf block.entry.now))) }
{
    let first = check_tdf_lines(first, scope, &block.decls)?;
    check_parts(first, scope, block)
}

/// The first fault so far, with those of a `tdf` block.
///
/// # Errors
/// Out of memory.
pub(crate) fn check_tdf<'t>(
    alloc: Global,
    first: Option<LineFault>,
    globals: &Table<'t>,
    block: &'t TdfDecl,
) -> Result<Option<LineFault>, AllocError>
    ensures { IfOk result (λ f. f ≡ least_with first
        (tdf_name_faults globals.now (pure_tdf block.entry.now))) }
{
    let mut scope = Scope::new(alloc, globals);
    let found = tdf_within(first, &mut scope, block);
    drop(scope);
    found
}

/// The first fault so far, with those of a process. The names in force stay.
///
/// # Errors
/// Out of memory.
#[tactic(auto, using(crate::proofs::LineFirsts::line_laws))]
fn check_process<'t>(
    first: Option<LineFault>,
    scope: &mut Scope<'_, 't>,
    process: &'t Process,
) -> Result<Option<LineFault>, AllocError>
    ensures first { IfOk result (λ f. f ≡ least_with first
        (process_name_faults scope.old.globals (locals scope.old) (pure_process process.entry.now))) }
    ensures same { OnOk result (scope.new ≡ scope.old) }
{
    let first = check_senses(first, scope, &process.sensitive);
    check_stmts(first, scope, &process.body.list)
}

/// The first fault so far, with those of processes one after another.
///
/// # Errors
/// Out of memory.
#[tactic(auto, using(crate::proofs::BlockFirsts::processes_laws))]
fn check_processes<'t>(
    first: Option<LineFault>,
    scope: &mut Scope<'_, 't>,
    processes: &'t Vec<Process>,
) -> Result<Option<LineFault>, AllocError>
    ensures first { IfOk result (λ f. f ≡ least_with first
        (processes_faults scope.old.globals (locals scope.old)
        (map pure_process processes.entry.now.items))) }
{
    let mut first = first;
    for process in processes {
        first = check_process(first, scope, process)?;
    }
    Ok(first)
}

/// The first fault so far, with those of a `de` block on whose first line these names are in force.
///
/// # Errors
/// Out of memory.
#[tactic(auto, using(crate::proofs::LineFirsts::line_laws))]
fn de_within<'t>(
    first: Option<LineFault>,
    scope: &mut Scope<'_, 't>,
    block: &'t DeDecl,
) -> Result<Option<LineFault>, AllocError>
    ensures { IfOk result (λ f. f ≡ least_with first
        (de_lines_faults scope.old.globals scope.old.own (pure_de block.entry.now).decls
        ++ processes_faults scope.old.globals
        (locals (declared scope.old (names_of_de_lines (pure_de block.entry.now).decls)))
        (pure_de block.entry.now).processes)) }
{
    let first = check_de_lines(first, scope, &block.decls)?;
    check_processes(first, scope, &block.processes)
}

/// The first fault so far, with those of a `de` block.
///
/// # Errors
/// Out of memory.
pub(crate) fn check_de<'t>(
    alloc: Global,
    first: Option<LineFault>,
    globals: &Table<'t>,
    block: &'t DeDecl,
) -> Result<Option<LineFault>, AllocError>
    ensures { IfOk result (λ f. f ≡ least_with first
        (de_name_faults globals.now (pure_de block.entry.now))) }
{
    let mut scope = Scope::new(alloc, globals);
    let found = de_within(first, &mut scope, block);
    drop(scope);
    found
}

/// The first fault so far, with those of a `composite` block or of `top`.
///
/// # Errors
/// Out of memory.
pub(crate) fn check_composite<'t>(
    alloc: Global,
    first: Option<LineFault>,
    globals: &Table<'t>,
    block: &'t Composite,
) -> Result<Option<LineFault>, AllocError>
    ensures { IfOk result (λ f. f ≡ least_with first
        (composite_name_faults globals.now (pure_composite block.entry.now))) }
{
    let mut scope = Scope::new(alloc, globals);
    let found = check_members(first, &mut scope, &block.members);
    drop(scope);
    found
}
