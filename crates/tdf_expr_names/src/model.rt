//! The names of a whole model.

ghost use Rattle.std.specs.Prelude.{◌≡◌, ◌≢◌, [], ◌∷◌, map, Err, IfOk, OnOk};
ghost use Rattle.tdf_base.specs.First.{least_with, first_of, verdict_of};
ghost use Rattle.tdf_base.specs.declared.refusal.TypeErr.TheVariants as why;
ghost use Rattle.tdf_expr_names.specs.Names.{declares, with_names, global_name_faults, globals_faults, names_of_global, names_of_globals, composite_name_faults, traces_name_faults, name_faults};
ghost use Rattle.tdf_lang_tree.specs.Views.{pure_global, pure_trace, pure_tree};

use crate::blocks::{check_composite, check_de, check_tdf};
use crate::table::Table;
use std::alloc::{AllocError, Global};
use tdf_base::{Code, LineFault, Name, TypeErr, noted, verdict};
use tdf_lang_tree::{Global1, Trace1, Tree};

/// The name that a global line or block declares.
fn name_of(global: &Global1) -> &Name
    ensures { names_of_global (pure_global global.now) ≡ result.now ∷ [] }
{
    match global {
        Global1::Shape(shape) => &shape.name,
        Global1::Tdf(block) => &block.name,
        Global1::De(block) => &block.name,
        Global1::Net(block) => &block.name,
    }
}

/// The first fault so far, where this line declares a global name. It is not in force yet.
#[tactic(auto, using(crate::proofs::LineFirsts::line_laws))]
fn check_head(
    first: Option<LineFault>,
    globals: &Table,
    line: u32,
    name: &Name,
) -> Option<LineFault>
    ensures { result ≡ least_with first (declares globals.now line name.now) }
{
    noted(first, globals.has(name.as_bytes()), Code::Duplicate, line)
}

/// The first fault so far, with those of a `type` line or a block.
///
/// # Errors
/// Out of memory.
#[tactic(auto, using(crate::proofs::LineFirsts::line_laws))]
fn check_global<'t>(
    alloc: Global,
    first: Option<LineFault>,
    globals: &Table<'t>,
    global: &'t Global1,
) -> Result<Option<LineFault>, AllocError>
    ensures { IfOk result (λ f. f ≡ least_with first
        (global_name_faults globals.now (pure_global global.now))) }
{
    match global {
        Global1::Shape(shape) => Ok(check_head(first, globals, shape.line, &shape.name)),
        Global1::Tdf(block) => {
            let first = check_head(first, globals, block.line, &block.name);
            check_tdf(alloc, first, globals, block)
        }
        Global1::De(block) => {
            let first = check_head(first, globals, block.line, &block.name);
            check_de(alloc, first, globals, block)
        }
        Global1::Net(block) => {
            let first = check_head(first, globals, block.line, &block.name);
            check_composite(alloc, first, globals, block)
        }
    }
}

/// Brings a global name into force.
///
/// # Errors
/// Out of memory.
fn declare<'t>(globals: &mut Table<'t>, global: &'t Global1) -> Result<(), AllocError>
    ensures { OnOk result (globals.new ≡ with_names globals.old
        (names_of_global (pure_global global.entry.now))) }
{
    globals.add(name_of(global).as_bytes())?;
    Ok(())
}

/// The first fault so far, with those of all that is declared before `top`. A name is in force after its line or block.
///
/// # Errors
/// Out of memory.
#[tactic(auto, using(crate::proofs::BlockFirsts::globals_laws))]
fn check_globals<'t>(
    alloc: Global,
    first: Option<LineFault>,
    globals: &mut Table<'t>,
    list: &'t Vec<Global1>,
) -> Result<Option<LineFault>, AllocError>
    ensures first { IfOk result (λ f. f ≡ least_with first
        (globals_faults globals.old (map pure_global list.entry.now.items))) }
    ensures names { OnOk result (globals.new ≡ with_names globals.old
        (names_of_globals (map pure_global list.entry.now.items))) }
{
    let mut first = first;
    for global in list {
        first = check_global(alloc, first, globals, global)?;
        declare(globals, global)?;
    }
    Ok(first)
}

/// The first fault so far, with those of the labels of traces, where these are labels already.
///
/// # Errors
/// Out of memory.
#[tactic(auto, using(crate::proofs::BlockFirsts::traces_laws))]
fn check_traces<'t>(
    first: Option<LineFault>,
    labels: &mut Table<'t>,
    traces: &'t Vec<Trace1>,
) -> Result<Option<LineFault>, AllocError>
    ensures { IfOk result (λ f. f ≡ least_with first
        (traces_name_faults labels.old (map pure_trace traces.entry.now.items))) }
{
    let mut first = first;
    for trace in traces {
        let new = labels.add(trace.label.as_bytes())?;
        first = noted(first, !new, Code::Duplicate, trace.line);
    }
    Ok(first)
}

/// The first fault of all that is declared before `top`, and of `top`. The global names are in force after it.
///
/// # Errors
/// Out of memory.
#[tactic(auto, using(crate::proofs::LineFirsts::line_laws))]
fn check_blocks<'t>(
    alloc: Global,
    globals: &mut Table<'t>,
    tree: &'t Tree,
) -> Result<Option<LineFault>, AllocError>
    ensures { IfOk result (λ f. f ≡ least_with
        (least_with None (globals_faults globals.old (pure_tree tree.entry.now).globals))
        (composite_name_faults (with_names globals.old (names_of_globals (pure_tree tree.entry.now).globals))
        (pure_tree tree.entry.now).top)) }
{
    let first = check_globals(alloc, None, globals, &tree.globals)?;
    check_composite(alloc, first, globals, &tree.top)
}

/// The first fault so far, with those of the labels of traces.
///
/// # Errors
/// Out of memory.
fn check_labels(
    alloc: Global,
    first: Option<LineFault>,
    traces: &Vec<Trace1>,
) -> Result<Option<LineFault>, AllocError>
    ensures { IfOk result (λ f. f ≡ least_with first (traces_name_faults [] (map pure_trace traces.now.items))) }
{
    let mut labels = Table::new(alloc);
    let found = check_traces(first, &mut labels, traces);
    drop(labels);
    found
}

/// The first fault of a model's names, if there is one.
///
/// # Errors
/// Out of memory.
#[tactic(auto, using(crate::proofs::LineFirsts::line_laws), unfolding(crate::specs::Names::name_faults))]
fn first_fault(alloc: Global, tree: &Tree) -> Result<Option<LineFault>, AllocError>
    ensures { IfOk result (λ f. f ≡ first_of (name_faults (pure_tree tree.now))) }
{
    let mut globals = Table::new(alloc);
    let found = check_blocks(alloc, &mut globals, tree);
    drop(globals);
    check_labels(alloc, found?, &tree.traces)
}

/// Looks for names that are declared twice, and for uses of names that are not in force.
///
/// # Errors
/// The fault that comes first in the text, or out of memory.
pub fn check_names(alloc: Global, tree: &Tree) -> Result<(), TypeErr>
    ensures ok { OnOk result (name_faults (pure_tree tree.now) ≡ []) }
    ensures verdict { result ≢ Err why.Memory →
        result ≡ verdict_of (first_of (name_faults (pure_tree tree.now))) }
{
    verdict(first_fault(alloc, tree)?)
}
