//! The first fault of types, widths and bodies of a whole model.

ghost use Rattle.std.specs.List.{flat_map};
ghost use Rattle.std.specs.Option.{option_map};
ghost use Rattle.std.specs.Prelude.{◌≡◌, ◌≢◌, [], Err, IfOk, OnOk, map};
ghost use Rattle.tdf_expr_blocks.specs.Types.{extra_faults, global_faults, traces_faults, type_faults};
ghost use Rattle.tdf_base.specs.First.{first_of, least_with, verdict_of};
ghost use Rattle.tdf_base.specs.declared.refusal.TypeErr.TheVariants as why;
ghost use Rattle.tdf_lang_tree.specs.Views.{pure_global, pure_trace, pure_tree};

use crate::blocks::{note_composite, note_de, note_tdf};
use crate::lines::note_shape;
use std::alloc::Global;
use tdf_base::{Code, LineFault, MOST_TRACES, Memory, TypeErr, noted, verdict};
use tdf_expr_symbols::{Table, globals_of};
use tdf_lang_tree::{Global1, Trace1, Tree};

/// Notes the faults of a `type` line or a block.
#[tactic(auto, using(crate::proofs::Leasts::least_laws), unfolding(crate::specs::Types::global_faults))]
fn note_global<'t>(
    alloc: Global,
    first: &mut Option<LineFault>,
    globals: &Table<'t>,
    global: &'t Global1,
) -> Result<(), Memory>
    ensures { OnOk result (first.new ≡ least_with first.old
        (global_faults globals.now (pure_global global.entry.now))) }
{
    match global {
        Global1::Shape(t) => {
            note_shape(first, t.line, t.shape);
            Ok(())
        }
        Global1::Tdf(block) => note_tdf(alloc, first, globals, block),
        Global1::De(block) => note_de(alloc, first, globals, block),
        Global1::Net(block) => note_composite(alloc, first, globals, block),
    }
}

#[tactic(auto, using(crate::proofs::Lists::globals_laws))]
fn note_globals<'t>(
    alloc: Global,
    first: &mut Option<LineFault>,
    globals: &Table<'t>,
    list: &'t Vec<Global1>,
) -> Result<(), Memory>
    ensures { OnOk result (first.new ≡ least_with first.old
        (flat_map (global_faults globals.now) (map pure_global list.entry.now.items))) }
{
    for global in list {
        note_global(alloc, first, globals, global)?;
    }
    Ok(())
}

#[tactic(auto, using(crate::proofs::Leasts::least_laws))]
fn note_extra(first: &mut Option<LineFault>, trace: Option<&Trace1>)
    ensures { first.new ≡ least_with first.old
        (extra_faults (option_map (λ t. pure_trace t.now) trace.entry)) }
{
    if let Some(trace) = trace {
        *first = noted(*first, true, Code::Limit, trace.line);
    }
}

/// Notes the trace that is one too many.
#[tactic(auto, using(crate::proofs::Traces::trace_at))]
fn note_traces(first: &mut Option<LineFault>, traces: &Vec<Trace1>)
    ensures { first.new ≡ least_with first.old (traces_faults (map pure_trace traces.now.items)) }
{
    note_extra(first, traces.get(MOST_TRACES));
}

/// The first fault of a model's types, widths and bodies, if there is one.
///
/// # Errors
/// Out of memory.
#[tactic(auto, using(crate::proofs::Leasts::least_laws), unfolding(crate::specs::Types::type_faults))]
fn first_fault(alloc: Global, tree: &Tree) -> Result<Option<LineFault>, Memory>
    ensures { IfOk result (λ first. first ≡ first_of (type_faults (pure_tree tree.now))) }
{
    let globals = globals_of(alloc, &tree.globals)?;
    let mut first = None;
    note_globals(alloc, &mut first, &globals, &tree.globals)?;
    note_composite(alloc, &mut first, &globals, &tree.top)?;
    note_traces(&mut first, &tree.traces);
    Ok(first)
}

/// Looks for faults of types, widths and bodies.
///
/// # Errors
/// The fault that comes first in the text, or out of memory.
pub fn check_types(alloc: Global, tree: &Tree) -> Result<(), TypeErr>
    ensures ok { OnOk result (type_faults (pure_tree tree.now) ≡ []) }
    ensures verdict { result ≢ Err why.Memory →
        result ≡ verdict_of (first_of (type_faults (pure_tree tree.now))) }
{
    verdict(first_fault(alloc, tree)?)
}
