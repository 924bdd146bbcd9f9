//! The faults of blocks.

ghost use Rattle.std.specs.List.{flat_map};
ghost use Rattle.std.specs.Prelude.{◌≡◌, map, OnOk};
ghost use Rattle.tdf_expr_blocks.specs.Blocks.{bodies_faults, composite_faults, de_faults, process_faults, tdf_faults};
ghost use Rattle.tdf_expr_blocks.specs.Lines.{attr_faults, de_line_faults, initial_faults, member_faults, sense_faults, tdf_line_faults};
ghost use Rattle.tdf_base.specs.First.{least_with};
ghost use Rattle.tdf_lang_tree.specs.Views.{pure_composite, pure_de, pure_de_line, pure_process, pure_tdf, pure_tdf_line};

use crate::lines::{note_attr, note_de_line, note_initial, note_member, note_sense, note_tdf_line};
use crate::writers::note_writers;
use std::alloc::Global;
use tdf_base::{LineFault, Memory};
use tdf_expr_symbols::{Part, Scope, Table, composite_scope, de_scope, tdf_scope};
use tdf_expr_types::check_body;
use tdf_lang_tree::{
    Attr, Composite, DeDecl, DeLine, Initial, Member, Process, Sense, TdfDecl, TdfLine,
};

/// Notes the faults of the declarations of a `tdf` block.
#[tactic(auto, using(crate::proofs::Lists::tdf_lines_laws))]
fn note_tdf_lines(first: &mut Option<LineFault>, scope: &Scope, lines: &Vec<TdfLine>)
    ensures { first.new ≡ least_with first.old
        (flat_map (tdf_line_faults scope.now.globals) (map pure_tdf_line lines.now.items)) }
{
    for line in lines {
        note_tdf_line(first, scope, line);
    }
}

/// Notes the faults of the lines of `set_attributes`.
#[tactic(auto, using(crate::proofs::Lists::attrs_laws))]
fn note_attrs(first: &mut Option<LineFault>, scope: &Scope, attrs: &Vec<Attr>)
    ensures { first.new ≡ least_with first.old (flat_map (attr_faults scope.now) attrs.now.items) }
{
    for attr in attrs {
        note_attr(first, scope, attr);
    }
}

/// Notes the faults of the initial samples.
#[tactic(auto, using(crate::proofs::Lists::initials_laws))]
fn note_initials(first: &mut Option<LineFault>, scope: &Scope, initials: &Vec<Initial>)
    ensures { first.new ≡ least_with first.old
        (flat_map (initial_faults scope.now) initials.now.items) }
{
    for initial in initials {
        note_initial(first, scope, initial);
    }
}

/// Notes the faults of the declarations of a `de` block.
#[tactic(auto, using(crate::proofs::Lists::de_lines_laws))]
fn note_de_lines(first: &mut Option<LineFault>, scope: &Scope, lines: &Vec<DeLine>)
    ensures { first.new ≡ least_with first.old
        (flat_map (de_line_faults scope.now.globals) (map pure_de_line lines.now.items)) }
{
    for line in lines {
        note_de_line(first, scope, line);
    }
}

/// Notes the faults of the `sensitive` lines.
#[tactic(auto, using(crate::proofs::Lists::senses_laws))]
fn note_senses(first: &mut Option<LineFault>, scope: &Scope, senses: &Vec<Sense>)
    ensures { first.new ≡ least_with first.old
        (flat_map (sense_faults scope.now) senses.now.items) }
{
    for sense in senses {
        note_sense(first, scope, sense);
    }
}

/// Notes the faults of the lines of a `composite` block or of `top`.
#[tactic(auto, using(crate::proofs::Lists::members_laws))]
fn note_members(first: &mut Option<LineFault>, scope: &Scope, members: &Vec<Member>)
    ensures { first.new ≡ least_with first.old
        (flat_map (member_faults scope.now) members.now.items) }
{
    for member in members {
        note_member(first, scope, member);
    }
}

#[tactic(auto, using(crate::proofs::Leasts::least_laws), unfolding(crate::specs::Blocks::process_faults))]
fn note_process<'t>(
    alloc: Global,
    first: &mut Option<LineFault>,
    scope: &Scope<'_, 't>,
    process: &'t Process,
) -> Result<(), Memory>
    ensures { OnOk result (first.new ≡ least_with first.old
        (process_faults scope.now (pure_process process.entry.now))) }
{
    note_senses(first, scope, &process.sensitive);
    check_body(alloc, first, scope, Part::Process, &process.body)
}

/// Notes the faults of processes, but for ports that two of them assign.
#[tactic(auto, using(crate::proofs::Lists::processes_laws))]
fn note_processes<'t>(
    alloc: Global,
    first: &mut Option<LineFault>,
    scope: &Scope<'_, 't>,
    processes: &'t Vec<Process>,
) -> Result<(), Memory>
    ensures { OnOk result (first.new ≡ least_with first.old
        (flat_map (process_faults scope.now) (map pure_process processes.entry.now.items))) }
{
    for process in processes {
        note_process(alloc, first, scope, process)?;
    }
    Ok(())
}

/// Notes the faults of the bodies of a `tdf` block.
#[tactic(auto, using(crate::proofs::Leasts::least_laws))]
fn note_bodies<'t>(
    alloc: Global,
    first: &mut Option<LineFault>,
    scope: &Scope<'_, 't>,
    block: &'t TdfDecl,
) -> Result<(), Memory>
    ensures { OnOk result (first.new ≡ least_with first.old
        (bodies_faults scope.now (pure_tdf block.entry.now))) }
{
    check_body(alloc, first, scope, Part::Initialize, &block.initialize)?;
    check_body(alloc, first, scope, Part::Processing, &block.processing)?;
    check_body(alloc, first, scope, Part::Change, &block.change)?;
    check_body(alloc, first, scope, Part::Reinitialize, &block.reinitialize)
}

/// Notes the faults of a `tdf` block.
///
/// # Errors
/// Out of memory.
#[tactic(auto, using(crate::proofs::Leasts::least_laws), unfolding(crate::specs::Blocks::tdf_faults))]
pub fn note_tdf<'t>(
    alloc: Global,
    first: &mut Option<LineFault>,
    globals: &Table<'t>,
    block: &'t TdfDecl,
) -> Result<(), Memory>
    ensures { OnOk result (first.new ≡ least_with first.old
        (tdf_faults globals.now (pure_tdf block.entry.now))) }
{
    let scope = tdf_scope(alloc, globals, block)?;
    note_tdf_lines(first, &scope, &block.decls);
    note_attrs(first, &scope, &block.attrs);
    note_initials(first, &scope, &block.initials);
    note_bodies(alloc, first, &scope, block)
}

/// Notes the faults of a `de` block.
///
/// # Errors
/// Out of memory.
#[tactic(auto, using(crate::proofs::Leasts::least_laws), unfolding(crate::specs::Blocks::de_faults))]
pub fn note_de<'t>(
    alloc: Global,
    first: &mut Option<LineFault>,
    globals: &Table<'t>,
    block: &'t DeDecl,
) -> Result<(), Memory>
    ensures { OnOk result (first.new ≡ least_with first.old
        (de_faults globals.now (pure_de block.entry.now))) }
{
    let scope = de_scope(alloc, globals, block)?;
    note_de_lines(first, &scope, &block.decls);
    note_processes(alloc, first, &scope, &block.processes)?;
    note_writers(alloc, first, &scope, &block.processes)
}

/// Notes the faults of a `composite` block, or of `top`.
///
/// # Errors
/// Out of memory.
#[tactic(auto, using(crate::proofs::Leasts::least_laws), unfolding(crate::specs::Blocks::composite_faults))]
pub fn note_composite<'t>(
    alloc: Global,
    first: &mut Option<LineFault>,
    globals: &Table<'t>,
    block: &'t Composite,
) -> Result<(), Memory>
    ensures { OnOk result (first.new ≡ least_with first.old
        (composite_faults globals.now (pure_composite block.entry.now))) }
{
    let scope = composite_scope(alloc, globals, block)?;
    note_members(first, &scope, &block.members);
    Ok(())
}
