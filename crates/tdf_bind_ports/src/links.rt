//! The first fault of the `bind` and `instance` lines of a whole model.

ghost use Rattle.std.specs.Option.{option_map};
ghost use Rattle.std.specs.Prelude.{◌≡◌, map, IfOk, OnOk};
ghost use Rattle.tdf_bind_ports.specs.Faults.{fault_of_link, first_link_fault, least_link_with};
ghost use Rattle.tdf_bind_ports.specs.Links.{composite_link_faults, global_link_faults, globals_link_faults, link_faults};
ghost use Rattle.tdf_bind_ports.specs.Ports.{known_after_all, no_blocks};
ghost use Rattle.tdf_lang_tree.specs.Views.{pure_global, pure_tree};

use crate::composites::note_composite;
use crate::first::First;
use crate::known::Known;
use std::alloc::Global;
use tdf_base::{Fault, Memory};
use tdf_expr_symbols::{Table, globals_of};
use tdf_lang_tree::{Global1, Tree};

/// Notes the faults of the lines of a block, where it is a composite.
#[tactic(auto, using(crate::proofs::Notes::least_laws))]
fn note_global<'t>(
    alloc: Global,
    first: &mut First<'t>,
    globals: &Table<'t>,
    known: &Known<'t>,
    global: &'t Global1,
) -> Result<(), Memory>
    ensures { OnOk result (first.new ≡ least_link_with first.old (global_link_faults globals.now known.now (pure_global global.entry.now))) }
{
    match global {
        Global1::Net(block) => note_composite(alloc, first, globals, known, block),
        Global1::Shape(_) => Ok(()),
        Global1::Tdf(_) => Ok(()),
        Global1::De(_) => Ok(()),
    }
}

/// Notes the faults of all blocks before `top`. A block is known after its end.
#[tactic(auto, using(crate::proofs::Notes::globals_laws))]
fn note_globals<'t>(
    alloc: Global,
    first: &mut First<'t>,
    globals: &Table<'t>,
    known: &mut Known<'t>,
    list: &'t Vec<Global1>,
) -> Result<(), Memory>
    ensures first { OnOk result (first.new ≡ least_link_with first.old
        (globals_link_faults globals.now known.old (map pure_global list.entry.now.items))) }
    ensures known { OnOk result (known.new ≡ known_after_all (map pure_global list.entry.now.items) known.old) }
{
    for global in list {
        note_global(alloc, first, globals, known, global)?;
        known.declare(alloc, global)?;
    }
    Ok(())
}

/// Notes the faults of all blocks.
#[tactic(auto, using(crate::proofs::Notes::least_laws), unfolding(crate::specs::Links::link_faults))]
fn note_tree<'t>(alloc: Global, first: &mut First<'t>, tree: &'t Tree) -> Result<(), Memory>
    ensures { OnOk result (first.new ≡ least_link_with first.old (link_faults (pure_tree tree.entry.now))) }
{
    let globals = globals_of(alloc, &tree.globals)?;
    let mut known = Known::new(alloc);
    note_globals(alloc, first, &globals, &mut known, &tree.globals)?;
    note_composite(alloc, first, &globals, &known, &tree.top)
}

/// The first fault of a model's `bind` and `instance` lines, if there is one. Each composite is looked at by itself, used or not.
///
/// # Errors
/// Out of memory.
pub fn link_fault(alloc: Global, tree: &Tree) -> Result<Option<Fault>, Memory>
    ensures { IfOk result (λ found.
        found ≡ option_map fault_of_link (first_link_fault (link_faults (pure_tree tree.now)))) }
{
    let mut first = First::new();
    note_tree(alloc, &mut first, tree)?;
    first.fault(alloc)
}
