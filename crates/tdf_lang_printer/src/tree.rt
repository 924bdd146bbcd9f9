//! The canonical text of a tree.

ghost use Rattle.std.specs.Prelude.{◌≡◌, ◌++◌, ℕ, take, length, ◌≤◌, OnOk, OnErr};
ghost use Rattle.std.specs.List.{flat_map};
ghost use Rattle.tdf_lang_tree.specs.Forms.{FType};
ghost use Rattle.tdf_lang_tree.specs.Views.{pure_tree};
ghost use Rattle.tdf_lang_printer.specs.Canon.{canon, head_text, language_text, unit_line, resolution_text};
ghost use Rattle.tdf_base.specs.declared.resolution.Resolution.TheVariants.{Ps};
ghost use Rattle.tdf_lang_printer.specs.Lines.{full_line};
ghost use Rattle.tdf_lang_printer.specs.machine.Texts.{global_text};

use crate::blocks::{push_composite, push_de, push_tdf};
use crate::lines::{push_end, push_members, push_pair, push_traces, push_word};
use crate::words::{push_head, push_spaced_shape, unit_text};
use tdf_base::{Memory, Resolution, Version, push_number};
use tdf_lang_tree::{Global1, Tree, TypeDecl};

fn push_type(out: &mut Vec<u8>, decl: &TypeDecl) -> Result<(), Memory>
    ensures { OnOk result (out.new.items ≡ out.old.items ++ full_line Ps (FType decl.now.name decl.now.shape)) }
{
    push_head(out, b"type ", &decl.name)?;
    push_spaced_shape(out, decl.shape)?;
    push_end(out)
}

#[tactic(auto, using(crate::proofs::BlockTexts::block_laws, std::proofs::lemmas::Grind::common_steps))]
fn push_global(out: &mut Vec<u8>, unit: Resolution, item: &Global1) -> Result<(), Memory>
    ensures { OnOk result (out.new.items ≡ out.old.items ++ global_text unit item.now) }
{
    match item {
        Global1::Shape(decl) => push_type(out, decl),
        Global1::Tdf(block) => push_tdf(out, unit, block),
        Global1::De(block) => push_de(out, unit, block),
        Global1::Net(block) => push_composite(out, block),
    }
}

fn push_globals(out: &mut Vec<u8>, unit: Resolution, list: &[Global1]) -> Result<(), Memory>
    ensures { OnOk result (out.new.items ≡ out.old.items ++ flat_map (global_text unit) list.now) }
{
    for item in list {
        push_global(out, unit, item)?;
    }
    Ok(())
}

#[tactic(auto, unfolding(crate::specs::Canon::language_text))]
fn push_language(out: &mut Vec<u8>, version: Version) -> Result<(), Memory>
    ensures { OnOk result (out.new.items ≡ out.old.items ++ language_text version) }
{
    out.extend_from_slice(b"language ")?;
    push_number(out, version.number())?;
    push_end(out)
}

/// A line with the resolution.
#[tactic(auto, unfolding(crate::specs::Canon::unit_line))]
fn push_unit(out: &mut Vec<u8>, unit: Resolution) -> Result<(), Memory>
    ensures { OnOk result (out.new.items ≡ out.old.items ++ unit_line unit) }
{
    push_pair(out, b"resolution 1", unit_text(unit))
}

/// The line with the resolution, which version 3 alone has.
#[tactic(auto, unfolding(crate::specs::Canon::resolution_text))]
fn push_resolution(out: &mut Vec<u8>, version: Version, unit: Resolution) -> Result<(), Memory>
    ensures { OnOk result (out.new.items ≡ out.old.items ++ resolution_text version unit) }
{
    if !version.has_resolution() {
        return Ok(());
    }
    push_unit(out, unit)
}

/// The lines that say how the others are read.
#[tactic(auto, unfolding(crate::specs::Canon::head_text))]
fn push_opening(out: &mut Vec<u8>, version: Version, unit: Resolution) -> Result<(), Memory>
    ensures { OnOk result (out.new.items ≡ out.old.items ++ head_text version unit) }
{
    push_language(out, version)?;
    push_resolution(out, version, unit)
}

#[tactic(auto, using(crate::proofs::BlockTexts::block_laws, std::proofs::lemmas::Grind::common_steps))]
fn push_whole(out: &mut Vec<u8>, tree: &Tree) -> Result<(), Memory>
    ensures { OnOk result (out.new.items ≡ out.old.items ++ canon (pure_tree tree.now)) }
{
    push_opening(out, tree.version, tree.resolution)?;
    push_globals(out, tree.resolution, &tree.globals)?;
    push_word(out, b"top")?;
    push_members(out, &tree.top.members)?;
    push_word(out, b"end")?;
    push_traces(out, &tree.traces)
}

/// Appends the canonical text of a tree. It takes memory for a copy of the text.
///
/// # Errors
/// Out of memory; `out` holds then what it held.
pub fn push_tree(out: &mut Vec<u8>, tree: &Tree) -> Result<(), Memory>
    ensures whole { OnOk result (out.new.items ≡ out.old.items ++ canon (pure_tree tree.now)) }
    ensures part { OnErr result ((n : ℕ) × (out.new.items ≡ out.old.items ++ take n (canon (pure_tree tree.now)))) }
    ensures kept { OnErr result (out.new.items ≡ out.old.items) }
{
    let mut text = Vec::new(*out.allocator());
    push_whole(&mut text, tree)?;
    out.extend_from_slice(&text)?;
    Ok(())
}
