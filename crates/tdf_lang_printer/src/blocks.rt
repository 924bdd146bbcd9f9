//! The canonical text of blocks.

ghost use Rattle.std.specs.Prelude.{◌≡◌, ◌∷◌, [], ◌++◌, OnOk};
ghost use Rattle.std.specs.List.{flat_map};
ghost use Rattle.tdf_lang_tree.specs.Forms.{Form, FProcessing, FChangeAttributes, FReinitialize};
ghost use Rattle.tdf_base.specs.declared.resolution.Resolution.TheVariants.{Ps};
ghost use Rattle.tdf_lang_printer.specs.Canon.{dont_lines};
ghost use Rattle.tdf_lang_printer.specs.Lines.{full_line, line_text, lines_text};
ghost use Rattle.tdf_lang_printer.specs.machine.Texts.{attributes_head, change_head, bodies_text, part_text, attributes_text, initialize_text, tdf_text, process_text, de_text, composite_text};

use crate::lines::{
    push_attrs, push_de_lines, push_initials, push_members, push_named, push_senses,
    push_tdf_lines, push_word,
};
use crate::stmts::push_stmts;
use tdf_base::{Memory, Resolution};
use tdf_lang_tree::{Attr, Composite, DeDecl, Initial, Process, Stmt, TdfDecl};

#[tactic(auto, unfolding(crate::specs::machine::Texts::attributes_head))]
fn push_attributes_head(out: &mut Vec<u8>) -> Result<(), Memory>
    ensures { OnOk result (out.new.items ≡ out.old.items ++ attributes_head) }
{
    push_word(out, b"set_attributes")
}

#[tactic(auto, unfolding(crate::specs::machine::Texts::change_head))]
fn push_change_head(out: &mut Vec<u8>) -> Result<(), Memory>
    ensures { OnOk result (out.new.items ≡ out.old.items ++ change_head) }
{
    push_word(out, b"change_attributes")
}

/// `set_attributes`; nothing where it is empty.
#[tactic(auto, using(crate::proofs::BlockTexts::part_laws, std::proofs::lemmas::Grind::common_steps))]
fn push_attributes(out: &mut Vec<u8>, unit: Resolution, list: &Vec<Attr>) -> Result<(), Memory>
    ensures { OnOk result (out.new.items ≡ out.old.items ++ attributes_text unit list.now.items) }
{
    if list.len() == 0 {
        return Ok(());
    }
    push_attributes_head(out)?;
    push_attrs(out, unit, list)?;
    push_word(out, b"end")
}

/// `initialize`; nothing where it is empty.
#[tactic(auto, using(crate::proofs::BlockTexts::part_laws, std::proofs::lemmas::Grind::common_steps))]
fn push_initialize(
    out: &mut Vec<u8>,
    unit: Resolution,
    initials: &Vec<Initial>,
    list: &Vec<Stmt>,
) -> Result<(), Memory>
    ensures { OnOk result (out.new.items ≡ out.old.items ++ initialize_text unit initials.now.items list.now.items) }
{
    if initials.len() == 0 && list.len() == 0 {
        return Ok(());
    }
    push_word(out, b"initialize")?;
    push_initials(out, initials)?;
    push_stmts(out, unit, list)?;
    push_word(out, b"end")
}

/// `processing`; nothing where it is empty.
#[tactic(auto, using(crate::proofs::BlockTexts::part_laws, std::proofs::lemmas::Grind::common_steps))]
fn push_processing(out: &mut Vec<u8>, unit: Resolution, list: &Vec<Stmt>) -> Result<(), Memory>
    ensures { OnOk result (out.new.items ≡ out.old.items ++ part_text unit FProcessing list.now.items) }
{
    if list.len() == 0 {
        return Ok(());
    }
    push_word(out, b"processing")?;
    push_stmts(out, unit, list)?;
    push_word(out, b"end")
}

/// `change_attributes`; nothing where it is empty.
#[tactic(auto, using(crate::proofs::BlockTexts::change_laws, std::proofs::lemmas::Grind::common_steps))]
fn push_change(out: &mut Vec<u8>, unit: Resolution, list: &Vec<Stmt>) -> Result<(), Memory>
    ensures { OnOk result (out.new.items ≡ out.old.items ++ part_text unit FChangeAttributes list.now.items) }
{
    if list.len() == 0 {
        return Ok(());
    }
    push_change_head(out)?;
    push_stmts(out, unit, list)?;
    push_word(out, b"end")
}

/// `reinitialize`; nothing where it is empty.
#[tactic(auto, using(crate::proofs::BlockTexts::part_laws, std::proofs::lemmas::Grind::common_steps))]
fn push_reinitialize(out: &mut Vec<u8>, unit: Resolution, list: &Vec<Stmt>) -> Result<(), Memory>
    ensures { OnOk result (out.new.items ≡ out.old.items ++ part_text unit FReinitialize list.now.items) }
{
    if list.len() == 0 {
        return Ok(());
    }
    push_word(out, b"reinitialize")?;
    push_stmts(out, unit, list)?;
    push_word(out, b"end")
}

/// The parts of a `tdf` block from `processing` on, and its end.
#[tactic(auto, using(crate::proofs::BlockTexts::bodies_is, std::proofs::lemmas::Grind::common_steps))]
fn push_bodies(out: &mut Vec<u8>, unit: Resolution, block: &TdfDecl) -> Result<(), Memory>
    ensures { OnOk result (out.new.items ≡ out.old.items ++ bodies_text unit block.now) }
{
    push_processing(out, unit, &block.processing.list)?;
    push_change(out, unit, &block.change.list)?;
    push_reinitialize(out, unit, &block.reinitialize.list)?;
    push_word(out, b"end")
}

#[tactic(auto, using(crate::proofs::BlockTexts::block_laws, std::proofs::lemmas::Grind::common_steps))]
pub(crate) fn push_tdf(out: &mut Vec<u8>, unit: Resolution, block: &TdfDecl) -> Result<(), Memory>
    ensures { OnOk result (out.new.items ≡ out.old.items ++ tdf_text unit block.now) }
{
    push_named(out, b"tdf ", &block.name)?;
    push_tdf_lines(out, &block.decls)?;
    push_attributes(out, unit, &block.attrs)?;
    push_initialize(out, unit, &block.initials, &block.initialize.list)?;
    push_bodies(out, unit, block)
}

/// `dont_initialize`, where a process doesn't run at the start.
fn push_dont(out: &mut Vec<u8>, starts: bool) -> Result<(), Memory>
    ensures { OnOk result (out.new.items ≡ out.old.items ++ lines_text Ps (dont_lines starts)) }
{
    if starts {
        return Ok(());
    }
    push_word(out, b"dont_initialize")
}

#[tactic(auto, using(crate::proofs::BlockTexts::block_laws, std::proofs::lemmas::Grind::common_steps))]
fn push_process(out: &mut Vec<u8>, unit: Resolution, process: &Process) -> Result<(), Memory>
    ensures { OnOk result (out.new.items ≡ out.old.items ++ process_text unit process.now) }
{
    push_word(out, b"process")?;
    push_senses(out, &process.sensitive)?;
    push_dont(out, process.starts)?;
    push_stmts(out, unit, &process.body.list)?;
    push_word(out, b"end")
}

fn push_processes(out: &mut Vec<u8>, unit: Resolution, list: &[Process]) -> Result<(), Memory>
    ensures { OnOk result (out.new.items ≡ out.old.items ++ flat_map (process_text unit) list.now) }
{
    for process in list {
        push_process(out, unit, process)?;
    }
    Ok(())
}

#[tactic(auto, using(crate::proofs::BlockTexts::block_laws, std::proofs::lemmas::Grind::common_steps))]
pub(crate) fn push_de(out: &mut Vec<u8>, unit: Resolution, block: &DeDecl) -> Result<(), Memory>
    ensures { OnOk result (out.new.items ≡ out.old.items ++ de_text unit block.now) }
{
    push_named(out, b"de ", &block.name)?;
    push_de_lines(out, &block.decls)?;
    push_processes(out, unit, &block.processes)?;
    push_word(out, b"end")
}

#[tactic(auto, using(crate::proofs::BlockTexts::block_laws, std::proofs::lemmas::Grind::common_steps))]
pub(crate) fn push_composite(out: &mut Vec<u8>, block: &Composite) -> Result<(), Memory>
    ensures { OnOk result (out.new.items ≡ out.old.items ++ composite_text block.now) }
{
    push_named(out, b"composite ", &block.name)?;
    push_members(out, &block.members)?;
    push_word(out, b"end")
}
