//! The job `drive`.

ghost use Rattle.std.specs.Prelude.{◌≡◌, ◌<◌, ◌≤◌, ◌++◌, List, ℕ, IfOk, OnErr, OnOk, length};
ghost use Rattle.tdf_base.specs.Limits.{longest_text, time_end};
ghost use Rattle.tdf_cli.specs.Driven.{HasDrivenOutcome, ignored_line, ignored_text};
ghost use Rattle.tdf_cli.specs.Input.{Text, longest_stimulus};
ghost use Rattle.tdf_cli.specs.Outcome.{WritesNothingOrFront, WritesOutcome};
ghost use Rattle.tdf_cli.specs.machine.Stages.{HasPartsOutcome, HasRunBehind, HasTextOutcome, HasTreeOutcome, WritesOf};
ghost use Rattle.tdf_cli_words.specs.declared.asked.Settings.TheVariants.{Drive};
ghost use Rattle.tdf_io.specs.Faults.{CountsTwoSinks};
ghost use Rattle.tdf_io.specs.declared.writing.SinkErr.TheVariants as why;
ghost use Rattle.tdf_lang_parser.specs.Formed.{IsFormed};
ghost use Rattle.tdf_lang_parser.specs.Refused.{SpellsText};
ghost use Rattle.tdf_lang_tree.specs.Kept.{IsKept};
ghost use Rattle.tdf_lang_tree.specs.Pure.{PureTree};
ghost use Rattle.tdf_lang_tree.specs.Views.{pure_tree};
ghost use Rattle.tdf_sim.specs.Runs.{IsAcceptedTree, IsSomeAccepted};
ghost use Rattle.tdf_tables.specs.Tables.{IsTableForm, longest_table};

use crate::laws::law_one_outcome;
use crate::notes::{noted, refuse, refuse_line};
use crate::parts::parts_of;
use crate::refusals::first_fault;
use crate::run::run;
use crate::status::Status;
use std::alloc::Global;
use tdf_base::{LONGEST_TEXT, Memory, Name};
use tdf_cli_words::RunOptions;
use tdf_io::{Sink, SinkErr, put_all};
use tdf_lang_parser::parse;
use tdf_lang_tree::Tree;
use tdf_sim::{Sim, SimErr, check_tree, elaborate_tree, law_early_fault, law_tree_fault};
use tdf_stim::{Driven, StimErr};
use tdf_tables::{Table, TableErr, law_tables, read_table};

/// Appends the line on a column that drives no signal.
fn push_ignored(text: &mut Vec<u8>, label: &Name) -> Result<(), Memory>
    ensures { OnOk result (text.new.items ≡ text.old.items ++ ignored_line label.now) }
{
    text.extend_from_slice(b"ignored ")?;
    text.extend_from_slice(label.as_bytes())?;
    text.extend_from_slice(b"\n")?;
    Ok(())
}

/// The lines on the columns that drive no signal.
fn ignored_lines(alloc: Global, labels: &[Name]) -> Result<Vec<u8>, Memory>
    ensures { IfOk result (λ text. text.items ≡ ignored_text labels.now) }
{
    let mut text = Vec::new(alloc);
    for label in labels {
        push_ignored(&mut text, label)?;
    }
    Ok(text)
}

/// Writes lines on the notes, and then runs a model that was accepted as it is asked for.
fn run_behind<O: Sink, N: Sink>(
    alloc: Global,
    sim: Sim,
    lines: &[u8],
    asked: RunOptions,
    out: &mut O,
    notes: &mut N,
) -> Result<Status, SinkErr>
    requires stop { asked.stop < time_end }
    requires accepted { IsSomeAccepted sim }
    ensures writes { (tree : PureTree) → IsAcceptedTree tree sim
        → WritesOf (HasRunBehind lines.now asked tree) result
        (O.taken out.old) (O.taken out.new) (N.taken notes.old) (N.taken notes.new) }
    ensures counts { CountsTwoSinks why.Failed (O.faults out.old) (O.faults out.new)
        (N.faults notes.old) (N.faults notes.new) result }
{
    match put_all(notes, lines) {
        Ok(()) => run(alloc, sim, asked, out, notes),
        Err(error) => {
            drop(sim);
            Err(error)
        }
    }
}

/// Notes the columns that drive no signal, and runs the driven model.
fn run_driven<O: Sink, N: Sink>(
    alloc: Global,
    sim: Sim,
    ignored: &[Name],
    asked: RunOptions,
    out: &mut O,
    notes: &mut N,
) -> Result<Status, SinkErr>
    requires stop { asked.stop < time_end }
    requires accepted { IsSomeAccepted sim }
    ensures writes { (tree : PureTree) → IsAcceptedTree tree sim
        → WritesOf (HasRunBehind (ignored_text ignored.now) asked tree) result
        (O.taken out.old) (O.taken out.new) (N.taken notes.old) (N.taken notes.new) }
    ensures counts { CountsTwoSinks why.Failed (O.faults out.old) (O.faults out.new)
        (N.faults notes.old) (N.faults notes.new) result }
{
    match ignored_lines(alloc, ignored) {
        Ok(lines) => run_behind(alloc, sim, &lines, asked, out, notes),
        Err(_) => {
            drop(sim);
            Err(SinkErr::Memory)
        }
    }
}

/// Runs a driven tree; or notes its first fault.
fn run_tree<O: Sink, N: Sink>(
    alloc: Global,
    driven: Driven,
    asked: RunOptions,
    out: &mut O,
    notes: &mut N,
) -> Result<Status, SinkErr>
    requires stop { asked.stop < time_end }
    requires kept { IsKept (pure_tree driven.tree) }
    requires formed { IsFormed (pure_tree driven.tree) }
    ensures writes { WritesOf (HasTreeOutcome (ignored_text driven.ignored.items) asked (pure_tree
        driven.tree)) result
        (O.taken out.old) (O.taken out.new) (N.taken notes.old) (N.taken notes.new) }
    ensures counts { CountsTwoSinks why.Failed (O.faults out.old) (O.faults out.new)
        (N.faults notes.old) (N.faults notes.new) result }
{
    law_tree_fault();
    let Driven { tree, ignored } = driven;
    match elaborate_tree(alloc, &tree) {
        Ok(sim) => {
            drop(tree);
            run_driven(alloc, sim, &ignored, asked, out, notes)
        }
        Err(SimErr::Refused(fault)) => {
            drop(tree);
            drop(ignored);
            refuse(alloc, notes, fault)
        }
        Err(SimErr::Memory) => {
            drop(tree);
            drop(ignored);
            Err(SinkErr::Memory)
        }
    }
}

/// Runs a tree that a table drives; or notes why it can't, or the first fault of the driven tree.
fn drive_tree<O: Sink, N: Sink>(
    alloc: Global,
    tree: Tree,
    table: &Table,
    asked: RunOptions,
    out: &mut O,
    notes: &mut N,
) -> Result<Status, SinkErr>
    requires stop { asked.stop < time_end }
    requires kept { IsKept (pure_tree tree) }
    requires formed { IsFormed (pure_tree tree) }
    requires table { IsTableForm table.now }
    ensures writes { WritesOf (HasPartsOutcome asked (pure_tree tree) table.now) result
        (O.taken out.old) (O.taken out.new) (N.taken notes.old) (N.taken notes.new) }
    ensures counts { CountsTwoSinks why.Failed (O.faults out.old) (O.faults out.new)
        (N.faults notes.old) (N.faults notes.new) result }
{
    match tdf_stim::drive(alloc, tree, table) {
        Ok(driven) => run_tree(alloc, driven, asked, out, notes),
        Err(StimErr::TooMany) => noted(notes, b"refused STIMULUS\n", Status::Refused),
        Err(StimErr::Digits(line)) => refuse_line(alloc, notes, b"DIGITS", line),
        Err(StimErr::Time(line)) => refuse_line(alloc, notes, b"TIME", line),
        Err(StimErr::Memory) => Err(SinkErr::Memory),
    }
}

/// Runs a tree that the table of a text drives; or notes the line at fault of a text that is no table.
fn drive_text<O: Sink, N: Sink>(
    alloc: Global,
    tree: Tree,
    bytes: &[u8],
    asked: RunOptions,
    out: &mut O,
    notes: &mut N,
) -> Result<Status, SinkErr>
    requires stop { asked.stop < time_end }
    requires kept { IsKept (pure_tree tree) }
    requires formed { IsFormed (pure_tree tree) }
    requires short { length bytes.now ≤ longest_table }
    ensures writes { WritesOf (HasTextOutcome asked (pure_tree tree) bytes.now) result
        (O.taken out.old) (O.taken out.new) (N.taken notes.old) (N.taken notes.new) }
    ensures counts { CountsTwoSinks why.Failed (O.faults out.old) (O.faults out.new)
        (N.faults notes.old) (N.faults notes.new) result }
{
    law_tables();
    match read_table(alloc, bytes) {
        Ok(table) => drive_tree(alloc, tree, &table, asked, out, notes),
        Err(TableErr::Line(line)) => {
            drop(tree);
            refuse_line(alloc, notes, b"TABLE", line)
        }
        Err(TableErr::Memory) => {
            drop(tree);
            Err(SinkErr::Memory)
        }
    }
}

/// Runs a tree that the table of a text drives; or notes the first fault that the tree has before its clusters are planned.
fn drive_checked<O: Sink, N: Sink>(
    alloc: Global,
    tree: Tree,
    bytes: &[u8],
    asked: RunOptions,
    out: &mut O,
    notes: &mut N,
) -> Result<Status, SinkErr>
    requires stop { asked.stop < time_end }
    requires kept { IsKept (pure_tree tree) }
    requires formed { IsFormed (pure_tree tree) }
    requires short { length bytes.now ≤ longest_table }
    ensures writes { (model : List ℕ) → SpellsText model (pure_tree tree)
        → WritesOf (HasDrivenOutcome asked model bytes.now) result
        (O.taken out.old) (O.taken out.new) (N.taken notes.old) (N.taken notes.new) }
    ensures counts { CountsTwoSinks why.Failed (O.faults out.old) (O.faults out.new)
        (N.faults notes.old) (N.faults notes.new) result }
{
    law_early_fault();
    match check_tree(alloc, &tree) {
        Ok(()) => drive_text(alloc, tree, bytes, asked, out, notes),
        Err(SimErr::Refused(fault)) => {
            drop(tree);
            refuse(alloc, notes, fault)
        }
        Err(SimErr::Memory) => {
            drop(tree);
            Err(SinkErr::Memory)
        }
    }
}

/// Runs the model of a text that the table of another drives; or notes the first fault of the one or the other.
fn drive_parts<O: Sink, N: Sink>(
    alloc: Global,
    model: &[u8],
    bytes: &[u8],
    asked: RunOptions,
    out: &mut O,
    notes: &mut N,
) -> Result<Status, SinkErr>
    requires stop { asked.stop < time_end }
    requires model { length model.now ≤ longest_text }
    requires short { length bytes.now ≤ longest_table }
    ensures writes { WritesOf (HasDrivenOutcome asked model.now bytes.now) result
        (O.taken out.old) (O.taken out.new) (N.taken notes.old) (N.taken notes.new) }
    ensures counts { CountsTwoSinks why.Failed (O.faults out.old) (O.faults out.new)
        (N.faults notes.old) (N.faults notes.new) result }
{
    law_early_fault();
    match parse(alloc, model) {
        Ok(tree) => drive_checked(alloc, tree, bytes, asked, out, notes),
        Err(refused) => match first_fault(refused) {
            Some(fault) => refuse(alloc, notes, fault),
            None => Err(SinkErr::Memory),
        },
    }
}

/// Does the job `drive` for a text.
pub(crate) fn drive<O: Sink, N: Sink>(
    alloc: Global,
    text: &Vec<u8>,
    asked: RunOptions,
    out: &mut O,
    notes: &mut N,
) -> Result<Status, SinkErr>
    requires text { length text.now.items ≤ longest_stimulus }
    requires stop { asked.stop < time_end }
    ensures all { IfOk result (λ s. WritesOutcome (Text (Drive asked) text.now.items) s
        (O.taken out.old) (O.taken out.new) (N.taken notes.old) (N.taken notes.new)) }
    ensures part { OnErr result (WritesNothingOrFront (Text (Drive asked) text.now.items)
        (O.taken out.old) (O.taken out.new) (N.taken notes.old) (N.taken notes.new)) }
    ensures counts { CountsTwoSinks why.Failed (O.faults out.old) (O.faults out.new)
        (N.faults notes.old) (N.faults notes.new) result }
{
    law_one_outcome();
    let (model, table) = parts_of(text);
    if LONGEST_TEXT < model.len() {
        return noted(notes, b"too long\n", Status::TooLong);
    }
    drive_parts(alloc, model, table, asked, out, notes)
}
