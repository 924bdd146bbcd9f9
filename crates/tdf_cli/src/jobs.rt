//! What each outcome writes, but for runs.

ghost use Rattle.std.specs.Io.KnownBytes.{Appends};
ghost use Rattle.std.specs.Prelude.{◌≡◌, ◌⊎◌, ◌≤◌, ◌<◌, List, ℕ, Err, length, IfOk, OnErr, OnOk, true};
ghost use Rattle.tdf_base.specs.Limits.{longest_text};
ghost use Rattle.tdf_lang_parser.specs.Formed.{IsFormed};
ghost use Rattle.tdf_lang_parser.specs.Refused.{SpellsText};
ghost use Rattle.tdf_cli.specs.Input.{NoMemory, Text, is_model_job, most_bytes, reading, IsReady};
ghost use Rattle.tdf_cli.specs.Outcome.{WritesNothingOrFront, WritesOutcome, accepted_text};
ghost use Rattle.tdf_cli.specs.declared.status.Status.TheVariants.{Done};
ghost use Rattle.tdf_lang_printer.specs.Canon.{canon};
ghost use Rattle.tdf_cli.specs.machine.Texts.{IsCheckText, IsPlanText};
ghost use Rattle.tdf_io.specs.Bytes.{AppendsFront};
ghost use Rattle.tdf_io.specs.Faults.{CountsTwoSinks};
ghost use Rattle.tdf_io.specs.declared.writing.SinkErr.TheVariants as why;
ghost use Rattle.tdf_sim.specs.Accepted.{IsAccepted};
ghost use Rattle.tdf_sim.specs.PlanText.{IsPrintable, plans_text};
ghost use Rattle.tdf_sim.specs.Runs.{IsAcceptedTree};
ghost use Rattle.tdf_cli_words.specs.Jobs.{IsWithin};
ghost use Rattle.tdf_cli_words.specs.declared.asked.Settings.TheVariants.{Check, Plan};
ghost use Rattle.tdf_lang_tree.specs.Kept.{IsKept};
ghost use Rattle.tdf_lang_tree.specs.Views.{pure_tree};

use crate::drive::drive;
use crate::input::Input;
use crate::laws::law_one_outcome;
use crate::measure::measure;
use crate::notes::{noted, refuse};
use crate::refusals::first_fault;
use crate::resume::resume;
use crate::run::run;
use crate::save::save;
use crate::status::Status;
use crate::tables::{sample, stats};
use std::alloc::Global;
use std::mem;
use tdf_base::Memory;
use tdf_cli_words::Settings;
use tdf_dynamic_texts::push_accepted;
use tdf_io::{Sink, SinkErr, put_all};
use tdf_lang_parser::parse;
use tdf_lang_printer::push_tree;
use tdf_lang_tree::Tree;
use tdf_sim::{Sim, SimErr, elaborate_tree, law_first_fault};

/// An output and a note.
#[derive(Drop)]
struct Texts {
    output: Vec<u8>,
    note: Vec<u8>,
}

/// The note of a model that was accepted.
fn accepted_note(alloc: Global, sim: &Sim) -> Result<Vec<u8>, Memory>
    ensures { IfOk result (λ note. note.items ≡ accepted_text sim.now) }
{
    let mut note = Vec::new(alloc);
    push_accepted(&mut note, sim.cluster_count())?;
    Ok(note)
}

/// The canonical text of a tree.
fn canonical(alloc: Global, tree: &Tree) -> Result<Vec<u8>, Memory>
    ensures { IfOk result (λ output. output.items ≡ canon (pure_tree tree.now)) }
{
    let mut output = Vec::new(alloc);
    push_tree(&mut output, tree)?;
    Ok(output)
}

/// The plans of a model.
fn plans(alloc: Global, sim: &Sim) -> Result<Vec<u8>, Memory>
    requires printable { IsPrintable sim.now }
    ensures { IfOk result (λ output. output.items ≡ plans_text sim.now) }
{
    let mut output = Vec::new(alloc);
    sim.push_plan(&mut output)?;
    Ok(output)
}

/// The texts of a check.
fn check_texts(alloc: Global, tree: &Tree, sim: &Sim) -> Result<Texts, Memory>
    ensures { IfOk result (λ texts. IsCheckText (pure_tree tree.now) sim.now texts) }
{
    let note = accepted_note(alloc, sim)?;
    match canonical(alloc, tree) {
        Ok(output) => Ok(Texts { output, note }),
        Err(error) => {
            drop(note);
            Err(error)
        }
    }
}

/// The texts of plans.
fn plan_texts(alloc: Global, sim: &Sim) -> Result<Texts, Memory>
    requires printable { IsPrintable sim.now }
    ensures { IfOk result (λ texts. IsPlanText sim.now texts) }
{
    let note = accepted_note(alloc, sim)?;
    match plans(alloc, sim) {
        Ok(output) => Ok(Texts { output, note }),
        Err(error) => {
            drop(note);
            Err(error)
        }
    }
}

/// Writes an output and then a note, and answers `Done`.
fn put_texts<O: Sink, N: Sink>(texts: &Texts, out: &mut O, notes: &mut N) -> Result<Status, SinkErr>
    ensures status { IfOk result (λ s. s ≡ Done) }
    ensures out { OnOk result (Appends (O.taken out.old) (O.taken out.new) texts.now.output.items) }
    ensures notes { OnOk result (Appends (N.taken notes.old) (N.taken notes.new)
        texts.now.note.items) }
    ensures out_part { OnErr result (AppendsFront (O.taken out.old) (O.taken out.new)
        texts.now.output.items) }
    ensures notes_part { OnErr result (AppendsFront (N.taken notes.old) (N.taken notes.new)
        texts.now.note.items) }
    ensures order { OnErr result ((notes.new ≡ notes.old)
        ⊎ Appends (O.taken out.old) (O.taken out.new) texts.now.output.items) }
    ensures counts { CountsTwoSinks why.Failed (O.faults out.old) (O.faults out.new)
        (N.faults notes.old) (N.faults notes.new) result }
{
    match put_all(out, &texts.output) {
        Ok(()) => noted(notes, &texts.note, Status::Done),
        Err(error) => Err(error),
    }
}

/// Writes the canonical text of a model that was accepted.
fn check<O: Sink, N: Sink>(
    alloc: Global,
    tree: &Tree,
    sim: &Sim,
    out: &mut O,
    notes: &mut N,
) -> Result<Status, SinkErr>
    requires accepted { IsAccepted (pure_tree tree.now) sim.now }
    ensures all { IfOk result (λ s. (text : List ℕ) → SpellsText text (pure_tree tree.now)
        → WritesOutcome (Text Check text) s
        (O.taken out.old) (O.taken out.new) (N.taken notes.old) (N.taken notes.new)) }
    ensures part { OnErr result ((text : List ℕ) → SpellsText text (pure_tree tree.now)
        → WritesNothingOrFront (Text Check text)
        (O.taken out.old) (O.taken out.new) (N.taken notes.old) (N.taken notes.new)) }
    ensures counts { CountsTwoSinks why.Failed (O.faults out.old) (O.faults out.new)
        (N.faults notes.old) (N.faults notes.new) result }
{
    law_one_outcome();
    match check_texts(alloc, tree, sim) {
        Ok(texts) => put_texts(&texts, out, notes),
        Err(_) => Err(SinkErr::Memory),
    }
}

/// Writes the plans of a model that was accepted.
fn plan<O: Sink, N: Sink>(
    alloc: Global,
    tree: &Tree,
    sim: &Sim,
    out: &mut O,
    notes: &mut N,
) -> Result<Status, SinkErr>
    requires accepted { IsAccepted (pure_tree tree.now) sim.now }
    requires printable { IsPrintable sim.now }
    ensures all { IfOk result (λ s. (text : List ℕ) → SpellsText text (pure_tree tree.now)
        → WritesOutcome (Text Plan text) s
        (O.taken out.old) (O.taken out.new) (N.taken notes.old) (N.taken notes.new)) }
    ensures part { OnErr result ((text : List ℕ) → SpellsText text (pure_tree tree.now)
        → WritesNothingOrFront (Text Plan text)
        (O.taken out.old) (O.taken out.new) (N.taken notes.old) (N.taken notes.new)) }
    ensures counts { CountsTwoSinks why.Failed (O.faults out.old) (O.faults out.new)
        (N.faults notes.old) (N.faults notes.new) result }
{
    law_one_outcome();
    match plan_texts(alloc, sim) {
        Ok(texts) => put_texts(&texts, out, notes),
        Err(_) => Err(SinkErr::Memory),
    }
}

/// Does a job for a model that was accepted. A run has no use for the tree: what it held serves the run.
fn do_accepted<O: Sink, N: Sink>(
    alloc: Global,
    tree: Tree,
    sim: Sim,
    job: Settings,
    out: &mut O,
    notes: &mut N,
) -> Result<Status, SinkErr>
    requires model { is_model_job job ≡ true }
    requires within { IsWithin job }
    requires accepted { IsAcceptedTree (pure_tree tree) sim }
    requires printable { IsPrintable sim }
    ensures all { IfOk result (λ s. (text : List ℕ) → SpellsText text (pure_tree tree)
        → WritesOutcome (Text job text) s
        (O.taken out.old) (O.taken out.new) (N.taken notes.old) (N.taken notes.new)) }
    ensures part { OnErr result ((text : List ℕ) → SpellsText text (pure_tree tree)
        → WritesNothingOrFront (Text job text)
        (O.taken out.old) (O.taken out.new) (N.taken notes.old) (N.taken notes.new)) }
    ensures counts { CountsTwoSinks why.Failed (O.faults out.old) (O.faults out.new)
        (N.faults notes.old) (N.faults notes.new) result }
{
    law_first_fault();
    match job {
        Settings::Run(asked) => {
            drop(tree);
            run(alloc, sim, asked, out, notes)
        }
        Settings::Check => {
            let done = check(alloc, &tree, &sim, out, notes);
            mem::forget(tree);
            mem::forget(sim);
            done
        }
        Settings::Plan => {
            let done = plan(alloc, &tree, &sim, out, notes);
            mem::forget(tree);
            mem::forget(sim);
            done
        }
        Settings::Load { size, .. } => measure(alloc, sim, size, out),
        // `save` needs the text too, and the others have other texts.
        Settings::Save(..)
        | Settings::Drive(_)
        | Settings::Resume { .. }
        | Settings::Sample(_)
        | Settings::Stats { .. } => {
            drop(sim);
            Err(SinkErr::Memory)
        }
    }
}

/// Does a job for the model of a tree; or notes its first fault, and answers `Refused`.
fn do_tree<O: Sink, N: Sink>(
    alloc: Global,
    tree: Tree,
    job: Settings,
    out: &mut O,
    notes: &mut N,
) -> Result<Status, SinkErr>
    requires model { is_model_job job ≡ true }
    requires within { IsWithin job }
    requires kept { IsKept (pure_tree tree) }
    requires formed { IsFormed (pure_tree tree) }
    ensures all { IfOk result (λ s. (text : List ℕ) → SpellsText text (pure_tree tree)
        → WritesOutcome (Text job text) s
        (O.taken out.old) (O.taken out.new) (N.taken notes.old) (N.taken notes.new)) }
    ensures part { OnErr result ((text : List ℕ) → SpellsText text (pure_tree tree)
        → WritesNothingOrFront (Text job text)
        (O.taken out.old) (O.taken out.new) (N.taken notes.old) (N.taken notes.new)) }
    ensures counts { CountsTwoSinks why.Failed (O.faults out.old) (O.faults out.new)
        (N.faults notes.old) (N.faults notes.new) result }
{
    law_one_outcome();
    match elaborate_tree(alloc, &tree) {
        Ok(sim) => do_accepted(alloc, tree, sim, job, out, notes),
        Err(SimErr::Refused(fault)) => {
            mem::forget(tree);
            refuse(alloc, notes, fault)
        }
        Err(SimErr::Memory) => {
            drop(tree);
            Err(SinkErr::Memory)
        }
    }
}

/// Does a job for the model of a text; or notes the first fault of the text, and answers `Refused`.
fn do_text<O: Sink, N: Sink>(
    alloc: Global,
    text: &Vec<u8>,
    job: Settings,
    out: &mut O,
    notes: &mut N,
) -> Result<Status, SinkErr>
    requires text { length text.now.items ≤ longest_text }
    requires model { is_model_job job ≡ true }
    requires within { IsWithin job }
    ensures all { IfOk result (λ s. WritesOutcome (Text job text.now.items) s
        (O.taken out.old) (O.taken out.new) (N.taken notes.old) (N.taken notes.new)) }
    ensures part { OnErr result (WritesNothingOrFront (Text job text.now.items)
        (O.taken out.old) (O.taken out.new) (N.taken notes.old) (N.taken notes.new)) }
    ensures counts { CountsTwoSinks why.Failed (O.faults out.old) (O.faults out.new)
        (N.faults notes.old) (N.faults notes.new) result }
{
    law_one_outcome();
    match parse(alloc, text) {
        Ok(tree) => do_tree(alloc, tree, job, out, notes),
        Err(refused) => match first_fault(refused) {
            Some(fault) => refuse(alloc, notes, fault),
            None => Err(SinkErr::Memory),
        },
    }
}

/// Does a job for its text.
fn do_job<O: Sink, N: Sink>(
    alloc: Global,
    text: &Vec<u8>,
    job: Settings,
    out: &mut O,
    notes: &mut N,
) -> Result<Status, SinkErr>
    requires text { length text.now.items ≤ most_bytes job }
    requires within { IsWithin job }
    ensures all { IfOk result (λ s. WritesOutcome (Text job text.now.items) s
        (O.taken out.old) (O.taken out.new) (N.taken notes.old) (N.taken notes.new)) }
    ensures part { OnErr result (WritesNothingOrFront (Text job text.now.items)
        (O.taken out.old) (O.taken out.new) (N.taken notes.old) (N.taken notes.new)) }
    ensures counts { CountsTwoSinks why.Failed (O.faults out.old) (O.faults out.new)
        (N.faults notes.old) (N.faults notes.new) result }
{
    match job {
        Settings::Drive(asked) => drive(alloc, text, asked, out, notes),
        Settings::Save(part, asked) => save(alloc, text, part, asked, out, notes),
        Settings::Resume { stop } => resume(alloc, text, stop, out, notes),
        Settings::Sample(choice) => sample(alloc, text, choice, out, notes),
        Settings::Stats { window } => stats(alloc, text, window, out, notes),
        _ => do_text(alloc, text, job, out, notes),
    }
}

/// Does what came of the words and of reading asks for: writes the output and the notes, and answers the status.
pub(crate) fn finish<O: Sink, N: Sink>(
    alloc: Global,
    input: &Input,
    out: &mut O,
    notes: &mut N,
) -> Result<Status, SinkErr>
    requires { IsReady (reading input.now) }
    ensures all { IfOk result (λ s. WritesOutcome (reading input.now) s
        (O.taken out.old) (O.taken out.new) (N.taken notes.old) (N.taken notes.new)) }
    ensures part { OnErr result (WritesNothingOrFront (reading input.now)
        (O.taken out.old) (O.taken out.new) (N.taken notes.old) (N.taken notes.new)) }
    ensures counts { CountsTwoSinks why.Failed (O.faults out.old) (O.faults out.new)
        (N.faults notes.old) (N.faults notes.new) result }
    ensures cut { reading input.now ≡ NoMemory → result ≡ Err why.Memory }
{
    law_one_outcome();
    match input {
        Input::BadWords => noted(notes, b"usage\n", Status::Usage),
        Input::Text(job, text) => do_job(alloc, text, *job, out, notes),
        Input::TooLong => noted(notes, b"too long\n", Status::TooLong),
        Input::ReadFault => noted(notes, b"read fault\n", Status::ReadFault),
        Input::NoMemory => Err(SinkErr::Memory),
    }
}
