//! All checks of a text, in their order.

ghost use Rattle.std.specs.Prelude.{◌≡◌, ◌≤◌, ◌⊎◌, [], Err, IfErr, IfOk, OnOk, length};
ghost use Rattle.tdf_base.specs.declared.faults.Fault.{Fault};
ghost use Rattle.tdf_base.specs.Limits.{longest_text};
ghost use Rattle.tdf_lang_parser.specs.Formed.{IsFormed};
ghost use Rattle.tdf_lang_parser.specs.Refused.{IsWhy, SpellsText};
ghost use Rattle.tdf_expr.specs.Checked.{IsCheckedOf};
ghost use Rattle.tdf_bind.specs.Flat.{IsFlatOf};
ghost use Rattle.tdf_expr_names.specs.Names.{name_faults};
ghost use Rattle.tdf_sim.specs.Accepted.{IsAccepted, IsAcceptedText, IsEarlyRefusal, IsTextRefusal, IsTreeRefusal};
ghost use Rattle.tdf_sim.specs.FirstFault.{HasFlat, HasSoundLines, IsEarlyFault, IsFirstFault, IsTreeFault, on_line};
ghost use Rattle.tdf_dynamic_first.specs.First.{IsPlannable};
ghost use Rattle.tdf_sim.specs.PlanText.{IsPrintable};
ghost use Rattle.tdf_sim.specs.Runs.{IsAcceptedTree, IsSomeAccepted};
ghost use Rattle.tdf_sim.specs.declared.err.SimErr.TheVariants as why;
ghost use Rattle.tdf_sim.specs.machine.Steps.{by_line, by_parser};
ghost use Rattle.tdf_lang_tree.specs.Kept.{IsKept};
ghost use Rattle.tdf_lang_tree.specs.Views.{pure_tree};

use crate::err::SimErr;
use crate::laws::{law_early_fault, law_first_fault, law_tree_fault};
use crate::sim::Sim;
use std::alloc::Global;
use tdf_base::{Code, Fault, Place, TypeErr};
use tdf_bind::{Flat, flatten};
use tdf_bind_tables::BindErr;
use tdf_dynamic_first::law_plannable;
use tdf_expr::{Checked, check_bodies};
use tdf_expr_names::check_names;
use tdf_lang_parser::{LangErr, parse};
use tdf_lang_tree::Tree;

/// A fault of a line.
fn on_line(code: Code, line: u32) -> Fault
    ensures { result ≡ on_line code line }
{
    Fault {
        code,
        place: Place::Line(line),
    }
}

/// What a check by line answered.
fn by_line(error: TypeErr) -> SimErr
    ensures { result ≡ by_line error }
{
    match error {
        TypeErr::Line { code, line } => SimErr::Refused(on_line(code, line)),
        TypeErr::Memory => SimErr::Memory,
    }
}

/// What the parser answered.
fn by_parser(error: LangErr) -> SimErr
    ensures { result ≡ by_parser error }
{
    match error {
        LangErr::Byte { line } => SimErr::Refused(on_line(Code::Byte, line)),
        LangErr::LongLine { line } => SimErr::Refused(on_line(Code::LongLine, line)),
        LangErr::Syntax { line } => SimErr::Refused(on_line(Code::Syntax, line)),
        LangErr::Memory => SimErr::Memory,
    }
}

/// The bodies of a tree without a fault of names.
///
/// # Errors
/// The first fault of types and bodies, or out of memory.
fn bodies(alloc: Global, tree: &Tree) -> Result<Checked, SimErr>
    requires kept { IsKept (pure_tree tree.now) }
    requires names { name_faults (pure_tree tree.now) ≡ [] }
    ensures sound { OnOk result (HasSoundLines (pure_tree tree.now)) }
    ensures checked { IfOk result (IsCheckedOf (pure_tree tree.now)) }
    ensures refused { IfErr result (IsEarlyRefusal (pure_tree tree.now)) }
{
    match check_bodies(alloc, tree) {
        Ok(checked) => Ok(checked),
        Err(error) => Err(by_line(error)),
    }
}

/// The bodies of a tree.
///
/// # Errors
/// The first fault of names, else of types and bodies; or out of memory.
fn sound(alloc: Global, tree: &Tree) -> Result<Checked, SimErr>
    requires kept { IsKept (pure_tree tree.now) }
    ensures sound { OnOk result (HasSoundLines (pure_tree tree.now)) }
    ensures checked { IfOk result (IsCheckedOf (pure_tree tree.now)) }
    ensures refused { IfErr result (IsEarlyRefusal (pure_tree tree.now)) }
{
    match check_names(alloc, tree) {
        Ok(()) => bodies(alloc, tree),
        Err(error) => Err(by_line(error)),
    }
}

/// The flat model of a tree.
///
/// # Errors
/// The first fault of names, else of types and bodies, else of binding; or out of memory.
fn bound(alloc: Global, tree: &Tree) -> Result<Flat, SimErr>
    requires kept { IsKept (pure_tree tree.now) }
    requires formed { IsFormed (pure_tree tree.now) }
    ensures sound { OnOk result (HasSoundLines (pure_tree tree.now)) }
    ensures flat { IfOk result (IsFlatOf (pure_tree tree.now)) }
    ensures plannable { IfOk result IsPlannable }
    ensures refused { IfErr result (IsEarlyRefusal (pure_tree tree.now)) }
{
    law_plannable();
    let checked = sound(alloc, tree)?;
    match flatten(alloc, tree, checked) {
        Ok(flat) => Ok(flat),
        Err(BindErr::Refused(fault)) => Err(SimErr::Refused(fault)),
        Err(BindErr::Memory) => Err(SimErr::Memory),
    }
}

/// Whether a tree has no fault before its clusters are planned. Nothing is kept.
///
/// # Errors
/// The first fault of the tree: of names, else of types and bodies, else of binding; or out of memory.
pub fn check_tree(alloc: Global, tree: &Tree) -> Result<(), SimErr>
    requires kept { IsKept (pure_tree tree.now) }
    requires formed { IsFormed (pure_tree tree.now) }
    ensures flat { OnOk result (HasFlat (pure_tree tree.now)) }
    ensures refused { IfErr result (IsEarlyRefusal (pure_tree tree.now)) }
    ensures always { (fault : Fault) → IsEarlyFault (pure_tree tree.now) fault
        → (result ≡ Err (why.Refused fault)) ⊎ (result ≡ Err why.Memory) }
{
    law_early_fault();
    match bound(alloc, tree) {
        Ok(flat) => {
            drop(flat);
            Ok(())
        }
        Err(error) => Err(error),
    }
}

/// The model of a tree that has no fault.
///
/// # Errors
/// The first fault of the tree: of names, else of types and bodies, else of binding, else of its clusters in order; or out of memory.
pub fn elaborate_tree(alloc: Global, tree: &Tree) -> Result<Sim, SimErr>
    requires kept { IsKept (pure_tree tree.now) }
    requires formed { IsFormed (pure_tree tree.now) }
    ensures accepted { IfOk result (IsAccepted (pure_tree tree.now)) }
    ensures of { IfOk result (IsAcceptedTree (pure_tree tree.now)) }
    ensures printable { IfOk result IsPrintable }
    ensures refused { IfErr result (IsTreeRefusal (pure_tree tree.now)) }
    ensures always { (fault : Fault) → IsTreeFault (pure_tree tree.now) fault
        → (result ≡ Err (why.Refused fault)) ⊎ (result ≡ Err why.Memory) }
{
    law_tree_fault();
    match bound(alloc, tree) {
        Ok(flat) => Sim::new(alloc, flat),
        Err(error) => Err(error),
    }
}

/// The model of a text that has no fault.
///
/// # Errors
/// The first fault of the text, or out of memory.
pub fn elaborate(alloc: Global, text: &[u8]) -> Result<Sim, SimErr>
    requires { length text.now ≤ longest_text }
    ensures accepted { IfOk result (IsAcceptedText text.now) }
    ensures printable { IfOk result IsPrintable }
    ensures runs { IfOk result IsSomeAccepted }
    ensures refused { IfErr result (IsTextRefusal text.now) }
    ensures always { (fault : Fault) → IsFirstFault text.now fault
        → (result ≡ Err (why.Refused fault)) ⊎ (result ≡ Err why.Memory) }
{
    law_first_fault();
    match parse(alloc, text) {
        Ok(tree) => elaborate_tree(alloc, &tree),
        Err(error) => Err(by_parser(error)),
    }
}
