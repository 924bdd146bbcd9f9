//! Modules of a saved text, read exactly.

ghost use Rattle.std.specs.List.{AllByRecursion, AllZip};
ghost use Rattle.std.specs.Prelude.{◌≡◌, ◌∷◌, [], true, false, IfErr, IfOk, IfSome, None, codes, map};
ghost use Rattle.tdf_save.specs.Members.{IsModuleFor, IsNum};
ghost use Rattle.tdf_save.specs.Text.{accept_word, each_text, saved_edge, saved_module, saved_line};
ghost use Rattle.tdf_save_reading.specs.machine.Modules.{HasCounts, IsModuleInRange};
ghost use Rattle.tdf_save.specs.machine.Pieces.{Any, AnyFlag};
ghost use Rattle.tdf_save_reading.specs.machine.Pieces.{IsPiece, IsStateRefusal, NoPiece};

use crate::lists::{nums_line, put, rates_line, read_nums, steps_line};
use crate::numbers::{cut_path, last_flag};
use std::alloc::Global;
use tdf_save::ModuleMembers;
use tdf_saved::{ModuleState, StateErr};

/// Whether the module accepts changes.
fn read_title<'t>(path: &[u8], text: &'t [u8]) -> Option<(bool, &'t [u8])>
    ensures is { IfSome result (λ p.
        IsPiece (λ flag. saved_line (codes "module") (path.now ∷ (accept_word flag ∷ []))) AnyFlag Any text.entry.now p.0 p.1.now) }
    ensures none { result ≡ None
        → NoPiece (λ flag. saved_line (codes "module") (path.now ∷ (accept_word flag ∷ []))) AnyFlag Any text.entry.now }
{
    match cut_path(text, b"module", path) {
        Some(rest) => match last_flag(rest) {
            Some((flag, left)) => Some((flag, left)),
            None => None,
        },
        None => None,
    }
}

/// The samples of an edge.
pub(crate) fn read_edge<'t>(
    alloc: Global,
    path: &[u8],
    text: &'t [u8],
) -> Result<(Vec<i128>, &'t [u8]), StateErr>
    ensures is { IfOk result (λ p.
        IsPiece (saved_edge path.now) (AllByRecursion IsNum) Any text.entry.now p.0.items p.1.now) }
    ensures refused { IfErr result (IsStateRefusal
        (NoPiece (saved_edge path.now) (AllByRecursion IsNum) Any text.entry.now)) }
{
    match cut_path(text, b"edge", path) {
        Some(rest) => match read_nums(alloc, rest) {
            Ok((nums, left)) => Ok((nums, left)),
            Err(why) => Err(why),
        },
        None => Err(StateErr::Bad),
    }
}

/// The state of a module, whatever its counts.
fn read_lines<'t>(
    alloc: Global,
    member: &ModuleMembers,
    text: &'t [u8],
) -> Result<(ModuleState, &'t [u8]), StateErr>
    ensures is { IfOk result (λ p.
        IsPiece (saved_module member.now) IsModuleInRange Any text.entry.now p.0 p.1.now) }
    ensures refused { IfErr result (IsStateRefusal
        (NoPiece (saved_module member.now) IsModuleInRange Any text.entry.now)) }
{
    let Some((accept, after)) = read_title(&member.path, text) else {
        return Err(StateErr::Bad);
    };
    match rates_line(alloc, b"rates", after) {
        Ok((rates, after)) => match steps_line(alloc, b"steps", after) {
            Ok((steps, after)) => match nums_line(alloc, b"cells", after) {
                Ok((cells, rest)) => Ok((
                    ModuleState {
                        accept,
                        rates,
                        steps,
                        cells,
                    },
                    rest,
                )),
                Err(why) => Err(why),
            },
            Err(why) => Err(why),
        },
        Err(why) => Err(why),
    }
}

fn has_counts(member: &ModuleMembers, state: &ModuleState) -> bool
    ensures yes { result ≡ true → HasCounts member.now state.now }
    ensures no { result ≡ false → HasCounts member.now state.now → ⊥ }
{
    state.rates.len() == member.rates
        && state.steps.len() == member.steps
        && state.cells.len() == member.cells
}

/// The state of a module.
fn read_module<'t>(
    alloc: Global,
    member: &ModuleMembers,
    text: &'t [u8],
) -> Result<(ModuleState, &'t [u8]), StateErr>
    ensures is { IfOk result (λ p.
        IsPiece (saved_module member.now) (IsModuleFor member.now) Any text.entry.now p.0 p.1.now) }
    ensures refused { IfErr result (IsStateRefusal
        (NoPiece (saved_module member.now) (IsModuleFor member.now) Any text.entry.now)) }
{
    match read_lines(alloc, member, text) {
        Ok((state, rest)) => {
            if !has_counts(member, &state) {
                return Err(StateErr::Bad);
            }
            Ok((state, rest))
        }
        Err(why) => Err(why),
    }
}

/// The states of modules.
pub(crate) fn read_modules<'t>(
    alloc: Global,
    members: &[ModuleMembers],
    text: &'t [u8],
) -> Result<(Vec<ModuleState>, &'t [u8]), StateErr>
    ensures is { IfOk result (λ p. IsPiece (each_text saved_module members.now)
        (AllZip IsModuleFor members.now) Any text.entry.now p.0.items p.1.now) }
    ensures refused { IfErr result (IsStateRefusal
        (NoPiece (each_text saved_module members.now) (AllZip IsModuleFor members.now) Any text.entry.now)) }
{
    let mut list = Vec::new(alloc);
    let mut rest = text;
    for k in 0..members.len() {
        match read_module(alloc, &members[k], rest) {
            Ok((state, left)) => {
                put(&mut list, state)?;
                rest = left;
            }
            Err(why) => return Err(why),
        }
    }
    Ok((list, rest))
}

/// The samples of edges.
pub(crate) fn read_edges<'t>(
    alloc: Global,
    paths: &[Vec<u8>],
    text: &'t [u8],
) -> Result<(Vec<Vec<i128>>, &'t [u8]), StateErr>
    ensures is { IfOk result (λ p. IsPiece (each_text saved_edge (map (λ z. z.items) paths.now))
        (AllZip (λ path nums. AllByRecursion IsNum nums) (map (λ z. z.items) paths.now)) Any
        text.entry.now (map (λ z. z.items) p.0.items) p.1.now) }
    ensures refused { IfErr result (IsStateRefusal
        (NoPiece (each_text saved_edge (map (λ z. z.items) paths.now))
        (AllZip (λ path nums. AllByRecursion IsNum nums) (map (λ z. z.items) paths.now)) Any text.entry.now)) }
{
    let mut list = Vec::new(alloc);
    let mut rest = text;
    for k in 0..paths.len() {
        match read_edge(alloc, &paths[k], rest) {
            Ok((nums, left)) => {
                put(&mut list, nums)?;
                rest = left;
            }
            Err(why) => return Err(why),
        }
    }
    Ok((list, rest))
}
