//! Values of event signals, and cells of instances of blocks, of a saved text, read exactly.

ghost use Rattle.std.specs.Fmt.{signed_decimal};
ghost use Rattle.std.specs.List.{AllByRecursion, AllZip};
ghost use Rattle.std.specs.Prelude.{◌≡◌, ◌∷◌, true, false, IfErr, IfOk, IfSome, None, codes, length, map};
ghost use Rattle.tdf_save.specs.Members.{AreNums, IsNum};
ghost use Rattle.tdf_save.specs.Text.{each_text, saved_block, saved_line, saved_value};
ghost use Rattle.tdf_save.specs.machine.Pieces.{Any};
ghost use Rattle.tdf_save_reading.specs.machine.Pieces.{IsPiece, IsStateRefusal, NoPiece};

use crate::lists::{put, read_nums};
use crate::numbers::{cut_path, last_num};
use std::alloc::Global;
use tdf_save::BlockMembers;
use tdf_saved::StateErr;

/// The value of an event signal.
fn read_value<'t>(path: &[u8], text: &'t [u8]) -> Option<(i128, &'t [u8])>
    ensures is { IfSome result (λ p. IsPiece (saved_value path.now) IsNum Any text.entry.now p.0 p.1.now) }
    ensures none { result ≡ None → NoPiece (saved_value path.now) IsNum Any text.entry.now }
{
    match cut_path(text, b"value", path) {
        Some(rest) => match last_num(rest) {
            Some((num, left)) => Some((num, left)),
            None => None,
        },
        None => None,
    }
}

/// The values of event signals.
pub(crate) fn read_values<'t>(
    alloc: Global,
    paths: &[Vec<u8>],
    text: &'t [u8],
) -> Result<(Vec<i128>, &'t [u8]), StateErr>
    ensures is { IfOk result (λ p. IsPiece (each_text saved_value (map (λ z. z.items) paths.now))
        (AllZip (λ path num. IsNum num) (map (λ z. z.items) paths.now)) Any
        text.entry.now p.0.items p.1.now) }
    ensures refused { IfErr result (IsStateRefusal
        (NoPiece (each_text saved_value (map (λ z. z.items) paths.now))
        (AllZip (λ path num. IsNum num) (map (λ z. z.items) paths.now)) Any text.entry.now)) }
{
    let mut list = Vec::new(alloc);
    let mut rest = text;
    for k in 0..paths.len() {
        match read_value(&paths[k], rest) {
            Some((num, left)) => {
                put(&mut list, num)?;
                rest = left;
            }
            None => return Err(StateErr::Bad),
        }
    }
    Ok((list, rest))
}

/// The cells of an instance, whatever their count.
fn read_cells<'t>(
    alloc: Global,
    path: &[u8],
    text: &'t [u8],
) -> Result<(Vec<i128>, &'t [u8]), StateErr>
    ensures is { IfOk result (λ p.
        IsPiece (λ nums. saved_line (codes "block") (path.now ∷ map signed_decimal nums)) (AllByRecursion IsNum) Any
        text.entry.now p.0.items p.1.now) }
    ensures refused { IfErr result (IsStateRefusal
        (NoPiece (λ nums. saved_line (codes "block") (path.now ∷ map signed_decimal nums)) (AllByRecursion IsNum) Any text.entry.now)) }
{
    match cut_path(text, b"block", path) {
        Some(rest) => match read_nums(alloc, rest) {
            Ok((nums, left)) => Ok((nums, left)),
            Err(why) => Err(why),
        },
        None => Err(StateErr::Bad),
    }
}

fn has_cells(member: &BlockMembers, nums: &[i128]) -> bool
    ensures yes { result ≡ true → length nums.now ≡ member.now.cells }
    ensures no { result ≡ false → length nums.now ≡ member.now.cells → ⊥ }
{
    nums.len() == member.cells
}

/// The cells of an instance.
fn read_block<'t>(
    alloc: Global,
    member: &BlockMembers,
    text: &'t [u8],
) -> Result<(Vec<i128>, &'t [u8]), StateErr>
    ensures is { IfOk result (λ p.
        IsPiece (saved_block member.now) (λ nums. AreNums member.now.cells nums) Any text.entry.now p.0.items p.1.now) }
    ensures refused { IfErr result (IsStateRefusal
        (NoPiece (saved_block member.now) (λ nums. AreNums member.now.cells nums) Any text.entry.now)) }
{
    match read_cells(alloc, &member.path, text) {
        Ok((nums, rest)) => {
            if !has_cells(member, &nums) {
                return Err(StateErr::Bad);
            }
            Ok((nums, rest))
        }
        Err(why) => Err(why),
    }
}

/// The cells of instances.
pub(crate) fn read_blocks<'t>(
    alloc: Global,
    members: &[BlockMembers],
    text: &'t [u8],
) -> Result<(Vec<Vec<i128>>, &'t [u8]), StateErr>
    ensures is { IfOk result (λ p. IsPiece (each_text saved_block members.now)
        (AllZip (λ b nums. AreNums b.cells nums) members.now) Any
        text.entry.now (map (λ z. z.items) p.0.items) p.1.now) }
    ensures refused { IfErr result (IsStateRefusal
        (NoPiece (each_text saved_block members.now)
        (AllZip (λ b nums. AreNums b.cells nums) members.now) Any text.entry.now)) }
{
    let mut list = Vec::new(alloc);
    let mut rest = text;
    for k in 0..members.len() {
        match read_block(alloc, &members[k], rest) {
            Ok((nums, left)) => {
                put(&mut list, nums)?;
                rest = left;
            }
            Err(why) => return Err(why),
        }
    }
    Ok((list, rest))
}
