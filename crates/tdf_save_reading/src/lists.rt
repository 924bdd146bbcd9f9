//! Lists of numbers of a saved text, up to the end of their line.

ghost use Rattle.std.specs.Fmt.{signed_decimal};
ghost use Rattle.std.specs.List.{AllByRecursion};
ghost use Rattle.std.specs.Prelude.{◌≡◌, ◌++◌, ◌∷◌, [], true, false, IfErr, IfOk, OnOk, decimal, map};
ghost use Rattle.tdf_save.specs.Members.{IsCount32, IsCount64, IsNum};
ghost use Rattle.tdf_save.specs.Text.{saved_line};
ghost use Rattle.tdf_save_reading.specs.machine.Lists.{list_text};
ghost use Rattle.tdf_save.specs.machine.Pieces.{Any, IsNext, begins_with_byte};
ghost use Rattle.tdf_save_reading.specs.machine.Pieces.{IsPiece, IsStateRefusal, NoPiece, IsWant};

use crate::numbers::{cut, spaced_count, spaced_num, spaced_rate};
use std::alloc::Global;
use tdf_saved::StateErr;

/// Whether a text begins with a byte.
pub(crate) fn begins_with(text: &[u8], byte: u8) -> bool
    ensures { result ≡ begins_with_byte byte text.now }
{
    match text {
        [] => false,
        [first, ..] => *first == byte,
    }
}

/// Whether neither a sample, nor a later one, nor a notification begins a text.
pub(crate) fn is_next(text: &[u8]) -> bool
    ensures yes { result ≡ true → IsNext text.now }
    ensures no { result ≡ false → IsNext text.now → ⊥ }
{
    !begins_with(text, b's') && !begins_with(text, b'l') && !begins_with(text, b'p')
}

/// One item more.
pub(crate) fn put<T: Drop>(list: &mut Vec<T>, item: T) -> Result<(), StateErr>
    ensures put { OnOk result (list.new.items ≡ list.old.items ++ item ∷ []) }
    ensures memory { IfErr result IsWant }
{
    match list.push(item) {
        Ok(()) => Ok(()),
        Err(_) => Err(StateErr::Memory),
    }
}

/// Numbers, each after one space, up to the end of the line.
pub(crate) fn read_rates<'t>(
    alloc: Global,
    text: &'t [u8],
) -> Result<(Vec<u32>, &'t [u8]), StateErr>
    ensures is { IfOk result (λ p.
        IsPiece (list_text decimal) (AllByRecursion IsCount32) Any text.entry.now p.0.items p.1.now) }
    ensures refused { IfErr result (IsStateRefusal
        (NoPiece (list_text decimal) (AllByRecursion IsCount32) Any text.entry.now)) }
{
    let mut list = Vec::new(alloc);
    let mut rest = text;
    while begins_with(rest, b' ') {
        match spaced_rate(rest) {
            Some((number, left)) => {
                put(&mut list, number)?;
                rest = left;
            }
            None => return Err(StateErr::Bad),
        }
    }
    match cut(rest, b"\n") {
        Some(left) => Ok((list, left)),
        None => Err(StateErr::Bad),
    }
}

/// Numbers, each after one space, up to the end of the line.
pub(crate) fn read_steps<'t>(
    alloc: Global,
    text: &'t [u8],
) -> Result<(Vec<u64>, &'t [u8]), StateErr>
    ensures is { IfOk result (λ p.
        IsPiece (list_text decimal) (AllByRecursion IsCount64) Any text.entry.now p.0.items p.1.now) }
    ensures refused { IfErr result (IsStateRefusal
        (NoPiece (list_text decimal) (AllByRecursion IsCount64) Any text.entry.now)) }
{
    let mut list = Vec::new(alloc);
    let mut rest = text;
    while begins_with(rest, b' ') {
        match spaced_count(rest) {
            Some((number, left)) => {
                put(&mut list, number)?;
                rest = left;
            }
            None => return Err(StateErr::Bad),
        }
    }
    match cut(rest, b"\n") {
        Some(left) => Ok((list, left)),
        None => Err(StateErr::Bad),
    }
}

/// Numbers, each after one space, up to the end of the line.
pub(crate) fn read_nums<'t>(
    alloc: Global,
    text: &'t [u8],
) -> Result<(Vec<i128>, &'t [u8]), StateErr>
    ensures is { IfOk result (λ p.
        IsPiece (list_text signed_decimal) (AllByRecursion IsNum) Any text.entry.now p.0.items p.1.now) }
    ensures refused { IfErr result (IsStateRefusal
        (NoPiece (list_text signed_decimal) (AllByRecursion IsNum) Any text.entry.now)) }
{
    let mut list = Vec::new(alloc);
    let mut rest = text;
    while begins_with(rest, b' ') {
        match spaced_num(rest) {
            Some((number, left)) => {
                put(&mut list, number)?;
                rest = left;
            }
            None => return Err(StateErr::Bad),
        }
    }
    match cut(rest, b"\n") {
        Some(left) => Ok((list, left)),
        None => Err(StateErr::Bad),
    }
}

/// A line of numbers, which begins with these bytes.
pub(crate) fn rates_line<'t>(
    alloc: Global,
    keyword: &[u8],
    text: &'t [u8],
) -> Result<(Vec<u32>, &'t [u8]), StateErr>
    ensures is { IfOk result (λ p. IsPiece (λ us. saved_line keyword.now (map decimal us)) (AllByRecursion IsCount32) Any
        text.entry.now p.0.items p.1.now) }
    ensures refused { IfErr result (IsStateRefusal
        (NoPiece (λ us. saved_line keyword.now (map decimal us)) (AllByRecursion IsCount32) Any text.entry.now)) }
{
    match cut(text, keyword) {
        Some(rest) => match read_rates(alloc, rest) {
            Ok((list, left)) => Ok((list, left)),
            Err(why) => Err(why),
        },
        None => Err(StateErr::Bad),
    }
}

/// A line of numbers, which begins with these bytes.
pub(crate) fn steps_line<'t>(
    alloc: Global,
    keyword: &[u8],
    text: &'t [u8],
) -> Result<(Vec<u64>, &'t [u8]), StateErr>
    ensures is { IfOk result (λ p. IsPiece (λ us. saved_line keyword.now (map decimal us)) (AllByRecursion IsCount64) Any
        text.entry.now p.0.items p.1.now) }
    ensures refused { IfErr result (IsStateRefusal
        (NoPiece (λ us. saved_line keyword.now (map decimal us)) (AllByRecursion IsCount64) Any text.entry.now)) }
{
    match cut(text, keyword) {
        Some(rest) => match read_steps(alloc, rest) {
            Ok((list, left)) => Ok((list, left)),
            Err(why) => Err(why),
        },
        None => Err(StateErr::Bad),
    }
}

/// A line of numbers, which begins with these bytes.
pub(crate) fn nums_line<'t>(
    alloc: Global,
    keyword: &[u8],
    text: &'t [u8],
) -> Result<(Vec<i128>, &'t [u8]), StateErr>
    ensures is { IfOk result (λ p. IsPiece (λ us. saved_line keyword.now (map signed_decimal us)) (AllByRecursion IsNum) Any
        text.entry.now p.0.items p.1.now) }
    ensures refused { IfErr result (IsStateRefusal
        (NoPiece (λ us. saved_line keyword.now (map signed_decimal us)) (AllByRecursion IsNum) Any text.entry.now)) }
{
    match cut(text, keyword) {
        Some(rest) => match read_nums(alloc, rest) {
            Ok((list, left)) => Ok((list, left)),
            Err(why) => Err(why),
        },
        None => Err(StateErr::Bad),
    }
}
