//! Columns of a saved text, read exactly.

ghost use Rattle.std.specs.Fmt.{signed_decimal};
ghost use Rattle.std.specs.List.{AllByRecursion, AllZip, flat_map};
ghost use Rattle.std.specs.Prelude.{◌≡◌, ◌++◌, ◌∷◌, [], true, false, IfErr, IfOk, IfSome, None, codes, map};
ghost use Rattle.tdf_save.specs.Members.{IsColumnInRange, IsNum, IsStampInRange};
ghost use Rattle.tdf_save.specs.Text.{carry_word, each_text, saved_column, saved_later, saved_line, saved_sample};
ghost use Rattle.tdf_save.specs.machine.Pieces.{Any, IsNext, begins_with_byte};
ghost use Rattle.tdf_save_reading.specs.machine.Pieces.{HasCarry, IsPiece, IsStateRefusal, NoPiece, NoSample};

use crate::lists::{begins_with, is_next, put};
use crate::numbers::{cut, cut_path, last_num, spaced_count};
use std::alloc::Global;
use tdf_saved::{ColumnState, Stamp, StateErr};

/// A number at its time.
fn read_sample<'t>(text: &'t [u8]) -> Option<(Stamp, &'t [u8])>
    ensures is { IfSome result (λ p. IsPiece saved_sample IsStampInRange Any text.entry.now p.0 p.1.now) }
    ensures none { result ≡ None → NoPiece saved_sample IsStampInRange Any text.entry.now }
{
    let Some(words) = cut(text, b"sample") else {
        return None;
    };
    let Some((time, last)) = spaced_count(words) else {
        return None;
    };
    match last_num(last) {
        Some((num, rest)) => Some((Stamp { time, num }, rest)),
        None => None,
    }
}

/// Numbers at their times.
fn read_samples<'t>(alloc: Global, text: &'t [u8]) -> Result<(Vec<Stamp>, &'t [u8]), StateErr>
    ensures is { IfOk result (λ p.
        IsPiece (flat_map saved_sample) (AllByRecursion IsStampInRange) NoSample text.entry.now p.0.items p.1.now) }
    ensures refused { IfErr result (IsStateRefusal
        (NoPiece (flat_map saved_sample) (AllByRecursion IsStampInRange) NoSample text.entry.now)) }
{
    let mut list = Vec::new(alloc);
    let mut rest = text;
    while begins_with(rest, b's') {
        match read_sample(rest) {
            Some((stamp, left)) => {
                put(&mut list, stamp)?;
                rest = left;
            }
            None => return Err(StateErr::Bad),
        }
    }
    Ok((list, rest))
}

/// A number whose time isn't known yet.
fn read_later<'t>(text: &'t [u8]) -> Option<(i128, &'t [u8])>
    ensures is { IfSome result (λ p. IsPiece saved_later IsNum Any text.entry.now p.0 p.1.now) }
    ensures none { result ≡ None → NoPiece saved_later IsNum Any text.entry.now }
{
    match cut(text, b"later") {
        Some(rest) => match last_num(rest) {
            Some((num, left)) => Some((num, left)),
            None => None,
        },
        None => None,
    }
}

/// Numbers whose times aren't known yet, up to what may come after a column.
fn read_laters<'t>(alloc: Global, text: &'t [u8]) -> Result<(Vec<i128>, &'t [u8]), StateErr>
    ensures is { IfOk result (λ p.
        IsPiece (flat_map saved_later) (AllByRecursion IsNum) IsNext text.entry.now p.0.items p.1.now) }
    ensures refused { IfErr result (IsStateRefusal
        (NoPiece (flat_map saved_later) (AllByRecursion IsNum) IsNext text.entry.now)) }
{
    let mut list = Vec::new(alloc);
    let mut rest = text;
    while begins_with(rest, b'l') {
        match read_later(rest) {
            Some((num, left)) => {
                put(&mut list, num)?;
                rest = left;
            }
            None => return Err(StateErr::Bad),
        }
    }
    if is_next(rest) {
        return Ok((list, rest));
    }
    Err(StateErr::Bad)
}

/// A space, a number or `-`, and the end of the line.
fn read_carry<'t>(text: &'t [u8]) -> Option<(Option<i128>, &'t [u8])>
    ensures is { IfSome result (λ p.
        IsPiece (λ carry. (32 ∷ carry_word carry) ++ 10 ∷ []) HasCarry Any text.entry.now p.0 p.1.now) }
    ensures none { result ≡ None
        → NoPiece (λ carry. (32 ∷ carry_word carry) ++ 10 ∷ []) HasCarry Any text.entry.now }
{
    if let Some(rest) = cut(text, b" -\n") {
        return Some((None, rest));
    }
    match last_num(text) {
        Some((num, rest)) => Some((Some(num), rest)),
        None => None,
    }
}

/// What a column shows before all else.
fn read_front<'t>(label: &[u8], text: &'t [u8]) -> Option<(Option<i128>, &'t [u8])>
    ensures is { IfSome result (λ p.
        IsPiece (λ carry. saved_line (codes "column") (label.now ∷ (carry_word carry ∷ []))) HasCarry Any
        text.entry.now p.0 p.1.now) }
    ensures none { result ≡ None
        → NoPiece (λ carry. saved_line (codes "column") (label.now ∷ (carry_word carry ∷ []))) HasCarry Any text.entry.now }
{
    match cut_path(text, b"column", label) {
        Some(rest) => match read_carry(rest) {
            Some((carry, left)) => Some((carry, left)),
            None => None,
        },
        None => None,
    }
}

/// The state of a column.
fn read_column<'t>(
    alloc: Global,
    label: &[u8],
    text: &'t [u8],
) -> Result<(ColumnState, &'t [u8]), StateErr>
    ensures is { IfOk result (λ p.
        IsPiece (saved_column label.now) IsColumnInRange IsNext text.entry.now p.0 p.1.now) }
    ensures refused { IfErr result (IsStateRefusal
        (NoPiece (saved_column label.now) IsColumnInRange IsNext text.entry.now)) }
{
    let Some((carry, after)) = read_front(label, text) else {
        return Err(StateErr::Bad);
    };
    match read_samples(alloc, after) {
        Ok((samples, after)) => match read_laters(alloc, after) {
            Ok((later, rest)) => Ok((
                ColumnState {
                    carry,
                    samples,
                    later,
                },
                rest,
            )),
            Err(why) => Err(why),
        },
        Err(why) => Err(why),
    }
}

/// The states of columns.
pub(crate) fn read_columns<'t>(
    alloc: Global,
    labels: &[Vec<u8>],
    text: &'t [u8],
) -> Result<(Vec<ColumnState>, &'t [u8]), StateErr>
    requires next { IsNext text.now }
    ensures is { IfOk result (λ p. IsPiece (each_text saved_column (map (λ z. z.items) labels.now))
        (AllZip (λ label s. IsColumnInRange s) (map (λ z. z.items) labels.now)) IsNext
        text.entry.now p.0.items p.1.now) }
    ensures refused { IfErr result (IsStateRefusal
        (NoPiece (each_text saved_column (map (λ z. z.items) labels.now))
        (AllZip (λ label s. IsColumnInRange s) (map (λ z. z.items) labels.now)) IsNext text.entry.now)) }
{
    let mut list = Vec::new(alloc);
    let mut rest = text;
    for k in 0..labels.len() {
        match read_column(alloc, &labels[k], rest) {
            Ok((state, left)) => {
                put(&mut list, state)?;
                rest = left;
            }
            Err(why) => return Err(why),
        }
    }
    Ok((list, rest))
}
