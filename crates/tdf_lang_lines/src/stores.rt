//! Lines that declare what has a format and a value.

ghost use Rattle.std.specs.Option.{option_map};
ghost use Rattle.std.specs.Prelude.{IfOk, Some, map, ◌≡◌};
ghost use Rattle.tdf_lang_lines.specs.FormViews.{pure_form};
ghost use Rattle.tdf_lang_tree.specs.Forms.{FArray, FConst, FDeSignal, FSignal, FVar};
ghost use Rattle.tdf_lang_lines.specs.SpellsLine.{zero_lit};
ghost use Rattle.tdf_lang_lines.specs.machine.Reads.{array_rest, both_of, cut_first, cut_rest, start_of, three_of};
ghost use Rattle.tdf_lang_exprs.specs.machine.Formats.{format_of};
ghost use Rattle.tdf_lang_exprs.specs.machine.Literals.{lit_of, lits_of};
ghost use Rattle.tdf_lang_lexer.specs.Token.{tok};

use crate::cuts::cut_format;
use crate::form::LineForm;
use std::alloc::Global;
use tdf_base::{Memory, read_int};
use tdf_lang_exprs::{read_format, read_lit, read_lits};
use tdf_lang_lexer::Token;
use tdf_lang_tree::{Digits, FormatRef, Lit, Name};

fn zero(alloc: Global) -> Result<Lit, Memory>
    ensures { IfOk result (λ v. v ≡ zero_lit) }
{
    Ok(Lit {
        minus: false,
        digits: Digits::copied(alloc, b"0")?,
    })
}

/// A literal, or 0 where there is none.
fn read_start(alloc: Global, tokens: &[Token]) -> Result<Option<Lit>, Memory>
    ensures { IfOk result (λ o. o ≡ start_of (map tok tokens.now)) }
{
    match tokens {
        [] => Ok(Some(zero(alloc)?)),
        _ => read_lit(alloc, tokens),
    }
}

fn const_rest(
    alloc: Global,
    name: Name,
    format: FormatRef,
    rest: &[Token],
) -> Result<Option<LineForm>, Memory>
    ensures { IfOk result (λ o. option_map pure_form o ≡ both_of (FConst name) (Some format) (lit_of (map tok rest.now))) }
{
    match read_lit(alloc, rest) {
        Ok(Some(value)) => Ok(Some(LineForm::Const(name, format, value))),
        Ok(None) => {
            drop(name);
            drop(format);
            Ok(None)
        }
        Err(refused) => {
            drop(name);
            drop(format);
            Err(refused)
        }
    }
}

pub(crate) fn const_form(
    alloc: Global,
    name: &[u8],
    tokens: &[Token],
) -> Result<Option<LineForm>, Memory>
    ensures { IfOk result (λ o. option_map pure_form o ≡ both_of (FConst name.now) (cut_first (map tok tokens.now)) (lit_of (cut_rest (map tok tokens.now)))) }
{
    let (first, rest) = cut_format(tokens);
    let name = Name::copied(alloc, name)?;
    match read_format(alloc, first) {
        Ok(Some(format)) => const_rest(alloc, name, format, rest),
        Ok(None) => {
            drop(name);
            Ok(None)
        }
        Err(refused) => {
            drop(name);
            Err(refused)
        }
    }
}

fn var_rest(
    alloc: Global,
    name: Name,
    format: FormatRef,
    rest: &[Token],
) -> Result<Option<LineForm>, Memory>
    ensures { IfOk result (λ o. option_map pure_form o ≡ both_of (FVar name) (Some format) (start_of (map tok rest.now))) }
{
    match read_start(alloc, rest) {
        Ok(Some(value)) => Ok(Some(LineForm::Var(name, format, value))),
        Ok(None) => {
            drop(name);
            drop(format);
            Ok(None)
        }
        Err(refused) => {
            drop(name);
            drop(format);
            Err(refused)
        }
    }
}

pub(crate) fn var_form(
    alloc: Global,
    name: &[u8],
    tokens: &[Token],
) -> Result<Option<LineForm>, Memory>
    ensures { IfOk result (λ o. option_map pure_form o ≡ both_of (FVar name.now) (cut_first (map tok tokens.now)) (start_of (cut_rest (map tok tokens.now)))) }
{
    let (first, rest) = cut_format(tokens);
    let name = Name::copied(alloc, name)?;
    match read_format(alloc, first) {
        Ok(Some(format)) => var_rest(alloc, name, format, rest),
        Ok(None) => {
            drop(name);
            Ok(None)
        }
        Err(refused) => {
            drop(name);
            Err(refused)
        }
    }
}

fn de_signal_rest(
    alloc: Global,
    name: Name,
    format: FormatRef,
    rest: &[Token],
) -> Result<Option<LineForm>, Memory>
    ensures { IfOk result (λ o. option_map pure_form o ≡ both_of (FDeSignal name) (Some format) (start_of (map tok rest.now))) }
{
    match read_start(alloc, rest) {
        Ok(Some(value)) => Ok(Some(LineForm::DeSignal(name, format, value))),
        Ok(None) => {
            drop(name);
            drop(format);
            Ok(None)
        }
        Err(refused) => {
            drop(name);
            drop(format);
            Err(refused)
        }
    }
}

pub(crate) fn de_signal_form(
    alloc: Global,
    name: &[u8],
    tokens: &[Token],
) -> Result<Option<LineForm>, Memory>
    ensures { IfOk result (λ o. option_map pure_form o ≡ both_of (FDeSignal name.now) (cut_first (map tok tokens.now)) (start_of (cut_rest (map tok tokens.now)))) }
{
    let (first, rest) = cut_format(tokens);
    let name = Name::copied(alloc, name)?;
    match read_format(alloc, first) {
        Ok(Some(format)) => de_signal_rest(alloc, name, format, rest),
        Ok(None) => {
            drop(name);
            Ok(None)
        }
        Err(refused) => {
            drop(name);
            Err(refused)
        }
    }
}

pub(crate) fn signal_form(
    alloc: Global,
    name: &[u8],
    tokens: &[Token],
) -> Result<Option<LineForm>, Memory>
    ensures { IfOk result (λ o. option_map pure_form o ≡ option_map (FSignal name.now) (format_of (map tok tokens.now))) }
{
    let name = Name::copied(alloc, name)?;
    match read_format(alloc, tokens) {
        Ok(Some(format)) => Ok(Some(LineForm::Signal(name, format))),
        Ok(None) => {
            drop(name);
            Ok(None)
        }
        Err(refused) => {
            drop(name);
            Err(refused)
        }
    }
}

/// The values of an array, after its length.
fn array_values(
    alloc: Global,
    name: Name,
    format: FormatRef,
    length: u64,
    rest: &[Token],
) -> Result<Option<LineForm>, Memory>
    ensures { IfOk result (λ o. option_map pure_form o ≡ three_of (FArray name) (Some format) (Some length) (lits_of (map tok rest.now))) }
{
    match read_lits(alloc, rest) {
        Ok(Some(values)) => Ok(Some(LineForm::Array(name, format, length, values))),
        Ok(None) => {
            drop(name);
            drop(format);
            Ok(None)
        }
        Err(refused) => {
            drop(name);
            drop(format);
            Err(refused)
        }
    }
}

/// The length and the values after an array's format.
fn array_rest(
    alloc: Global,
    name: Name,
    format: FormatRef,
    rest: &[Token],
) -> Result<Option<LineForm>, Memory>
    ensures { IfOk result (λ o. option_map pure_form o ≡ array_rest name (Some format) (map tok rest.now)) }
{
    match rest {
        [Token::Number(text), values @ ..] => match read_int(text) {
            Some(length) => array_values(alloc, name, format, length, values),
            None => {
                drop(name);
                drop(format);
                Ok(None)
            }
        },
        _ => {
            drop(name);
            drop(format);
            Ok(None)
        }
    }
}

#[tactic(auto, using(crate::proofs::CutLaws::array_none))]
pub(crate) fn array_form(
    alloc: Global,
    name: &[u8],
    tokens: &[Token],
) -> Result<Option<LineForm>, Memory>
    ensures { IfOk result (λ o. option_map pure_form o ≡ array_rest name.now (cut_first (map tok tokens.now)) (cut_rest (map tok tokens.now))) }
{
    let (first, rest) = cut_format(tokens);
    let name = Name::copied(alloc, name)?;
    match read_format(alloc, first) {
        Ok(Some(format)) => array_rest(alloc, name, format, rest),
        Ok(None) => {
            drop(name);
            Ok(None)
        }
        Err(refused) => {
            drop(name);
            Err(refused)
        }
    }
}
