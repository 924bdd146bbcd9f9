//! The form of a line.

ghost use Rattle.std.specs.Option.{option_map};
ghost use Rattle.std.specs.Prelude.{IfOk, MatchOption, None, Some, map, ◌≡◌};
ghost use Rattle.tdf_lang_exprs.specs.machine.Exprs.{expr_of};
ghost use Rattle.tdf_lang_exprs.specs.machine.Indices.{index_of};
ghost use Rattle.tdf_lang_lines.specs.SpellsLine.{IsNoForm, SpellsLine};
ghost use Rattle.tdf_lang_lines.specs.machine.Reads.{both_of, for_form, for_limit, form_of, item_close, item_value, key_form, key_name_form, name_form, name_symbol, rest_form};
ghost use Rattle.tdf_lang_lines.specs.FormViews.{pure_form};
ghost use Rattle.tdf_lang_lexer.specs.Token.{tok};
ghost use Rattle.tdf_lang_lexer.specs.declared.key.Symbol.TheVariants as symbol;
ghost use Rattle.tdf_lang_tree.specs.Forms.{FAssign, FIf};
ghost use Rattle.tdf_lang_tree.specs.Views.{pure_expr};

use crate::attributes::{
    bind_form, delay_form, initial_form, instance_form, notify_form, rate_form, step_form,
    trace_form,
};
use crate::cuts::cut_index;
use crate::form::LineForm;
use crate::heads::{
    composite_form, de_form, event_form, port_form, sensitive_form, tdf_form, type_form, word_form,
};
use crate::limits::read_limit;
use crate::stores::{array_form, const_form, de_signal_form, signal_form, var_form};
use std::alloc::Global;
use tdf_base::{Memory, Name, Version, read_int};
use tdf_lang_exprs::{read_expr, read_index};
use tdf_lang_lexer::{Key, Symbol, Token};
use tdf_lang_tree::{Expr, Index, PortKind};

/// After `for NAME INT`.
fn for_limit(
    alloc: Global,
    version: Version,
    name: &[u8],
    from: u64,
    rest: &[Token],
) -> Result<Option<LineForm>, Memory>
    ensures { IfOk result (λ o. option_map pure_form o ≡ for_limit version name.now (Some from) (map tok rest.now)) }
{
    let name = Name::copied(alloc, name)?;
    match read_limit(alloc, version, rest) {
        Ok(Some(limit)) => Ok(Some(LineForm::For(name, from, limit))),
        Ok(None) => {
            drop(name);
            Ok(None)
        }
        Err(refused) => {
            drop(name);
            Err(refused)
        }
    }
}

fn for_form(
    alloc: Global,
    version: Version,
    name: &[u8],
    rest: &[Token],
) -> Result<Option<LineForm>, Memory>
    ensures { IfOk result (λ o. option_map pure_form o ≡ for_form version name.now (map tok rest.now)) }
{
    match rest {
        [Token::Number(text), more @ ..] => match read_int(text) {
            Some(from) => for_limit(alloc, version, name, from, more),
            None => Ok(None),
        },
        _ => Ok(None),
    }
}

/// A line of a reserved word and a name.
fn key_name_form(
    alloc: Global,
    version: Version,
    word: Key,
    name: &[u8],
    rest: &[Token],
) -> Result<Option<LineForm>, Memory>
    ensures { IfOk result (λ o. option_map pure_form o ≡ key_name_form version word name.now (map tok rest.now)) }
{
    match word {
        Key::Tdf => tdf_form(alloc, name, rest),
        Key::De => de_form(alloc, name, rest),
        Key::Composite => composite_form(alloc, name, rest),
        Key::Event => event_form(alloc, name, rest),
        Key::Sensitive => sensitive_form(alloc, name, rest),
        Key::Type => type_form(alloc, name, rest),
        Key::In => port_form(alloc, PortKind::In, name, rest),
        Key::Out => port_form(alloc, PortKind::Out, name, rest),
        Key::DeIn => port_form(alloc, PortKind::DeIn, name, rest),
        Key::DeOut => port_form(alloc, PortKind::DeOut, name, rest),
        Key::Signal => signal_form(alloc, name, rest),
        Key::Const => const_form(alloc, name, rest),
        Key::Var => var_form(alloc, name, rest),
        Key::DeSignal => de_signal_form(alloc, name, rest),
        Key::Array => array_form(alloc, name, rest),
        Key::Rate => rate_form(alloc, version, name, rest),
        Key::Delay => delay_form(alloc, name, rest),
        Key::Initial => initial_form(alloc, name, rest),
        Key::Notify => notify_form(alloc, name, rest),
        Key::Instance => instance_form(alloc, name, rest),
        Key::Bind => bind_form(alloc, name, rest),
        Key::For => for_form(alloc, version, name, rest),
        _ => Ok(None),
    }
}

fn rest_form(
    alloc: Global,
    version: Version,
    word: Key,
    rest: &[Token],
) -> Result<Option<LineForm>, Memory>
    ensures { IfOk result (λ o. option_map pure_form o ≡ rest_form version word (map tok rest.now)) }
{
    match rest {
        [] => Ok(word_form(word)),
        [Token::Name(name), more @ ..] => key_name_form(alloc, version, word, name, more),
        _ => Ok(None),
    }
}

fn if_form(alloc: Global, version: Version, rest: &[Token]) -> Result<Option<LineForm>, Memory>
    ensures { IfOk result (λ o. option_map pure_form o ≡ option_map FIf (expr_of version (map tok rest.now))) }
{
    match read_expr(alloc, version, rest) {
        Ok(Some(test)) => Ok(Some(LineForm::If(test))),
        Ok(None) => Ok(None),
        Err(refused) => Err(refused),
    }
}

/// A line that begins with a reserved word.
fn key_form(
    alloc: Global,
    version: Version,
    word: Key,
    rest: &[Token],
) -> Result<Option<LineForm>, Memory>
    ensures { IfOk result (λ o. option_map pure_form o ≡ key_form version word (map tok rest.now)) }
{
    match word {
        Key::If => if_form(alloc, version, rest),
        Key::Trace => trace_form(alloc, rest),
        Key::Timestep => step_form(alloc, rest),
        _ => rest_form(alloc, version, word, rest),
    }
}

/// After `NAME [ INDEX ] =`.
fn item_value(
    alloc: Global,
    version: Version,
    name: &[u8],
    index: Index,
    rest: &[Token],
) -> Result<Option<LineForm>, Memory>
    ensures { IfOk result (λ o. option_map pure_form o ≡ both_of (λ j e. FAssign name.now (Some j) e) (Some index) (expr_of version (map tok rest.now))) }
{
    match read_expr(alloc, version, rest) {
        Ok(Some(value)) => item_assign(alloc, name, index, value),
        Ok(None) => {
            drop(index);
            Ok(None)
        }
        Err(refused) => {
            drop(index);
            Err(refused)
        }
    }
}

fn item_assign(
    alloc: Global,
    name: &[u8],
    index: Index,
    value: Expr,
) -> Result<Option<LineForm>, Memory>
    ensures { IfOk result (λ o. option_map pure_form o ≡ Some (FAssign name.now (Some index) (pure_expr value))) }
{
    match Name::copied(alloc, name) {
        Ok(name) => Ok(Some(LineForm::Assign(name, Some(index), value))),
        Err(refused) => {
            drop(index);
            drop(value);
            Err(refused)
        }
    }
}

/// After `NAME [ INDEX ]`.
fn item_becomes(
    alloc: Global,
    version: Version,
    name: &[u8],
    index: Index,
    rest: &[Token],
) -> Result<Option<LineForm>, Memory>
    ensures { IfOk result (λ o. option_map pure_form o ≡ item_value version name.now (Some index) (map tok rest.now)) }
{
    match rest {
        [Token::Symbol(Symbol::Becomes), more @ ..] => item_value(
            alloc, version, name, index, more,
        ),
        _ => {
            drop(index);
            Ok(None)
        }
    }
}

/// After `NAME [ INDEX`.
fn item_close(
    alloc: Global,
    version: Version,
    name: &[u8],
    index: Index,
    rest: &[Token],
) -> Result<Option<LineForm>, Memory>
    ensures { IfOk result (λ o. option_map pure_form o ≡ item_close version name.now (Some index) (map tok rest.now)) }
{
    match rest {
        [Token::Symbol(Symbol::CloseSquare), more @ ..] => item_becomes(
            alloc, version, name, index, more,
        ),
        _ => {
            drop(index);
            Ok(None)
        }
    }
}

/// After `NAME [`.
#[tactic(auto, using(crate::proofs::CutLaws::close_none))]
fn item_form(
    alloc: Global,
    version: Version,
    name: &[u8],
    tokens: &[Token],
) -> Result<Option<LineForm>, Memory>
    ensures { IfOk result (λ o. option_map pure_form o ≡ name_symbol version symbol.OpenSquare name.now (map tok tokens.now)) }
{
    let (first, rest) = cut_index(tokens);
    match read_index(alloc, version, first) {
        Ok(Some(index)) => item_close(alloc, version, name, index, rest),
        Ok(None) => Ok(None),
        Err(refused) => Err(refused),
    }
}

fn assign_form(
    alloc: Global,
    version: Version,
    name: &[u8],
    rest: &[Token],
) -> Result<Option<LineForm>, Memory>
    ensures { IfOk result (λ o. option_map pure_form o ≡ option_map (FAssign name.now None) (expr_of version (map tok rest.now))) }
{
    let name = Name::copied(alloc, name)?;
    match read_expr(alloc, version, rest) {
        Ok(Some(value)) => Ok(Some(LineForm::Assign(name, None, value))),
        Ok(None) => {
            drop(name);
            Ok(None)
        }
        Err(refused) => {
            drop(name);
            Err(refused)
        }
    }
}

fn name_symbol(
    alloc: Global,
    version: Version,
    symbol: Symbol,
    name: &[u8],
    rest: &[Token],
) -> Result<Option<LineForm>, Memory>
    ensures { IfOk result (λ o. option_map pure_form o ≡ name_symbol version symbol name.now (map tok rest.now)) }
{
    match symbol {
        Symbol::Becomes => assign_form(alloc, version, name, rest),
        Symbol::OpenSquare => item_form(alloc, version, name, rest),
        _ => Ok(None),
    }
}

/// A line that begins with a name.
fn name_form(
    alloc: Global,
    version: Version,
    name: &[u8],
    rest: &[Token],
) -> Result<Option<LineForm>, Memory>
    ensures { IfOk result (λ o. option_map pure_form o ≡ name_form version name.now (map tok rest.now)) }
{
    match rest {
        [Token::Symbol(symbol), more @ ..] => name_symbol(alloc, version, *symbol, name, more),
        _ => Ok(None),
    }
}

/// The form that the tokens of a line are in a version of the language, if they are one.
///
/// # Errors
/// Out of memory.
pub fn read_form(
    alloc: Global,
    version: Version,
    tokens: &[Token],
) -> Result<Option<LineForm>, Memory>
    ensures spelled { IfOk result (λ o. MatchOption o (IsNoForm version (map tok tokens.now))
        (λ f. SpellsLine version (map tok tokens.now) (pure_form f))) }
    ensures read { IfOk result (λ o. option_map pure_form o ≡ form_of version (map tok tokens.now)) }
{
    form(alloc, version, tokens)
}

#[tactic(auto, unfolding(crate::specs::machine::Reads::form_of))]
fn form(alloc: Global, version: Version, tokens: &[Token]) -> Result<Option<LineForm>, Memory>
    ensures { IfOk result (λ o. option_map pure_form o ≡ form_of version (map tok tokens.now)) }
{
    match tokens {
        [Token::Key(word), rest @ ..] => key_form(alloc, version, *word, rest),
        [Token::Name(name), rest @ ..] => name_form(alloc, version, name, rest),
        _ => Ok(None),
    }
}
