//! Lines of attributes, of processes and of bindings.

ghost use Rattle.std.specs.Option.{option_map};
ghost use Rattle.std.specs.Prelude.{IfOk, Some, map, ◌≡◌};
ghost use Rattle.tdf_lang_lines.specs.FormViews.{pure_form};
ghost use Rattle.tdf_lang_lines.specs.machine.Reads.{after_form, bind_form, bind_port, bind_target, delay_form, initial_form, initial_value, instance_form, named_step_form, nothing_after, notify_form, rate_form, rate_symbol, second_rate, step_form, third_rate, times_limit, times_rate, trace_end, trace_form};
ghost use Rattle.tdf_lang_tree.specs.Forms.{FRate, FSetRate, FTrace};
ghost use Rattle.tdf_base.specs.Digits.{int_of};
ghost use Rattle.tdf_lang_exprs.specs.machine.Literals.{lit_of};
ghost use Rattle.tdf_lang_exprs.specs.machine.Exprs.{expr_of};
ghost use Rattle.tdf_lang_exprs.specs.machine.Paths.{path_of};
ghost use Rattle.tdf_lang_tree.specs.declared.stmt.Limit.TheVariants as limit;
ghost use Rattle.tdf_lang_lexer.specs.Token.{tok};

use crate::cuts::cut_last;
use crate::form::LineForm;
use crate::limits::times_limit;
use std::alloc::Global;
use tdf_base::{Memory, Version, read_int};
use tdf_lang_exprs::{read_expr, read_lit, read_path};
use tdf_lang_lexer::{Key, Symbol, Token};
use tdf_lang_tree::{Limit, Name};

fn named_step(alloc: Global, port: &[u8], rest: &[Token]) -> Result<Option<LineForm>, Memory>
    ensures { IfOk result (λ o. option_map pure_form o ≡ named_step_form port.now (map tok rest.now)) }
{
    match rest {
        [Token::Time(step)] => Ok(Some(LineForm::Step(Some(Name::copied(alloc, port)?), *step))),
        _ => Ok(None),
    }
}

pub(crate) fn step_form(alloc: Global, rest: &[Token]) -> Result<Option<LineForm>, Memory>
    ensures { IfOk result (λ o. option_map pure_form o ≡ step_form (map tok rest.now)) }
{
    match rest {
        [Token::Time(step)] => Ok(Some(LineForm::Step(None, *step))),
        [Token::Name(port), more @ ..] => named_step(alloc, port, more),
        _ => Ok(None),
    }
}

/// The third number of a rate variable.
fn third_rate(
    alloc: Global,
    name: &[u8],
    least: u64,
    second: &[u8],
    rest: &[Token],
) -> Result<Option<LineForm>, Memory>
    ensures { IfOk result (λ o. option_map pure_form o ≡ third_rate name.now (Some least) (int_of second.now) (map tok rest.now)) }
{
    match rest {
        [Token::Number(third)] => {
            let Some(greatest) = read_int(second) else {
                return Ok(None);
            };
            let Some(start) = read_int(third) else {
                return Ok(None);
            };
            Ok(Some(LineForm::RateVar(Name::copied(alloc, name)?, least, greatest, start)))
        }
        _ => Ok(None),
    }
}

/// A multiple of a rate variable, as the rate of a port.
#[tactic(auto, unfolding(crate::specs::machine::Reads::times_rate))]
fn times_rate(
    alloc: Global,
    version: Version,
    symbol: Symbol,
    name: &[u8],
    first: u64,
    rest: &[Token],
) -> Result<Option<LineForm>, Memory>
    ensures { IfOk result (λ o. option_map pure_form o ≡ times_rate version symbol name.now (Some first) (map tok rest.now)) }
{
    let name = Name::copied(alloc, name)?;
    match times_limit(alloc, version, symbol, first, rest) {
        Ok(Some(limit)) => Ok(Some(LineForm::Rate(name, limit))),
        Ok(None) => {
            drop(name);
            Ok(None)
        }
        Err(refused) => {
            drop(name);
            Err(refused)
        }
    }
}

/// After `rate NAME NUMBER`.
fn second_rate(
    alloc: Global,
    version: Version,
    name: &[u8],
    first: u64,
    rest: &[Token],
) -> Result<Option<LineForm>, Memory>
    ensures { IfOk result (λ o. option_map pure_form o ≡ second_rate version name.now (Some first) (map tok rest.now)) }
{
    match rest {
        [] => Ok(Some(LineForm::Rate(Name::copied(alloc, name)?, Limit::Int(first)))),
        [Token::Number(second), more @ ..] => third_rate(alloc, name, first, second, more),
        [Token::Symbol(symbol), more @ ..] => times_rate(
            alloc, version, *symbol, name, first, more,
        ),
        _ => Ok(None),
    }
}

/// After `rate NAME SYMBOL`.
fn rate_symbol(
    alloc: Global,
    version: Version,
    symbol: Symbol,
    name: &[u8],
    rest: &[Token],
) -> Result<Option<LineForm>, Memory>
    ensures { IfOk result (λ o. option_map pure_form o ≡ rate_symbol version symbol name.now (map tok rest.now)) }
{
    match symbol {
        Symbol::Becomes => set_rate_form(alloc, version, name, rest),
        _ => Ok(None),
    }
}

fn set_rate_form(
    alloc: Global,
    version: Version,
    name: &[u8],
    rest: &[Token],
) -> Result<Option<LineForm>, Memory>
    ensures { IfOk result (λ o. option_map pure_form o ≡ option_map (FSetRate name.now) (expr_of version (map tok rest.now))) }
{
    let name = Name::copied(alloc, name)?;
    match read_expr(alloc, version, rest) {
        Ok(Some(value)) => Ok(Some(LineForm::SetRate(name, value))),
        Ok(None) => {
            drop(name);
            Ok(None)
        }
        Err(refused) => {
            drop(name);
            Err(refused)
        }
    }
}

fn named_rate(
    alloc: Global,
    name: &[u8],
    rate: &[u8],
    rest: &[Token],
) -> Result<Option<LineForm>, Memory>
    ensures { IfOk result (λ o. option_map pure_form o ≡ nothing_after (FRate name.now (limit.Var rate.now)) (map tok rest.now)) }
{
    match rest {
        [] => Ok(Some(LineForm::Rate(
            Name::copied(alloc, name)?,
            Limit::Var(Name::copied(alloc, rate)?),
        ))),
        _ => Ok(None),
    }
}

#[tactic(auto, using(crate::proofs::CutLaws::second_none))]
pub(crate) fn rate_form(
    alloc: Global,
    version: Version,
    name: &[u8],
    rest: &[Token],
) -> Result<Option<LineForm>, Memory>
    ensures { IfOk result (λ o. option_map pure_form o ≡ rate_form version name.now (map tok rest.now)) }
{
    match rest {
        [Token::Number(text), more @ ..] => match read_int(text) {
            Some(first) => second_rate(alloc, version, name, first, more),
            None => Ok(None),
        },
        [Token::Name(rate), more @ ..] => named_rate(alloc, name, rate, more),
        [Token::Symbol(symbol), more @ ..] => rate_symbol(alloc, version, *symbol, name, more),
        _ => Ok(None),
    }
}

pub(crate) fn delay_form(
    alloc: Global,
    port: &[u8],
    rest: &[Token],
) -> Result<Option<LineForm>, Memory>
    ensures { IfOk result (λ o. option_map pure_form o ≡ delay_form port.now (map tok rest.now)) }
{
    match rest {
        [Token::Number(text)] => {
            let Some(count) = read_int(text) else {
                return Ok(None);
            };
            Ok(Some(LineForm::Delay(Name::copied(alloc, port)?, count)))
        }
        _ => Ok(None),
    }
}

/// After `initial PORT SAMPLE`.
fn initial_value(
    alloc: Global,
    port: &[u8],
    place: u64,
    rest: &[Token],
) -> Result<Option<LineForm>, Memory>
    ensures { IfOk result (λ o. option_map pure_form o ≡ initial_value port.now (Some place) (map tok rest.now)) }
{
    let port = Name::copied(alloc, port)?;
    match read_lit(alloc, rest) {
        Ok(Some(value)) => Ok(Some(LineForm::Initial(port, place, value))),
        Ok(None) => {
            drop(port);
            Ok(None)
        }
        Err(refused) => {
            drop(port);
            Err(refused)
        }
    }
}

pub(crate) fn initial_form(
    alloc: Global,
    port: &[u8],
    rest: &[Token],
) -> Result<Option<LineForm>, Memory>
    ensures { IfOk result (λ o. option_map pure_form o ≡ initial_form port.now (map tok rest.now)) }
{
    match rest {
        [Token::Number(text), more @ ..] => {
            let Some(place) = read_int(text) else {
                return Ok(None);
            };
            initial_value(alloc, port, place, more)
        }
        _ => Ok(None),
    }
}

fn after_form(alloc: Global, event: &[u8], rest: &[Token]) -> Result<Option<LineForm>, Memory>
    ensures { IfOk result (λ o. option_map pure_form o ≡ after_form event.now (map tok rest.now)) }
{
    match rest {
        [Token::Time(after)] => Ok(Some(LineForm::Notify(Name::copied(alloc, event)?, *after))),
        _ => Ok(None),
    }
}

pub(crate) fn notify_form(
    alloc: Global,
    event: &[u8],
    rest: &[Token],
) -> Result<Option<LineForm>, Memory>
    ensures { IfOk result (λ o. option_map pure_form o ≡ notify_form event.now (map tok rest.now)) }
{
    match rest {
        [] => Ok(Some(LineForm::Notify(Name::copied(alloc, event)?, 0))),
        [Token::Key(Key::After), more @ ..] => after_form(alloc, event, more),
        _ => Ok(None),
    }
}

pub(crate) fn instance_form(
    alloc: Global,
    name: &[u8],
    rest: &[Token],
) -> Result<Option<LineForm>, Memory>
    ensures { IfOk result (λ o. option_map pure_form o ≡ instance_form name.now (map tok rest.now)) }
{
    match rest {
        [Token::Name(block)] => Ok(Some(LineForm::Instance(
            Name::copied(alloc, name)?,
            Name::copied(alloc, block)?,
        ))),
        _ => Ok(None),
    }
}

fn bind_target(
    alloc: Global,
    instance: &[u8],
    port: &[u8],
    rest: &[Token],
) -> Result<Option<LineForm>, Memory>
    ensures { IfOk result (λ o. option_map pure_form o ≡ bind_target instance.now port.now (map tok rest.now)) }
{
    match rest {
        [Token::Name(target)] => Ok(Some(LineForm::Bind(
            Name::copied(alloc, instance)?,
            Name::copied(alloc, port)?,
            Name::copied(alloc, target)?,
        ))),
        _ => Ok(None),
    }
}

fn bind_port(alloc: Global, instance: &[u8], rest: &[Token]) -> Result<Option<LineForm>, Memory>
    ensures { IfOk result (λ o. option_map pure_form o ≡ bind_port instance.now (map tok rest.now)) }
{
    match rest {
        [Token::Name(port), more @ ..] => bind_target(alloc, instance, port, more),
        _ => Ok(None),
    }
}

pub(crate) fn bind_form(
    alloc: Global,
    instance: &[u8],
    rest: &[Token],
) -> Result<Option<LineForm>, Memory>
    ensures { IfOk result (λ o. option_map pure_form o ≡ bind_form instance.now (map tok rest.now)) }
{
    match rest {
        [Token::Symbol(Symbol::Point), more @ ..] => bind_port(alloc, instance, more),
        _ => Ok(None),
    }
}

fn labelled(alloc: Global, path: &[Token], label: &[u8]) -> Result<Option<LineForm>, Memory>
    ensures { IfOk result (λ o. option_map pure_form o ≡ option_map (λ p. FTrace p label.now) (path_of (map tok path.now))) }
{
    let label = Name::copied(alloc, label)?;
    match read_path(alloc, path) {
        Ok(Some(names)) => Ok(Some(LineForm::Trace(names, label))),
        Ok(None) => {
            drop(label);
            Ok(None)
        }
        Err(refused) => {
            drop(label);
            Err(refused)
        }
    }
}

fn trace_end(alloc: Global, path: &[Token], last: &[Token]) -> Result<Option<LineForm>, Memory>
    ensures { IfOk result (λ o. option_map pure_form o ≡ trace_end (path_of (map tok path.now)) (map tok last.now)) }
{
    match last {
        [Token::Name(label)] => labelled(alloc, path, label),
        _ => Ok(None),
    }
}

pub(crate) fn trace_form(alloc: Global, tokens: &[Token]) -> Result<Option<LineForm>, Memory>
    ensures { IfOk result (λ o. option_map pure_form o ≡ trace_form (map tok tokens.now)) }
{
    let (path, last) = cut_last(tokens);
    trace_end(alloc, path, last)
}
