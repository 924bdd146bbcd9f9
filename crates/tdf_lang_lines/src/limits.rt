//! The end of a `for`, or the rate of a port.

ghost use Rattle.std.specs.Prelude.{IfOk, Some, map, ◌≡◌};
ghost use Rattle.tdf_lang_lines.specs.machine.Reads.{limit_of, name_limit, number_limit, times_limit, var_limit};
ghost use Rattle.tdf_lang_lexer.specs.Token.{tok};

use std::alloc::Global;
use tdf_base::{Memory, Name, Version, read_int};
use tdf_lang_lexer::{Symbol, Token};
use tdf_lang_tree::Limit;

/// After `NUMBER *`: a rate variable, from version 2 on.
fn name_limit(
    alloc: Global,
    version: Version,
    first: u64,
    rest: &[Token],
) -> Result<Option<Limit>, Memory>
    ensures { IfOk result (λ o. o ≡ name_limit version (Some first) (map tok rest.now)) }
{
    match rest {
        [Token::Name(name)] => {
            if !version.has_multiples() {
                return Ok(None);
            }
            Ok(Some(Limit::Times(first, Name::copied(alloc, name)?)))
        }
        _ => Ok(None),
    }
}

/// After `NUMBER SYMBOL`.
pub(crate) fn times_limit(
    alloc: Global,
    version: Version,
    symbol: Symbol,
    first: u64,
    rest: &[Token],
) -> Result<Option<Limit>, Memory>
    ensures { IfOk result (λ o. o ≡ times_limit version symbol (Some first) (map tok rest.now)) }
{
    match symbol {
        Symbol::Times => name_limit(alloc, version, first, rest),
        _ => Ok(None),
    }
}

/// After `NUMBER`.
fn number_limit(
    alloc: Global,
    version: Version,
    first: u64,
    rest: &[Token],
) -> Result<Option<Limit>, Memory>
    ensures { IfOk result (λ o. o ≡ number_limit version (Some first) (map tok rest.now)) }
{
    match rest {
        [] => Ok(Some(Limit::Int(first))),
        [Token::Symbol(symbol), more @ ..] => times_limit(alloc, version, *symbol, first, more),
        _ => Ok(None),
    }
}

/// After `NAME`.
fn var_limit(alloc: Global, name: &[u8], rest: &[Token]) -> Result<Option<Limit>, Memory>
    ensures { IfOk result (λ o. o ≡ var_limit name.now (map tok rest.now)) }
{
    match rest {
        [] => Ok(Some(Limit::Var(Name::copied(alloc, name)?))),
        _ => Ok(None),
    }
}

/// The limit that these tokens are, if they are one.
#[tactic(auto, using(crate::proofs::CutLaws::number_none))]
pub(crate) fn read_limit(
    alloc: Global,
    version: Version,
    tokens: &[Token],
) -> Result<Option<Limit>, Memory>
    ensures { IfOk result (λ o. o ≡ limit_of version (map tok tokens.now)) }
{
    match tokens {
        [Token::Number(text), rest @ ..] => match read_int(text) {
            Some(first) => number_limit(alloc, version, first, rest),
            None => Ok(None),
        },
        [Token::Name(name), rest @ ..] => var_limit(alloc, name, rest),
        _ => Ok(None),
    }
}
