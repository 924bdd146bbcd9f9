//! Indices.

ghost use Rattle.std.specs.Prelude.{◌≡◌, ◌∷◌, [], map, nat_le, IfOk, MatchOption};
ghost use Rattle.tdf_base.specs.Digits.{int_of};
ghost use Rattle.tdf_lang_lexer.specs.Token.{tok, TName, TNumber, TSymbol};
ghost use Rattle.tdf_lang_exprs.specs.Index.{SpellsIndex, IsNoIndex};
ghost use Rattle.tdf_lang_exprs.specs.machine.Indices.{counted_index, from_index, index_of, is_sum, named_index, number_index, times_index, times_plus_index};

use std::alloc::Global;
use tdf_base::{Memory, Version, read_int};
use tdf_lang_lexer::{Symbol, Token};
use tdf_lang_tree::{Index, Name};

/// The index that these tokens are in a version of the language, if they are one.
///
/// # Errors
/// Out of memory.
pub fn read_index(
    alloc: Global,
    version: Version,
    tokens: &[Token],
) -> Result<Option<Index>, Memory>
    ensures said { IfOk result (λ o. MatchOption o (IsNoIndex version (map tok tokens.now)) (λ i. SpellsIndex version (map tok tokens.now) i)) }
    ensures read { IfOk result (λ o. o ≡ index_of version (map tok tokens.now)) }
{
    indexed(alloc, version, tokens)
}

fn indexed(alloc: Global, version: Version, tokens: &[Token]) -> Result<Option<Index>, Memory>
    ensures { IfOk result (λ o. o ≡ index_of version (map tok tokens.now)) }
{
    match tokens {
        [Token::Number(text)] => Ok(read_int(text).map(Index::Int)),
        [Token::Name(name)] => Ok(Some(Index::Var(Name::copied(alloc, name)?))),
        [
            Token::Name(name),
            Token::Symbol(symbol),
            Token::Number(text),
        ] => named(alloc, name, *symbol, text),
        [Token::Number(text), Token::Symbol(symbol), rest @ ..] => {
            counted(alloc, version, text, *symbol, rest)
        }
        _ => Ok(None),
    }
}

/// What follows a number and a symbol.
fn counted(
    alloc: Global,
    version: Version,
    text: &[u8],
    symbol: Symbol,
    rest: &[Token],
) -> Result<Option<Index>, Memory>
    ensures { IfOk result (λ o. o ≡ counted_index version text.now symbol (map tok rest.now)) }
{
    match rest {
        [Token::Name(name)] => numbered(alloc, version, text, symbol, name),
        [
            Token::Name(name),
            Token::Symbol(second),
            Token::Number(last),
        ] => sum(
            alloc,
            version.has_multiples() && is_sum(symbol, *second),
            name,
            text,
            last,
        ),
        _ => Ok(None),
    }
}

/// `name + number` or `name - number`.
fn named(alloc: Global, name: &[u8], symbol: Symbol, text: &[u8]) -> Result<Option<Index>, Memory>
    ensures { IfOk result (λ o. o ≡ named_index symbol name.now text.now) }
{
    let Some(number) = read_int(text) else {
        return Ok(None);
    };
    match symbol {
        Symbol::Plus => Ok(Some(Index::Plus(Name::copied(alloc, name)?, number))),
        Symbol::Minus => Ok(Some(Index::Minus(Name::copied(alloc, name)?, number))),
        _ => Ok(None),
    }
}

/// `number - name` or `number * name`.
fn numbered(
    alloc: Global,
    version: Version,
    text: &[u8],
    symbol: Symbol,
    name: &[u8],
) -> Result<Option<Index>, Memory>
    ensures { IfOk result (λ o. o ≡ number_index version symbol text.now name.now) }
{
    match symbol {
        Symbol::Minus => from(alloc, text, name),
        Symbol::Times => times(alloc, version.has_multiples(), name, text),
        _ => Ok(None),
    }
}

fn from(alloc: Global, text: &[u8], name: &[u8]) -> Result<Option<Index>, Memory>
    ensures { IfOk result (λ o. o ≡ from_index name.now (int_of text.now)) }
{
    let Some(number) = read_int(text) else {
        return Ok(None);
    };
    Ok(Some(Index::From(number, Name::copied(alloc, name)?)))
}

fn times(alloc: Global, allowed: bool, name: &[u8], text: &[u8]) -> Result<Option<Index>, Memory>
    ensures { IfOk result (λ o. o ≡ times_index allowed name.now (int_of text.now)) }
{
    if !allowed {
        return Ok(None);
    }
    let Some(number) = read_int(text) else {
        return Ok(None);
    };
    Ok(Some(Index::Times(number, Name::copied(alloc, name)?)))
}

fn is_sum(first: Symbol, second: Symbol) -> bool
    ensures { result ≡ is_sum first second }
{
    matches!((first, second), (Symbol::Times, Symbol::Plus))
}

/// `number * name + number`.
fn sum(
    alloc: Global,
    allowed: bool,
    name: &[u8],
    text: &[u8],
    last: &[u8],
) -> Result<Option<Index>, Memory>
    ensures { IfOk result (λ o. o ≡ times_plus_index allowed name.now (int_of text.now) (int_of last.now)) }
{
    if !allowed {
        return Ok(None);
    }
    let Some(number) = read_int(text) else {
        return Ok(None);
    };
    let Some(more) = read_int(last) else {
        return Ok(None);
    };
    Ok(Some(Index::TimesPlus(number, Name::copied(alloc, name)?, more)))
}
