//! The token that a piece is, in a version of the language and at a resolution of time.

ghost use Rattle.std.specs.Cmp.Lexicographic.{pointwise};
ghost use Rattle.std.specs.Prelude.{◌≡◌, ◌++◌, OnErr, OnOk, length, map, take};
ghost use Rattle.tdf_base.specs.Names.{is_name};
ghost use Rattle.tdf_lang_lexer.specs.Dialect.{is_resolution, time_in, time_or_wrong, token_of};
ghost use Rattle.tdf_lang_lexer.specs.Token.{tok};

use crate::pieces::{is_letter, is_word};
use crate::token::Token;
use crate::words::{key_of, symbol_of};
use tdf_base::{LONGEST_NAME, Memory, Resolution, Version, is_number, read_time, read_time_at};

/// What says which token a piece is: the version of the language, and the resolution of time, which is read from version 3
/// on.
#[derive(Clone, Copy, Debug, PartialEq, Eq)]
pub struct Dialect {
    pub version: Version,
    pub resolution: Resolution,
}

fn is_name(text: &[u8]) -> bool
    ensures { result ≡ is_name text.now }
{
    match text {
        [] => false,
        [first, more @ ..] => is_letter(*first) && is_word(more) && text.len() <= LONGEST_NAME,
    }
}

fn is_resolution(dialect: Dialect, piece: &[u8]) -> bool
    ensures { result ≡ is_resolution dialect piece.now }
{
    dialect.version.has_resolution() && piece == b"resolution".as_slice()
}

fn time<'t>(dialect: Dialect, piece: &'t [u8]) -> Token<'t>
    ensures { tok result ≡ time_or_wrong (time_in dialect piece.now) }
{
    let time = if dialect.version.has_resolution() {
        read_time_at(piece, dialect.resolution)
    } else {
        read_time(piece)
    };
    match time {
        Ok(count) => Token::Time(count),
        Err(_) => Token::Wrong,
    }
}

#[tactic(auto, unfolding(crate::specs::Dialect::token_of))]
fn token<'t>(dialect: Dialect, piece: &'t [u8]) -> Token<'t>
    ensures { tok result ≡ token_of dialect piece.now }
{
    if is_resolution(dialect, piece) {
        return Token::Wrong;
    }
    if let Some(key) = key_of(piece) {
        return Token::Key(key);
    }
    if let Some(symbol) = symbol_of(piece) {
        return Token::Symbol(symbol);
    }
    if is_name(piece) {
        return Token::Name(piece);
    }
    if is_number(piece) {
        return Token::Number(piece);
    }
    time(dialect, piece)
}

fn push_each<'t>(
    dialect: Dialect,
    pieces: &[&'t [u8]],
    out: &mut Vec<Token<'t>>,
) -> Result<(), Memory>
    ensures ok { OnOk result (map tok out.new.items
        ≡ map tok out.old.items ++ map (token_of dialect) (map (λ p. p.now) pieces.now)) }
    ensures kept { take (length out.old.items) out.new.items ≡ out.old.items }
{
    for piece in pieces {
        out.push(token(dialect, piece))?;
    }
    Ok(())
}

/// Appends the tokens that some pieces are in a dialect: a piece that is no token is `Token::Wrong`.
///
/// # Errors
/// Out of memory; `out` is then unchanged.
pub fn push_tokens<'t>(
    dialect: Dialect,
    pieces: &[&'t [u8]],
    out: &mut Vec<Token<'t>>,
) -> Result<(), Memory>
    ensures whole { OnOk result (map tok out.new.items
        ≡ map tok out.old.items ++ map (token_of dialect) (map (λ p. p.now) pieces.now)) }
    ensures kept { OnErr result (out.new.items ≡ out.old.items) }
{
    let start = out.len();
    match push_each(dialect, pieces, out) {
        Ok(()) => Ok(()),
        Err(error) => {
            out.truncate(start);
            Err(error)
        }
    }
}
