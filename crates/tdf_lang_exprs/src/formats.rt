//! Number formats.

ghost use Rattle.std.specs.Prelude.{◌≡◌, ◌≤◌, ◌++◌, List, Some, length, map, IfOk, MatchOption};
ghost use Rattle.tdf_lang_lexer.specs.Token.{Tok, tok};
ghost use Rattle.tdf_lang_tree.specs.declared.shapes.FormatRef.{FormatRef};
ghost use Rattle.tdf_lang_exprs.specs.Formats.{sign_of, quant_of, over_of, SpellsShape, SpellsFormat, IsNoShape, IsNoFormat, BeginsWithNoKey};
ghost use Rattle.tdf_lang_exprs.specs.FormatEnds.{EndsThere};
ghost use Rattle.tdf_lang_exprs.specs.machine.Formats.{moded, modes_of, shape_of, format_of, keys_first, format_len};

use std::alloc::Global;
use tdf_base::{Memory, read_int};
use tdf_fixed::{Over, Quant};
use tdf_lang_lexer::{Key, Token};
use tdf_lang_tree::{FormatRef, Name, Shape};

fn sign_of(word: Key) -> Option<bool>
    ensures { result ≡ sign_of word }
{
    match word {
        Key::Fixed => Some(true),
        Key::Ufixed => Some(false),
        _ => None,
    }
}

fn quant_of(word: Key) -> Option<Quant>
    ensures { result ≡ quant_of word }
{
    match word {
        Key::Trn => Some(Quant::Trn),
        Key::TrnZero => Some(Quant::TrnZero),
        Key::Rnd => Some(Quant::Rnd),
        Key::RndZero => Some(Quant::RndZero),
        Key::RndMinInf => Some(Quant::RndMinInf),
        Key::RndInf => Some(Quant::RndInf),
        Key::RndConv => Some(Quant::RndConv),
        _ => None,
    }
}

fn over_of(word: Key) -> Option<Over>
    ensures { result ≡ over_of word }
{
    match word {
        Key::Wrap => Some(Over::Wrap),
        Key::Sat => Some(Over::Sat),
        Key::SatZero => Some(Over::SatZero),
        Key::SatSym => Some(Over::SatSym),
        _ => None,
    }
}

/// The shape that these tokens are, if they are one. It takes no memory.
pub fn read_shape(tokens: &[Token]) -> Option<Shape>
    ensures said { MatchOption result (IsNoShape (map tok tokens.now)) (λ s. SpellsShape (map tok tokens.now) s) }
    ensures read { result ≡ shape_of (map tok tokens.now) }
{
    shape(tokens)
}

fn shape(tokens: &[Token]) -> Option<Shape>
    ensures { result ≡ shape_of (map tok tokens.now) }
{
    match tokens {
        [
            Token::Key(word),
            Token::Number(first),
            Token::Number(second),
            rest @ ..,
        ] => {
            let signed = sign_of(*word)?;
            let wl = read_int(first)?;
            let iwl = read_int(second)?;
            modes(signed, wl, iwl, rest)
        }
        _ => None,
    }
}

/// The words after the widths.
fn modes(signed: bool, wl: u64, iwl: u64, tokens: &[Token]) -> Option<Shape>
    ensures { result ≡ modes_of signed wl iwl (map tok tokens.now) }
{
    match tokens {
        [] => moded(signed, wl, iwl, Some(Quant::Trn), Some(Over::Wrap)),
        [Token::Key(word)] => moded(signed, wl, iwl, quant_of(*word), Some(Over::Wrap)),
        [Token::Key(word), Token::Key(last)] => moded(
            signed,
            wl,
            iwl,
            quant_of(*word),
            over_of(*last),
        ),
        _ => None,
    }
}

fn moded(signed: bool, wl: u64, iwl: u64, quant: Option<Quant>, over: Option<Over>) -> Option<Shape>
    ensures { result ≡ moded signed wl iwl quant over }
{
    match (quant, over) {
        (Some(quant), Some(over)) => Some(Shape {
            signed,
            wl,
            iwl,
            quant,
            over,
        }),
        _ => None,
    }
}

/// The format that these tokens are, if they are one: a shape, or the name of one.
pub fn read_format(alloc: Global, tokens: &[Token]) -> Result<Option<FormatRef>, Memory>
    ensures said { IfOk result (λ o. MatchOption o (IsNoFormat (map tok tokens.now)) (λ f. SpellsFormat (map tok tokens.now) f)) }
    ensures read { IfOk result (λ o. o ≡ format_of (map tok tokens.now)) }
{
    format(alloc, tokens)
}

fn format(alloc: Global, tokens: &[Token]) -> Result<Option<FormatRef>, Memory>
    ensures { IfOk result (λ o. o ≡ format_of (map tok tokens.now)) }
{
    match tokens {
        [Token::Name(name)] => Ok(Some(FormatRef::Named(Name::copied(alloc, name)?))),
        _ => Ok(shape(tokens).map(FormatRef::Own)),
    }
}

/// How many tokens the format has that stands first on the rest of a line, where it is followed by no reserved word.
pub fn format_len(tokens: &[Token]) -> usize
    ensures ends { EndsThere (map tok tokens.now) result }
    ensures read { result ≡ format_len (map tok tokens.now) }
{
    measure(tokens)
}

fn measure(tokens: &[Token]) -> usize
    ensures { result ≡ format_len (map tok tokens.now) }
{
    match tokens {
        [Token::Name(_), ..] => 1,
        [Token::Key(_), Token::Number(_), Token::Number(_), rest @ ..] => 3 + keys_first(rest),
        _ => 0,
    }
}

fn keys_first(tokens: &[Token]) -> usize
    ensures count { result ≡ keys_first (map tok tokens.now) }
    ensures few { result ≤ 2 }
{
    match tokens {
        [Token::Key(_), Token::Key(_), ..] => 2,
        [Token::Key(_), ..] => 1,
        _ => 0,
    }
}
