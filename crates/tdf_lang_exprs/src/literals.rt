//! Literals.

ghost use Rattle.std.specs.Prelude.{◌≡◌, ◌∷◌, [], map, IfOk, MatchOption};
ghost use Rattle.std.specs.Option.{option_map};
ghost use Rattle.tdf_lang_lexer.specs.Token.{tok};
ghost use Rattle.tdf_lang_exprs.specs.Numbers.{trimmed};
ghost use Rattle.tdf_lang_exprs.specs.Literals.{SpellsLit, SpellsLits, IsNoLit, IsNoLits, is_nought, plain_lit, minus_lit};
ghost use Rattle.tdf_lang_exprs.specs.views.LitViews.{lits};
ghost use Rattle.tdf_lang_exprs.specs.machine.Literals.{lit_of, lits_of, lits_step, ready, signed};

use crate::numbers::read_number;
use std::alloc::Global;
use tdf_base::Memory;
use tdf_lang_lexer::{Symbol, Token};
use tdf_lang_tree::{Digits, Lit};

/// The literal that these tokens are, if they are one.
pub fn read_lit(alloc: Global, tokens: &[Token]) -> Result<Option<Lit>, Memory>
    ensures said { IfOk result (λ o. MatchOption o (IsNoLit (map tok tokens.now)) (λ x. SpellsLit (map tok tokens.now) x)) }
    ensures read { IfOk result (λ o. o ≡ lit_of (map tok tokens.now)) }
{
    literal(alloc, tokens)
}

fn literal(alloc: Global, tokens: &[Token]) -> Result<Option<Lit>, Memory>
    ensures { IfOk result (λ o. o ≡ lit_of (map tok tokens.now)) }
{
    match tokens {
        [Token::Number(text)] => Ok(Some(plain(alloc, text)?)),
        [Token::Symbol(Symbol::Minus), Token::Number(text)] => Ok(Some(minus(alloc, text)?)),
        _ => Ok(None),
    }
}

fn plain(alloc: Global, text: &[u8]) -> Result<Lit, Memory>
    ensures { IfOk result (λ x. x ≡ plain_lit text.now) }
{
    Ok(Lit {
        minus: false,
        digits: read_number(alloc, text)?,
    })
}

fn minus(alloc: Global, text: &[u8]) -> Result<Lit, Memory>
    ensures { IfOk result (λ x. x ≡ minus_lit text.now) }
{
    let digits = read_number(alloc, text)?;
    Ok(Lit {
        minus: !is_nought(&digits),
        digits,
    })
}

fn is_nought(digits: &Digits) -> bool
    ensures { result ≡ is_nought digits.now }
{
    match digits.as_bytes() {
        [byte] => *byte == b'0',
        _ => false,
    }
}

/// Literals one after another.
#[derive(Drop)]
enum Reading {
    Ready(Vec<Lit>),
    /// After `-`.
    Signed(Vec<Lit>),
    Bad,
}

/// The literals that these tokens are one after another, if they are.
pub fn read_lits(alloc: Global, tokens: &[Token]) -> Result<Option<Vec<Lit>>, Memory>
    ensures said { IfOk result (λ o. MatchOption o (IsNoLits (map tok tokens.now)) (λ v. SpellsLits (map tok tokens.now) v.items)) }
    ensures read { IfOk result (λ o. option_map (λ v. v.items) o ≡ lits_of (map tok tokens.now)) }
{
    literals(alloc, tokens)
}

#[tactic(auto, using(crate::proofs::Waits::map_drop), unfolding(crate::specs::machine::Literals::lits_of))]
fn literals(alloc: Global, tokens: &[Token]) -> Result<Option<Vec<Lit>>, Memory>
    ensures { IfOk result (λ o. option_map (λ v. v.items) o ≡ lits_of (map tok tokens.now)) }
{
    let mut at = Reading::Ready(Vec::new(alloc));
    for token in tokens {
        at = step(alloc, at, *token)?;
    }
    match at {
        Reading::Ready(list) => Ok(Some(list)),
        Reading::Signed(_) => Ok(None),
        Reading::Bad => Ok(None),
    }
}

fn step(alloc: Global, at: Reading, token: Token) -> Result<Reading, Memory>
    ensures { IfOk result (λ next. lits next ≡ lits_step (lits at) (tok token.entry)) }
{
    match at {
        Reading::Ready(list) => ready(alloc, list, token),
        Reading::Signed(list) => signed(alloc, list, token),
        Reading::Bad => Ok(Reading::Bad),
    }
}

fn ready(alloc: Global, list: Vec<Lit>, token: Token) -> Result<Reading, Memory>
    ensures { IfOk result (λ next. lits next ≡ ready (tok token.entry) list.items) }
{
    let mut list = list;
    match token {
        Token::Number(text) => {
            list.push(plain(alloc, text)?)?;
            Ok(Reading::Ready(list))
        }
        Token::Symbol(Symbol::Minus) => Ok(Reading::Signed(list)),
        _ => Ok(Reading::Bad),
    }
}

fn signed(alloc: Global, list: Vec<Lit>, token: Token) -> Result<Reading, Memory>
    ensures { IfOk result (λ next. lits next ≡ signed (tok token.entry) list.items) }
{
    let mut list = list;
    match token {
        Token::Number(text) => {
            list.push(minus(alloc, text)?)?;
            Ok(Reading::Ready(list))
        }
        _ => Ok(Reading::Bad),
    }
}
