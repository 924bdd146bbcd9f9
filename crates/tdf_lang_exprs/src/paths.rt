//! Dotted paths.

ghost use Rattle.std.specs.Prelude.{◌≡◌, map, IfOk, MatchOption};
ghost use Rattle.std.specs.Option.{option_map};
ghost use Rattle.tdf_lang_lexer.specs.Token.{tok};
ghost use Rattle.tdf_lang_exprs.specs.Paths.{SpellsPath, IsNoPath};
ghost use Rattle.tdf_lang_exprs.specs.views.LitViews.{walked};
ghost use Rattle.tdf_lang_exprs.specs.machine.Paths.{path_of, path_step, want_name, have_name};

use std::alloc::Global;
use tdf_base::Memory;
use tdf_lang_lexer::{Symbol, Token};
use tdf_lang_tree::Name;

/// The names so far.
#[derive(Drop)]
enum Walk {
    WantName(Vec<Name>),
    HaveName(Vec<Name>),
    Bad,
}

/// The path that these tokens are, if they are one: names joined by points.
pub fn read_path(alloc: Global, tokens: &[Token]) -> Result<Option<Vec<Name>>, Memory>
    ensures said { IfOk result (λ o. MatchOption o (IsNoPath (map tok tokens.now)) (λ v. SpellsPath (map tok tokens.now) v.items)) }
    ensures read { IfOk result (λ o. option_map (λ v. v.items) o ≡ path_of (map tok tokens.now)) }
{
    names(alloc, tokens)
}

#[tactic(auto, using(crate::proofs::Waits::map_drop), unfolding(crate::specs::machine::Paths::path_of))]
fn names(alloc: Global, tokens: &[Token]) -> Result<Option<Vec<Name>>, Memory>
    ensures { IfOk result (λ o. option_map (λ v. v.items) o ≡ path_of (map tok tokens.now)) }
{
    let mut at = Walk::WantName(Vec::new(alloc));
    for token in tokens {
        at = step(alloc, at, *token)?;
    }
    match at {
        Walk::HaveName(names) => Ok(Some(names)),
        Walk::WantName(_) => Ok(None),
        Walk::Bad => Ok(None),
    }
}

fn step(alloc: Global, at: Walk, token: Token) -> Result<Walk, Memory>
    ensures { IfOk result (λ next. walked next ≡ path_step (walked at) (tok token.entry)) }
{
    match at {
        Walk::WantName(names) => want_name(alloc, names, token),
        Walk::HaveName(names) => Ok(have_name(names, token)),
        Walk::Bad => Ok(Walk::Bad),
    }
}

fn want_name(alloc: Global, names: Vec<Name>, token: Token) -> Result<Walk, Memory>
    ensures { IfOk result (λ next. walked next ≡ want_name (tok token.entry) names.items) }
{
    let mut names = names;
    match token {
        Token::Name(name) => {
            names.push(Name::copied(alloc, name)?)?;
            Ok(Walk::HaveName(names))
        }
        _ => Ok(Walk::Bad),
    }
}

fn have_name(names: Vec<Name>, token: Token) -> Walk
    ensures { walked result ≡ have_name (tok token.entry) names.items }
{
    match token {
        Token::Symbol(Symbol::Point) => Walk::WantName(names),
        _ => Walk::Bad,
    }
}
