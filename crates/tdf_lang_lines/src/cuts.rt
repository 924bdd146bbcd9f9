//! A line's tokens, cut in two.

ghost use Rattle.std.specs.Prelude.{drop, length, map, take, ◌-◌, ◌≡◌, ◌≤◌};
ghost use Rattle.tdf_lang_lines.specs.machine.Reads.{cut_rest, index_len, index_len_more, is_close};
ghost use Rattle.tdf_lang_exprs.specs.machine.Formats.{format_len};
ghost use Rattle.tdf_lang_lexer.specs.Token.{tok};

use tdf_lang_exprs::format_len;
use tdf_lang_lexer::{Symbol, Token};

/// The first `at` tokens, and the others.
#[tactic(auto, using(crate::proofs::CutLaws::cut_laws))]
pub(crate) fn split<'a, 't>(
    tokens: &'a [Token<'t>],
    at: usize,
) -> (&'a [Token<'t>], &'a [Token<'t>])
    requires { at ≤ length tokens.now }
    ensures first { map tok result.0.now ≡ take at (map tok tokens.now) }
    ensures rest { map tok result.1.now ≡ drop at (map tok tokens.now) }
{
    tokens.split_at(at)
}

/// The format that comes first, and what follows it.
#[tactic(auto, using(crate::proofs::CutLaws::format_laws))]
pub(crate) fn cut_format<'a, 't>(tokens: &'a [Token<'t>]) -> (&'a [Token<'t>], &'a [Token<'t>])
    ensures first { map tok result.0.now ≡ take (format_len (map tok tokens.now)) (map tok tokens.now) }
    ensures rest { map tok result.1.now ≡ cut_rest (map tok tokens.now) }
{
    split(tokens, format_len(tokens))
}

/// All but the last token, and the last.
#[tactic(auto, using(crate::proofs::CutLaws::cut_laws))]
pub(crate) fn cut_last<'a, 't>(tokens: &'a [Token<'t>]) -> (&'a [Token<'t>], &'a [Token<'t>])
    ensures first { map tok result.0.now ≡ take (length (map tok tokens.now) - 1) (map tok tokens.now) }
    ensures rest { map tok result.1.now ≡ drop (length (map tok tokens.now) - 1) (map tok tokens.now) }
{
    split(tokens, tokens.len().saturating_sub(1))
}

fn is_close(token: Token) -> bool
    ensures { result ≡ is_close (tok token.entry) }
{
    match token {
        Token::Symbol(Symbol::CloseSquare) => true,
        _ => false,
    }
}

fn index_len_more(tokens: &[Token]) -> usize
    ensures { result ≡ index_len_more (map tok tokens.now) }
{
    match tokens {
        [_, fourth, ..] => { if is_close(*fourth) { 3 } else { 5 } }
        _ => 3,
    }
}

/// How many tokens the index has that comes first: it ends before `]`.
fn index_len(tokens: &[Token]) -> usize
    ensures { result ≡ index_len (map tok tokens.now) }
{
    match tokens {
        [_, second, rest @ ..] => {
            if is_close(*second) {
                1
            } else {
                index_len_more(rest)
            }
        }
        _ => 0,
    }
}

/// The index that comes first, and what follows it.
#[tactic(auto, using(crate::proofs::CutLaws::index_laws))]
pub(crate) fn cut_index<'a, 't>(tokens: &'a [Token<'t>]) -> (&'a [Token<'t>], &'a [Token<'t>])
    ensures first { map tok result.0.now ≡ take (index_len (map tok tokens.now)) (map tok tokens.now) }
    ensures rest { map tok result.1.now ≡ drop (index_len (map tok tokens.now)) (map tok tokens.now) }
{
    let len = index_len(tokens);
    split(tokens, len.min(tokens.len()))
}
