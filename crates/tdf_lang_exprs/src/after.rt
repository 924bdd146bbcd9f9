//! What a token after an operand does.

ghost use Rattle.std.specs.Prelude.{◌≡◌};
ghost use Rattle.tdf_lang_lexer.specs.Token.{tok};
ghost use Rattle.tdf_lang_exprs.specs.machine.Exprs.{after, after_key, after_symbol};
ghost use Rattle.tdf_lang_exprs.specs.SpellsExpr.{level, left_level};

use tdf_lang_lexer::{Key, Symbol, Token};
use tdf_lang_tree::Op;

#[derive(Clone, Copy)]
pub(crate) enum After {
    /// An operator between two operands.
    Joins(Op),
    /// `<<` or `>>`; true for `<<`.
    Shifts(bool),
    /// `)`
    Shuts,
    /// `,`
    Parts,
    /// No token of an expression that may stand after an operand.
    Breaks,
}

pub(crate) fn level_of(op: Op) -> u8
    ensures { result ≡ level op }
{
    match op {
        Op::Or => 0,
        Op::And => 1,
        Op::Lt | Op::Le | Op::Eq | Op::Ne | Op::Gt | Op::Ge => 3,
        Op::Add | Op::Sub => 4,
        Op::Mul => 5,
    }
}

pub(crate) fn left_level_of(op: Op) -> u8
    ensures { result ≡ left_level op }
{
    match op {
        Op::Or => 0,
        Op::And => 1,
        Op::Lt | Op::Le | Op::Eq | Op::Ne | Op::Gt | Op::Ge | Op::Add | Op::Sub => 4,
        Op::Mul => 5,
    }
}

pub(crate) fn after_of(token: Token) -> After
    ensures { result ≡ after (tok token.entry) }
{
    match token {
        Token::Key(key) => after_key(key),
        Token::Symbol(symbol) => after_symbol(symbol),
        _ => After::Breaks,
    }
}

fn after_key(key: Key) -> After
    ensures { result ≡ after_key key }
{
    match key {
        Key::Or => After::Joins(Op::Or),
        Key::And => After::Joins(Op::And),
        _ => After::Breaks,
    }
}

fn after_symbol(symbol: Symbol) -> After
    ensures { result ≡ after_symbol symbol }
{
    match symbol {
        Symbol::Less => After::Joins(Op::Lt),
        Symbol::AtMost => After::Joins(Op::Le),
        Symbol::Equal => After::Joins(Op::Eq),
        Symbol::NotEqual => After::Joins(Op::Ne),
        Symbol::Greater => After::Joins(Op::Gt),
        Symbol::AtLeast => After::Joins(Op::Ge),
        Symbol::Plus => After::Joins(Op::Add),
        Symbol::Minus => After::Joins(Op::Sub),
        Symbol::Times => After::Joins(Op::Mul),
        Symbol::ShiftLeft => After::Shifts(true),
        Symbol::ShiftRight => After::Shifts(false),
        Symbol::Close => After::Shuts,
        Symbol::Comma => After::Parts,
        _ => After::Breaks,
    }
}
