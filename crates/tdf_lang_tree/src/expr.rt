//! Expressions and indices.

use tdf_fixed::{Digits, Name};

/// An index: a whole number, a loop variable, the sum or difference of both, or from version 2 on a multiple of a loop
/// variable. `From(n, i)` is `n - i`, `Times(c, i)` is `c * i`, and `TimesPlus(c, i, d)` is `c * i + d`.
#[derive(Debug, Drop, PartialEq, Eq)]
pub enum Index {
    Int(u64),
    Var(Name),
    Plus(Name, u64),
    Minus(Name, u64),
    From(u64, Name),
    Times(u64, Name),
    TimesPlus(u64, Name, u64),
}

/// An operator with two operands.
#[derive(Clone, Copy, Debug, PartialEq, Eq)]
pub enum Op {
    Or,
    And,
    Lt,
    Le,
    Eq,
    Ne,
    Gt,
    Ge,
    Add,
    Sub,
    Mul,
}

/// An expression. Parentheses are not kept.
#[derive(Drop)]
pub enum Expr {
    Number(Digits),
    Name(Name),
    /// `name[index]`
    At(Name, Index),
    /// `name(value)`: the value in the format of that name.
    Cast(Name, Box<Expr>),
    /// `select(test, a, b)`: `a` where the test holds, else `b`.
    Select(Box<Expr>, Box<Expr>, Box<Expr>),
    Not(Box<Expr>),
    Neg(Box<Expr>),
    /// A shift by a number of bits; to the left (`<<`) where the `bool` is true.
    Shift(Box<Expr>, bool, u64),
    Binary(Op, Box<Expr>, Box<Expr>),
}
