//! What waits for its right operand while an expression is read.

ghost use Rattle.std.specs.Prelude.{◌≡◌, [], ◌∷◌, IfOk};
ghost use Rattle.tdf_lang_tree.specs.Pure.{ENeg, ENot, EBinary};
ghost use Rattle.tdf_lang_tree.specs.Views.{pure_expr};
ghost use Rattle.tdf_lang_exprs.specs.machine.Exprs.{reduce, stops};
ghost use Rattle.tdf_lang_exprs.specs.views.Waiting.{wait, waits, IsTop};

use crate::after::level_of;
use std::alloc::Global;
use tdf_base::Memory;
use tdf_lang_tree::{Expr, Name, Op};

/// An open bracket: `(`, `name (`, or `select (` with the operands that it has.
#[derive(Drop)]
pub(crate) enum Bracket {
    Group,
    Call(Name),
    First,
    Second(Expr),
    Third(Expr, Expr),
}

#[derive(Drop)]
pub(crate) enum Pending {
    Within(Bracket),
    Negated,
    Denied,
    Left(Op, Expr),
}

/// Where the reading of an expression stands; the stack of what waits stands beside it.
#[derive(Drop)]
pub(crate) enum At {
    Want,
    Have(Expr),
    /// After a name, which `(` or `[` may follow.
    Named(Name),
    /// Between `name [` and `]`; the tokens so far stand beside it.
    Indexing(Name),
    /// After `<<` (true) or `>>`.
    Shifting(Expr, bool),
    /// After `select`.
    Selecting,
    Bad,
}

/// Gives the operand to all that binds at least as tight as the level.
#[tactic(auto, using(crate::proofs::Waits::wait_laws))]
pub(crate) fn reduce(
    alloc: Global,
    stack: &mut Vec<Pending>,
    least: u8,
    tree: Expr,
) -> Result<Expr, Memory>
    ensures { IfOk result (λ e. IsTop (reduce least (waits stack.old.items) (pure_expr tree)) (waits stack.new.items) (pure_expr e)) }
{
    let mut tree = tree;
    while let Some(pending) = stack.pop() {
        match pending {
            Pending::Within(bracket) => return kept(stack, Pending::Within(bracket), tree),
            Pending::Negated => {
                tree = negated(alloc, tree)?;
            }
            Pending::Denied => {
                if least > 2 {
                    return kept(stack, Pending::Denied, tree);
                }
                tree = denied(alloc, tree)?;
            }
            Pending::Left(op, left) => {
                if least > level_of(op) {
                    return kept(stack, Pending::Left(op, left), tree);
                }
                tree = binary(alloc, op, left, tree)?;
            }
        }
    }
    Ok(tree)
}

/// Puts back what goes on waiting, below the operand.
#[tactic(auto, using(crate::proofs::Waits::wait_laws))]
fn kept(stack: &mut Vec<Pending>, pending: Pending, tree: Expr) -> Result<Expr, Memory>
    ensures { IfOk result (λ e. IsTop (record { stack = wait pending ∷ waits stack.old.items; tree = pure_expr tree }) (waits stack.new.items) (pure_expr e)) }
{
    match stack.push(pending) {
        Ok(()) => Ok(tree),
        Err(failed) => {
            drop(tree);
            Err(Memory::from(failed))
        }
    }
}

fn negated(alloc: Global, tree: Expr) -> Result<Expr, Memory>
    ensures { IfOk result (λ e. pure_expr e ≡ ENeg (pure_expr tree)) }
{
    Ok(Expr::Neg(Box::new(alloc, tree)?))
}

fn denied(alloc: Global, tree: Expr) -> Result<Expr, Memory>
    ensures { IfOk result (λ e. pure_expr e ≡ ENot (pure_expr tree)) }
{
    Ok(Expr::Not(Box::new(alloc, tree)?))
}

fn binary(alloc: Global, op: Op, left: Expr, right: Expr) -> Result<Expr, Memory>
    ensures { IfOk result (λ e. pure_expr e ≡ EBinary op (pure_expr left) (pure_expr right)) }
{
    match Box::new(alloc, left) {
        Ok(left) => Ok(Expr::Binary(op, left, Box::new(alloc, right)?)),
        Err(failed) => {
            drop(right);
            Err(Memory::from(failed))
        }
    }
}

/// Whether an operand of this level may stand above the stack.
#[tactic(auto, using(crate::proofs::Waits::wait_laws))]
pub(crate) fn stops(stack: &Vec<Pending>, level: u8) -> bool
    ensures { result ≡ stops level (waits stack.now.items) }
{
    match stack.last() {
        None => true,
        Some(pending) => leaves(pending, level),
    }
}

fn leaves(pending: &Pending, level: u8) -> bool
    ensures { result ≡ stops level (wait pending.now ∷ []) }
{
    match pending {
        Pending::Within(_) => true,
        Pending::Negated => 6 <= level,
        Pending::Denied => 2 <= level,
        Pending::Left(op, _) => level_of(*op) < level,
    }
}
