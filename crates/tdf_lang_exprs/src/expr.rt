//! Expressions.

ghost use Rattle.std.specs.Prelude.{◌≡◌, List, map, IfOk, MatchOption};
ghost use Rattle.std.specs.Option.{option_map};
ghost use Rattle.tdf_lang_lexer.specs.Token.{Tok, tok};
ghost use Rattle.tdf_lang_tree.specs.Views.{pure_expr};
ghost use Rattle.tdf_lang_exprs.specs.SpellsExpr.{SpellsExpr, IsNoExpr};
ghost use Rattle.tdf_lang_exprs.specs.machine.Exprs.{reduce, closed, finish, expr_of};
ghost use Rattle.tdf_lang_exprs.specs.views.Waiting.{waits, reading};

use crate::pending::{At, Pending, reduce};
use crate::steps::step;
use std::alloc::Global;
use tdf_base::{Memory, Version};
use tdf_lang_lexer::Token;
use tdf_lang_tree::Expr;

/// The expression that these tokens are in a version of the language, if they are one.
///
/// # Errors
/// Out of memory.
pub fn read_expr(alloc: Global, version: Version, tokens: &[Token]) -> Result<Option<Expr>, Memory>
    ensures said { IfOk result (λ o. MatchOption o (IsNoExpr version (map tok tokens.now)) (λ e. SpellsExpr version 0 (map tok tokens.now) (pure_expr e))) }
    ensures read { IfOk result (λ o. option_map pure_expr o ≡ expr_of version (map tok tokens.now)) }
{
    whole(alloc, version, tokens)
}

#[tactic(auto, using(crate::proofs::Waits::run_laws), unfolding(crate::specs::machine::Exprs::expr_of))]
fn whole(alloc: Global, version: Version, tokens: &[Token]) -> Result<Option<Expr>, Memory>
    ensures { IfOk result (λ o. option_map pure_expr o ≡ expr_of version (map tok tokens.now)) }
{
    let mut stack = Vec::new(alloc);
    let mut inside = Vec::new(alloc);
    let mut at = At::Want;
    for token in tokens {
        at = step(alloc, version, &mut stack, &mut inside, at, *token)?;
    }
    finish(alloc, &mut stack, at)
}

fn finish(alloc: Global, stack: &mut Vec<Pending>, at: At) -> Result<Option<Expr>, Memory>
    ensures { IfOk result (λ o. (a : List Tok) → option_map pure_expr o ≡ finish (reading (waits stack.old.items) a at)) }
{
    match at {
        At::Want => Ok(None),
        At::Have(tree) => closed(alloc, stack, tree),
        At::Named(name) => closed(alloc, stack, Expr::Name(name)),
        At::Indexing(name) => {
            drop(name);
            Ok(None)
        }
        At::Shifting(tree, _) => {
            drop(tree);
            Ok(None)
        }
        At::Selecting => Ok(None),
        At::Bad => Ok(None),
    }
}

/// The whole operand, where no bracket is open.
#[tactic(auto, using(crate::proofs::Waits::wait_laws))]
fn closed(alloc: Global, stack: &mut Vec<Pending>, tree: Expr) -> Result<Option<Expr>, Memory>
    ensures { IfOk result (λ o. option_map pure_expr o
        ≡ closed (reduce 0 (waits stack.old.items) (pure_expr tree)).stack (reduce 0 (waits stack.old.items) (pure_expr tree)).tree) }
{
    let only = reduce(alloc, stack, 0, tree)?;
    match stack.pop() {
        None => Ok(Some(only)),
        Some(waiting) => {
            drop(waiting);
            drop(only);
            Ok(None)
        }
    }
}
