//! The names that expressions, indices and limits use.

ghost use Rattle.std.specs.Prelude.{◌≡◌};
ghost use Rattle.tdf_base.specs.First.{least_with};
ghost use Rattle.tdf_expr_names.specs.Names.{uses, uses_maybe, index_name_faults, item_faults, limit_name_faults, expr_name_faults};
ghost use Rattle.tdf_expr_names.specs.machine.Scope.{locals};
ghost use Rattle.tdf_lang_tree.specs.Views.{pure_expr};

use crate::scope::Scope;
use tdf_base::{Code, LineFault, Name, noted};
use tdf_lang_tree::{Expr, Index, Limit};

/// The first fault so far, where this line uses a global name.
#[tactic(auto, using(crate::proofs::LineFirsts::line_laws))]
pub(crate) fn check_global_use(
    first: Option<LineFault>,
    scope: &Scope,
    line: u32,
    name: &Name,
) -> Option<LineFault>
    ensures { result ≡ least_with first (uses scope.now.globals line name.now) }
{
    noted(
        first,
        !scope.has_global(name.as_bytes()),
        Code::Unknown,
        line,
    )
}

/// The first fault so far, where this line uses a name of its block or a loop variable.
#[tactic(auto, using(crate::proofs::LineFirsts::line_laws))]
pub(crate) fn check_use(
    first: Option<LineFault>,
    scope: &Scope,
    line: u32,
    name: &Name,
) -> Option<LineFault>
    ensures { result ≡ least_with first (uses (locals scope.now) line name.now) }
{
    noted(
        first,
        !scope.has_local(name.as_bytes()),
        Code::Unknown,
        line,
    )
}

/// The first fault so far, where this line may use a name of its block.
#[tactic(auto, using(crate::proofs::LineFirsts::line_laws))]
pub(crate) fn check_maybe(
    first: Option<LineFault>,
    scope: &Scope,
    line: u32,
    name: &Option<Name>,
) -> Option<LineFault>
    ensures { result ≡ least_with first (uses_maybe (locals scope.now) line name.now) }
{
    match name {
        None => first,
        Some(name) => check_use(first, scope, line, name),
    }
}

/// The first fault so far, with those of an index.
#[tactic(auto, using(crate::proofs::LineFirsts::line_laws))]
fn check_index(
    first: Option<LineFault>,
    scope: &Scope,
    line: u32,
    index: &Index,
) -> Option<LineFault>
    ensures { result ≡ least_with first (index_name_faults (locals scope.now) line index.now) }
{
    match index {
        Index::Int(_) => first,
        Index::Var(name) => check_use(first, scope, line, name),
        Index::Plus(name, _) => check_use(first, scope, line, name),
        Index::Minus(name, _) => check_use(first, scope, line, name),
        Index::From(_, name) => check_use(first, scope, line, name),
        Index::Times(_, name) => check_use(first, scope, line, name),
        Index::TimesPlus(_, name, _) => check_use(first, scope, line, name),
    }
}

/// The first fault so far, with those of an index that may be absent.
#[tactic(auto, using(crate::proofs::LineFirsts::line_laws))]
pub(crate) fn check_item(
    first: Option<LineFault>,
    scope: &Scope,
    line: u32,
    index: &Option<Index>,
) -> Option<LineFault>
    ensures { result ≡ least_with first (item_faults (locals scope.now) line index.now) }
{
    match index {
        None => first,
        Some(index) => check_index(first, scope, line, index),
    }
}

/// The first fault so far, with those of a limit.
#[tactic(auto, using(crate::proofs::LineFirsts::line_laws))]
pub(crate) fn check_limit(
    first: Option<LineFault>,
    scope: &Scope,
    line: u32,
    limit: &Limit,
) -> Option<LineFault>
    ensures { result ≡ least_with first (limit_name_faults (locals scope.now) line limit.now) }
{
    match limit {
        Limit::Int(_) => first,
        Limit::Var(name) => check_use(first, scope, line, name),
        Limit::Times(_, name) => check_use(first, scope, line, name),
    }
}

/// The first fault so far, with those of an expression.
#[tactic(auto, using(crate::proofs::LineFirsts::line_laws))]
pub(crate) fn check_expr(
    first: Option<LineFault>,
    scope: &Scope,
    line: u32,
    expr: &Expr,
) -> Option<LineFault>
    ensures { result ≡ least_with first
        (expr_name_faults scope.now.globals (locals scope.now) line (pure_expr expr.now)) }
{
    match expr {
        Expr::Number(_) => first,
        Expr::Name(name) => check_use(first, scope, line, name),
        Expr::At(name, index) => {
            let first = check_use(first, scope, line, name);
            check_index(first, scope, line, index)
        }
        Expr::Cast(name, value) => {
            let first = check_global_use(first, scope, line, name);
            check_expr(first, scope, line, value)
        }
        Expr::Select(test, yes, no) => {
            let first = check_expr(first, scope, line, test);
            let first = check_expr(first, scope, line, yes);
            check_expr(first, scope, line, no)
        }
        Expr::Not(value) => check_expr(first, scope, line, value),
        Expr::Neg(value) => check_expr(first, scope, line, value),
        Expr::Shift(value, _, _) => check_expr(first, scope, line, value),
        Expr::Binary(_, left, right) => {
            let first = check_expr(first, scope, line, left);
            check_expr(first, scope, line, right)
        }
    }
}
