//! The names that statements use, and the loop variables that they declare.

ghost use Rattle.std.specs.Prelude.{◌≡◌, ◌++◌, IfOk, OnOk};
ghost use Rattle.tdf_base.specs.First.{least_with};
ghost use Rattle.tdf_expr_names.specs.Names.{with_declared, declares, uses, item_faults, limit_name_faults, expr_name_faults, stmt_faults, stmts_faults};
ghost use Rattle.tdf_expr_names.specs.machine.Scope.{locals};
ghost use Rattle.tdf_lang_tree.specs.Views.{pure_expr, pure_stmt, pure_stmts};

use crate::exprs::{check_expr, check_item, check_limit, check_maybe, check_use};
use crate::scope::Scope;
use std::alloc::AllocError;
use tdf_base::{Code, LineFault, Name, noted};
use tdf_lang_tree::{Expr, Index, Limit, Stmt};

/// The first fault so far, with those of an assignment.
#[tactic(auto, using(crate::proofs::LineFirsts::line_laws))]
fn check_assign(
    first: Option<LineFault>,
    scope: &Scope,
    line: u32,
    name: &Name,
    index: &Option<Index>,
    value: &Expr,
) -> Option<LineFault>
    ensures { result ≡ least_with first (uses (locals scope.now) line name.now
        ++ (item_faults (locals scope.now) line index.now
        ++ expr_name_faults scope.now.globals (locals scope.now) line (pure_expr value.now))) }
{
    let first = check_use(first, scope, line, name);
    let first = check_item(first, scope, line, index);
    check_expr(first, scope, line, value)
}

/// The first fault so far, with those of a loop. Its variable is in force in its body alone, and the names in force stay.
///
/// # Errors
/// Out of memory.
#[cycle(bodies)]
#[tactic(auto, using(crate::proofs::StmtFirsts::for_laws))]
fn check_for<'t>(
    first: Option<LineFault>,
    scope: &mut Scope<'_, 't>,
    line: u32,
    var: &'t Name,
    limit: &Limit,
    body: &'t Vec<Stmt>,
) -> Result<Option<LineFault>, AllocError>
    ensures first { IfOk result (λ f. f ≡ least_with first
        (limit_name_faults (locals scope.old) line limit.now
        ++ (declares (locals scope.old) line var.entry.now
        ++ stmts_faults scope.old.globals (with_declared (locals scope.old) var.entry.now)
        (pure_stmts body.entry.now.items)))) }
    ensures same { OnOk result (scope.new ≡ scope.old) }
{
    let first = check_limit(first, scope, line, limit);
    let depth = scope.depth();
    let new = scope.open(var.as_bytes())?;
    let first = noted(first, !new, Code::Duplicate, line);
    let first = check_stmts(first, scope, body)?;
    scope.close(depth);
    Ok(first)
}

/// The first fault so far, with those of a statement. The names in force stay.
///
/// # Errors
/// Out of memory.
#[cycle(bodies)]
#[tactic(auto, using(crate::proofs::StmtFirsts::stmt_laws))]
fn check_stmt<'t>(
    first: Option<LineFault>,
    scope: &mut Scope<'_, 't>,
    stmt: &'t Stmt,
) -> Result<Option<LineFault>, AllocError>
    ensures first { IfOk result (λ f. f ≡ least_with first
        (stmt_faults scope.old.globals (locals scope.old) (pure_stmt stmt.entry.now))) }
    ensures same { OnOk result (scope.new ≡ scope.old) }
{
    match stmt {
        Stmt::Assign {
            line,
            name,
            index,
            value,
        } => Ok(check_assign(first, scope, *line, name, index, value)),
        Stmt::If {
            line,
            test,
            yes,
            no,
        } => {
            let first = check_expr(first, scope, *line, test);
            let first = check_stmts(first, scope, yes)?;
            check_stmts(first, scope, no)
        }
        Stmt::For {
            line,
            var,
            limit,
            body,
            ..
        } => check_for(first, scope, *line, var, limit, body),
        Stmt::Notify { line, event, .. } => Ok(check_use(first, scope, *line, event)),
        Stmt::SetRate { line, name, value } => {
            let first = check_use(first, scope, *line, name);
            Ok(check_expr(first, scope, *line, value))
        }
        Stmt::SetStep { line, port, .. } => Ok(check_maybe(first, scope, *line, port)),
        Stmt::Accept { .. } => Ok(first),
        Stmt::Reject { .. } => Ok(first),
    }
}

/// The first fault so far, with those of statements one after another. The names in force stay.
///
/// # Errors
/// Out of memory.
#[cycle(bodies)]
#[tactic(auto, using(crate::proofs::StmtFirsts::stmt_laws))]
pub(crate) fn check_stmts<'t>(
    first: Option<LineFault>,
    scope: &mut Scope<'_, 't>,
    list: &'t Vec<Stmt>,
) -> Result<Option<LineFault>, AllocError>
    ensures first { IfOk result (λ f. f ≡ least_with first
        (stmts_faults scope.old.globals (locals scope.old) (pure_stmts list.entry.now.items))) }
    ensures same { OnOk result (scope.new ≡ scope.old) }
{
    let mut first = first;
    for stmt in list {
        first = check_stmt(first, scope, stmt)?;
    }
    Ok(first)
}
