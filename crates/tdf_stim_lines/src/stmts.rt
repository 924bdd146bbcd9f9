//! Statements and bodies.

ghost use Rattle.tdf_lang_tree.specs.Views.{pure_body, pure_stmt, pure_stmts};
ghost use Rattle.tdf_stim_lines.specs.Numbered.{body_at, stmt_at, stmts_at};
ghost use Rattle.tdf_stim_lines.specs.machine.Walk.{Walks, body_size, else_at, else_size, stmt_size, stmts_size};

use tdf_lang_tree::{Stmt, Stmts};

/// Numbers a statement from a line on, and says the line after it.
#[cycle(number)]
fn number_stmt(stmt: &mut Stmt, at: u32) -> u32
    ensures { Walks stmt_size stmt_at at result (pure_stmt stmt.old) (pure_stmt stmt.new) }
{
    match stmt {
        Stmt::Assign { line, .. } => {
            *line = at;
            at.saturating_add(1)
        }
        Stmt::If { line, yes, no, .. } => {
            *line = at;
            let middle = number_stmts(yes, at.saturating_add(1));
            let end = number_else(no, middle);
            end.saturating_add(1)
        }
        Stmt::For { line, body, .. } => {
            *line = at;
            let end = number_stmts(body, at.saturating_add(1));
            end.saturating_add(1)
        }
        Stmt::Notify { line, .. } => {
            *line = at;
            at.saturating_add(1)
        }
        Stmt::SetRate { line, .. } => {
            *line = at;
            at.saturating_add(1)
        }
        Stmt::SetStep { line, .. } => {
            *line = at;
            at.saturating_add(1)
        }
        Stmt::Accept { line } => {
            *line = at;
            at.saturating_add(1)
        }
        Stmt::Reject { line } => {
            *line = at;
            at.saturating_add(1)
        }
    }
}

/// Numbers statements behind `else`, which has no line where there are none.
#[cycle(number)]
fn number_else(list: &mut Vec<Stmt>, at: u32) -> u32
    ensures { Walks else_size else_at at result (pure_stmts list.old.items) (pure_stmts list.new.items) }
{
    if list.is_empty() {
        return at;
    }
    number_stmts(list, at.saturating_add(1))
}

/// Numbers statements one after another from a line on, and says the line after them.
#[cycle(number)]
pub(crate) fn number_stmts(list: &mut Vec<Stmt>, at: u32) -> u32
    ensures { Walks stmts_size stmts_at at result (pure_stmts list.old.items) (pure_stmts list.new.items) }
{
    let mut next = at;
    for i in 0..list.len() {
        next = number_stmt(&mut list[i], next);
    }
    next
}

/// Numbers the statements of a body from a line on, and says the line after them: that of its `end`, which is 0 in a body
/// without statements.
pub(crate) fn number_body(body: &mut Stmts, at: u32) -> u32
    ensures { Walks body_size body_at at result (pure_body body.old) (pure_body body.new) }
{
    if body.list.is_empty() {
        body.end = 0;
        return at;
    }
    let end = number_stmts(&mut body.list, at);
    body.end = end;
    end
}
