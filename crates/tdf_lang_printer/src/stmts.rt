//! The canonical text of statements.

ghost use Rattle.std.specs.Prelude.{◌≡◌, ◌∷◌, [], ◌++◌, OnOk};
ghost use Rattle.tdf_lang_tree.specs.Forms.{FAssign, FFor, FNotify, FSetRate, FIf};
ghost use Rattle.tdf_lang_tree.specs.Views.{pure_expr};
ghost use Rattle.tdf_base.specs.declared.resolution.Resolution.TheVariants.{Ps};
ghost use Rattle.tdf_lang_printer.specs.Lines.{full_line, target_text};
ghost use Rattle.tdf_lang_printer.specs.machine.Texts.{stmt_text, stmts_text, else_text};

use crate::exprs::{push_expr, push_index};
use crate::lines::{push_end, push_step, push_word};
use crate::words::{push_count, push_head, push_limit, push_time};
use tdf_base::{Memory, Resolution};
use tdf_lang_tree::{Expr, Index, Limit, Name, Stmt};

fn push_assign(
    out: &mut Vec<u8>,
    name: &Name,
    index: &Option<Index>,
    value: &Expr,
) -> Result<(), Memory>
    ensures { OnOk result (out.new.items ≡ out.old.items ++ full_line Ps (FAssign name.now index.now (pure_expr value.now))) }
{
    push_target(out, name, index)?;
    out.extend_from_slice(b" = ")?;
    push_expr(out, value)?;
    push_end(out)
}

/// What is assigned: a name, or a name and its index.
fn push_target(out: &mut Vec<u8>, name: &Name, index: &Option<Index>) -> Result<(), Memory>
    ensures { OnOk result (out.new.items ≡ out.old.items ++ target_text name.now index.now) }
{
    match index {
        None => {
            out.extend_from_slice(name.as_bytes())?;
            Ok(())
        }
        Some(index) => {
            out.extend_from_slice(name.as_bytes())?;
            out.push(b'[')?;
            push_index(out, index)?;
            out.push(b']')?;
            Ok(())
        }
    }
}

fn push_test(out: &mut Vec<u8>, test: &Expr) -> Result<(), Memory>
    ensures { OnOk result (out.new.items ≡ out.old.items ++ full_line Ps (FIf (pure_expr test.now))) }
{
    out.extend_from_slice(b"if ")?;
    push_expr(out, test)?;
    push_end(out)
}

fn push_turns(out: &mut Vec<u8>, name: &Name, from: u64, limit: &Limit) -> Result<(), Memory>
    ensures { OnOk result (out.new.items ≡ out.old.items ++ full_line Ps (FFor name.now from limit.now)) }
{
    push_head(out, b"for ", name)?;
    push_count(out, from)?;
    push_limit(out, limit)?;
    push_end(out)
}

fn push_notify(out: &mut Vec<u8>, unit: Resolution, event: &Name, after: u64) -> Result<(), Memory>
    ensures { OnOk result (out.new.items ≡ out.old.items ++ full_line unit (FNotify event.now after)) }
{
    push_head(out, b"notify ", event)?;
    out.extend_from_slice(b" after ")?;
    push_time(out, unit, after)?;
    push_end(out)
}

fn push_set_rate(out: &mut Vec<u8>, name: &Name, value: &Expr) -> Result<(), Memory>
    ensures { OnOk result (out.new.items ≡ out.old.items ++ full_line Ps (FSetRate name.now (pure_expr value.now))) }
{
    push_head(out, b"rate ", name)?;
    out.extend_from_slice(b" = ")?;
    push_expr(out, value)?;
    push_end(out)
}

#[cycle(push_stmts)]
#[tactic(auto, using(crate::proofs::StmtTexts::stmt_laws, std::proofs::lemmas::Grind::common_steps))]
fn push_stmt(out: &mut Vec<u8>, unit: Resolution, stmt: &Stmt) -> Result<(), Memory>
    ensures { OnOk result (out.new.items ≡ out.old.items ++ stmt_text unit stmt.now) }
{
    match stmt {
        Stmt::Assign {
            name,
            index,
            value,
            ..
        } => push_assign(out, name, index, value),
        Stmt::If { test, yes, no, .. } => {
            push_test(out, test)?;
            push_stmts(out, unit, yes)?;
            push_else(out, unit, no)?;
            push_word(out, b"end")
        }
        Stmt::For {
            var,
            from,
            limit,
            body,
            ..
        } => {
            push_turns(out, var, *from, limit)?;
            push_stmts(out, unit, body)?;
            push_word(out, b"end")
        }
        Stmt::Notify { event, after, .. } => push_notify(out, unit, event, *after),
        Stmt::SetRate { name, value, .. } => push_set_rate(out, name, value),
        Stmt::SetStep { port, step, .. } => push_step(out, unit, port, *step),
        Stmt::Accept { .. } => push_word(out, b"accept_attribute_changes"),
        Stmt::Reject { .. } => push_word(out, b"reject_attribute_changes"),
    }
}

/// `else` and its statements; nothing where there are none.
#[cycle(push_stmts)]
#[tactic(auto, using(crate::proofs::StmtTexts::stmt_laws, std::proofs::lemmas::Grind::common_steps))]
fn push_else(out: &mut Vec<u8>, unit: Resolution, list: &Vec<Stmt>) -> Result<(), Memory>
    ensures { OnOk result (out.new.items ≡ out.old.items ++ else_text unit list.now.items) }
{
    if list.len() == 0 {
        return Ok(());
    }
    push_word(out, b"else")?;
    push_stmts(out, unit, list)
}

/// Statements one after another.
#[cycle(push_stmts)]
#[tactic(auto, using(crate::proofs::StmtTexts::stmt_laws, std::proofs::lemmas::Grind::common_steps))]
pub(crate) fn push_stmts(
    out: &mut Vec<u8>,
    unit: Resolution,
    list: &Vec<Stmt>,
) -> Result<(), Memory>
    ensures { OnOk result (out.new.items ≡ out.old.items ++ stmts_text unit list.now.items) }
{
    for stmt in list {
        push_stmt(out, unit, stmt)?;
    }
    Ok(())
}
