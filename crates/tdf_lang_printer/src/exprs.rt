//! The canonical text of expressions.

ghost use Rattle.std.specs.Prelude.{◌≡◌, ◌++◌, OnOk, codes};
ghost use Rattle.std.specs.Fmt.{decimal};
ghost use Rattle.tdf_lang_tree.specs.Pure.{EAt};
ghost use Rattle.tdf_lang_tree.specs.Views.{pure_expr};
ghost use Rattle.tdf_lang_printer.specs.Exprs.{op_text, shift_text, index_text, is_single, operand_text, expr_text};

use tdf_base::{Memory, push_number};
use tdf_lang_tree::{Expr, Index, Name, Op};

fn op_text(op: Op) -> &'static [u8]
    ensures { result.now ≡ op_text op }
{
    match op {
        Op::Or => b" or ",
        Op::And => b" and ",
        Op::Lt => b" < ",
        Op::Le => b" <= ",
        Op::Eq => b" == ",
        Op::Ne => b" != ",
        Op::Gt => b" > ",
        Op::Ge => b" >= ",
        Op::Add => b" + ",
        Op::Sub => b" - ",
        Op::Mul => b" * ",
    }
}

fn shift_text(left: bool) -> &'static [u8]
    ensures { result.now ≡ shift_text left }
{
    if left { b" << " } else { b" >> " }
}

/// A multiple of a loop variable.
fn push_times(out: &mut Vec<u8>, number: u64, name: &Name) -> Result<(), Memory>
    ensures { OnOk result (out.new.items ≡ out.old.items ++ (decimal number ++ (codes " * " ++ name.now))) }
{
    push_number(out, number)?;
    out.extend_from_slice(b" * ")?;
    out.extend_from_slice(name.as_bytes())?;
    Ok(())
}

pub(crate) fn push_index(out: &mut Vec<u8>, index: &Index) -> Result<(), Memory>
    ensures { OnOk result (out.new.items ≡ out.old.items ++ index_text index.now) }
{
    match index {
        Index::Int(number) => push_number(out, *number),
        Index::Var(name) => {
            out.extend_from_slice(name.as_bytes())?;
            Ok(())
        }
        Index::Plus(name, number) => {
            out.extend_from_slice(name.as_bytes())?;
            out.extend_from_slice(b" + ")?;
            push_number(out, *number)
        }
        Index::Minus(name, number) => {
            out.extend_from_slice(name.as_bytes())?;
            out.extend_from_slice(b" - ")?;
            push_number(out, *number)
        }
        Index::From(number, name) => {
            push_number(out, *number)?;
            out.extend_from_slice(b" - ")?;
            out.extend_from_slice(name.as_bytes())?;
            Ok(())
        }
        Index::Times(number, name) => push_times(out, *number, name),
        Index::TimesPlus(number, name, more) => {
            push_times(out, *number, name)?;
            out.extend_from_slice(b" + ")?;
            push_number(out, *more)
        }
    }
}

/// Whether an operand needs no parentheses.
fn is_single(expr: &Expr) -> bool
    ensures { result ≡ is_single (pure_expr expr.now) }
{
    match expr {
        Expr::Number(_) => true,
        Expr::Name(_) => true,
        Expr::At(_, _) => true,
        Expr::Cast(_, _) => true,
        Expr::Select(_, _, _) => true,
        Expr::Not(_) => false,
        Expr::Neg(_) => false,
        Expr::Shift(_, _, _) => false,
        Expr::Binary(_, _, _) => false,
    }
}

#[cycle(push_expr)]
fn push_operand(out: &mut Vec<u8>, expr: &Expr) -> Result<(), Memory>
    ensures { OnOk result (out.new.items ≡ out.old.items ++ operand_text (pure_expr expr.now) (expr_text (pure_expr expr.now))) }
{
    if is_single(expr) {
        return push_expr(out, expr);
    }
    out.push(b'(')?;
    push_expr(out, expr)?;
    out.push(b')')?;
    Ok(())
}

fn push_bytes(out: &mut Vec<u8>, bytes: &[u8]) -> Result<(), Memory>
    ensures { OnOk result (out.new.items ≡ out.old.items ++ bytes.now) }
{
    out.extend_from_slice(bytes)?;
    Ok(())
}

/// Appends a shift and its count of bits.
fn push_shift(out: &mut Vec<u8>, left: bool, bits: u64) -> Result<(), Memory>
    ensures { OnOk result (out.new.items ≡ out.old.items ++ (shift_text left ++ decimal bits)) }
{
    out.extend_from_slice(shift_text(left))?;
    push_number(out, bits)
}

/// Appends an indexed name.
fn push_item(out: &mut Vec<u8>, name: &Name, index: &Index) -> Result<(), Memory>
    ensures { OnOk result (out.new.items ≡ out.old.items ++ expr_text (EAt name.now index.now)) }
{
    out.extend_from_slice(name.as_bytes())?;
    out.push(b'[')?;
    push_index(out, index)?;
    out.push(b']')?;
    Ok(())
}

/// Appends an expression.
#[cycle(push_expr)]
pub(crate) fn push_expr(out: &mut Vec<u8>, expr: &Expr) -> Result<(), Memory>
    ensures { OnOk result (out.new.items ≡ out.old.items ++ expr_text (pure_expr expr.now)) }
{
    match expr {
        Expr::Number(digits) => push_bytes(out, digits.as_bytes()),
        Expr::Name(name) => push_bytes(out, name.as_bytes()),
        Expr::At(name, index) => push_item(out, name, index),
        Expr::Cast(name, value) => {
            out.extend_from_slice(name.as_bytes())?;
            out.push(b'(')?;
            push_expr(out, value)?;
            push_bytes(out, b")")
        }
        Expr::Select(test, first, second) => {
            out.extend_from_slice(b"select(")?;
            push_expr(out, test)?;
            out.extend_from_slice(b", ")?;
            push_expr(out, first)?;
            out.extend_from_slice(b", ")?;
            push_expr(out, second)?;
            push_bytes(out, b")")
        }
        Expr::Not(value) => {
            out.extend_from_slice(b"not ")?;
            push_operand(out, value)
        }
        Expr::Neg(value) => {
            out.push(b'-')?;
            push_operand(out, value)
        }
        Expr::Shift(value, left, bits) => {
            push_operand(out, value)?;
            push_shift(out, *left, *bits)
        }
        Expr::Binary(op, left, right) => {
            push_operand(out, left)?;
            out.extend_from_slice(op_text(*op))?;
            push_operand(out, right)
        }
    }
}
