//! The body of the driver.

ghost use Rattle.std.specs.List.{range_with_len};
ghost use Rattle.std.specs.Prelude.{◌≡◌, ◌<◌, IfOk, codes, length, map};
ghost use Rattle.tdf_lang_tree.specs.Pure.{EBinary, EName, ENumber};
ghost use Rattle.tdf_lang_tree.specs.Views.{pure_expr, pure_stmt, pure_stmts};
ghost use Rattle.tdf_stim.specs.Driver.{assign, count_up, driver_body, each_run, first_run, is_count, notify_lines, notify, one_run};

use crate::names::name_with;
use std::alloc::Global;
use tdf_base::{Digits, Memory, Name};
use tdf_lang_tree::{Expr, Index, Limit, Op, Stmt};

/// `qJ = aJ[i]`
#[tactic(auto, using(crate::proofs::Forms::form_laws))]
fn assign(alloc: Global, number: usize) -> Result<Stmt, Memory>
    ensures { IfOk result (λ s. pure_stmt s ≡ assign number) }
{
    let name = name_with(alloc, b"q", number)?;
    let array = name_with(alloc, b"a", number)?;
    let index = Index::Var(Name::copied(alloc, b"i")?);
    Ok(Stmt::Assign {
        line: 0,
        name,
        index: None,
        value: Expr::At(array, index),
    })
}

/// The assignments to all ports.
fn assigns(alloc: Global, columns: usize) -> Result<Vec<Stmt>, Memory>
    ensures { IfOk result (λ list. map pure_stmt list.items ≡ map assign (range_with_len 0 columns)) }
{
    let mut list = Vec::new(alloc);
    for number in 0..columns {
        list.push(assign(alloc, number)?)?;
    }
    Ok(list)
}

/// `notify eI after TIME`
#[tactic(auto, using(crate::proofs::Forms::form_laws))]
fn notify(alloc: Global, number: usize, after: u64) -> Result<Stmt, Memory>
    ensures { IfOk result (λ s. pure_stmt s ≡ notify number after) }
{
    Ok(Stmt::Notify {
        line: 0,
        event: name_with(alloc, b"e", number)?,
        after,
    })
}

/// The notifications at these times, from event 1 on.
fn notify_lines(alloc: Global, times: &[u64]) -> Result<Vec<Stmt>, Memory>
    ensures { IfOk result (λ list. map pure_stmt list.items ≡ notify_lines 1 times.now) }
{
    let mut list = Vec::new(alloc);
    for i in 0..times.len() {
        list.push(notify(alloc, i + 1, times[i])?)?;
    }
    Ok(list)
}

/// The name `k` as an expression.
fn count_name(alloc: Global) -> Result<Expr, Memory>
    ensures { IfOk result (λ e. pure_expr e ≡ EName (codes "k")) }
{
    Ok(Expr::Name(Name::copied(alloc, b"k")?))
}

/// Two operands and an operator.
fn binary(alloc: Global, op: Op, left: Expr, right: Expr) -> Result<Expr, Memory>
    ensures { IfOk result (λ e. pure_expr e ≡ EBinary op (pure_expr left) (pure_expr right)) }
{
    match Box::new(alloc, left) {
        Ok(left) => Ok(Expr::Binary(op, left, Box::new(alloc, right)?)),
        Err(refused) => {
            drop(right);
            Err(Memory::from(refused))
        }
    }
}

/// `k == ..`
fn is_count(alloc: Global, other: Expr) -> Result<Expr, Memory>
    ensures { IfOk result (λ e. pure_expr e ≡ is_count (pure_expr other)) }
{
    match count_name(alloc) {
        Ok(count) => binary(alloc, Op::Eq, count, other),
        Err(refused) => {
            drop(other);
            Err(refused)
        }
    }
}

/// A number as an expression.
fn number(alloc: Global, digits: &[u8]) -> Result<Expr, Memory>
    ensures { IfOk result (λ e. pure_expr e ≡ ENumber digits.now) }
{
    Ok(Expr::Number(Digits::copied(alloc, digits)?))
}

/// `if k == 0`, with the notifications.
#[tactic(auto, using(crate::proofs::Forms::form_laws))]
fn first_run(alloc: Global, times: &[u64]) -> Result<Stmt, Memory>
    requires { 0 < length times.now }
    ensures { IfOk result (λ s. pure_stmt s ≡ first_run times.now) }
{
    let test = is_count(alloc, number(alloc, b"0")?)?;
    let yes = notify_lines(alloc, &times[1..])?;
    Ok(Stmt::If {
        line: 0,
        test,
        yes,
        no: Vec::new(alloc),
    })
}

/// `if k == i`, with the assignments.
#[tactic(auto, using(crate::proofs::Forms::form_laws))]
fn one_run(alloc: Global, columns: usize) -> Result<Stmt, Memory>
    ensures { IfOk result (λ s. pure_stmt s ≡ one_run columns) }
{
    let test = is_count(alloc, Expr::Name(Name::copied(alloc, b"i")?))?;
    let yes = assigns(alloc, columns)?;
    Ok(Stmt::If {
        line: 0,
        test,
        yes,
        no: Vec::new(alloc),
    })
}

/// `for i 0 N`
#[tactic(auto, using(crate::proofs::Forms::form_laws))]
fn each_run(alloc: Global, rows: usize, columns: usize) -> Result<Stmt, Memory>
    ensures { IfOk result (λ s. pure_stmt s ≡ each_run rows columns) }
{
    let var = Name::copied(alloc, b"i")?;
    let mut body = Vec::new(alloc);
    body.push(one_run(alloc, columns)?)?;
    Ok(Stmt::For {
        line: 0,
        var,
        from: 0,
        limit: Limit::Int(rows as u64),
        body,
    })
}

/// `k = k + 1`
#[tactic(auto, using(crate::proofs::Forms::form_laws))]
fn count_up(alloc: Global) -> Result<Stmt, Memory>
    ensures { IfOk result (λ s. pure_stmt s ≡ count_up) }
{
    let name = Name::copied(alloc, b"k")?;
    let value = binary(alloc, Op::Add, count_name(alloc)?, number(alloc, b"1")?)?;
    Ok(Stmt::Assign {
        line: 0,
        name,
        index: None,
        value,
    })
}

/// The body, for the rows at these times.
///
/// # Errors
/// Out of memory.
#[tactic(auto, using(crate::proofs::Forms::form_laws))]
pub(crate) fn driver_body(alloc: Global, columns: usize, times: &[u64]) -> Result<Vec<Stmt>, Memory>
    requires { 0 < length times.now }
    ensures { IfOk result (λ list. pure_stmts list.items ≡ driver_body columns times.now) }
{
    let mut body = Vec::new(alloc);
    body.push(first_run(alloc, times)?)?;
    body.push(each_run(alloc, times.len(), columns)?)?;
    body.push(count_up(alloc)?)?;
    Ok(body)
}
