//! The faults of statements, and their weights.

ghost use Rattle.std.specs.Prelude.{◌≡◌, ◌≤◌, map, IfOk, OnOk};
ghost use Rattle.tdf_expr_types.specs.machine.Sites.{leaf_faults};
ghost use Rattle.tdf_expr_types.specs.machine.Weights.{capped};
ghost use Rattle.tdf_base.specs.First.{least_with};
ghost use Rattle.tdf_expr_symbols.specs.Faults.{opened, stmt_faults, stmts_faults};
ghost use Rattle.tdf_expr_symbols.specs.Seen.{seen_loop};
ghost use Rattle.tdf_expr_symbols.specs.Weight.{weight, weights};
ghost use Rattle.tdf_lang_tree.specs.Views.{pure_stmt, pure_stmts};

use crate::exprs::check_expr;
use crate::heads::{note_assign, note_change, note_for, note_notify, note_set_rate, note_set_step};
use crate::site::Site;
use crate::weights::{for_weight, if_weight, most, turns};
use tdf_base::{LineFault, Memory, Name};
use tdf_expr_symbols::{OpenLoop, Part, Scope};
use tdf_lang_tree::{Limit, Stmt};

fn site_of<'s, 'g, 't>(
    scope: &'s Scope<'g, 't>,
    part: Part,
    loops: &'s [OpenLoop<'t>],
    line: u32,
) -> Site<'s, 'g, 't>
    ensures { result ≡ record { scope = scope.entry; loops = loops.entry; part = part; line = line } }
{
    Site {
        scope,
        loops,
        part,
        line,
    }
}

/// The loop variable of a `for`.
fn opened<'t>(var: &'t Name, from: u64, end: &'t Limit) -> OpenLoop<'t>
    ensures { seen_loop result ≡ opened var.entry.now from end.entry.now }
{
    OpenLoop {
        name: var.as_bytes(),
        from,
        end,
    }
}

/// Notes the faults of a statement that holds no other, and tells its weight.
#[tactic(auto, using(crate::proofs::Listed::stmt_laws))]
fn check_leaf<'t>(
    first: &mut Option<LineFault>,
    scope: &Scope<'_, 't>,
    part: Part,
    loops: &[OpenLoop<'t>],
    s: &Stmt,
) -> u64
    ensures first { first.new ≡ least_with first.old
        (leaf_faults scope.now part (map seen_loop loops.entry.now) (pure_stmt s.now)) }
    ensures weight { result ≡ 1 }
{
    match s {
        Stmt::Assign {
            line,
            name,
            index,
            value,
        } => {
            let site = site_of(&*scope, part, &*loops, *line);
            note_assign(first, &site, name, index, value);
        }
        Stmt::Notify { line, event, .. } => {
            let site = site_of(&*scope, part, &*loops, *line);
            note_notify(first, &site, event);
        }
        Stmt::SetRate { line, name, value } => {
            let site = site_of(&*scope, part, &*loops, *line);
            note_set_rate(first, &site, name, value);
        }
        Stmt::SetStep { line, port, step } => {
            let site = site_of(&*scope, part, &*loops, *line);
            note_set_step(first, &site, port, *step);
        }
        Stmt::Accept { line } => note_change(first, &site_of(&*scope, part, &*loops, *line)),
        Stmt::Reject { line } => note_change(first, &site_of(&*scope, part, &*loops, *line)),
        Stmt::If { .. } => {}
        Stmt::For { .. } => {}
    }
    1
}

/// Notes the faults of a statement, and tells its weight.
///
/// # Errors
/// Out of memory.
#[cycle(check)]
#[tactic(auto, using(crate::proofs::Listed::stmt_laws))]
fn check_stmt<'t>(
    first: &mut Option<LineFault>,
    scope: &Scope<'_, 't>,
    part: Part,
    loops: &mut Vec<OpenLoop<'t>>,
    s: &'t Stmt,
) -> Result<u64, Memory>
    ensures first { OnOk result (first.new ≡ least_with first.old
        (stmt_faults scope.now part (map seen_loop loops.old.items) (pure_stmt s.entry.now))) }
    ensures weight { IfOk result (λ w. w ≡ capped (weight scope.now.own (pure_stmt s.entry.now))) }
    ensures small { IfOk result (λ w. w ≤ 65537) }
    ensures back { OnOk result (loops.new.items ≡ loops.old.items) }
{
    match s {
        Stmt::If {
            line,
            test,
            yes,
            no,
        } => {
            check_expr(first, &site_of(&*scope, part, &*loops, *line), test);
            let a = check_stmts(first, scope, part, loops, yes)?;
            let b = check_stmts(first, scope, part, loops, no)?;
            Ok(if_weight(a, b))
        }
        Stmt::For {
            line,
            var,
            from,
            limit,
            body,
        } => {
            note_for(first, &site_of(&*scope, part, &*loops, *line), *from, limit);
            loops.push(opened(var, *from, limit))?;
            let body = check_stmts(first, scope, part, loops, body)?;
            loops.pop();
            Ok(for_weight(turns(scope, *from, limit), body))
        }
        Stmt::Assign { .. } => Ok(check_leaf(first, scope, part, loops, s)),
        Stmt::Notify { .. } => Ok(check_leaf(first, scope, part, loops, s)),
        Stmt::SetRate { .. } => Ok(check_leaf(first, scope, part, loops, s)),
        Stmt::SetStep { .. } => Ok(check_leaf(first, scope, part, loops, s)),
        Stmt::Accept { .. } | Stmt::Reject { .. } => Ok(check_leaf(first, scope, part, loops, s)),
    }
}

/// Notes the faults of statements, and tells their weight.
///
/// # Errors
/// Out of memory.
#[cycle(check)]
#[tactic(auto, using(crate::proofs::Listed::list_laws))]
pub fn check_stmts<'t>(
    first: &mut Option<LineFault>,
    scope: &Scope<'_, 't>,
    part: Part,
    loops: &mut Vec<OpenLoop<'t>>,
    list: &'t Vec<Stmt>,
) -> Result<u64, Memory>
    ensures first { OnOk result (first.new ≡ least_with first.old
        (stmts_faults scope.now part (map seen_loop loops.old.items)
        (pure_stmts list.entry.now.items))) }
    ensures weight { IfOk result (λ w. w ≡ capped
        (weights scope.now.own (pure_stmts list.entry.now.items))) }
    ensures small { IfOk result (λ w. w ≤ 65537) }
    ensures back { OnOk result (loops.new.items ≡ loops.old.items) }
{
    let mut total = 0;
    for stmt in list {
        let next = check_stmt(first, scope, part, loops, stmt)?;
        total = most(total + next);
    }
    Ok(total)
}
