//! Statements and bodies, compiled.

ghost use Rattle.std.specs.Prelude.{◌≡◌, ◌++◌, ◌∷◌, [], map, ℕ, List, IfOk, IsOk, Ok, OnOk};
ghost use Rattle.tdf_base.specs.Limits.{deepest_nesting};
ghost use Rattle.tdf_expr_compiler.specs.Layouts.{IsLayout, IsNumbered};
ghost use Rattle.tdf_expr_compiler.specs.Promises.{AreFaultless, PerformsAll};
ghost use Rattle.tdf_expr_compiler.specs.machine.Acting.{Acts, ActsAll, IsEnd, IsRateEnd, SetsRate};
ghost use Rattle.tdf_expr_compiler.specs.machine.Computed.{Computes};
ghost use Rattle.tdf_expr_symbols.specs.Faults.{opened};
ghost use Rattle.tdf_expr_symbols.specs.Scope.{OpenLoop as LoopSeen, Scope as ScopeSeen};
ghost use Rattle.tdf_expr_symbols.specs.Seen.{seen, seen_loop};
ghost use Rattle.tdf_expr_symbols.specs.Sound.{IsSound};
ghost use Rattle.tdf_lang_tree.specs.Kept.{KeepsStmts};
ghost use Rattle.tdf_lang_tree.specs.Pure.{PureExpr, PureStmts, SAssign, SIf, SFor, SNotify, SSetRate, SSetStep};
ghost use Rattle.tdf_lang_tree.specs.Views.{pure_expr, pure_stmt, pure_stmts};

use crate::exprs::compile_expr;
use crate::layouts::Layout;
use crate::names::{Compiled, find};
use crate::numbers::Numbers;
use crate::spots::small;
use crate::targets::set;
use std::alloc::Global;
use tdf_base::{Memory, Name};
use tdf_expr_machine::{Act, Bounds, Expression, Turns, sequence};
use tdf_expr_symbols::{OpenLoop, Scope, Thing};
use tdf_lang_tree::{Expr, Index, Limit, Stmt};

/// What an assignment sets: a name, or an element of it.
#[derive(Clone, Copy)]
struct Target<'s> {
    name: &'s Name,
    index: &'s Option<Index>,
}

/// An assignment.
///
/// # Errors
/// Out of memory.
fn assign(
    alloc: Global,
    scope: &Scope,
    layout: &Layout,
    loops: &[OpenLoop],
    target: &Target,
    value: &Expr,
) -> Result<Act, Memory>
    requires sound { IsSound scope.now }
    requires layout { IsLayout scope.now.own layout.now }
    ensures { (line : ℕ) → IfOk result (λ act. Acts scope.now (map seen_loop loops.now)
        (SAssign line target.now.name.now target.now.index.now (pure_expr value.now)) act) }
{
    let value = compile_expr(alloc, scope, layout, loops, value)?;
    match find(scope, layout, target.name) {
        None => {
            drop(value);
            Ok(Act::Skip)
        }
        Some(found) => Ok(set(loops, found.thing, found.numbers, target.index, value)),
    }
}

/// A notification.
fn notify(scope: &Scope, layout: &Layout, event: &Name, after: u64) -> Act
    requires sound { IsSound scope.now }
    requires layout { IsLayout scope.now.own layout.now }
    ensures { (loops : List LoopSeen) (line : ℕ) → Acts scope.now loops (SNotify line event.now after) result }
{
    match find(scope, layout, event) {
        None => Act::Skip,
        Some(found) => Act::Notify {
            event: found.numbers.event,
            after,
        },
    }
}

/// A value that goes into a rate variable; nothing where the name is none.
fn rate(thing: Thing, numbers: Numbers, value: Compiled) -> Act
    ensures { (scope : ScopeSeen) (loops : List LoopSeen) (n : ℕ) → IsNumbered scope.own n numbers
        → SetsRate scope loops n (seen thing.entry) value.node value.part result }
{
    let part = u32::from(value.part);
    match thing {
        Thing::RateVar(least, greatest, _) => {
            let bounds = Bounds {
                least: small(least),
                greatest: small(greatest),
            };
            Act::SetRate {
                rate: numbers.rate,
                value: value.node,
                frac: part,
                bounds,
            }
        }
        _ => {
            drop(value);
            Act::Skip
        }
    }
}

/// A statement that sets a rate.
///
/// # Errors
/// Out of memory.
fn set_rate(
    alloc: Global,
    scope: &Scope,
    layout: &Layout,
    loops: &[OpenLoop],
    name: &Name,
    value: &Expr,
) -> Result<Act, Memory>
    requires sound { IsSound scope.now }
    requires layout { IsLayout scope.now.own layout.now }
    ensures { (line : ℕ) → IfOk result (λ act. Acts scope.now (map seen_loop loops.now) (SSetRate line name.now (pure_expr value.now)) act) }
{
    let value = compile_expr(alloc, scope, layout, loops, value)?;
    match find(scope, layout, name) {
        None => {
            drop(value);
            Ok(Act::Skip)
        }
        Some(found) => Ok(rate(found.thing, found.numbers, value)),
    }
}

/// A statement that sets the timestep of the module or of a port.
fn set_step(scope: &Scope, layout: &Layout, port: &Option<Name>, step: u64) -> Act
    requires sound { IsSound scope.now }
    requires layout { IsLayout scope.now.own layout.now }
    ensures { (loops : List LoopSeen) (line : ℕ) → Acts scope.now loops (SSetStep line port.now step) result }
{
    match port {
        None => Act::SetStep { place: 0, step },
        Some(port) => match find(scope, layout, port) {
            None => Act::Skip,
            Some(found) => Act::SetStep {
                place: found.numbers.port + 1,
                step,
            },
        },
    }
}

/// An `if`.
///
/// # Errors
/// Out of memory.
fn branch(alloc: Global, test: Compiled, first: Act, second: Act) -> Result<Act, Memory>
    ensures { (scope : ScopeSeen) (loops : List LoopSeen) (line : ℕ) (e : PureExpr) (ss ts : PureStmts) → Computes scope loops e test.node test.part
        → ActsAll scope loops ss first → ActsAll scope loops ts second → IfOk result (λ act. Acts scope loops (SIf line e ss ts) act) }
{
    let test = Expression::new(test.node);
    match Box::new(alloc, first) {
        Ok(yes) => match Box::new(alloc, second) {
            Ok(no) => Ok(Act::If { test, yes, no }),
            Err(refused) => {
                drop(test);
                drop(yes);
                Err(Memory::from(refused))
            }
        },
        Err(refused) => {
            drop(test);
            drop(second);
            Err(Memory::from(refused))
        }
    }
}

/// A test and the statements where it holds, where these are there.
///
/// # Errors
/// That of the statements.
fn tested(test: Compiled, first: Result<Act, Memory>) -> Result<(Compiled, Act), Memory>
    ensures { IfOk result (λ both. (both.0 ≡ test) × (first ≡ Ok both.1)) }
{
    match first {
        Ok(first) => Ok((test, first)),
        Err(refused) => {
            drop(test);
            Err(refused)
        }
    }
}

/// An `if`, where the statements of its second branch are there.
///
/// # Errors
/// That of these statements, or out of memory.
fn branch_of(
    alloc: Global,
    test: Compiled,
    first: Act,
    second: Result<Act, Memory>,
) -> Result<Act, Memory>
    ensures there { OnOk result (IsOk second) }
    ensures acts { (scope : ScopeSeen) (loops : List LoopSeen) (line : ℕ) (e : PureExpr) (ss ts : PureStmts) → Computes scope loops e test.node test.part
        → ActsAll scope loops ss first → IfOk second (λ act. ActsAll scope loops ts act) → IfOk result (λ act. Acts scope loops (SIf line e ss ts) act) }
{
    match second {
        Ok(second) => branch(alloc, test, first, second),
        Err(refused) => {
            drop(test);
            drop(first);
            Err(refused)
        }
    }
}

/// A multiple of a rate variable, as the end of a loop; 0 where the name is none.
fn times(scope: &Scope, layout: &Layout, factor: u64, name: &Name) -> Turns
    requires sound { IsSound scope.now }
    requires layout { IsLayout scope.now.own layout.now }
    ensures { IsRateEnd scope.now factor name.now result }
{
    match find(scope, layout, name) {
        None => Turns::Fixed(0),
        Some(found) => Turns::Times {
            factor: small(factor),
            rate: found.numbers.rate,
        },
    }
}

/// Where a loop ends.
#[tactic(auto, using(crate::proofs::Ends::end_laws))]
fn end_of(scope: &Scope, layout: &Layout, limit: &Limit) -> Turns
    requires sound { IsSound scope.now }
    requires layout { IsLayout scope.now.own layout.now }
    ensures { (loops : List LoopSeen) → IsEnd scope.now loops limit.now result }
{
    match limit {
        Limit::Int(end) => Turns::Fixed(small(*end)),
        Limit::Var(name) => times(scope, layout, 1, name),
        Limit::Times(factor, name) => times(scope, layout, *factor, name),
    }
}

/// A `for`.
///
/// # Errors
/// Out of memory.
fn repeated(
    alloc: Global,
    scope: &Scope,
    layout: &Layout,
    from: u64,
    limit: &Limit,
    body: Act,
) -> Result<Act, Memory>
    requires sound { IsSound scope.now }
    requires layout { IsLayout scope.now.own layout.now }
    ensures { (loops : List LoopSeen) (line : ℕ) (name : List ℕ) (ss : PureStmts) → ActsAll scope.now (loops ++ opened name from limit.now ∷ []) ss body
        → IfOk result (λ act. Acts scope.now loops (SFor line name from limit.now ss) act) }
{
    let turns = end_of(scope, layout, limit);
    let body = Box::new(alloc, body)?;
    Ok(Act::For {
        from: small(from),
        turns,
        body,
    })
}

/// A loop variable.
fn open<'t>(name: &'t Name, from: u64, end: &'t Limit) -> OpenLoop<'t>
    ensures { seen_loop result ≡ opened name.entry.now from end.entry.now }
{
    OpenLoop {
        name: name.as_bytes(),
        from,
        end,
    }
}

/// A statement, compiled.
///
/// # Errors
/// Out of memory.
#[cycle(stmt)]
#[tactic(auto, using(crate::proofs::Lists::stmt_laws))]
fn compile_stmt<'t>(
    alloc: Global,
    scope: &Scope,
    layout: &Layout,
    loops: &mut Vec<OpenLoop<'t>>,
    stmt: &'t Stmt,
) -> Result<Act, Memory>
    requires sound { IsSound scope.now }
    requires layout { IsLayout scope.now.own layout.now }
    ensures done { IfOk result (λ act. Acts scope.now (map seen_loop loops.old.items) (pure_stmt stmt.now) act) }
    ensures back { OnOk result (loops.new.items ≡ loops.old.items) }
{
    match stmt {
        Stmt::Assign {
            name,
            index,
            value,
            ..
        } => assign(alloc, scope, layout, loops, &Target { name, index }, value),
        Stmt::If { test, yes, no, .. } => {
            let test = compile_expr(alloc, scope, layout, loops, test)?;
            let (test, first) = tested(test, compile_all(alloc, scope, layout, loops, yes))?;
            let second = compile_all(alloc, scope, layout, loops, no);
            branch_of(alloc, test, first, second)
        }
        Stmt::For {
            var,
            from,
            limit,
            body,
            ..
        } => {
            loops.push(open(var, *from, limit))?;
            let body = compile_all(alloc, scope, layout, loops, body)?;
            loops.pop();
            repeated(alloc, scope, layout, *from, limit, body)
        }
        Stmt::Notify { event, after, .. } => Ok(notify(scope, layout, event, *after)),
        Stmt::SetRate { name, value, .. } => set_rate(alloc, scope, layout, loops, name, value),
        Stmt::SetStep { port, step, .. } => Ok(set_step(scope, layout, port, *step)),
        Stmt::Accept { .. } => Ok(Act::Answer(true)),
        Stmt::Reject { .. } => Ok(Act::Answer(false)),
    }
}

/// Statements in order, compiled.
///
/// # Errors
/// Out of memory.
#[cycle(stmt)]
#[tactic(auto, using(crate::proofs::Lists::list_laws))]
fn compile_all<'t>(
    alloc: Global,
    scope: &Scope,
    layout: &Layout,
    loops: &mut Vec<OpenLoop<'t>>,
    list: &'t Vec<Stmt>,
) -> Result<Act, Memory>
    requires sound { IsSound scope.now }
    requires layout { IsLayout scope.now.own layout.now }
    ensures done { IfOk result (λ act. ActsAll scope.now (map seen_loop loops.old.items) (pure_stmts list.now.items) act) }
    ensures back { OnOk result (loops.new.items ≡ loops.old.items) }
{
    let mut acts = Vec::new(alloc);
    for stmt in list {
        match compile_stmt(alloc, scope, layout, loops, stmt) {
            Ok(act) => acts.push(act)?,
            Err(refused) => {
                drop(acts);
                return Err(refused);
            }
        }
    }
    sequence(alloc, acts)
}

/// A body without a fault, compiled: in each state that fits its block it is safe, and leaves the state that the language says.
///
/// # Errors
/// Out of memory.
#[tactic(auto, using(crate::proofs::Lists::fine_body))]
pub fn compile_body(
    alloc: Global,
    scope: &Scope,
    layout: &Layout,
    list: &Vec<Stmt>,
) -> Result<Act, Memory>
    requires sound { IsSound scope.now }
    requires layout { IsLayout scope.now.own layout.now }
    requires none { AreFaultless scope.now (pure_stmts list.now.items) }
    requires nested { KeepsStmts deepest_nesting (pure_stmts list.now.items) }
    ensures { IfOk result (λ act. PerformsAll scope.now [] (pure_stmts list.now.items) act) }
{
    let mut loops = Vec::new(alloc);
    compile_all(alloc, scope, layout, &mut loops, list)
}
