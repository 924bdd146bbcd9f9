//! Expressions, compiled.

ghost use Rattle.std.specs.Prelude.{◌≡◌, ◌-◌, map, max, min, ℕ, List, IfOk, IfSome, Ok, Some, true, false};
ghost use Rattle.tdf_expr_compiler.specs.Layouts.{IsLayout};
ghost use Rattle.tdf_expr_compiler.specs.machine.Combined.{IsChoice, IsCombined, IsOpposite};
ghost use Rattle.tdf_expr_compiler.specs.machine.Computed.{Computes};
ghost use Rattle.tdf_fixed.specs.Cast.{IsLegal};
ghost use Rattle.tdf_expr_symbols.specs.Faults.{cast_shape};
ghost use Rattle.tdf_expr_symbols.specs.Scope.{OpenLoop as LoopSeen, Scope as ScopeSeen};
ghost use Rattle.tdf_expr_symbols.specs.Seen.{seen_loop};
ghost use Rattle.tdf_expr_symbols.specs.Sound.{IsSound};
ghost use Rattle.tdf_expr_symbols.specs.Width.{of_binary};
ghost use Rattle.tdf_lang_tree.specs.Pure.{PureExpr, EBinary, ECast, ENeg, ENot, ENumber, ESelect, EShift};
ghost use Rattle.tdf_lang_tree.specs.Views.{pure_expr};

use crate::formats::{format_of, part_of};
use crate::layouts::Layout;
use crate::names::{Compiled, element, named};
use crate::spots::small;
use std::alloc::Global;
use tdf_base::{Digits, Memory, Name};
use tdf_expr_machine::{Node, Relation};
use tdf_expr_symbols::{OpenLoop, Scope, Thing};
use tdf_fixed::read_exact;
use tdf_lang_tree::{Expr, Op, Shape};

/// A number as it is written; 0 where it is no exact one.
fn number(digits: &Digits) -> Compiled
    ensures { (scope : ScopeSeen) (loops : List LoopSeen) → Computes scope loops (ENumber digits.now) result.node result.part }
{
    match read_exact(digits.as_bytes()) {
        Ok(raw) => Compiled {
            node: Node::Const(raw.num),
            part: raw.frac.min(255) as u8,
        },
        Err(_) => Compiled {
            node: Node::Const(0),
            part: 0,
        },
    }
}

/// Two expressions in boxes, and by how many bits each is moved up.
#[derive(Drop)]
struct Sides {
    a: Box<Node>,
    m: u32,
    b: Box<Node>,
    n: u32,
}

/// Two expressions in boxes.
///
/// # Errors
/// Out of memory.
fn boxed(alloc: Global, a: Node, b: Node) -> Result<(Box<Node>, Box<Node>), Memory>
    ensures { IfOk result (λ both. (both.0.value ≡ a) × (both.1.value ≡ b)) }
{
    match Box::new(alloc, a) {
        Ok(a) => match Box::new(alloc, b) {
            Ok(b) => Ok((a, b)),
            Err(refused) => {
                drop(a);
                Err(Memory::from(refused))
            }
        },
        Err(refused) => {
            drop(b);
            Err(Memory::from(refused))
        }
    }
}

/// An operator on two expressions, each moved up by some bits where the operator wants one last place for both.
fn combined(op: Op, a: Box<Node>, m: u32, b: Box<Node>, n: u32) -> Node
    ensures { IsCombined op a.value m b.value n result }
{
    match op {
        Op::Or => Node::Or(a, b),
        Op::And => Node::And(a, b),
        Op::Lt => Node::Compare(Relation::Less, a, m, b, n),
        Op::Le => Node::Compare(Relation::AtMost, a, m, b, n),
        Op::Eq => Node::Compare(Relation::Equal, a, m, b, n),
        Op::Ne => Node::Compare(Relation::Different, a, m, b, n),
        Op::Gt => Node::Compare(Relation::Less, b, n, a, m),
        Op::Ge => Node::Compare(Relation::AtMost, b, n, a, m),
        Op::Add => Node::Sum(a, m, b, n),
        Op::Sub => Node::Difference(a, m, b, n),
        Op::Mul => Node::Product(a, b),
    }
}

/// The bits after the point that an operator gives, at most 255.
fn joint_part(op: Op, a: u8, b: u8) -> u8
    ensures { result ≡ min (of_binary op (record { whole = 0; part = a }) (record { whole = 0; part = b })).part 255 }
{
    match op {
        Op::Add => a.max(b),
        Op::Sub => a.max(b),
        Op::Mul => a.saturating_add(b),
        _ => 0,
    }
}

/// By how many bits a side is moved up to the finer last place.
fn rise(a: u8, b: u8) -> u32
    ensures { result ≡ max a b - a }
{
    u32::from(a.max(b) - a)
}

/// An operator with two operands.
///
/// # Errors
/// Out of memory.
fn binary(alloc: Global, op: Op, a: Compiled, b: Compiled) -> Result<Compiled, Memory>
    ensures { (scope : ScopeSeen) (loops : List LoopSeen) (x y : PureExpr) → Computes scope loops x a.node a.part → Computes scope loops y b.node b.part
        → IfOk result (λ t. Computes scope loops (EBinary op x y) t.node t.part) }
{
    let part = joint_part(op, a.part, b.part);
    let m = rise(a.part, b.part);
    let n = rise(b.part, a.part);
    let (first, second) = boxed(alloc, a.node, b.node)?;
    let node = combined(op, first, m, second, n);
    Ok(Compiled { node, part })
}

/// `select` of expressions in boxes.
///
/// # Errors
/// Out of memory.
fn chosen(alloc: Global, test: Node, sides: Sides) -> Result<Node, Memory>
    ensures { IfOk result (λ node. IsChoice test sides.a.value sides.m sides.b.value sides.n node) }
{
    match Box::new(alloc, test) {
        Ok(test) => Ok(Node::Choice(test, sides.a, sides.m, sides.b, sides.n)),
        Err(refused) => {
            drop(sides);
            Err(Memory::from(refused))
        }
    }
}

/// `select`: the second where the first holds, else the third.
///
/// # Errors
/// Out of memory.
fn choice(alloc: Global, test: Compiled, a: Compiled, b: Compiled) -> Result<Compiled, Memory>
    ensures { (scope : ScopeSeen) (loops : List LoopSeen) (z x y : PureExpr) → Computes scope loops z test.node test.part
        → Computes scope loops x a.node a.part → Computes scope loops y b.node b.part
        → IfOk result (λ t. Computes scope loops (ESelect z x y) t.node t.part) }
{
    let part = a.part.max(b.part);
    let m = rise(a.part, b.part);
    let n = rise(b.part, a.part);
    match boxed(alloc, a.node, b.node) {
        Ok((a, b)) => {
            let node = chosen(alloc, test.node, Sides { a, m, b, n })?;
            Ok(Compiled { node, part })
        }
        Err(refused) => {
            drop(test);
            Err(refused)
        }
    }
}

/// `not`.
///
/// # Errors
/// Out of memory.
fn denied(alloc: Global, a: Compiled) -> Result<Compiled, Memory>
    ensures { (scope : ScopeSeen) (loops : List LoopSeen) (x : PureExpr) → Computes scope loops x a.node a.part
        → IfOk result (λ t. Computes scope loops (ENot x) t.node t.part) }
{
    let inner = Box::new(alloc, a.node)?;
    Ok(Compiled {
        node: Node::Not(inner),
        part: 0,
    })
}

/// The opposite of a constant.
fn opposite(node: &Node) -> Option<i128>
    ensures { IfSome result (λ num. IsOpposite node.now num) }
{
    match node {
        Node::Const(num) => num.checked_neg(),
        _ => None,
    }
}

/// A minus: of a constant another constant.
///
/// # Errors
/// Out of memory.
fn negated(alloc: Global, a: Compiled) -> Result<Compiled, Memory>
    ensures { (scope : ScopeSeen) (loops : List LoopSeen) (x : PureExpr) → Computes scope loops x a.node a.part
        → IfOk result (λ t. Computes scope loops (ENeg x) t.node t.part) }
{
    let part = a.part;
    match opposite(&a.node) {
        Some(num) => {
            drop(a);
            Ok(Compiled {
                node: Node::Const(num),
                part,
            })
        }
        None => {
            let inner = Box::new(alloc, a.node)?;
            Ok(Compiled {
                node: Node::Negative(inner),
                part,
            })
        }
    }
}

/// A shift to the left.
///
/// # Errors
/// Out of memory.
fn raised(alloc: Global, a: Compiled, bits: u64) -> Result<Compiled, Memory>
    ensures { (scope : ScopeSeen) (loops : List LoopSeen) (x : PureExpr) → Computes scope loops x a.node a.part
        → IfOk result (λ t. Computes scope loops (EShift x true bits) t.node t.part) }
{
    let part = a.part;
    let inner = Box::new(alloc, a.node)?;
    Ok(Compiled {
        node: Node::Up(inner, small(bits)),
        part,
    })
}

/// A shift to the right: the same number with more bits after the point.
fn lowered(a: Compiled, bits: u64) -> Compiled
    ensures { (scope : ScopeSeen) (loops : List LoopSeen) (x : PureExpr) → Computes scope loops x a.node a.part
        → Computes scope loops (EShift x false bits) result.node result.part }
{
    let more = bits.min(255) as u8;
    Compiled {
        node: a.node,
        part: a.part.saturating_add(more),
    }
}

/// A shift.
///
/// # Errors
/// Out of memory.
fn shifted(alloc: Global, a: Compiled, left: bool, bits: u64) -> Result<Compiled, Memory>
    ensures { (scope : ScopeSeen) (loops : List LoopSeen) (x : PureExpr) → Computes scope loops x a.node a.part
        → IfOk result (λ t. Computes scope loops (EShift x left bits) t.node t.part) }
{
    if left {
        raised(alloc, a, bits)
    } else {
        Ok(lowered(a, bits))
    }
}

/// The format that a cast names; none where its name is not that of a type.
fn type_of(scope: &Scope, name: &Name) -> Option<Shape>
    ensures { result ≡ cast_shape scope.now name.now }
{
    match scope.global(name.as_bytes()) {
        Some(Thing::TypeName(shape)) => Some(shape),
        _ => None,
    }
}

/// A value in a format.
///
/// # Errors
/// Out of memory.
fn fitted(alloc: Global, shape: Shape, a: Compiled) -> Result<Compiled, Memory>
    requires { IsLegal shape.wl shape.iwl }
    ensures { (scope : ScopeSeen) (loops : List LoopSeen) (name : List ℕ) (x : PureExpr) → cast_shape scope name ≡ Some shape
        → Computes scope loops x a.node a.part → IfOk result (λ t. Computes scope loops (ECast name x) t.node t.part) }
{
    let part = u32::from(a.part);
    let inner = Box::new(alloc, a.node)?;
    Ok(Compiled {
        node: Node::Cast(inner, part, format_of(shape)),
        part: part_of(Some(shape)),
    })
}

/// A cast; 0 where its name is not that of a type.
///
/// # Errors
/// Out of memory.
#[tactic(auto, using(crate::proofs::Operators::cast_legal))]
fn cast(alloc: Global, scope: &Scope, name: &Name, a: Compiled) -> Result<Compiled, Memory>
    requires { IsSound scope.now }
    ensures { (loops : List LoopSeen) (x : PureExpr) → Computes scope.now loops x a.node a.part
        → IfOk result (λ t. Computes scope.now loops (ECast name.now x) t.node t.part) }
{
    match type_of(scope, name) {
        Some(shape) => fitted(alloc, shape, a),
        None => {
            drop(a);
            Ok(Compiled {
                node: Node::Const(0),
                part: 0,
            })
        }
    }
}

/// Two compiled expressions, where the second is there.
///
/// # Errors
/// That of the second.
fn both(a: Compiled, b: Result<Compiled, Memory>) -> Result<(Compiled, Compiled), Memory>
    ensures { IfOk result (λ both. (both.0 ≡ a) × (b ≡ Ok both.1)) }
{
    match b {
        Ok(b) => Ok((a, b)),
        Err(refused) => {
            drop(a);
            Err(refused)
        }
    }
}

/// `select`, where its sides are there.
///
/// # Errors
/// That of the sides, or out of memory.
fn choice_of(
    alloc: Global,
    test: Compiled,
    sides: Result<(Compiled, Compiled), Memory>,
) -> Result<Compiled, Memory>
    ensures { (scope : ScopeSeen) (loops : List LoopSeen) (z x y : PureExpr) → Computes scope loops z test.node test.part
        → IfOk sides (λ both. Computes scope loops x both.0.node both.0.part × Computes scope loops y both.1.node both.1.part)
        → IfOk result (λ t. Computes scope loops (ESelect z x y) t.node t.part) }
{
    match sides {
        Ok((a, b)) => choice(alloc, test, a, b),
        Err(refused) => {
            drop(test);
            Err(refused)
        }
    }
}

/// An expression, compiled.
///
/// # Errors
/// Out of memory.
pub(crate) fn compile_expr(
    alloc: Global,
    scope: &Scope,
    layout: &Layout,
    loops: &[OpenLoop],
    e: &Expr,
) -> Result<Compiled, Memory>
    requires sound { IsSound scope.now }
    requires layout { IsLayout scope.now.own layout.now }
    ensures { IfOk result (λ t. Computes scope.now (map seen_loop loops.now) (pure_expr e.now) t.node t.part) }
{
    match e {
        Expr::Number(digits) => Ok(number(digits)),
        Expr::Name(name) => named(alloc, scope, layout, loops, name),
        Expr::At(name, index) => Ok(element(scope, layout, loops, name, index)),
        Expr::Cast(name, a) => {
            let a = compile_expr(alloc, scope, layout, loops, a)?;
            cast(alloc, scope, name, a)
        }
        Expr::Select(test, a, b) => {
            let test = compile_expr(alloc, scope, layout, loops, test)?;
            let (test, a) = both(test, compile_expr(alloc, scope, layout, loops, a))?;
            let sides = both(a, compile_expr(alloc, scope, layout, loops, b));
            choice_of(alloc, test, sides)
        }
        Expr::Not(a) => denied(alloc, compile_expr(alloc, scope, layout, loops, a)?),
        Expr::Neg(a) => negated(alloc, compile_expr(alloc, scope, layout, loops, a)?),
        Expr::Shift(a, left, bits) => {
            let a = compile_expr(alloc, scope, layout, loops, a)?;
            shifted(alloc, a, *left, *bits)
        }
        Expr::Binary(op, a, b) => {
            let a = compile_expr(alloc, scope, layout, loops, a)?;
            let (a, b) = both(a, compile_expr(alloc, scope, layout, loops, b))?;
            binary(alloc, *op, a, b)
        }
    }
}
