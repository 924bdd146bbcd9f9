//! The values of expressions by 64-bit arithmetic, where each step of it fits.

ghost use Rattle.std.specs.Int.{w64};
ghost use Rattle.std.specs.Prelude.{◌≡◌, ◌≤◌, ◌^◌, pos, ◌+ℤ◌, ◌-ℤ◌, ◌*ℤ◌, neg_ℤ, unsigned_abs, FitsSigned, IfSome, IsSome};
ghost use Rattle.tdf_expr_machine.specs.Nodes.{IsSafe, node_value, is_true, relates};
ghost use Rattle.tdf_expr_machine.specs.machine.Steps.{IsLeaf, IsShortRaised, StepsFit};
ghost use Rattle.tdf_expr_state.specs.State.{state_of};

use crate::narrow::truth;
use crate::nodes::{Node, Relation, Sight, fitted_short};
use crate::numbers::holds;
use crate::spots::place;
use tdf_expr_cuts::{difference, negative, product, raised, short_of, sum};

#[inline(always)]
pub(crate) fn relates(relation: Relation, a: i64, b: i64) -> bool
    ensures { result ≡ relates relation a b }
{
    match relation {
        Relation::Less => a < b,
        Relation::AtMost => a <= b,
        Relation::Equal => a == b,
        Relation::Different => a != b,
    }
}

/// The value of an expression without parts.
#[inline(always)]
fn leaf(node: &Node, at: &Sight) -> Option<i64>
    requires { IsSafe node.now (state_of at.now.cells.now at.now.signals.now) at.now.loops.now }
    ensures value { IfSome result (λ n. n ≡ node_value node.now (state_of at.now.cells.now at.now.signals.now) at.now.loops.now) }
    ensures found { IsLeaf node.now → StepsFit node.now (state_of at.now.cells.now at.now.signals.now) at.now.loops.now → IsSome result }
{
    match node {
        Node::Const(num) => short_of(*num),
        Node::Cell(place, _) => short_of(at.cells.cell(*place as usize)),
        Node::CellAt(spot, _) => short_of(at.cells.cell(place(*spot, at.loops))),
        Node::Sample(place, _) => short_of(at.signals.sample(*place as usize)),
        Node::SampleAt(spot, _) => short_of(at.signals.sample(place(*spot, at.loops))),
        _ => None,
    }
}

/// The value of a product of two expressions without parts, or of one such.
#[inline(always)]
fn near(node: &Node, at: &Sight) -> Option<i64>
    requires { IsSafe node.now (state_of at.now.cells.now at.now.signals.now) at.now.loops.now }
    ensures { IfSome result (λ n. n ≡ node_value node.now (state_of at.now.cells.now at.now.signals.now) at.now.loops.now) }
{
    match node {
        Node::Product(a, b) => {
            let a = leaf(a, at)?;
            product(a, leaf(b, at)?)
        }
        _ => leaf(node, at),
    }
}

/// The value of a part of an expression: without a call where it is near.
#[cycle(short)]
#[inline(always)]
pub(crate) fn operand(node: &Node, at: &Sight) -> Option<i64>
    requires { IsSafe node.now (state_of at.now.cells.now at.now.signals.now) at.now.loops.now }
    ensures value { IfSome result (λ n. n ≡ node_value node.now (state_of at.now.cells.now at.now.signals.now) at.now.loops.now) }
    ensures found { StepsFit node.now (state_of at.now.cells.now at.now.signals.now) at.now.loops.now → IsSome result }
{
    match near(node, at) {
        Some(num) => Some(num),
        None => short_value(node, at),
    }
}

/// The value of a part of an expression, moved up.
#[cycle(short)]
#[inline(always)]
fn raised_part(node: &Node, bits: u32, at: &Sight) -> Option<i64>
    requires { IsSafe node.now (state_of at.now.cells.now at.now.signals.now) at.now.loops.now }
    ensures value { IfSome result (λ n. n ≡ node_value node.now (state_of at.now.cells.now at.now.signals.now) at.now.loops.now *ℤ pos (2 ^ bits)) }
    ensures found { StepsFit node.now (state_of at.now.cells.now at.now.signals.now) at.now.loops.now
        → IsShortRaised (node_value node.now (state_of at.now.cells.now at.now.signals.now) at.now.loops.now) bits → IsSome result }
{
    raised(operand(node, at)?, bits)
}

/// Whether an expression holds, where its value and that of each part fit 64 bits.
#[cycle(short)]
#[inline(never)]
#[tactic(auto, using(crate::proofs::Powers::holds_truth))]
pub(crate) fn verdict(node: &Node, at: &Sight) -> Option<bool>
    requires { IsSafe node.now (state_of at.now.cells.now at.now.signals.now) at.now.loops.now }
    ensures value { IfSome result (λ so. so ≡ is_true (node_value node.now (state_of at.now.cells.now at.now.signals.now) at.now.loops.now)) }
    ensures found { StepsFit node.now (state_of at.now.cells.now at.now.signals.now) at.now.loops.now → IsSome result }
{
    match node {
        Node::Compare(relation, a, m, b, n) => {
            let a = raised_part(a, *m, at)?;
            Some(relates(*relation, a, raised_part(b, *n, at)?))
        }
        _ => Some(holds(i128::from(operand(node, at)?))),
    }
}

/// The value of an expression, in units of its last place, where it and the value of each part fit 64 bits.
#[cycle(short)]
pub(crate) fn short_value(node: &Node, at: &Sight) -> Option<i64>
    requires { IsSafe node.now (state_of at.now.cells.now at.now.signals.now) at.now.loops.now }
    ensures value { IfSome result (λ n. n ≡ node_value node.now (state_of at.now.cells.now at.now.signals.now) at.now.loops.now) }
    ensures found { StepsFit node.now (state_of at.now.cells.now at.now.signals.now) at.now.loops.now → IsSome result }
{
    match node {
        Node::Sum(a, m, b, n) => {
            let a = raised_part(a, *m, at)?;
            sum(a, raised_part(b, *n, at)?)
        }
        Node::Difference(a, m, b, n) => {
            let a = raised_part(a, *m, at)?;
            difference(a, raised_part(b, *n, at)?)
        }
        Node::Product(a, b) => {
            let a = operand(a, at)?;
            product(a, operand(b, at)?)
        }
        Node::Negative(a) => negative(operand(a, at)?),
        Node::Up(a, n) => raised_part(a, *n, at),
        Node::Compare(relation, a, m, b, n) => {
            let a = raised_part(a, *m, at)?;
            Some(truth(relates(*relation, a, raised_part(b, *n, at)?)))
        }
        Node::And(a, b) => {
            let a = operand(a, at)?;
            Some(truth(holds(i128::from(a)) && holds(i128::from(operand(b, at)?))))
        }
        Node::Or(a, b) => {
            let a = operand(a, at)?;
            Some(truth(holds(i128::from(a)) || holds(i128::from(operand(b, at)?))))
        }
        Node::Not(a) => Some(truth(!holds(i128::from(operand(a, at)?)))),
        Node::Choice(test, a, m, b, n) => {
            if verdict(test, at)? {
                raised_part(a, *m, at)
            } else {
                raised_part(b, *n, at)
            }
        }
        Node::Cast(a, frac, format) => short_of(fitted_short(operand(a, at)?, *frac, format)),
        Node::Rate(number) => Some(i64::from(at.cells.rate(*number as usize))),
        Node::Loop(depth) => Some(i64::from(at.loops[*depth as usize])),
        _ => leaf(node, at),
    }
}

/// As `short_value`: without a call where it is a sum or a difference of near parts, as most assigned values are.
#[inline(always)]
pub(crate) fn top_value(node: &Node, at: &Sight) -> Option<i64>
    requires { IsSafe node.now (state_of at.now.cells.now at.now.signals.now) at.now.loops.now }
    ensures value { IfSome result (λ n. n ≡ node_value node.now (state_of at.now.cells.now at.now.signals.now) at.now.loops.now) }
    ensures found { StepsFit node.now (state_of at.now.cells.now at.now.signals.now) at.now.loops.now → IsSome result }
{
    match node {
        Node::Sum(a, m, b, n) => {
            let a = raised_part(a, *m, at)?;
            sum(a, raised_part(b, *n, at)?)
        }
        Node::Difference(a, m, b, n) => {
            let a = raised_part(a, *m, at)?;
            difference(a, raised_part(b, *n, at)?)
        }
        _ => operand(node, at),
    }
}
