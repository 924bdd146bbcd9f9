//! Expressions whose steps all fit 64 bits wherever they are safe, and their values: no step of them is asked for.

ghost use Rattle.std.specs.Prelude.{◌≡◌, ◌≤◌, ◌+◌, ◌^◌, ◌*ℤ◌, pos, IfSome};
ghost use Rattle.tdf_expr_machine.specs.Nodes.{HasBits, IsSafe, is_true, node_value, truth_number};
ghost use Rattle.tdf_expr_machine.specs.machine.Steps.{IsNarrow, IsShortRaised, StepsFit};
ghost use Rattle.tdf_expr_state.specs.State.{state_of};

use crate::nodes::{Node, Sight, fitted_short};
use crate::numbers::holds;
use crate::short::relates;
use crate::spots::place;
use tdf_expr_cuts::multiple;

/// 1 for true, 0 for false.
#[inline(always)]
pub(crate) fn truth(so: bool) -> i64
    ensures { result ≡ truth_number so }
{
    if so { 1 } else { 0 }
}

/// How many bits a number has, where these are few.
fn number_bits(num: i128) -> Option<u32>
    ensures few { IfSome result (λ bits. bits ≤ 62) }
    ensures bits { IfSome result (HasBits num) }
{
    let size = num.unsigned_abs();
    for bits in 0..63 {
        if size <= 1 << bits {
            return Some(bits);
        }
    }
    None
}

/// So many bits, where these are few.
fn few_bits(bits: u32) -> Option<u32>
    ensures same { IfSome result (λ few. few ≡ bits) }
    ensures few { IfSome result (λ few. few ≤ 62) }
{
    if bits > 62 {
        return None;
    }
    Some(bits)
}

/// How many bits two numbers have at most that are moved up, where these are few.
pub(crate) fn joint_bits(a: u32, m: u32, b: u32, n: u32) -> Option<u32>
    ensures first { IfSome result (λ bits. a + m ≤ bits) }
    ensures second { IfSome result (λ bits. b + n ≤ bits) }
    ensures few { IfSome result (λ bits. bits ≤ 60) }
{
    if a > 60 || m > 60 - a || b > 60 || n > 60 - b {
        return None;
    }
    Some((a + m).max(b + n))
}

/// As `bits_of`, of an expression with two parts or more.
#[cycle(bits)]
#[tactic(auto, using(crate::proofs::Bits::narrow_laws))]
fn bits_of_parts(node: &Node) -> Option<u32>
    ensures few { IfSome result (λ bits. bits ≤ 62) }
    ensures narrow { IfSome result (IsNarrow node.now) }
{
    match node {
        Node::Sum(a, m, b, n) => {
            let x = bits_of(a)?;
            let y = bits_of(b)?;
            let most = joint_bits(x, *m, y, *n)?;
            Some(most + 1)
        }
        Node::Difference(a, m, b, n) => {
            let x = bits_of(a)?;
            let y = bits_of(b)?;
            let most = joint_bits(x, *m, y, *n)?;
            Some(most + 1)
        }
        Node::Product(a, b) => {
            let x = bits_of(a)?;
            let y = bits_of(b)?;
            few_bits(x + y)
        }
        Node::Compare(_, a, m, b, n) => {
            let x = bits_of(a)?;
            let y = bits_of(b)?;
            let _ = joint_bits(x, *m, y, *n)?;
            Some(0)
        }
        Node::Choice(test, a, m, b, n) => {
            let _ = bits_of(test)?;
            let x = bits_of(a)?;
            let y = bits_of(b)?;
            let most = joint_bits(x, *m, y, *n)?;
            Some(most)
        }
        _ => None,
    }
}

/// As `bits_of`, of `and` and `or`.
#[cycle(bits)]
#[tactic(auto, using(crate::proofs::Bits::narrow_laws))]
fn bits_of_truths(node: &Node) -> Option<u32>
    ensures few { IfSome result (λ bits. bits ≤ 62) }
    ensures narrow { IfSome result (IsNarrow node.now) }
{
    match node {
        Node::And(a, b) => {
            let _ = bits_of(a)?;
            let _ = bits_of(b)?;
            Some(0)
        }
        Node::Or(a, b) => {
            let _ = bits_of(a)?;
            let _ = bits_of(b)?;
            Some(0)
        }
        _ => bits_of_parts(node),
    }
}

/// How many bits the value of an expression has at most, where all its steps are seen to fit 64 bits.
#[cycle(bits)]
#[tactic(auto, using(crate::proofs::Bits::narrow_laws))]
pub(crate) fn bits_of(node: &Node) -> Option<u32>
    ensures few { IfSome result (λ bits. bits ≤ 62) }
    ensures narrow { IfSome result (IsNarrow node.now) }
{
    match node {
        Node::Const(num) => number_bits(*num),
        Node::Cell(_, bits) => few_bits(*bits),
        Node::CellAt(_, bits) => few_bits(*bits),
        Node::Sample(_, bits) => few_bits(*bits),
        Node::SampleAt(_, bits) => few_bits(*bits),
        Node::Negative(a) => bits_of(a),
        Node::Up(a, n) => {
            let x = bits_of(a)?;
            let most = joint_bits(x, *n, 0, 0)?;
            Some(most)
        }
        Node::Not(a) => {
            let _ = bits_of(a)?;
            Some(0)
        }
        Node::Cast(a, _, format) => {
            let _ = bits_of(a)?;
            few_bits(format.wl)
        }
        _ => bits_of_truths(node),
    }
}

/// The value of a part of an expression, moved up.
#[cycle(narrow)]
#[inline(always)]
#[tactic(auto, using(tdf_expr_cuts::proofs::Api::raised_small))]
fn lifted(node: &Node, bits: u32, at: &Sight) -> i64
    requires safe { IsSafe node.now (state_of at.now.cells.now at.now.signals.now) at.now.loops.now }
    requires fits { StepsFit node.now (state_of at.now.cells.now at.now.signals.now) at.now.loops.now }
    requires raised { IsShortRaised (node_value node.now (state_of at.now.cells.now at.now.signals.now) at.now.loops.now) bits }
    ensures { result ≡ node_value node.now (state_of at.now.cells.now at.now.signals.now) at.now.loops.now *ℤ pos (2 ^ bits) }
{
    multiple(part(node, at), bits)
}

/// The value of a part of an expression: without a call where it has no parts.
#[cycle(narrow)]
#[inline(always)]
fn part(node: &Node, at: &Sight) -> i64
    requires safe { IsSafe node.now (state_of at.now.cells.now at.now.signals.now) at.now.loops.now }
    requires fits { StepsFit node.now (state_of at.now.cells.now at.now.signals.now) at.now.loops.now }
    ensures { result ≡ node_value node.now (state_of at.now.cells.now at.now.signals.now) at.now.loops.now }
{
    match node {
        Node::Const(num) => *num as i64,
        Node::Cell(place, _) => at.cells.cell(*place as usize) as i64,
        Node::CellAt(spot, _) => at.cells.cell(place(*spot, at.loops)) as i64,
        Node::Sample(place, _) => at.signals.sample(*place as usize) as i64,
        Node::SampleAt(spot, _) => at.signals.sample(place(*spot, at.loops)) as i64,
        _ => narrow_value(node, at),
    }
}

/// Whether a part of an expression holds.
#[cycle(narrow)]
#[inline(always)]
fn part_holds(node: &Node, at: &Sight) -> bool
    requires safe { IsSafe node.now (state_of at.now.cells.now at.now.signals.now) at.now.loops.now }
    requires fits { StepsFit node.now (state_of at.now.cells.now at.now.signals.now) at.now.loops.now }
    ensures { result ≡ is_true (node_value node.now (state_of at.now.cells.now at.now.signals.now) at.now.loops.now) }
{
    holds(i128::from(part(node, at)))
}

/// The value of an expression whose steps fit 64 bits, in units of its last place.
#[cycle(narrow)]
fn narrow_value(node: &Node, at: &Sight) -> i64
    requires safe { IsSafe node.now (state_of at.now.cells.now at.now.signals.now) at.now.loops.now }
    requires fits { StepsFit node.now (state_of at.now.cells.now at.now.signals.now) at.now.loops.now }
    ensures { result ≡ node_value node.now (state_of at.now.cells.now at.now.signals.now) at.now.loops.now }
{
    match node {
        Node::Const(num) => *num as i64,
        Node::Cell(place, _) => at.cells.cell(*place as usize) as i64,
        Node::CellAt(spot, _) => at.cells.cell(place(*spot, at.loops)) as i64,
        Node::Sample(place, _) => at.signals.sample(*place as usize) as i64,
        Node::SampleAt(spot, _) => at.signals.sample(place(*spot, at.loops)) as i64,
        Node::Rate(number) => i64::from(at.cells.rate(*number as usize)),
        Node::Loop(depth) => i64::from(at.loops[*depth as usize]),
        Node::Sum(a, m, b, n) => lifted(a, *m, at) + lifted(b, *n, at),
        Node::Difference(a, m, b, n) => lifted(a, *m, at) - lifted(b, *n, at),
        Node::Product(a, b) => part(a, at) * part(b, at),
        Node::Negative(a) => -part(a, at),
        Node::Up(a, n) => lifted(a, *n, at),
        Node::Compare(relation, a, m, b, n) => {
            truth(relates(*relation, lifted(a, *m, at), lifted(b, *n, at)))
        }
        Node::And(a, b) => truth(part_holds(a, at) && part_holds(b, at)),
        Node::Or(a, b) => truth(part_holds(a, at) || part_holds(b, at)),
        Node::Not(a) => truth(!part_holds(a, at)),
        Node::Choice(test, a, m, b, n) => {
            if part_holds(test, at) {
                lifted(a, *m, at)
            } else {
                lifted(b, *n, at)
            }
        }
        Node::Cast(a, frac, format) => fitted_short(part(a, at), *frac, format) as i64,
    }
}

/// As `part`: without a call where it is a sum or a difference, as most assigned values are.
#[inline(always)]
pub(crate) fn narrow_top(node: &Node, at: &Sight) -> i64
    requires safe { IsSafe node.now (state_of at.now.cells.now at.now.signals.now) at.now.loops.now }
    requires fits { StepsFit node.now (state_of at.now.cells.now at.now.signals.now) at.now.loops.now }
    ensures { result ≡ node_value node.now (state_of at.now.cells.now at.now.signals.now) at.now.loops.now }
{
    match node {
        Node::Sum(a, m, b, n) => lifted(a, *m, at) + lifted(b, *n, at),
        Node::Difference(a, m, b, n) => lifted(a, *m, at) - lifted(b, *n, at),
        _ => part(node, at),
    }
}

/// Whether an expression holds: without a call where it compares two numbers, as most tests do.
#[inline(always)]
#[tactic(auto, using(crate::proofs::Powers::holds_truth))]
pub(crate) fn narrow_verdict(node: &Node, at: &Sight) -> bool
    requires safe { IsSafe node.now (state_of at.now.cells.now at.now.signals.now) at.now.loops.now }
    requires fits { StepsFit node.now (state_of at.now.cells.now at.now.signals.now) at.now.loops.now }
    ensures { result ≡ is_true (node_value node.now (state_of at.now.cells.now at.now.signals.now) at.now.loops.now) }
{
    match node {
        Node::Compare(relation, a, m, b, n) => {
            let first = lifted(a, *m, at);
            relates(*relation, first, lifted(b, *n, at))
        }
        _ => part_holds(node, at),
    }
}
