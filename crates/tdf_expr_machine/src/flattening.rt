//! Statements as flat code, where they are assignments and notifications at fixed places.

ghost use Rattle.std.specs.Prelude.{◌≡◌, ◌++◌, ◌∷◌, ◌^◌, [], IfOk, IfSome, List, pos, true};
ghost use Rattle.tdf_expr_flat.specs.declared.steps.Operand.TheVariants.{Number};
ghost use Rattle.tdf_expr_flat.specs.declared.steps.Operation.{Operation as OperationOf};
ghost use Rattle.tdf_expr_flat.specs.declared.steps.Operation.TheVariants.{Multiply};
ghost use Rattle.tdf_expr_machine.specs.machine.Flattening.{FitsRaised, GoesOn, IsCodeOf, IsFlatOf, IsOperandOf, TakesCast, TakesValue};

use crate::acts::{Act, CastNode};
use crate::narrow::{bits_of, joint_bits};
use crate::nodes::Node;
use crate::spots::Spot;
use std::alloc::Global;
use tdf_base::Memory;
use tdf_expr_cuts::{raised, short_of};
use tdf_expr_flat::{Fit, Operand, Operation, fit_of};

/// The operand that an expression without parts is, moved up by so many bits.
#[tactic(auto, using(crate::proofs::Flats::operand_laws))]
fn operand_of(node: &Node, up: u32) -> Option<Operand>
    ensures { IfSome result (IsOperandOf node.now up) }
{
    match node {
        Node::Const(num) => Some(Operand::Number(raised(short_of(*num)?, up)?)),
        Node::Cell(place, bits) => {
            let _ = joint_bits(*bits, up, 0, 0)?;
            Some(Operand::Cell { place: *place, up })
        }
        Node::Sample(place, bits) => {
            let _ = joint_bits(*bits, up, 0, 0)?;
            Some(Operand::Sample { place: *place, up })
        }
        _ => None,
    }
}

/// Appends the steps that take the value of an expression in hand, moved up by so many bits. It says whether it has such steps;
/// where it hasn't, some may be appended.
#[cycle(flat)]
#[tactic(auto, using(crate::proofs::Flats::take_laws))]
fn take(node: &Node, up: u32, code: &mut Vec<Operation>) -> Result<bool, Memory>
    ensures { IfOk result (λ so. so ≡ true
        → GoesOn (TakesValue node.now up) code.old.items code.new.items) }
{
    match operand_of(node, up) {
        Some(operand) => {
            code.push(Operation::Take(operand))?;
            Ok(true)
        }
        None => {
            if up == 0 {
                return take_parts(node, code);
            }
            if !take_parts(node, code)? {
                return Ok(false);
            }
            if !raise(node, up, code)? {
                return Ok(false);
            }
            Ok(true)
        }
    }
}

/// The power of two that moves the value of an expression up by so many bits, where it fits 64 bits then.
#[tactic(auto, using(crate::proofs::Flats::rise_laws))]
fn factor_of(node: &Node, up: u32) -> Option<i64>
    ensures value { IfSome result (λ factor. factor ≡ pos (2 ^ up)) }
    ensures fits { IfSome result (λ factor. FitsRaised node.now up) }
{
    let bits = bits_of(node)?;
    let _ = joint_bits(bits, up, 0, 0)?;
    raised(1, up)
}

/// Appends the step that moves the value of an expression, in hand, up by so many bits, where it fits 64 bits then; it says whether it
/// does.
fn raise(node: &Node, up: u32, code: &mut Vec<Operation>) -> Result<bool, Memory>
    ensures fits { IfOk result (λ so. so ≡ true → FitsRaised node.now up) }
    ensures step { IfOk result (λ so. so ≡ true
        → code.new.items ≡ code.old.items ++ Multiply (Number (pos (2 ^ up))) ∷ []) }
{
    match factor_of(node, up) {
        None => Ok(false),
        Some(factor) => {
            code.push(Operation::Multiply(Operand::Number(factor)))?;
            Ok(true)
        }
    }
}

/// As `take`, and one step more.
#[cycle(flat)]
#[tactic(auto, using(crate::proofs::Flats::take_laws))]
fn take_then(
    node: &Node,
    up: u32,
    last: Operation,
    code: &mut Vec<Operation>,
) -> Result<bool, Memory>
    ensures { IfOk result (λ so. so ≡ true → GoesOn (λ steps. (first : List OperationOf)
        × (steps ≡ first ++ last ∷ []) × TakesValue node.now up first)
        code.old.items code.new.items) }
{
    if !take(node, up, code)? {
        return Ok(false);
    }
    code.push(last)?;
    Ok(true)
}

/// As `take`, of an expression of two parts, the second without parts.
#[cycle(flat)]
#[tactic(auto, using(crate::proofs::Flats::take_laws))]
fn take_parts(node: &Node, code: &mut Vec<Operation>) -> Result<bool, Memory>
    ensures { IfOk result (λ so. so ≡ true
        → GoesOn (TakesValue node.now 0) code.old.items code.new.items) }
{
    match node {
        Node::Sum(a, m, b, n) => match operand_of(b, *n) {
            Some(operand) => take_then(a, *m, Operation::Add(operand), code),
            None => Ok(false),
        },
        Node::Difference(a, m, b, n) => match operand_of(b, *n) {
            Some(operand) => take_then(a, *m, Operation::Subtract(operand), code),
            None => Ok(false),
        },
        Node::Product(a, b) => match operand_of(b, 0) {
            Some(operand) => take_then(a, 0, Operation::Multiply(operand), code),
            None => Ok(false),
        },
        _ => Ok(false),
    }
}

/// Appends the steps that take the value of an expression in hand, moved up where its format has more bits after the point, and gives
/// its cast then; none, where it hasn't such steps.
#[tactic(auto, using(crate::proofs::Flats::cast_goes))]
fn cast_steps(cast: &CastNode, code: &mut Vec<Operation>) -> Result<Option<Fit>, Memory>
    ensures { IfOk result (λ found. IfSome found (λ fit.
        GoesOn (TakesCast cast.now fit) code.old.items code.new.items)) }
{
    if !cast.value.narrow {
        return Ok(None);
    }
    let up = (cast.format.wl - cast.format.iwl).saturating_sub(cast.frac);
    match fit_of(cast.frac + up, &cast.format) {
        None => Ok(None),
        Some(fit) => {
            if !take(&cast.value.node, up, code)? {
                return Ok(None);
            }
            Ok(Some(fit))
        }
    }
}

/// Appends the steps of a statement, and says whether it has such; where it hasn't, some may be appended.
#[tactic(auto, using(crate::proofs::Flats::goes_laws))]
fn act_steps(act: &Act, code: &mut Vec<Operation>) -> Result<bool, Memory>
    ensures { IfOk result (λ so. so ≡ true
        → GoesOn (IsCodeOf act.now) code.old.items code.new.items) }
{
    match act {
        Act::SetCell {
            spot: Spot::Fixed(place),
            cast,
        } => match cast_steps(cast, code)? {
            Some(fit) => {
                let place = *place;
                code.push(Operation::PutCell { place, fit })?;
                Ok(true)
            }
            None => Ok(false),
        },
        Act::SetSample {
            port,
            spot: Spot::Fixed(place),
            cast,
        } => match cast_steps(cast, code)? {
            Some(fit) => {
                let (port, place) = (*port, *place);
                code.push(Operation::PutSample { port, place, fit })?;
                Ok(true)
            }
            None => Ok(false),
        },
        Act::Notify { event, after } => {
            let (event, after) = (*event, *after);
            code.push(Operation::Notify { event, after })?;
            Ok(true)
        }
        _ => Ok(false),
    }
}

/// Statements as flat code; none, where one of them can't be.
#[tactic(auto, using(crate::proofs::Flats::flat_laws))]
pub(crate) fn flat_code(alloc: Global, list: &[Act]) -> Result<Option<Vec<Operation>>, Memory>
    ensures { IfOk result (λ found. IfSome found (λ code. IsFlatOf list.now code.items)) }
{
    let mut code = Vec::new(alloc);
    for act in list {
        if !act_steps(act, &mut code)? {
            drop(code);
            return Ok(None);
        }
    }
    Ok(Some(code))
}
