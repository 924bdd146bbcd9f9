//! Compiled expressions and their values.

ghost use Rattle.std.specs.Prelude.{◌≡◌, IfSome};
ghost use Rattle.tdf_fixed.specs.Cast.{cast_of, fraction_of};
ghost use Rattle.tdf_expr_machine.specs.Nodes.{IsCastable, IsSafe, is_true, node_value};
ghost use Rattle.tdf_expr_state.specs.State.{state_of};

use crate::numbers::{difference, holds, raised, relates, truth_number};
use crate::short::{short_value, verdict};
use crate::spots::{Spot, place};
use tdf_expr_cuts::short_cast;
use tdf_expr_state::{Cells, Signals};
use tdf_fixed::{Format, Raw, cast};

/// How two numbers are compared; `a > b` is `Less` with its sides turned round.
#[derive(Clone, Copy)]
pub enum Relation {
    Less,
    AtMost,
    Equal,
    Different,
}

/// An expression whose fraction bits are settled. A number beside an operand says by how many bits it is moved up; one beside a place,
/// how many bits the number there has at most, its sign aside.
#[derive(Drop)]
pub enum Node {
    Const(i128),
    /// A variable, or an element at a fixed place.
    Cell(u32, u32),
    /// An element at a place that a loop variable moves.
    CellAt(Spot, u32),
    /// A sample at a fixed place.
    Sample(u32, u32),
    /// A sample at a place that a loop variable moves.
    SampleAt(Spot, u32),
    /// A rate variable.
    Rate(u32),
    /// A loop variable, by its depth.
    Loop(u32),
    Sum(Box<Node>, u32, Box<Node>, u32),
    Difference(Box<Node>, u32, Box<Node>, u32),
    Product(Box<Node>, Box<Node>),
    Negative(Box<Node>),
    Up(Box<Node>, u32),
    Compare(Relation, Box<Node>, u32, Box<Node>, u32),
    And(Box<Node>, Box<Node>),
    Or(Box<Node>, Box<Node>),
    Not(Box<Node>),
    /// The second where the first holds, else the third.
    Choice(Box<Node>, Box<Node>, u32, Box<Node>, u32),
    /// The operand, which has so many fraction bits, in a format.
    Cast(Box<Node>, u32, Format),
}

/// A number that has so many fraction bits, in a format: in units of the format's last place.
#[inline(never)]
pub(crate) fn fitted(num: i128, frac: u32, format: Format) -> i128
    requires { IsCastable num frac (fraction_of format) }
    ensures { result ≡ cast_of format num frac }
{
    cast(Raw { num, frac }, format).num
}

/// As `fitted`, of a number in 64 bits.
#[inline(always)]
pub(crate) fn fitted_short(num: i64, frac: u32, format: &Format) -> i128
    requires { IsCastable num frac (fraction_of format.now) }
    ensures { result ≡ cast_of format.now num frac }
{
    match short_cast(num, frac, format) {
        Some(fit) => i128::from(fit),
        None => fitted(i128::from(num), frac, *format),
    }
}

/// What an expression reads: a block's values and samples, and the loop variables, outermost first.
#[derive(Clone, Copy)]
pub(crate) struct Sight<'a> {
    pub(crate) cells: &'a Cells,
    pub(crate) signals: &'a Signals,
    pub(crate) loops: &'a [u32],
}

/// The value of an expression, in units of its last place.
fn value(node: &Node, at: &Sight) -> i128
    requires { IsSafe node.now (state_of at.now.cells.now at.now.signals.now) at.now.loops.now }
    ensures { result ≡ node_value node.now (state_of at.now.cells.now at.now.signals.now) at.now.loops.now }
{
    match node {
        Node::Const(num) => *num,
        Node::Cell(place, _) => at.cells.cell(*place as usize),
        Node::CellAt(spot, _) => at.cells.cell(place(*spot, at.loops)),
        Node::Sample(place, _) => at.signals.sample(*place as usize),
        Node::SampleAt(spot, _) => at.signals.sample(place(*spot, at.loops)),
        Node::Rate(number) => i128::from(at.cells.rate(*number as usize)),
        Node::Loop(depth) => i128::from(at.loops[*depth as usize]),
        Node::Sum(a, m, b, n) => raised(value(a, at), *m) + raised(value(b, at), *n),
        Node::Difference(a, m, b, n) => {
            difference(raised(value(a, at), *m), raised(value(b, at), *n))
        }
        Node::Product(a, b) => value(a, at) * value(b, at),
        Node::Negative(a) => -value(a, at),
        Node::Up(a, n) => raised(value(a, at), *n),
        Node::Compare(relation, a, m, b, n) => truth_number(relates(
            *relation,
            raised(value(a, at), *m),
            raised(value(b, at), *n),
        )),
        Node::And(a, b) => truth_number(holds(value(a, at)) && holds(value(b, at))),
        Node::Or(a, b) => truth_number(holds(value(a, at)) || holds(value(b, at))),
        Node::Not(a) => truth_number(!holds(value(a, at))),
        Node::Choice(test, a, m, b, n) => {
            if holds(value(test, at)) {
                raised(value(a, at), *m)
            } else {
                raised(value(b, at), *n)
            }
        }
        Node::Cast(a, frac, format) => fitted(value(a, at), *frac, *format),
    }
}

/// The value of an expression at these loop variables, outermost first, in units of its last place.
pub fn eval(node: &Node, cells: &Cells, signals: &Signals, loops: &[u32]) -> i128
    requires { IsSafe node.now (state_of cells.now signals.now) loops.now }
    ensures { result ≡ node_value node.now (state_of cells.now signals.now) loops.now }
{
    let at = Sight {
        cells,
        signals,
        loops,
    };
    match short_value(node, &at) {
        Some(num) => i128::from(num),
        None => value(node, &at),
    }
}

/// As `value`, in a format.
#[cold]
#[inline(never)]
fn value_in(node: &Node, frac: u32, format: &Format, at: &Sight) -> i128
    requires safe { IsSafe node.now (state_of at.now.cells.now at.now.signals.now) at.now.loops.now }
    requires castable { IsCastable (node_value node.now (state_of at.now.cells.now at.now.signals.now) at.now.loops.now) frac (fraction_of format.now) }
    ensures { result ≡ cast_of format.now (node_value node.now (state_of at.now.cells.now at.now.signals.now) at.now.loops.now) frac }
{
    fitted(value(node, at), frac, *format)
}

/// The value of an expression, which has so many fraction bits, in a format; given its value where that was found in 64 bits.
#[inline(always)]
pub(crate) fn eval_in(
    found: Option<i64>,
    node: &Node,
    frac: u32,
    format: &Format,
    at: &Sight,
) -> i128
    requires found { IfSome found (λ n. n ≡ node_value node.now (state_of at.now.cells.now at.now.signals.now) at.now.loops.now) }
    requires safe { IsSafe node.now (state_of at.now.cells.now at.now.signals.now) at.now.loops.now }
    requires castable { IsCastable (node_value node.now (state_of at.now.cells.now at.now.signals.now) at.now.loops.now) frac (fraction_of format.now) }
    ensures { result ≡ cast_of format.now (node_value node.now (state_of at.now.cells.now at.now.signals.now) at.now.loops.now) frac }
{
    match found {
        Some(num) => fitted_short(num, frac, format),
        None => value_in(node, frac, format, at),
    }
}

/// Whether an expression holds.
#[inline(always)]
pub(crate) fn eval_holds(node: &Node, at: &Sight) -> bool
    requires { IsSafe node.now (state_of at.now.cells.now at.now.signals.now) at.now.loops.now }
    ensures { result ≡ is_true (node_value node.now (state_of at.now.cells.now at.now.signals.now) at.now.loops.now) }
{
    match verdict(node, at) {
        Some(so) => so,
        None => holds(value(node, at)),
    }
}
