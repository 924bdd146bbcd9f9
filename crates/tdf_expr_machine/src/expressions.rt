//! Expressions that know whether all their steps fit 64 bits.

use crate::nodes::Node;
use std::marker::Model;

/// An expression, and whether all its steps are seen to fit 64 bits wherever it is safe. Contracts see the expression.
#[derive(Drop)]
pub struct Expression {
    pub(crate) node: Node,
    pub(crate) narrow: bool,
}

impl Model for Expression {
    ghost use Rattle.std.specs.Coded.{codes};
    ghost use Rattle.std.specs.Prelude.{◌≡◌, ℕ, true};
    ghost use Rattle.tdf_expr_machine.specs.contracts.nodes.Node as e;
    ghost use Rattle.tdf_expr_machine.specs.declared.nodes.Node.{Node};
    ghost use Rattle.tdf_expr_machine.specs.machine.Steps.{IsNarrow};

    ghost Value = { Node };

    ghost coded = { Prim.hlevel (codes, e.the_row.coded) };

    ghost view = { λ a. a.node };

    ghost invariant = { λ a. record {
      narrow : a.narrow ≡ true → (bits : ℕ) × IsNarrow a.node bits;
    } };
}

ghost use Rattle.std.specs.Prelude.{◌≡◌};
ghost use Rattle.tdf_expr_machine.specs.Nodes.{IsCastable, IsSafe, is_true, node_value};
ghost use Rattle.tdf_expr_state.specs.State.{state_of};
ghost use Rattle.tdf_fixed.specs.Cast.{cast_of, fraction_of};

use crate::narrow::{bits_of, narrow_top, narrow_verdict};
use crate::nodes::{Sight, eval_holds, eval_in, fitted_short};
use crate::short::top_value;
use tdf_fixed::Format;

impl Expression {
    /// An expression, asked for its steps.
    pub fn new(node: Node) -> Expression
        ensures { result ≡ node }
    {
        let narrow = bits_of(&node).is_some();
        Expression { node, narrow }
    }

    /// The value, which has so many fraction bits, in a format.
    #[inline(always)]
    pub(crate) fn eval(&self, frac: u32, format: &Format, at: &Sight) -> i128
        requires safe { IsSafe self.now (state_of at.now.cells.now at.now.signals.now)
            at.now.loops.now }
        requires castable { IsCastable (node_value self.now
            (state_of at.now.cells.now at.now.signals.now) at.now.loops.now) frac
            (fraction_of format.now) }
        ensures { result ≡ cast_of format.now (node_value self.now
            (state_of at.now.cells.now at.now.signals.now) at.now.loops.now) frac }
    {
        if self.narrow {
            return fitted_short(narrow_top(&self.node, at), frac, format);
        }
        let node = &self.node;
        eval_in(top_value(node, at), node, frac, format, at)
    }

    /// Whether the expression holds.
    #[inline(always)]
    pub(crate) fn holds(&self, at: &Sight) -> bool
        requires { IsSafe self.now (state_of at.now.cells.now at.now.signals.now)
            at.now.loops.now }
        ensures { result ≡ is_true (node_value self.now
            (state_of at.now.cells.now at.now.signals.now) at.now.loops.now) }
    {
        if self.narrow {
            return narrow_verdict(&self.node, at);
        }
        eval_holds(&self.node, at)
    }
}
