//! Assignments, compiled.

ghost use Rattle.std.specs.Prelude.{◌≡◌, ◌≤◌, ◌^◌, map, ℕ};
ghost use Rattle.tdf_expr_compiler.specs.Layouts.{ArePlaces, IsNumbered};
ghost use Rattle.tdf_expr_compiler.specs.machine.Acting.{IsTarget, Sets, SetsCell, SetsSample};
ghost use Rattle.tdf_expr_compiler.specs.machine.Found.{IsShaped};
ghost use Rattle.tdf_expr_symbols.specs.Names.{shape_of};
ghost use Rattle.tdf_expr_symbols.specs.Scope.{Scope as ScopeSeen};
ghost use Rattle.tdf_expr_symbols.specs.Seen.{seen, seen_loop};

use crate::formats::format_of;
use crate::names::Compiled;
use crate::numbers::Numbers;
use crate::spots::spot_of;
use tdf_expr_machine::{Act, CastNode, Expression, Spot};
use tdf_expr_symbols::{OpenLoop, Thing};
use tdf_lang_tree::{Index, Shape};

/// Where the value of an assignment goes, of what begins at a place.
fn target(loops: &[OpenLoop], at: u32, index: &Option<Index>) -> Spot
    requires { at ≤ 2 ^ 31 }
    ensures { IsTarget (map seen_loop loops.now) at index.now result }
{
    match index {
        None => Spot::Fixed(at),
        Some(index) => spot_of(loops, at, index),
    }
}

/// A value that is cast into a cell; nothing where there is no format.
fn set_cell(shape: Option<Shape>, spot: Spot, value: Compiled) -> Act
    requires { IsShaped shape }
    ensures { SetsCell shape spot value.node value.part result }
{
    let part = u32::from(value.part);
    match shape {
        Some(shape) => Act::SetCell {
            spot,
            cast: CastNode {
                value: Expression::new(value.node),
                frac: part,
                format: format_of(shape),
            },
        },
        None => {
            drop(value);
            Act::Skip
        }
    }
}

/// A value that is cast into a sample of a port; nothing where there is no format.
fn set_sample(shape: Option<Shape>, port: u32, spot: Spot, value: Compiled) -> Act
    requires { IsShaped shape }
    ensures { SetsSample shape port spot value.node value.part result }
{
    let part = u32::from(value.part);
    match shape {
        Some(shape) => Act::SetSample {
            port,
            spot,
            cast: CastNode {
                value: Expression::new(value.node),
                frac: part,
                format: format_of(shape),
            },
        },
        None => {
            drop(value);
            Act::Skip
        }
    }
}

/// An assignment to a variable, an element or a sample; nothing where the name is none of them.
pub(crate) fn set(
    loops: &[OpenLoop],
    thing: Thing,
    numbers: Numbers,
    index: &Option<Index>,
    value: Compiled,
) -> Act
    requires places { ArePlaces numbers }
    requires shaped { IsShaped (shape_of (seen thing)) }
    ensures { (scope : ScopeSeen) (n : ℕ) → IsNumbered scope.own n numbers
        → Sets scope (map seen_loop loops.now) n (seen thing.entry) index.now value.node value.part result }
{
    match thing {
        Thing::Var(shape, _) => { set_cell(shape, target(loops, numbers.cell, index), value) }
        Thing::Array(shape, _, _) => { set_cell(shape, target(loops, numbers.cell, index), value) }
        Thing::Port(_, shape, _, _) => {
            let spot = target(loops, numbers.sample, index);
            set_sample(shape, numbers.port, spot, value)
        }
        _ => {
            drop(value);
            Act::Skip
        }
    }
}
