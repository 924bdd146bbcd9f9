//! Names and elements of expressions, compiled.

ghost use Rattle.std.specs.Prelude.{◌≡◌, map, ℕ, List, None, IfOk, MatchOption};
ghost use Rattle.tdf_expr_compiler.specs.Layouts.{ArePlaces, IsLayout, IsNumbered};
ghost use Rattle.tdf_expr_compiler.specs.machine.Computed.{Computes};
ghost use Rattle.tdf_expr_compiler.specs.machine.Found.{IsCellAt, IsFound, IsIndexed, IsKept, IsSampleAt, IsWhole};
ghost use Rattle.tdf_expr_machine.specs.declared.nodes.Node.TheVariants.{Const};
ghost use Rattle.tdf_expr_semantics.specs.Value.{literal_in as literal_of};
ghost use Rattle.tdf_expr_symbols.specs.Names.{thing_of};
ghost use Rattle.tdf_expr_symbols.specs.Scope.{OpenLoop as LoopSeen, Scope as ScopeSeen, loop_place};
ghost use Rattle.tdf_expr_symbols.specs.Seen.{seen, seen_loop};
ghost use Rattle.tdf_expr_symbols.specs.Sound.{HasFormat, IsSound};
ghost use Rattle.tdf_lang_tree.specs.Kept.{KeepsLit};
ghost use Rattle.tdf_lang_tree.specs.Pure.{EAt, EName};

use crate::formats::{bits_in, literal_in, part_of};
use crate::layouts::Layout;
use crate::numbers::Numbers;
use crate::spots::{small, spot_of};
use std::alloc::Global;
use tdf_base::{Memory, Name};
use tdf_expr_machine::{Node, Spot};
use tdf_expr_symbols::{OpenLoop, Scope, Thing, loop_place};
use tdf_lang_tree::{Index, Lit, Shape};

/// A compiled expression, and how many bits it has after the point.
#[derive(Drop)]
pub(crate) struct Compiled {
    pub(crate) node: Node,
    pub(crate) part: u8,
}

/// What a name of the block stands for, and its numbers.
#[derive(Clone, Copy)]
pub(crate) struct Found<'t> {
    pub(crate) thing: Thing<'t>,
    pub(crate) numbers: Numbers,
}

/// What a name of the block stands for, and its numbers.
pub(crate) fn find<'t>(scope: &Scope<'_, 't>, layout: &Layout, name: &Name) -> Option<Found<'t>>
    requires sound { IsSound scope.now }
    requires layout { IsLayout scope.now.own layout.now }
    ensures { MatchOption result (thing_of scope.now.own name.now ≡ None) (λ f. IsFound scope.now.own name.now (seen f.thing) f.numbers) }
{
    match scope.own_place(name.as_bytes()) {
        None => None,
        Some(place) => match scope.own_at(place) {
            None => None,
            Some(thing) => Some(Found {
                thing,
                numbers: layout.at(place),
            }),
        },
    }
}

/// A literal in a format, in units of its last place; 0 where there is no format.
///
/// # Errors
/// Out of memory.
fn constant(alloc: Global, shape: Option<Shape>, value: &Lit) -> Result<Node, Memory>
    requires { HasFormat shape × KeepsLit value.now }
    ensures { IfOk result (λ node. node ≡ Const (literal_of shape value.now).num) }
{
    match shape {
        None => Ok(Node::Const(0)),
        Some(shape) => match literal_in(alloc, shape, value) {
            Ok(num) => Ok(Node::Const(num)),
            Err(refused) => Err(refused),
        },
    }
}

/// What a bare name stands for: a constant, a cell, a sample or a rate; 0 where it has no value.
///
/// # Errors
/// Out of memory.
#[tactic(auto, using(crate::proofs::Stored::whole_laws))]
fn whole(alloc: Global, thing: Thing, numbers: Numbers) -> Result<Node, Memory>
    requires { IsKept (seen thing) }
    ensures { (scope : ScopeSeen) (loops : List LoopSeen) (n : ℕ) → IsNumbered scope.own n numbers
        → IfOk result (λ node. IsWhole scope loops n (seen thing.entry) node) }
{
    match thing {
        Thing::Const(shape, value) => constant(alloc, shape, value),
        Thing::Var(shape, _) => Ok(Node::Cell(numbers.cell, bits_in(shape))),
        Thing::Array(shape, _, _) => Ok(Node::Cell(numbers.cell, bits_in(shape))),
        Thing::Port(_, shape, _, _) => Ok(Node::Sample(numbers.sample, bits_in(shape))),
        Thing::RateVar(_, _, _) => Ok(Node::Rate(numbers.rate)),
        _ => Ok(Node::Const(0)),
    }
}

/// A bare name of the block.
///
/// # Errors
/// Out of memory.
fn stored(alloc: Global, scope: &Scope, layout: &Layout, name: &Name) -> Result<Compiled, Memory>
    requires sound { IsSound scope.now }
    requires layout { IsLayout scope.now.own layout.now }
    ensures { (loops : List LoopSeen) → loop_place loops name.now ≡ None
        → IfOk result (λ t. Computes scope.now loops (EName name.now) t.node t.part) }
{
    match find(scope, layout, name) {
        None => Ok(Compiled {
            node: Node::Const(0),
            part: 0,
        }),
        Some(found) => {
            let part = part_of(found.thing.shape());
            let node = whole(alloc, found.thing, found.numbers)?;
            Ok(Compiled { node, part })
        }
    }
}

/// A bare name: a loop variable, or a name of the block.
///
/// # Errors
/// Out of memory.
pub(crate) fn named(
    alloc: Global,
    scope: &Scope,
    layout: &Layout,
    loops: &[OpenLoop],
    name: &Name,
) -> Result<Compiled, Memory>
    requires sound { IsSound scope.now }
    requires layout { IsLayout scope.now.own layout.now }
    ensures { IfOk result (λ t. Computes scope.now (map seen_loop loops.now) (EName name.now) t.node t.part) }
{
    match loop_place(loops, name.as_bytes()) {
        Some(depth) => Ok(Compiled {
            node: Node::Loop(small(depth as u64)),
            part: 0,
        }),
        None => stored(alloc, scope, layout, name),
    }
}

/// The cell at a place, whose number has at most so many bits.
fn cell_at(spot: Spot, bits: u32) -> Node
    ensures { IsCellAt spot bits result }
{
    match spot {
        Spot::Fixed(at) => Node::Cell(at, bits),
        other => Node::CellAt(other, bits),
    }
}

/// The sample at a place, whose number has at most so many bits.
fn sample_at(spot: Spot, bits: u32) -> Node
    ensures { IsSampleAt spot bits result }
{
    match spot {
        Spot::Fixed(at) => Node::Sample(at, bits),
        other => Node::SampleAt(other, bits),
    }
}

/// An element of an array or a sample of a port; 0 where the name is neither.
fn indexed(loops: &[OpenLoop], thing: Thing, numbers: Numbers, index: &Index) -> Node
    requires { ArePlaces numbers }
    ensures { (scope : ScopeSeen) (n : ℕ) → IsNumbered scope.own n numbers
        → IsIndexed scope (map seen_loop loops.now) n (seen thing.entry) index.now result }
{
    match thing {
        Thing::Array(shape, _, _) => {
            cell_at(spot_of(loops, numbers.cell, index), bits_in(shape))
        }
        Thing::Port(_, shape, _, _) => {
            sample_at(spot_of(loops, numbers.sample, index), bits_in(shape))
        }
        _ => Node::Const(0),
    }
}

/// A name with an index.
pub(crate) fn element(
    scope: &Scope,
    layout: &Layout,
    loops: &[OpenLoop],
    name: &Name,
    index: &Index,
) -> Compiled
    requires sound { IsSound scope.now }
    requires layout { IsLayout scope.now.own layout.now }
    ensures { Computes scope.now (map seen_loop loops.now) (EAt name.now index.now) result.node result.part }
{
    match find(scope, layout, name) {
        None => Compiled {
            node: Node::Const(0),
            part: 0,
        },
        Some(found) => Compiled {
            node: indexed(loops, found.thing, found.numbers, index),
            part: part_of(found.thing.shape()),
        },
    }
}
