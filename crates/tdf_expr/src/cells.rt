//! The cells of a block: their formats and starting values.

ghost use Rattle.std.specs.List.{flat_map};
ghost use Rattle.std.specs.Prelude.{◌≡◌, ◌≤◌, ◌-◌, ◌^◌, ◌++◌, [], ◌∷◌, map, replicate, length, slice_get, Some, OnOk, IfOk, pos};
ghost use Rattle.tdf_expr.specs.machine.Cells.{AreStartsKept};
ghost use Rattle.tdf_expr.specs.Plans.{shape_written, start_number, starts_of, cell_starts};
ghost use Rattle.tdf_fixed.specs.Cast.{IsLegal};
ghost use Rattle.tdf_expr_semantics.specs.Places.{cells_of, cell_shapes};
ghost use Rattle.tdf_expr_symbols.specs.Names.{Thing as ThingSeen, shape_of};
ghost use Rattle.tdf_expr_symbols.specs.Seen.{seen};
ghost use Rattle.tdf_expr_symbols.specs.Sound.{HasFormat, IsSound, IsThingSound};
ghost use Rattle.tdf_lang_tree.specs.Kept.{Each, KeepsLit};

use std::alloc::Global;
use tdf_base::Memory;
use tdf_expr_compiler::{format_of, literal_in};
use tdf_expr_symbols::{Scope, Thing};
use tdf_fixed::Format;
use tdf_lang_tree::{Lit, Shape};

/// One format, so many times.
#[tactic(auto, using(crate::proofs::Pushes::push_laws))]
fn push_formats(formats: &mut Vec<Format>, format: Format, count: u64) -> Result<(), Memory>
    ensures { OnOk result (formats.new.items ≡ formats.old.items ++ replicate count format) }
{
    for done in 0..count {
        formats.push(format)?;
    }
    Ok(())
}

/// The format of a line, so many times.
fn push_shape(formats: &mut Vec<Format>, shape: Shape, count: u64) -> Result<(), Memory>
    requires { IsLegal shape.wl shape.iwl }
    ensures { OnOk result (map shape_written formats.new.items
        ≡ map shape_written formats.old.items ++ replicate count (Some shape)) }
{
    push_formats(formats, format_of(shape), count)
}

/// So many zeros.
#[tactic(auto, using(crate::proofs::Pushes::push_laws))]
fn push_zeros(starts: &mut Vec<i128>, count: u64) -> Result<(), Memory>
    ensures { OnOk result (starts.new.items ≡ starts.old.items ++ replicate count (pos 0)) }
{
    for done in 0..count {
        starts.push(0)?;
    }
    Ok(())
}

/// A starting value in a format, in units of its last place.
fn push_start(
    alloc: Global,
    starts: &mut Vec<i128>,
    shape: Shape,
    value: &Lit,
) -> Result<(), Memory>
    requires legal { IsLegal shape.wl shape.iwl }
    requires kept { KeepsLit value.now }
    ensures { OnOk result (starts.new.items ≡ starts.old.items ++ start_number (Some shape) value.now ∷ []) }
{
    let num = literal_in(alloc, shape, value)?;
    starts.push(num)?;
    Ok(())
}

/// The starting values that an array gives.
#[tactic(auto, using(crate::proofs::Pushes::start_laws))]
fn push_starts(
    alloc: Global,
    starts: &mut Vec<i128>,
    shape: Shape,
    values: &[Lit],
) -> Result<(), Memory>
    requires legal { IsLegal shape.wl shape.iwl }
    requires kept { Each KeepsLit values.now }
    ensures { OnOk result (starts.new.items ≡ starts.old.items ++ map (start_number (Some shape)) values.now) }
{
    for value in values {
        push_start(alloc, starts, shape, value)?;
    }
    Ok(())
}

/// The cells of an array.
#[tactic(auto, using(crate::proofs::Pushes::cell_laws))]
fn push_array(
    alloc: Global,
    formats: &mut Vec<Format>,
    starts: &mut Vec<i128>,
    shape: Shape,
    size: u64,
    values: &[Lit],
) -> Result<(), Memory>
    requires legal { IsLegal shape.wl shape.iwl }
    requires kept { Each KeepsLit values.now }
    ensures shapes { OnOk result (map shape_written formats.new.items
        ≡ map shape_written formats.old.items ++ replicate size (Some shape)) }
    ensures starts { OnOk result (starts.new.items ≡ starts.old.items
        ++ (map (start_number (Some shape)) values.now ++ replicate (size - length values.now) (pos 0))) }
{
    push_shape(formats, shape, size)?;
    push_starts(alloc, starts, shape, values)?;
    push_zeros(starts, size.saturating_sub(values.len() as u64))
}

/// The cell of a variable.
#[tactic(auto, using(crate::proofs::Pushes::cell_laws))]
fn push_var(
    alloc: Global,
    formats: &mut Vec<Format>,
    starts: &mut Vec<i128>,
    shape: Shape,
    start: &Lit,
) -> Result<(), Memory>
    requires legal { IsLegal shape.wl shape.iwl }
    requires kept { KeepsLit start.now }
    ensures shapes { OnOk result (map shape_written formats.new.items ≡ map shape_written formats.old.items ++ Some shape ∷ []) }
    ensures starts { OnOk result (starts.new.items ≡ starts.old.items ++ start_number (Some shape) start.now ∷ []) }
{
    push_shape(formats, shape, 1)?;
    push_start(alloc, starts, shape, start)
}

/// The cells of a name.
#[tactic(auto, using(crate::proofs::Pushes::cell_laws))]
fn push_cells(
    alloc: Global,
    formats: &mut Vec<Format>,
    starts: &mut Vec<i128>,
    thing: Thing,
) -> Result<(), Memory>
    requires { AreStartsKept (seen thing) }
    ensures shapes { OnOk result (map shape_written formats.new.items
        ≡ map shape_written formats.old.items ++ replicate (cells_of (seen thing.entry)) (shape_of (seen thing.entry))) }
    ensures starts { OnOk result (starts.new.items ≡ starts.old.items ++ starts_of (seen thing.entry)) }
{
    match thing {
        Thing::Var(Some(shape), start) => push_var(alloc, formats, starts, shape, start),
        Thing::Array(Some(shape), size, values) => {
            push_array(alloc, formats, starts, shape, size, values)
        }
        _ => Ok(()),
    }
}

/// The formats of a block's cells, at most 2^31, and the values that they start from.
#[derive(Drop)]
pub(crate) struct CellPlan {
    pub(crate) formats: Vec<Format>,
    pub(crate) starts: Vec<i128>,
    pub(crate) ghost few: { length formats.items ≤ 2 ^ 31 },
}

/// The cells of the name at a place.
#[tactic(auto, using(crate::proofs::Planned::cell_plan_laws))]
fn push_place(
    alloc: Global,
    formats: &mut Vec<Format>,
    starts: &mut Vec<i128>,
    scope: &Scope,
    place: usize,
) -> Result<(), Memory>
    requires sound { IsSound scope.now }
    ensures shapes { (t : ThingSeen) → slice_get scope.now.own.things place ≡ Some t
        → OnOk result (map shape_written formats.new.items ≡ map shape_written formats.old.items ++ replicate (cells_of t) (shape_of t)) }
    ensures starts { (t : ThingSeen) → slice_get scope.now.own.things place ≡ Some t
        → OnOk result (starts.new.items ≡ starts.old.items ++ starts_of t) }
{
    match scope.own_at(place) {
        None => Ok(()),
        Some(thing) => push_cells(alloc, formats, starts, thing),
    }
}

/// The cells of a block.
///
/// # Errors
/// Out of memory, also where a block has more than 2^31 cells.
#[tactic(auto, using(crate::proofs::Planned::cell_plan_laws))]
pub(crate) fn cell_plan(alloc: Global, scope: &Scope) -> Result<CellPlan, Memory>
    requires sound { IsSound scope.now }
    ensures shapes { IfOk result (λ p. map shape_written p.formats.items ≡ cell_shapes scope.now.own) }
    ensures starts { IfOk result (λ p. p.starts.items ≡ cell_starts scope.now.own) }
{
    let mut formats = Vec::new(alloc);
    let mut starts = Vec::new(alloc);
    for place in 0..scope.own_len() {
        push_place(alloc, &mut formats, &mut starts, scope, place)?;
    }
    if formats.len() > 1 << 31 {
        return Err(Memory);
    }
    Ok(CellPlan { formats, starts })
}
