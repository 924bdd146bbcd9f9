//! The initial samples of ports.

ghost use Rattle.std.specs.BTreeMap.{insert_entry};
ghost use Rattle.std.specs.Ordering.{nat_cmp};
ghost use Rattle.std.specs.Prelude.{◌≡◌, ◌<◌, ◌++◌, ◌∷◌, [], map, IfOk, OnOk, Some, length, replicate, slice_set, slice_index_or};
ghost use Rattle.tdf_fixed.specs.Cast.{IsLegal};
ghost use Rattle.tdf_expr_compiler.specs.Below.{literal_in as literal_of};
ghost use Rattle.tdf_bind_attributes.specs.machine.Standing.{put_entry, initial_put, initials_put};
ghost use Rattle.tdf_expr_symbols.specs.Sound.{IsSound};
ghost use Rattle.tdf_lang_tree.specs.Kept.{Each, KeepsInitial, KeepsLit};

use crate::rates::short;
use std::alloc::Global;
use std::collections::BTreeMap;
use tdf_base::Memory;
use tdf_expr_compiler::literal_in;
use tdf_expr_symbols::{Scope, Thing};
use tdf_fixed::Raw;
use tdf_lang_tree::{Initial, Lit, Shape};

/// A value goes to its place in the map of a name.
///
/// # Errors
/// Out of memory.
fn put(
    maps: &mut Vec<BTreeMap<u32, Raw>>,
    name: usize,
    place: u32,
    value: Raw,
) -> Result<(), Memory>
    ensures { OnOk result (map (λ m. m.entries) maps.new.items
        ≡ put_entry name place value (map (λ m. m.entries) maps.old.items)) }
{
    if name >= maps.len() {
        return Ok(());
    }
    maps[name].insert(place, value)?;
    Ok(())
}

/// A literal in a format.
///
/// # Errors
/// Out of memory.
fn value_in(alloc: Global, shape: Shape, value: &Lit) -> Result<Raw, Memory>
    requires legal { IsLegal shape.wl shape.iwl }
    requires kept { KeepsLit value.now }
    ensures { IfOk result (λ raw. raw ≡ literal_of (Some shape) value.now) }
{
    let num = literal_in(alloc, shape, value)?;
    Ok(Raw {
        num,
        frac: shape.wl as u32 - shape.iwl as u32,
    })
}

/// The initial samples of the names of a block after a line.
///
/// # Errors
/// Out of memory.
#[tactic(auto, using(crate::proofs::Stood::initial_laws))]
fn put_line(
    alloc: Global,
    maps: &mut Vec<BTreeMap<u32, Raw>>,
    scope: &Scope,
    initial: &Initial,
) -> Result<(), Memory>
    requires sound { IsSound scope.now }
    requires kept { KeepsLit initial.now.value }
    ensures { OnOk result (map (λ m. m.entries) maps.new.items
        ≡ initial_put scope.now.own initial.now (map (λ m. m.entries) maps.old.items)) }
{
    match scope.own_place(initial.port.as_bytes()) {
        None => Ok(()),
        Some(name) => match scope.own_at(name) {
            Some(Thing::Port(_, Some(shape), _, _)) => {
                let value = value_in(alloc, shape, &initial.value)?;
                put(maps, name, short(initial.place)?, value)
            }
            _ => Ok(()),
        },
    }
}

/// No initial samples, for each of so many names.
///
/// # Errors
/// Out of memory.
#[tactic(auto, using(crate::proofs::Stood::empty_laws))]
fn empty(alloc: Global, names: usize) -> Result<Vec<BTreeMap<u32, Raw>>, Memory>
    ensures { IfOk result (λ maps. map (λ m. m.entries) maps.items ≡ replicate names []) }
{
    let mut maps = Vec::new(alloc);
    for name in 0..names {
        maps.push(BTreeMap::new(alloc))?;
    }
    Ok(maps)
}

/// The initial samples of each name of a block that is a port, by rising place.
///
/// # Errors
/// Out of memory.
#[tactic(auto, using(crate::proofs::Stood::initials_laws))]
pub(crate) fn initials_of(
    alloc: Global,
    scope: &Scope,
    initials: &Vec<Initial>,
) -> Result<Vec<BTreeMap<u32, Raw>>, Memory>
    requires sound { IsSound scope.now }
    requires kept { Each KeepsInitial initials.now.items }
    ensures { IfOk result (λ maps. map (λ m. m.entries) maps.items
        ≡ initials_put scope.now.own initials.now.items (replicate (length scope.now.own.things) [])) }
{
    let mut maps = empty(alloc, scope.own_len())?;
    for initial in initials {
        put_line(alloc, &mut maps, scope, initial)?;
    }
    Ok(maps)
}
