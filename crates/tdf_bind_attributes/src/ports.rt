//! The ports of a module.

ghost use Rattle.std.specs.Option.{option_map};
ghost use Rattle.std.specs.Prelude.{◌≡◌, ◌<◌, ◌≤◌, map, IfOk, MatchOption, None, Some, length, [], replicate};
ghost use Rattle.tdf_bind_ports.specs.Ports.{ports_of_tdf as ports_seen};
ghost use Rattle.tdf_bind_attributes.specs.Roles.{delay_of_port, port_data, rate_of_port};
ghost use Rattle.tdf_bind_attributes.specs.machine.Found.{IsFound, initials_at, port_with};
ghost use Rattle.tdf_bind_attributes.specs.machine.Gathered.{IsGathered};
ghost use Rattle.tdf_bind_attributes.specs.machine.Numbers.{AreRateNumbers};
ghost use Rattle.tdf_expr_symbols.specs.Names.{thing_of};
ghost use Rattle.tdf_expr_symbols.specs.Scope.{Scope as ScopeSeen};
ghost use Rattle.tdf_expr_symbols.specs.Seen.{rate_or_one, seen};
ghost use Rattle.tdf_expr_symbols.specs.Sound.{IsSound};
ghost use Rattle.tdf_lang_tree.specs.Kept.{Each, KeepsInitial};
ghost use Rattle.tdf_lang_tree.specs.Views.{pure_tdf};

use crate::initials::initials_of;
use crate::rates::{rate_in, rate_numbers, short};
use crate::steps::port_steps;
use std::alloc::Global;
use std::collections::BTreeMap;
use tdf_base::{Memory, Name};
use tdf_bind_connections::{Initials, PortData};
use tdf_bind_ports::ports_of_tdf;
use tdf_expr_symbols::{Scope, Thing};
use tdf_fixed::Raw;
use tdf_lang_tree::{Limit, PortLine, TdfDecl};

/// What the lines of a block say of its ports, by the places of their names.
#[derive(Drop)]
pub(crate) struct Gathered {
    numbers: Vec<u64>,
    steps: Vec<u64>,
    initials: Vec<BTreeMap<u32, Raw>>,
}

/// What the lines of a block say of its ports.
///
/// # Errors
/// Out of memory.
pub(crate) fn gather(alloc: Global, scope: &Scope, block: &TdfDecl) -> Result<Gathered, Memory>
    requires sound { IsSound scope.now }
    requires kept { Each KeepsInitial block.now.initials.items }
    ensures { IfOk result (λ g. IsGathered scope.now.own block.now.attrs.items block.now.initials.items g) }
{
    let numbers = rate_numbers(alloc, scope)?;
    let steps = port_steps(alloc, scope, &block.attrs)?;
    let initials = initials_of(alloc, scope, &block.initials)?;
    Ok(Gathered {
        numbers,
        steps,
        initials,
    })
}

/// The entries of a map, in order.
///
/// # Errors
/// Out of memory.
fn entries_of(alloc: Global, map: &BTreeMap<u32, Raw>) -> Result<Vec<(u32, Raw)>, Memory>
    ensures { IfOk result (λ list. list.items ≡ map.now.entries) }
{
    let list = map.iter().map(|entry| (*entry.0, *entry.1)).collect(alloc)?;
    Ok(list)
}

/// What the name of a port stands for, with what was gathered of it.
#[derive(Clone, Copy)]
struct Found<'t> {
    thing: Thing<'t>,
    step: u64,
    place: usize,
}

/// The name of a port that is found.
fn find<'t>(scope: &Scope<'_, 't>, steps: &[u64], name: &Name) -> Option<Found<'t>>
    requires { length scope.now.own.things ≤ length steps.now }
    ensures { MatchOption result (thing_of scope.now.own name.now ≡ None) (λ f. IsFound scope.now.own steps.now name.now (seen f.thing) f.step f.place) }
{
    match scope.own_place(name.as_bytes()) {
        None => None,
        Some(place) => match scope.own_at(place) {
            None => None,
            Some(thing) => Some(Found {
                thing,
                step: steps[place],
                place,
            }),
        },
    }
}

/// The rate and the delay of a port; 1 and 0 where a name is none.
fn attributes(thing: Option<Thing>) -> (Option<&Limit>, u64)
    ensures rate { rate_or_one result.0 ≡ rate_of_port (option_map seen thing.entry) }
    ensures delay { result.1 ≡ delay_of_port (option_map seen thing.entry) }
{
    match thing {
        Some(Thing::Port(_, _, rate, delay)) => (rate, delay),
        _ => (None, 0),
    }
}

/// The initial samples of a name, if it is a port.
///
/// # Errors
/// Out of memory.
fn initials_at(
    alloc: Global,
    maps: &[BTreeMap<u32, Raw>],
    thing: Thing,
    place: usize,
) -> Result<Vec<(u32, Raw)>, Memory>
    requires { place < length maps.now }
    ensures { IfOk result (λ list. list.items ≡ initials_at (seen thing.entry) (map (λ m. m.entries) maps.now) place) }
{
    match thing {
        Thing::Port(_, Some(_), _, _) => entries_of(alloc, &maps[place]),
        _ => Ok(Vec::new(alloc)),
    }
}

/// What a block says of one of its ports.
#[derive(Drop)]
struct PortFacts<'t> {
    /// What its name stands for.
    thing: Option<Thing<'t>>,
    /// Its timestep, 0 where it has none.
    step: u64,
    initials: Vec<(u32, Raw)>,
}

/// A port with what its block says of it.
///
/// # Errors
/// Out of memory.
fn made(
    alloc: Global,
    scope: &Scope,
    numbers: &[u64],
    port: &PortLine,
    facts: PortFacts,
) -> Result<PortData, Memory>
    requires { AreRateNumbers scope.now.own numbers.now }
    ensures { IfOk result (λ made. made
        ≡ port_with scope.now.own port.now (option_map seen facts.entry.thing) facts.entry.step facts.entry.initials.items) }
{
    let (rate, delay) = attributes(facts.thing);
    let step = facts.step;
    let initials = Initials::new(alloc, facts.initials)?;
    Ok(PortData {
        name: Name::copied(alloc, port.name.as_bytes())?,
        kind: port.kind,
        rate: rate_in(scope, numbers, rate)?,
        delay: short(delay)?,
        step,
        initials,
    })
}

/// A port of a module.
///
/// # Errors
/// Out of memory.
fn port_data(
    alloc: Global,
    scope: &Scope,
    gathered: &Gathered,
    block: &TdfDecl,
    port: &PortLine,
) -> Result<PortData, Memory>
    requires { IsGathered scope.now.own block.now.attrs.items block.now.initials.items gathered.now }
    ensures { IfOk result (λ made. made ≡ port_data scope.now (pure_tdf block.now) port.now) }
{
    match find(scope, &gathered.steps, &port.name) {
        None => {
            let facts = PortFacts {
                thing: None,
                step: 0,
                initials: Vec::new(alloc),
            };
            made(alloc, scope, &gathered.numbers, port, facts)
        }
        Some(found) => {
            let initials = initials_at(alloc, &gathered.initials, found.thing, found.place)?;
            let facts = PortFacts {
                thing: Some(found.thing),
                step: found.step,
                initials,
            };
            made(alloc, scope, &gathered.numbers, port, facts)
        }
    }
}

/// The ports of a module.
///
/// # Errors
/// Out of memory.
pub(crate) fn ports_of(
    alloc: Global,
    scope: &Scope,
    block: &TdfDecl,
) -> Result<Vec<PortData>, Memory>
    requires sound { IsSound scope.now }
    requires kept { Each KeepsInitial block.now.initials.items }
    ensures { IfOk result (λ ports. ports.items
        ≡ map (port_data scope.now (pure_tdf block.now)) (ports_seen (pure_tdf block.now))) }
{
    let gathered = gather(alloc, scope, block)?;
    let lines = ports_of_tdf(alloc, block)?;
    let mut ports = Vec::new(alloc);
    for line in lines.lines() {
        ports.push(port_data(alloc, scope, &gathered, block, line)?)?;
    }
    Ok(ports)
}
