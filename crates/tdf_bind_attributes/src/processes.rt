//! Blocks of processes.

ghost use Rattle.std.specs.List.{flat_map};
ghost use Rattle.std.specs.Prelude.{◌≡◌, ◌++◌, map, filter_map, IfOk, OnOk};
ghost use Rattle.tdf_bind_ports.specs.Ports.{ports_of_de as ports_seen};
ghost use Rattle.tdf_bind_attributes.specs.Roles.{event_of, names_of_events, places_among, process_role, processes_role};
ghost use Rattle.tdf_bind_attributes.specs.machine.Processes.{found_place, process_with};
ghost use Rattle.tdf_expr_symbols.specs.Names.{place_in};
ghost use Rattle.tdf_lang_tree.specs.Views.{pure_de, pure_de_line, pure_process};

use std::alloc::Global;
use tdf_base::{Memory, Name};
use tdf_bind_connections::{ProcessData, ProcessLine};
use tdf_bind_ports::{Index, Ports, ports_of_de};
use tdf_lang_tree::{DeDecl, DeLine, PortKind, PortLine, Process, Sense};

fn push_event<'t>(names: &mut Index<'t>, line: &'t DeLine) -> Result<(), Memory>
    ensures { OnOk result (names.new ≡ names.old ++ event_of (pure_de_line line.entry.now)) }
{
    match line {
        DeLine::Event { name, .. } => names.add(name.as_bytes()),
        DeLine::Port(_) => Ok(()),
        DeLine::Store(_) => Ok(()),
    }
}

/// The events of a block, each found by a map.
///
/// # Errors
/// Out of memory.
#[tactic(auto, using(crate::proofs::Listed::event_laws))]
fn event_names<'t>(alloc: Global, lines: &'t Vec<DeLine>) -> Result<Index<'t>, Memory>
    ensures { IfOk result (λ names. names ≡ flat_map event_of (map pure_de_line lines.entry.now.items)) }
{
    let mut names = Index::new(alloc);
    for line in lines {
        push_event(&mut names, line)?;
    }
    Ok(names)
}

fn push_place(places: &mut Vec<usize>, place: Option<usize>) -> Result<(), Memory>
    ensures { OnOk result (places.new.items ≡ places.old.items ++ found_place place) }
{
    match place {
        None => Ok(()),
        Some(place) => {
            places.push(place)?;
            Ok(())
        }
    }
}

/// The places of the ports that some lines name.
///
/// # Errors
/// Out of memory.
#[tactic(auto, using(crate::proofs::Listed::place_laws))]
fn ports_named(alloc: Global, ports: &Ports, lines: &Vec<Sense>) -> Result<Vec<usize>, Memory>
    ensures { IfOk result (λ places. places.items ≡ places_among (map (λ p. p.name) ports.now) lines.now.items) }
{
    let mut places = Vec::new(alloc);
    for line in lines {
        push_place(&mut places, ports.place(line.name.as_bytes()))?;
    }
    Ok(places)
}

/// The places of the events that some lines name.
///
/// # Errors
/// Out of memory.
#[tactic(auto, using(crate::proofs::Listed::place_laws))]
fn events_named(alloc: Global, events: &Index, lines: &Vec<Sense>) -> Result<Vec<usize>, Memory>
    ensures { IfOk result (λ places. places.items ≡ places_among events.now lines.now.items) }
{
    let mut places = Vec::new(alloc);
    for line in lines {
        push_place(&mut places, events.place(line.name.as_bytes()))?;
    }
    Ok(places)
}

/// A process.
///
/// # Errors
/// Out of memory.
fn process_line(
    alloc: Global,
    ports: &Ports,
    events: &Index,
    process: &Process,
) -> Result<ProcessLine, Memory>
    ensures { IfOk result (λ line. line ≡ process_with (map (λ p. p.name) ports.now) events.now (pure_process process.now)) }
{
    let at_ports = ports_named(alloc, ports, &process.sensitive)?;
    let at_events = events_named(alloc, events, &process.sensitive)?;
    Ok(ProcessLine {
        starts: process.starts,
        ports: at_ports,
        events: at_events,
    })
}

/// The processes of a block.
///
/// # Errors
/// Out of memory.
#[tactic(auto, using(crate::proofs::Listed::process_laws))]
fn process_lines(
    alloc: Global,
    ports: &Ports,
    events: &Index,
    processes: &Vec<Process>,
) -> Result<Vec<ProcessLine>, Memory>
    ensures { IfOk result (λ lines. lines.items
        ≡ map (process_with (map (λ p. p.name) ports.now) events.now) (map pure_process processes.now.items)) }
{
    let mut lines = Vec::new(alloc);
    for process in processes {
        let line = process_line(alloc, ports, events, process)?;
        lines.push(line)?;
    }
    Ok(lines)
}

/// The kinds of some ports.
///
/// # Errors
/// Out of memory.
fn kinds_of(alloc: Global, lines: &[&PortLine]) -> Result<Vec<PortKind>, Memory>
    ensures { IfOk result (λ kinds. kinds.items ≡ map (λ p. p.now.kind) lines.now) }
{
    let kinds = lines.iter().map(|line| line.kind).collect(alloc)?;
    Ok(kinds)
}

/// The names of the events of a block, in order.
///
/// # Errors
/// Out of memory.
#[tactic(auto, using(crate::proofs::Listed::event_laws))]
fn copied_events(alloc: Global, lines: &Vec<DeLine>) -> Result<Vec<Name>, Memory>
    ensures { IfOk result (λ names. names.items ≡ flat_map event_of (map pure_de_line lines.now.items)) }
{
    let mut names = Vec::new(alloc);
    for line in lines {
        push_copy(alloc, &mut names, line)?;
    }
    Ok(names)
}

fn push_copy(alloc: Global, names: &mut Vec<Name>, line: &DeLine) -> Result<(), Memory>
    ensures { OnOk result (names.new.items ≡ names.old.items ++ event_of (pure_de_line line.now)) }
{
    match line {
        DeLine::Event { name, .. } => {
            names.push(Name::copied(alloc, name.as_bytes())?)?;
            Ok(())
        }
        DeLine::Port(_) => Ok(()),
        DeLine::Store(_) => Ok(()),
    }
}

/// A block of processes, where so many blocks stand before it.
///
/// # Errors
/// Out of memory.
pub(crate) fn processes_role(
    alloc: Global,
    number: u32,
    block: &DeDecl,
) -> Result<ProcessData, Memory>
    ensures { IfOk result (λ role. role ≡ processes_role number (pure_de block.now)) }
{
    let ports = ports_of_de(alloc, block)?;
    let events = event_names(alloc, &block.decls)?;
    let processes = process_lines(alloc, &ports, &events, &block.processes)?;
    let kinds = kinds_of(alloc, ports.lines())?;
    let names = copied_events(alloc, &block.decls)?;
    Ok(ProcessData {
        block: number,
        ports: kinds,
        processes,
        events: names,
    })
}
