//! What there is a limit for, and what an instance of a block adds to it.

ghost use Rattle.std.specs.List.{flat_map, sum_by};
ghost use Rattle.std.specs.Prelude.{◌≡◌, ◌+◌, ◌++◌, length, map, IfOk, OnOk};
ghost use Rattle.tdf_bind_names.specs.Counts.{store_cells, counts_signals, de_line_weight, de_weight, instance_weight, limit_of, processes_weight, tdf_line_weight, tdf_weight, weight_of, weights_of};
ghost use Rattle.tdf_bind_names.specs.machine.Counts.{capped};
ghost use Rattle.tdf_bind_names.specs.machine.Lists.{list_of};
ghost use Rattle.tdf_lang_tree.specs.Views.{pure_de, pure_de_line, pure_global, pure_store, pure_tdf, pure_tdf_line, pure_tree};

use std::alloc::Global;
use tdf_base::{
    MOST_CELLS, MOST_EVENTS, MOST_INSTANCES, MOST_PORTS, MOST_PROCESSES, MOST_SIGNALS, Memory,
};
use tdf_lang_tree::{DeDecl, DeLine, Global1, Store, TdfDecl, TdfLine, Tree};

/// What there is a limit for.
#[derive(Clone, Copy)]
pub(crate) enum Measure {
    /// Instances, of composites too.
    Instances,
    /// Ports of modules and of blocks of processes.
    Ports,
    /// Signals of both kinds.
    Signals,
    /// Constants, state variables, rate variables and elements of arrays.
    Cells,
    Processes,
    Events,
}

/// The sum, or the greatest number where it does not fit.
#[tactic(auto, unfolding(crate::specs::machine::Counts::capped))]
pub(crate) fn add(a: u64, b: u64) -> u64
    ensures { result ≡ capped (a + b) }
{
    a.saturating_add(b)
}

pub(crate) fn limit_of(measure: Measure) -> u64
    ensures { result ≡ limit_of measure }
{
    match measure {
        Measure::Instances => MOST_INSTANCES as u64,
        Measure::Ports => MOST_PORTS as u64,
        Measure::Signals => MOST_SIGNALS as u64,
        Measure::Cells => MOST_CELLS as u64,
        Measure::Processes => MOST_PROCESSES as u64,
        Measure::Events => MOST_EVENTS as u64,
    }
}

pub(crate) fn counts_signals(measure: Measure) -> bool
    ensures { result ≡ counts_signals measure }
{
    matches!(measure, Measure::Signals)
}

fn instance_weight(measure: Measure) -> u64
    ensures { result ≡ instance_weight measure }
{
    match measure {
        Measure::Instances => 1,
        _ => 0,
    }
}

fn cells_of(store: &Store) -> u64
    ensures { result ≡ store_cells (pure_store store.now) }
{
    match store {
        Store::Const { .. } => 1,
        Store::Var { .. } => 1,
        Store::Array { length, .. } => *length,
    }
}

fn tdf_line_weight(measure: Measure, line: &TdfLine) -> u64
    ensures { result ≡ tdf_line_weight measure (pure_tdf_line line.now) }
{
    match (measure, line) {
        (Measure::Ports, TdfLine::Port(_)) => 1,
        (Measure::Cells, TdfLine::Store(store)) => cells_of(store),
        (Measure::Cells, TdfLine::Rate { .. }) => 1,
        _ => 0,
    }
}

fn de_line_weight(measure: Measure, line: &DeLine) -> u64
    ensures { result ≡ de_line_weight measure (pure_de_line line.now) }
{
    match (measure, line) {
        (Measure::Ports, DeLine::Port(_)) => 1,
        (Measure::Cells, DeLine::Store(store)) => cells_of(store),
        (Measure::Events, DeLine::Event { .. }) => 1,
        _ => 0,
    }
}

fn processes_weight(measure: Measure, count: usize) -> u64
    ensures { result ≡ processes_weight measure count }
{
    match measure {
        Measure::Processes => count as u64,
        _ => 0,
    }
}

#[tactic(auto, using(crate::proofs::Sums::tdf_laws))]
fn tdf_lines_weight(measure: Measure, lines: &Vec<TdfLine>) -> u64
    ensures { result ≡ capped (sum_by (tdf_line_weight measure) (map pure_tdf_line lines.now.items)) }
{
    let mut total = 0;
    for line in lines {
        total = add(total, tdf_line_weight(measure, line));
    }
    total
}

#[tactic(auto, using(crate::proofs::Sums::de_laws))]
fn de_lines_weight(measure: Measure, lines: &Vec<DeLine>) -> u64
    ensures { result ≡ capped (sum_by (de_line_weight measure) (map pure_de_line lines.now.items)) }
{
    let mut total = 0;
    for line in lines {
        total = add(total, de_line_weight(measure, line));
    }
    total
}

#[tactic(auto, using(crate::proofs::Sums::cap_laws))]
fn tdf_weight(measure: Measure, block: &TdfDecl) -> u64
    ensures { result ≡ capped (tdf_weight measure (pure_tdf block.now)) }
{
    add(
        instance_weight(measure),
        tdf_lines_weight(measure, &block.decls),
    )
}

#[tactic(auto, using(crate::proofs::Sums::cap_laws))]
fn de_weight(measure: Measure, block: &DeDecl) -> u64
    ensures { result ≡ capped (de_weight measure (pure_de block.now)) }
{
    let lines = de_lines_weight(measure, &block.decls);
    let processes = processes_weight(measure, block.processes.len());
    add(instance_weight(measure), add(lines, processes))
}

/// What an instance of a block adds, but for what is inside it; nothing for a type.
#[tactic(auto, using(crate::proofs::Sums::cap_laws))]
fn weight_of(measure: Measure, global: &Global1) -> Option<u64>
    ensures { list_of result ≡ map capped (weight_of measure (pure_global global.now)) }
{
    match global {
        Global1::Shape(_) => None,
        Global1::Tdf(block) => Some(tdf_weight(measure, block)),
        Global1::De(block) => Some(de_weight(measure, block)),
        Global1::Net(_) => Some(instance_weight(measure)),
    }
}

fn push_weight(out: &mut Vec<u64>, weight: Option<u64>) -> Result<(), Memory>
    ensures { OnOk result (out.new.items ≡ out.old.items ++ list_of weight) }
{
    match weight {
        None => Ok(()),
        Some(weight) => {
            out.push(weight)?;
            Ok(())
        }
    }
}

#[tactic(auto, using(crate::proofs::Sums::weight_laws))]
fn push_weights(out: &mut Vec<u64>, measure: Measure, list: &Vec<Global1>) -> Result<(), Memory>
    ensures { OnOk result (out.new.items ≡ out.old.items ++ map capped (flat_map (weight_of measure) (map pure_global list.now.items))) }
{
    for global in list {
        push_weight(out, weight_of(measure, global))?;
    }
    Ok(())
}

/// What an instance of each block adds, but for what is inside it.
///
/// # Errors
/// Out of memory.
#[tactic(auto, using(crate::proofs::Sums::whole_laws))]
pub(crate) fn weights_of(alloc: Global, measure: Measure, tree: &Tree) -> Result<Vec<u64>, Memory>
    ensures { IfOk result (λ weights. weights.items ≡ map capped (weights_of measure (pure_tree tree.now))) }
{
    let mut out = Vec::new(alloc);
    push_weights(&mut out, measure, &tree.globals)?;
    out.push(instance_weight(measure))?;
    Ok(out)
}
