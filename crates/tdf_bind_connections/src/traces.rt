//! The traces of a model: the signal that each path leads to.

ghost use Rattle.std.specs.Prelude.{◌≡◌, ◌≤◌, [], ◌∷◌, ◌++◌, Some, None, not, IfOk, OnOk, IfErr, length, option_map, slice_get, All, ℕ, List, nat_eq};
ghost use Rattle.std.specs.List.{AllZip};
ghost use Rattle.std.specs.Cmp.{partial_equiv_from_equiv};
ghost use Rattle.std.specs.Cmp.Lexicographic.{pointwise, nat_list_eq_equiv};
ghost use Rattle.std.specs.Cmp.Rules.{hashing};
ghost use Rattle.std.specs.Hash as fed;
ghost use Rattle.std.proofs.Common.{rules};
ghost use Rattle.tdf_bind_hierarchy.specs.Tables.{table};
ghost use Rattle.tdf_bind_connections.specs.Traces.{traced, IsTraceOf, unknown_lines, IsTraceRefusal};
ghost use Rattle.tdf_bind_connections.specs.machine.TraceSteps.{found, put_found, put_path, Finds, Puts, IsRowBy, IsRefusalBy, unknown_by};

use indexmap::IndexMap;
use std::alloc::{AllocError, AllocFailed, Global};
use std::hash::{Hash, Hasher};
use std::marker::Model;
use tdf_base::{Memory, Name, Path, row_number};
use tdf_bind_hierarchy::{SharedPath, Signal, SignalNumber, Tables};
use thiserror::Error;

/// A line that asks for a trace.
#[derive(Drop)]
pub struct TraceLine {
    /// The line, counted from 1.
    pub line: u32,
    /// The path of the signal.
    pub path: Path,
    /// The label under which the signal is written.
    pub label: Name,
}

/// A trace.
#[derive(Drop)]
pub struct TraceRow {
    /// The label under which the signal is written.
    pub label: Name,
    /// Whether it is an event signal; else it is one of samples.
    pub event: bool,
    /// The number of the signal among those of its kind.
    pub signal: u32,
}

/// Why traces have no table.
#[derive(Debug, Drop, Error)]
pub enum TraceErr {
    /// The path on this line leads to no signal.
    #[error("a path to no signal on line {0}")]
    Unknown(u32),
    /// Out of memory.
    #[error("out of memory")]
    Memory,
}

impl From<Memory> for TraceErr {
    ghost use Rattle.tdf_bind_connections.specs.declared.traces.TraceErr.TheVariants as why;

    ghost from_gives = { λ _ e. e ≡ why.Memory };

    fn from(_refused: Memory) -> TraceErr {
        TraceErr::Memory
    }
}

/// The text of a path, as a key of a map.
#[derive(Drop)]
struct PathText {
    bytes: Vec<u8>,
}

impl Model for PathText {
    ghost use Rattle.std.specs.Prelude.{List, ℕ};

    ghost Value = { List ℕ };

    ghost view = { λ a. a.bytes.items };
}

impl PartialEq for PathText {
    ghost eq = { pointwise nat_eq };

    ghost laws = { partial_equiv_from_equiv nat_list_eq_equiv };

    fn eq(&self, other: &PathText) -> bool {
        self.bytes.as_slice() == other.bytes.as_slice()
    }
}

impl Eq for PathText {
    ghost laws = { nat_list_eq_equiv };
}

impl Hash for PathText {
    ghost hash_input = { λ text. fed.slice fed.u8 text };

    ghost respects_eq = { Prim.search (hashing, rules) };

    fn hash<H: Hasher>(&self, state: &mut H) {
        self.bytes.as_slice().hash(state);
    }
}

/// The first signal with each path.
#[derive(Drop)]
struct PathMap {
    map: IndexMap<PathText, SignalNumber>,
}

impl PathMap {
    fn new(alloc: Global) -> PathMap
        ensures { (text : List ℕ) → found result text ≡ None }
    {
        PathMap {
            map: IndexMap::new(alloc),
        }
    }

    /// The signal of a text.
    fn find(&self, text: &PathText) -> Option<SignalNumber>
        ensures { result ≡ found self.now text.now }
    {
        match self.map.get(text) {
            None => None,
            Some(number) => Some(*number),
        }
    }

    /// One signal more; of two with one path the first stands.
    fn put(&mut self, text: PathText, number: SignalNumber) -> Result<(), Memory>
        ensures { OnOk result ((other : List ℕ) → found self.new other ≡ put_path text number other (found self.old other)) }
    {
        if self.find(&text).is_some() {
            drop(text);
            return Ok(());
        }
        self.map.insert(text, number)?;
        Ok(())
    }
}

fn list_of(tables: &Tables, event: bool) -> &[Signal]
    ensures { result.now ≡ table event tables.now }
{
    if event {
        return tables.event_signals.as_slice();
    }
    tables.signals.as_slice()
}

fn copied(alloc: Global, bytes: &[u8]) -> Result<Vec<u8>, Memory>
    ensures { IfOk result (λ copy. copy.items ≡ bytes.now) }
{
    Ok(Vec::from_slice(alloc, bytes)?)
}

fn path_text(alloc: Global, path: &SharedPath) -> Result<PathText, Memory>
    ensures { IfOk result (λ text. text ≡ path.now) }
{
    let mut bytes = Vec::new(alloc);
    path.push_text(&mut bytes)?;
    Ok(PathText { bytes })
}

/// One signal more, where its path is not longer than all that are asked for.
#[tactic(auto, using(crate::proofs::TraceLoops::path_laws))]
fn put_signal(
    alloc: Global,
    paths: &mut PathMap,
    limit: usize,
    path: &SharedPath,
    number: SignalNumber,
) -> Result<(), Memory>
    ensures { OnOk result (Puts (put_path path.now number) limit paths.old paths.new) }
{
    if path.len_up_to(limit.saturating_add(1)) > limit {
        return Ok(());
    }
    let text = path_text(alloc, path)?;
    paths.put(text, number)
}

fn put_number(
    alloc: Global,
    paths: &mut PathMap,
    limit: usize,
    tables: &Tables,
    number: SignalNumber,
) -> Result<(), Memory>
    ensures { OnOk result (Puts (put_found tables.now number) limit paths.old paths.new) }
{
    let signals = list_of(tables, number.event);
    if number.number < signals.len() {
        return put_signal(alloc, paths, limit, &signals[number.number].path, number);
    }
    Ok(())
}

/// The first signals with the paths up to a length.
fn paths_of(alloc: Global, tables: &Tables, limit: usize) -> Result<PathMap, Memory>
    ensures { IfOk result (λ paths. Finds tables.now limit tables.now.order paths) }
{
    put_numbers(alloc, tables, limit, &tables.order)
}

fn put_numbers(
    alloc: Global,
    tables: &Tables,
    limit: usize,
    numbers: &[SignalNumber],
) -> Result<PathMap, Memory>
    ensures { IfOk result (λ paths. Finds tables.now limit numbers.now paths) }
{
    let mut paths = PathMap::new(alloc);
    for i in 0..numbers.len() {
        put_number(alloc, &mut paths, limit, tables, numbers[i])?;
    }
    Ok(paths)
}

/// The length of the longest path.
fn longest(lines: &[TraceLine]) -> usize
    ensures { All (λ line. length line.path ≤ result) lines.now }
{
    let mut longest = 0;
    for i in 0..lines.len() {
        longest = lines[i].path.as_bytes().len().max(longest);
    }
    longest
}

fn trace_row(alloc: Global, paths: &PathMap, line: &TraceLine) -> Result<TraceRow, TraceErr>
    ensures row { IfOk result (λ row. IsRowBy paths.now row line.now) }
    ensures refused { IfErr result (IsRefusalBy paths.now line.now) }
{
    let text = PathText {
        bytes: copied(alloc, line.path.as_bytes())?,
    };
    match paths.find(&text) {
        None => Err(TraceErr::Unknown(line.line)),
        Some(number) => Ok(TraceRow {
            label: Name::copied(alloc, line.label.as_bytes())?,
            event: number.event,
            signal: row_number(number.number)?,
        }),
    }
}

fn push(rows: &mut Vec<TraceRow>, row: TraceRow) -> Result<(), Memory>
    ensures { OnOk result (rows.new.items ≡ rows.old.items ++ row ∷ []) }
{
    rows.push(row)?;
    Ok(())
}

fn rows_by(alloc: Global, paths: &PathMap, lines: &[TraceLine]) -> Result<Vec<TraceRow>, TraceErr>
    ensures rows { IfOk result (λ rows. AllZip (IsRowBy paths.now) rows.items lines.now) }
    ensures refused { IfErr result (IsTraceRefusal (unknown_by paths.now lines.now)) }
{
    let mut rows = Vec::new(alloc);
    for i in 0..lines.len() {
        match trace_row(alloc, paths, &lines[i]) {
            Ok(row) => push(&mut rows, row)?,
            Err(error) => {
                drop(rows);
                return Err(error);
            }
        }
    }
    Ok(rows)
}

/// The traces that some lines ask for, in their order.
///
/// # Errors
/// The first line whose path is not that of a signal, or out of memory.
pub fn traces_of(
    alloc: Global,
    tables: &Tables,
    lines: &[TraceLine],
) -> Result<Vec<TraceRow>, TraceErr>
    ensures traces { IfOk result (λ rows. AllZip (IsTraceOf tables.now) rows.items lines.now) }
    ensures fine { OnOk result (unknown_lines tables.now lines.now ≡ []) }
    ensures refused { IfErr result (IsTraceRefusal (unknown_lines tables.now lines.now)) }
{
    let paths = paths_of(alloc, tables, longest(lines))?;
    let rows = rows_by(alloc, &paths, lines);
    drop(paths);
    rows
}
