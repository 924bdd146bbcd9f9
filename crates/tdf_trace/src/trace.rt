//! Traces, and their calls.
ghost use Rattle.std.specs.Prelude.{◌≡◌, ◌≤◌, ◌<◌, length, map, max, Err, IfOk, OnOk, OnErr};
ghost use Rattle.tdf_io.specs.Bytes.{WritesText};
ghost use Rattle.tdf_io.specs.Faults.{CountsSinkFaults};
ghost use Rattle.tdf_trace.specs.Columns.{HasFewPlaces};
ghost use Rattle.tdf_trace.specs.Stands.{AreWrittenTo, IsNew, IsStageAfter, Stands, TakesCell, WritesFront, WritesRest, WritesRows};
ghost use Rattle.tdf_trace.specs.States.{AreColumnStates, AreStampedFrom, AreStatesOf, cells_of_states, column_states, known_part};
ghost use Rattle.tdf_trace.specs.Writings.{CanBeTraced, about_of, head_of};
ghost use Rattle.tdf_trace.specs.declared.stage.Stage.TheVariants.{New, Open};
ghost use Rattle.tdf_saved.specs.declared.err.StateErr.TheVariants as why;
ghost use Rattle.tdf_trace.specs.views.Seen.{fresh};

use crate::about::{About, Variable};
use crate::column::{Column, Held};
use crate::columns::{next_time, put_cell};
use crate::heads::{write_head, write_tail};
use crate::rows::{Rows, write_below};
use crate::stage::Stage;
use crate::states::{are_states, columns_in, states_of};
use std::alloc::Global;
use std::marker::Model;
use tdf_base::{Memory, Resolution};
use tdf_io::{Sink, SinkErr};
use tdf_saved::{ColumnState, StateErr};
use tdf_trace_rows::{Cell, TraceKind};

/// A trace while it is written: what it is of, the cells that wait for their rows, and how far its rows are written. Contracts see
/// how it is written (`about`), whether its head is (`stage`), its columns, and the time below which all rows are written (`upto`).
#[derive(Drop)]
pub struct Trace {
    about: About,
    stage: Stage,
    rows: Rows,
}

impl Model for Trace {
    ghost use Rattle.tdf_trace.specs.Stands.{TraceSeen};
    ghost use Rattle.tdf_trace.specs.machine.Turning.{AreKept, AreSound};
    ghost use Rattle.tdf_trace.specs.views.Seen.{Fits, rows_seen};

    ghost Value = { TraceSeen };

    ghost view = { λ a. record { about = a.about; stage = a.stage; rows = rows_seen a.rows } };

    ghost invariant = { λ a. record {
      fits : Fits a.about a.rows.columns.items;
      sound : AreSound a.rows.upto a.rows.columns.items;
      kept : AreKept a.rows.columns.items a.rows.least a.rows.announces;
    } };
}

/// A column without cells for each variable.
#[tactic(auto, using(crate::proofs::Fresh::fresh_laws))]
fn columns_of(alloc: Global, variables: &Vec<Variable>) -> Result<Vec<Column>, Memory>
    ensures { IfOk result (λ columns. columns.items ≡ map fresh variables.now.items) }
{
    let mut columns = Vec::new(alloc);
    for i in 0..variables.len() {
        columns.push(Column::new(alloc, variables[i].first))?;
    }
    Ok(columns)
}

impl Trace {
    /// A trace of these variables, before its head is written. It has no cell: each column shows its first value.
    ///
    /// # Errors
    /// Out of memory.
    pub fn new(
        alloc: Global,
        variables: Vec<Variable>,
        resolution: Resolution,
        kind: TraceKind,
    ) -> Result<Trace, Memory>
        requires { CanBeTraced variables.items }
        ensures { IfOk result (λ trace. IsNew trace (about_of kind resolution variables.items)) }
    {
        match columns_of(alloc, &variables) {
            Ok(columns) => Ok(Trace {
                about: About {
                    kind,
                    resolution,
                    variables,
                },
                stage: Stage::New,
                rows: Rows {
                    columns,
                    upto: 0,
                    least: u64::MAX,
                    announces: false,
                    line: Vec::new(alloc),
                },
            }),
            Err(error) => {
                drop(variables);
                Err(error)
            }
        }
    }

    /// A trace of these variables that goes on at a time with the rows from `upto` on, after its head is written. Its columns have
    /// the cells that the states say; those of variables with a first value are of event signals.
    ///
    /// # Errors
    /// `Bad` exactly where the states aren't those of the columns of these variables at this time, or out of memory.
    #[tactic(auto, using(crate::proofs::Stated::going_laws))]
    pub fn from_columns(
        alloc: Global,
        variables: Vec<Variable>,
        resolution: Resolution,
        kind: TraceKind,
        columns: Vec<ColumnState>,
        time: u64,
        upto: u64,
    ) -> Result<Trace, StateErr>
        requires traced { CanBeTraced variables.items }
        requires from { AreStampedFrom upto columns.items }
        ensures about { IfOk result (λ trace.
            trace.about ≡ about_of kind resolution variables.items) }
        ensures stage { IfOk result (λ trace. trace.stage ≡ Open) }
        ensures upto { IfOk result (λ trace. trace.rows.upto ≡ upto) }
        ensures stands { IfOk result (λ trace.
            Stands (cells_of_states variables.items columns.items) trace.rows) }
        ensures states { IfOk result (λ trace.
            column_states trace.rows ≡ map known_part columns.items) }
        ensures fit { IfOk result (λ trace. AreColumnStates variables.items time columns.items) }
        ensures bad { result ≡ Err why.Bad
            → AreColumnStates variables.items time columns.items → ⊥ }
        ensures bad_always { (AreColumnStates variables.items time columns.items → ⊥)
            → result ≡ Err why.Bad }
    {
        if !are_states(&variables, &columns, time) {
            drop(columns);
            drop(variables);
            return Err(StateErr::Bad);
        }
        let made = columns_in(alloc, &variables, &columns);
        drop(columns);
        match made {
            Ok(columns) => Ok(Trace {
                about: About {
                    kind,
                    resolution,
                    variables,
                },
                stage: Stage::Open,
                rows: Rows {
                    least: next_time(&columns, u64::MAX),
                    announces: false,
                    columns,
                    upto,
                    line: Vec::new(alloc),
                },
            }),
            Err(Memory) => {
                drop(variables);
                Err(StateErr::Memory)
            }
        }
    }

    /// The state of each column: what it shows, and its cells with a value from `upto` on.
    ///
    /// # Errors
    /// Out of memory.
    #[tactic(auto, using(crate::proofs::Stated::states_are))]
    pub fn columns(&self, alloc: Global) -> Result<Vec<ColumnState>, Memory>
        ensures states { IfOk result (λ states. states.items ≡ column_states self.now.rows) }
        ensures cells { IfOk result (λ states. AreStatesOf self.now.rows states.items) }
    {
        states_of(alloc, &self.rows.columns)
    }

    /// Writes the head; the first write call of each line hands the sink the whole line.
    ///
    /// # Errors
    /// `Failed` where a write failed, `Memory` where no memory was found. The sink then took a front part of the head, and the
    /// trace is broken.
    pub fn begin<K: Sink>(&mut self, sink: &mut K) -> Result<(), SinkErr>
        requires new { self.old.stage ≡ New }
        ensures wrote { WritesText K.taken K.faults sink.old sink.new
            (head_of self.old.about) result }
        ensures stage { IsStageAfter result self.new.stage }
        ensures about { self.new.about ≡ self.old.about }
        ensures rows { self.new.rows ≡ self.old.rows }
    {
        match write_head(&mut self.rows.line, &self.about, sink) {
            Ok(()) => {
                self.stage = Stage::Open;
                Ok(())
            }
            Err(error) => {
                self.stage = Stage::Broken;
                Err(error)
            }
        }
    }

    /// Takes a cell. One without a value is announced: its row waits until a later cell of this column and time gives the value.
    ///
    /// # Errors
    /// Out of memory; the trace is then unchanged.
    #[inline(always)]
    pub fn note(&mut self, cell: Cell) -> Result<(), Memory>
        requires column { cell.column < length self.old.about.variables }
        requires time { self.old.rows.upto ≤ cell.time }
        requires value { HasFewPlaces cell.value }
        ensures took { OnOk result (TakesCell cell self.old.rows self.new.rows) }
        ensures upto { self.new.rows.upto ≡ self.old.rows.upto }
        ensures stage { self.new.stage ≡ self.old.stage }
        ensures about { self.new.about ≡ self.old.about }
        ensures err { OnErr result (self.new ≡ self.old) }
    {
        let item = Held {
            time: cell.time,
            value: cell.value,
        };
        put_cell(&mut self.rows.columns, self.rows.upto, cell.column, item)?;
        self.rows.least = self.rows.least.min(cell.time);
        self.rows.announces = self.rows.announces || cell.value.is_none();
        Ok(())
    }

    /// Writes the rows below the watermark, in order, up to the first with an announced cell that isn't given.
    ///
    /// # Errors
    /// `Failed` where a write failed, `Memory` where no memory was found. The sink then took a front part of the rows below the
    /// watermark, and the trace is broken.
    pub fn advance<K: Sink>(&mut self, watermark: u64, sink: &mut K) -> Result<(), SinkErr>
        requires open { self.old.stage ≡ Open }
        ensures wrote { OnOk result
            (WritesRows self.old self.new (K.taken sink.old) (K.taken sink.new)) }
        ensures written { OnOk result (AreWrittenTo self.new.rows watermark) }
        ensures within { OnOk result (self.new.rows.upto ≤ max self.old.rows.upto watermark) }
        ensures part { OnErr result
            (WritesFront self.old watermark (K.taken sink.old) (K.taken sink.new)) }
        ensures counted { CountsSinkFaults (K.faults sink.old) (K.faults sink.new) result }
        ensures stage { IsStageAfter result self.new.stage }
        ensures about { self.new.about ≡ self.old.about }
    {
        match write_below(&self.about, &mut self.rows, watermark, true, sink) {
            Ok(()) => Ok(()),
            Err(error) => {
                self.stage = Stage::Broken;
                Err(error)
            }
        }
    }

    /// Writes the other rows below the end, unknown cells as such, and the tail.
    ///
    /// # Errors
    /// `Failed` where a write failed, `Memory` where no memory was found. The sink then took a front part of this text.
    pub fn finish<K: Sink>(mut self, end: u64, sink: &mut K) -> Result<(), SinkErr>
        requires open { self.stage ≡ Open }
        ensures wrote { WritesRest K.taken K.faults sink.old sink.new self end result }
        ensures counted { CountsSinkFaults (K.faults sink.old) (K.faults sink.new) result }
    {
        match write_below(&self.about, &mut self.rows, end, false, sink) {
            Ok(()) => write_tail(&mut self.rows.line, &self.about, end, sink),
            Err(error) => Err(error),
        }
    }
}
