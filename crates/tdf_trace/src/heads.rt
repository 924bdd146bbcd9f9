//! Writing what is before the rows and after them.
ghost use Rattle.std.specs.Prelude.{◌≡◌, ◌<◌, ◌≤◌, ◌++◌, length};
ghost use Rattle.tdf_base.specs.Limits.{most_traces};
ghost use Rattle.tdf_io.specs.Bytes.{WritesText};
ghost use Rattle.tdf_trace.specs.Tables.{table_head};
ghost use Rattle.tdf_trace.specs.Vcd.{declaration_piece, declarations, definitions_end, scope_begin, scope_end, timescale, vcd_head, vcd_tail};
ghost use Rattle.tdf_trace.specs.Writings.{labels_of, sizes_of, writing_of};

use crate::about::{About, Variable};
use crate::{tables, vcd};
use tdf_base::{Memory, Resolution};
use tdf_io::{Sink, SinkErr, put_all};
use tdf_trace_rows::TraceKind;

/// Writes the head of a table.
fn write_labels<K: Sink>(
    line: &mut Vec<u8>,
    variables: &Vec<Variable>,
    sink: &mut K,
) -> Result<(), SinkErr>
    ensures { WritesText K.taken K.faults sink.old sink.new (table_head (labels_of variables.now.items)) result }
{
    line.clear();
    match tables::push_head(line, variables) {
        Ok(()) => put_all(sink, line),
        Err(Memory) => Err(SinkErr::Memory),
    }
}

/// Writes what a count of time stands for.
fn write_timescale<K: Sink>(
    line: &mut Vec<u8>,
    resolution: Resolution,
    sink: &mut K,
) -> Result<(), SinkErr>
    ensures { WritesText K.taken K.faults sink.old sink.new (timescale resolution) result }
{
    line.clear();
    match vcd::push_timescale(line, resolution) {
        Ok(()) => put_all(sink, line),
        Err(Memory) => Err(SinkErr::Memory),
    }
}

/// Writes the declaration of a variable.
fn write_declaration<K: Sink>(
    line: &mut Vec<u8>,
    variables: &Vec<Variable>,
    column: usize,
    sink: &mut K,
) -> Result<(), SinkErr>
    requires column { column < length variables.now.items }
    requires few { length variables.now.items ≤ most_traces }
    ensures { WritesText K.taken K.faults sink.old sink.new (declaration_piece (sizes_of variables.now.items) (labels_of variables.now.items) column) result }
{
    line.clear();
    match vcd::push_declaration(line, variables, column) {
        Ok(()) => put_all(sink, line),
        Err(Memory) => Err(SinkErr::Memory),
    }
}

/// Writes the declarations of all variables.
fn write_declarations<K: Sink>(
    line: &mut Vec<u8>,
    variables: &Vec<Variable>,
    sink: &mut K,
) -> Result<(), SinkErr>
    requires few { length variables.now.items ≤ most_traces }
    ensures { WritesText K.taken K.faults sink.old sink.new (declarations (sizes_of variables.now.items) (labels_of variables.now.items)) result }
{
    for i in 0..variables.len() {
        match write_declaration(line, variables, i, sink) {
            Ok(()) => {}
            Err(error) => return Err(error),
        }
    }
    Ok(())
}

/// Writes the line that begins the scope.
#[tactic(auto, unfolding(crate::specs::Vcd::scope_begin))]
fn write_scope_begin<K: Sink>(sink: &mut K) -> Result<(), SinkErr>
    ensures { WritesText K.taken K.faults sink.old sink.new scope_begin result }
{
    put_all(sink, b"$scope module top $end\n")
}

/// Writes the line that ends the scope.
#[tactic(auto, unfolding(crate::specs::Vcd::scope_end))]
fn write_scope_end<K: Sink>(sink: &mut K) -> Result<(), SinkErr>
    ensures { WritesText K.taken K.faults sink.old sink.new scope_end result }
{
    put_all(sink, b"$upscope $end\n")
}

/// Writes the line that ends the definitions.
#[tactic(auto, unfolding(crate::specs::Vcd::definitions_end))]
fn write_definitions_end<K: Sink>(sink: &mut K) -> Result<(), SinkErr>
    ensures { WritesText K.taken K.faults sink.old sink.new definitions_end result }
{
    put_all(sink, b"$enddefinitions $end\n")
}

/// Writes what is before the declarations.
fn write_opening<K: Sink>(
    line: &mut Vec<u8>,
    resolution: Resolution,
    sink: &mut K,
) -> Result<(), SinkErr>
    ensures { WritesText K.taken K.faults sink.old sink.new (timescale resolution ++ scope_begin) result }
{
    match write_timescale(line, resolution, sink) {
        Ok(()) => write_scope_begin(sink),
        Err(error) => Err(error),
    }
}

/// Writes the head of a value change dump up to the declarations.
fn write_declared<K: Sink>(
    line: &mut Vec<u8>,
    resolution: Resolution,
    variables: &Vec<Variable>,
    sink: &mut K,
) -> Result<(), SinkErr>
    requires few { length variables.now.items ≤ most_traces }
    ensures { WritesText K.taken K.faults sink.old sink.new
        (timescale resolution ++ scope_begin ++ declarations (sizes_of variables.now.items) (labels_of variables.now.items)) result }
{
    match write_opening(line, resolution, sink) {
        Ok(()) => write_declarations(line, variables, sink),
        Err(error) => Err(error),
    }
}

/// Writes the head of a value change dump up to the end of its scope.
fn write_scope<K: Sink>(
    line: &mut Vec<u8>,
    resolution: Resolution,
    variables: &Vec<Variable>,
    sink: &mut K,
) -> Result<(), SinkErr>
    requires few { length variables.now.items ≤ most_traces }
    ensures { WritesText K.taken K.faults sink.old sink.new
        (timescale resolution ++ scope_begin ++ declarations (sizes_of variables.now.items) (labels_of variables.now.items) ++ scope_end) result }
{
    match write_declared(line, resolution, variables, sink) {
        Ok(()) => write_scope_end(sink),
        Err(error) => Err(error),
    }
}

/// Writes the head of a value change dump.
fn write_vcd_head<K: Sink>(
    line: &mut Vec<u8>,
    resolution: Resolution,
    variables: &Vec<Variable>,
    sink: &mut K,
) -> Result<(), SinkErr>
    requires few { length variables.now.items ≤ most_traces }
    ensures { WritesText K.taken K.faults sink.old sink.new (vcd_head resolution (sizes_of variables.now.items) (labels_of variables.now.items)) result }
{
    match write_scope(line, resolution, variables, sink) {
        Ok(()) => write_definitions_end(sink),
        Err(error) => Err(error),
    }
}

/// Writes the head of a trace, each line as one piece.
pub(crate) fn write_head<K: Sink>(
    line: &mut Vec<u8>,
    about: &About,
    sink: &mut K,
) -> Result<(), SinkErr>
    requires few { length about.now.variables ≤ most_traces }
    ensures { WritesText K.taken K.faults sink.old sink.new (writing_of about.now).head result }
{
    match about.kind {
        TraceKind::Table => write_labels(line, &about.variables, sink),
        TraceKind::Vcd => write_vcd_head(line, about.resolution, &about.variables, sink),
    }
}

/// Writes the tail of a value change dump.
fn write_vcd_tail<K: Sink>(line: &mut Vec<u8>, end: u64, sink: &mut K) -> Result<(), SinkErr>
    ensures { WritesText K.taken K.faults sink.old sink.new (vcd_tail end) result }
{
    line.clear();
    match vcd::push_tail(line, end) {
        Ok(()) => put_all(sink, line),
        Err(Memory) => Err(SinkErr::Memory),
    }
}

/// Writes the tail of a trace.
pub(crate) fn write_tail<K: Sink>(
    line: &mut Vec<u8>,
    about: &About,
    end: u64,
    sink: &mut K,
) -> Result<(), SinkErr>
    ensures { WritesText K.taken K.faults sink.old sink.new ((writing_of about.now).tail end) result }
{
    match about.kind {
        TraceKind::Table => Ok(()),
        TraceKind::Vcd => write_vcd_tail(line, end, sink),
    }
}
