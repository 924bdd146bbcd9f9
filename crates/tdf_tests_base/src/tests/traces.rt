//! A trace of four variables, as a table and as a value change dump: every call once, with a cell that is announced and then given,
//! two that never are, and one after the end.

ghost use Rattle.std.specs.Prelude.{◌≡◌, ◌≤◌, ◌<◌, IfOk, OnOk, None, length};
ghost use Rattle.tdf_trace.specs.Columns.{HasFewPlaces};
ghost use Rattle.tdf_trace.specs.Writings.{CanBeTraced};
ghost use Rattle.tdf_trace.specs.declared.stage.Stage.TheVariants.{New, Open};

use std::alloc::Global;
use std::test::Fail;
use tdf_base::{Memory, Name, Resolution};
use tdf_fixed::{Format, Over, Quant, Raw};
use tdf_io::{SinkErr, SureSink};
use tdf_trace::{Trace, Variable};
use tdf_trace_rows::{Cell, Stamps, TraceKind};

// A modulator g, its decimator d, a filter f and an event signal lvl, up to 100 us: worked by hand. The last samples of d and f
// were made after the end, so they are unknown.
const TABLE: &str = "%time g d f lvl\n\
0 1 32 8 0\n\
0.0000635 0.5 32 8 0\n\
0.000064 0.5 8 10 8\n\
0.000096 0.5 * * 10\n";

const DUMP: &str = "$timescale 1 ps $end\n\
$scope module top $end\n\
$var wire 8 ! g $end\n\
$var wire 8 \" d $end\n\
$var wire 12 # f $end\n\
$var wire 12 $ lvl $end\n\
$upscope $end\n\
$enddefinitions $end\n\
#0\n\
$dumpvars\n\
b01000000 !\n\
b00100000 \"\n\
b000010000000 #\n\
b000000000000 $\n\
$end\n\
#63500000\n\
b00100000 !\n\
#64000000\n\
b00001000 \"\n\
b000010100000 #\n\
b000010000000 $\n\
#96000000\n\
bx \"\n\
bx #\n\
b000010100000 $\n\
#100000000\n";

fn value(num: i128, frac: u32) -> Option<Raw>
    requires { frac ≤ 6 }
    ensures { HasFewPlaces result }
{
    Some(Raw { num, frac })
}

fn variable(
    alloc: Global,
    label: &[u8],
    wl: u32,
    iwl: u32,
    first: Option<Raw>,
) -> Result<Variable, Memory>
    requires { HasFewPlaces first }
    ensures { IfOk result (λ v. HasFewPlaces v.first) }
{
    let name = Name::copied(alloc, label)?;
    match Format::new(true, wl, iwl, Quant::Trn, Over::Wrap) {
        Some(format) => Ok(Variable {
            label: name,
            format,
            first,
        }),
        None => {
            drop(name);
            Err(Memory)
        }
    }
}

fn variable_at(alloc: Global, column: usize) -> Result<Variable, Memory>
    ensures { IfOk result (λ v. HasFewPlaces v.first) }
{
    match column {
        0 => variable(alloc, b"g", 8, 2, value(64, 6)),
        1 => variable(alloc, b"d", 8, 8, None),
        2 => variable(alloc, b"f", 12, 8, None),
        _ => variable(alloc, b"lvl", 12, 8, value(0, 4)),
    }
}

fn variables(alloc: Global) -> Result<Vec<Variable>, Memory>
    ensures can { IfOk result (λ list. CanBeTraced list.items) }
    ensures four { IfOk result (λ list. length list.items ≡ 4) }
{
    let mut list = Vec::new(alloc);
    for i in 0..4 {
        list.push(variable_at(alloc, i)?)?;
    }
    Ok(list)
}

fn note(trace: &mut Trace, column: u32, time: u64, value: Option<Raw>) -> Result<(), SinkErr>
    requires column { column < length trace.old.about.variables }
    requires time { trace.old.rows.upto ≤ time }
    requires value { HasFewPlaces value }
    ensures upto { trace.new.rows.upto ≡ trace.old.rows.upto }
    ensures stage { trace.new.stage ≡ trace.old.stage }
    ensures about { trace.new.about ≡ trace.old.about }
{
    match trace.note(Cell {
        column,
        time,
        value,
    }) {
        Ok(()) => Ok(()),
        Err(_) => Err(SinkErr::Memory),
    }
}

fn note_first(trace: &mut Trace) -> Result<(), SinkErr>
    requires start { trace.old.rows.upto ≡ 0 }
    requires four { length trace.old.about.variables ≡ 4 }
    ensures upto { trace.new.rows.upto ≡ trace.old.rows.upto }
    ensures stage { trace.new.stage ≡ trace.old.stage }
    ensures about { trace.new.about ≡ trace.old.about }
{
    note(trace, 0, 63_500_000, value(32, 6))?;
    note(trace, 1, 64_000_000, value(8, 0))?;
    note(trace, 1, 0, None)?;
    note(trace, 2, 0, value(128, 4))?;
    note(trace, 1, 0, value(32, 0))
}

fn note_last(trace: &mut Trace) -> Result<(), SinkErr>
    requires upto { trace.old.rows.upto ≤ 64_000_000 }
    requires four { length trace.old.about.variables ≡ 4 }
    ensures stage { trace.new.stage ≡ trace.old.stage }
{
    note(trace, 3, 96_000_000, value(160, 4))?;
    note(trace, 1, 96_000_000, None)?;
    note(trace, 2, 64_000_000, value(160, 4))?;
    note(trace, 2, 96_000_000, None)?;
    note(trace, 3, 64_000_000, value(128, 4))?;
    note(trace, 3, 101_000_000, value(1, 4))
}

fn write_rows(trace: &mut Trace, sink: &mut SureSink) -> Result<(), SinkErr>
    requires open { trace.old.stage ≡ Open }
    requires start { trace.old.rows.upto ≡ 0 }
    requires four { length trace.old.about.variables ≡ 4 }
    ensures { OnOk result (trace.new.stage ≡ Open) }
{
    note_first(trace)?;
    trace.advance(64_000_000, sink)?;
    note_last(trace)?;
    trace.advance(98_000_000, sink)?;
    Ok(())
}

fn write_all(trace: &mut Trace, sink: &mut SureSink) -> Result<(), SinkErr>
    requires new { trace.old.stage ≡ New }
    requires start { trace.old.rows.upto ≡ 0 }
    requires four { length trace.old.about.variables ≡ 4 }
    ensures { OnOk result (trace.new.stage ≡ Open) }
{
    trace.begin(sink)?;
    write_rows(trace, sink)
}

fn trace_of(alloc: Global, kind: TraceKind, resolution: Resolution) -> Result<Trace, Memory>
    ensures new { IfOk result (λ t. t.stage ≡ New) }
    ensures start { IfOk result (λ t. t.rows.upto ≡ 0) }
    ensures four { IfOk result (λ t. length t.about.variables ≡ 4) }
{
    let list = variables(alloc)?;
    Trace::new(alloc, list, resolution, kind)
}

fn text_of(alloc: Global, kind: TraceKind, resolution: Resolution) -> Result<SureSink, SinkErr> {
    let mut sink = SureSink::new(alloc);
    match trace_of(alloc, kind, resolution) {
        Ok(trace) => {
            let mut trace = trace;
            match write_all(&mut trace, &mut sink) {
                Ok(()) => match trace.finish(100_000_000, &mut sink) {
                    Ok(()) => Ok(sink),
                    Err(error) => {
                        drop(sink);
                        Err(error)
                    }
                },
                Err(error) => {
                    drop(trace);
                    drop(sink);
                    Err(error)
                }
            }
        }
        Err(_) => {
            drop(sink);
            Err(SinkErr::Memory)
        }
    }
}

#[test]
fn traces(rt: HostRuntime) -> Result<(), Fail> {
    let table = text_of(rt.alloc(), TraceKind::Table, Resolution::Ps)?;
    assert_eq!(rt; table.bytes(), TABLE.as_bytes());
    let dump = text_of(rt.alloc(), TraceKind::Vcd, Resolution::Ps)?;
    assert_eq!(rt; dump.bytes(), DUMP.as_bytes());
    Ok(())
}

#[test]
fn stamps(rt: HostRuntime) {
    let mut stamps = Stamps::new();
    stamps.begin(10, 5, 2);
    assert_eq!(rt; stamps.next(), 10);
    assert_eq!(rt; stamps.next(), 15);
    stamps.begin(20, 3, 1);
    assert_eq!(rt; stamps.next(), 20);
}
