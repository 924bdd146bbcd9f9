//! Whether the samples of a state are those that its edges hold at a place of a plan.

ghost use Rattle.std.specs.Prelude.{◌≡◌, ◌+◌, ◌*◌, ◌<◌, ◌^◌, ◌↔◌, Some, slice_get, true};
ghost use Rattle.tdf_exec_layout.specs.Below.{format_of_row, signal_format};
ghost use Rattle.tdf_exec_layout.specs.Samples.{format_of_port};
ghost use Rattle.tdf_exec_parts.specs.States.{AreInFormat};

use tdf_bind_connections::SignalRow;
use tdf_bind_tables::FlatTables;
use tdf_fixed::Format;
use tdf_lang_tree::PortKind;

/// How many samples so many firings take or give.
fn samples_of(firings: u64, rate: u32) -> u128
    ensures value { result ≡ firings * rate }
    ensures small { result < 2 ^ 96 }
{
    (firings as u128) * (rate as u128)
}

/// Whether so many samples are what is left of those at the head and those that were written, once some were read.
pub(crate) fn is_left(
    count: usize,
    head: u32,
    read: u64,
    read_rate: u32,
    written: u64,
    write_rate: u32,
) -> bool
    ensures { (result ≡ true) ↔ (count + read * read_rate ≡ head + written * write_rate) }
{
    (count as u128) + samples_of(read, read_rate)
        == (head as u128) + samples_of(written, write_rate)
}

/// The format of the signal of this number.
fn format_at(signals: &[SignalRow], number: u32) -> Option<Format>
    ensures { result ≡ format_of_row (slice_get signals.now number) }
{
    let place = number as usize;
    if place < signals.len() {
        return Some(signals[place].format);
    }
    None
}

/// The format of the signal of a port.
fn signal_format(tables: &FlatTables, kind: PortKind, signal: u32) -> Option<Format>
    ensures { result ≡ signal_format tables.now kind signal }
{
    match kind {
        PortKind::In => format_at(&tables.signals, signal),
        PortKind::Out => format_at(&tables.signals, signal),
        PortKind::DeIn => format_at(&tables.de_signals, signal),
        PortKind::DeOut => format_at(&tables.de_signals, signal),
    }
}

/// The format of the port of this number.
pub(crate) fn port_format(tables: &FlatTables, port: u32) -> Option<Format>
    ensures { result ≡ format_of_port tables.now (slice_get tables.now.ports port) }
{
    let place = port as usize;
    if place < tables.ports.len() {
        return signal_format(tables, tables.ports[place].kind, tables.ports[place].signal);
    }
    None
}

/// Whether each number is in the range of a format.
fn are_of(format: Format, nums: &[i128]) -> bool
    ensures { (result ≡ true) ↔ AreInFormat (Some format) nums.now }
{
    for i in 0..nums.len() {
        if !format.holds(nums[i]) {
            return false;
        }
    }
    true
}

/// Whether each number is in the range of a format, where there is one.
pub(crate) fn are_in_format(format: Option<Format>, nums: &[i128]) -> bool
    ensures { (result ≡ true) ↔ AreInFormat format nums.now }
{
    match format {
        None => true,
        Some(format) => are_of(format, nums),
    }
}
