//! The body of a process runs.

ghost use Rattle.std.specs.Prelude.{◌≡◌, ◌+◌, ◌<◌, ℕ, Some, length, slice_get, slice_set};
ghost use Rattle.tdf_events.specs.Processes.{process_ports_before};
ghost use Rattle.tdf_events.specs.Side.{value_at};
ghost use Rattle.tdf_events.specs.machine.Reading.{AreRead, CanRead, HasRun, read_from, with_samples};
ghost use Rattle.tdf_expr.specs.Frames.{ArePortsFit, IsOfFormat};
ghost use Rattle.tdf_expr.specs.Made.{AreMadeFor};
ghost use Rattle.tdf_expr.specs.declared.spans.PortSpan.{PortSpan as PortSpanOf};

use crate::ported::ProcessPorts;
use tdf_bind_connections::BlockRow;
use tdf_expr::{Body, Checked, Frame, Ports, run_body};
use tdf_fixed::Raw;

/// A port takes the value of its signal.
fn read_one(values: &[Raw], signal: u32, ports: &mut Ports, port: u32)
    requires inside { signal < length values.now }
    requires port { port < length ports.old.spans }
    requires one { (p : PortSpanOf) → slice_get ports.old.spans port ≡ Some p → p.count ≡ 1 }
    requires format { (p : PortSpanOf) → slice_get ports.old.spans port ≡ Some p
        → IsOfFormat p.format (value_at values.now signal) }
    ensures { (p : PortSpanOf) → slice_get ports.old.spans port ≡ Some p
        → ports.new ≡ with_samples (slice_set ports.old.state.samples (p.first + 0)
        (value_at values.now signal).num) ports.old }
{
    ports.set(port, 0, values[signal as usize]);
}

/// The ports that processes read take the values of their signals.
fn read_signals(values: &[Raw], signals: &[u32], reads: &[u32], ports: &mut Ports)
    requires can { CanRead values.now ports.old.spans signals.now }
    requires long { length ports.old.state.samples ≡ length ports.old.spans }
    requires inside { (j k : ℕ) → slice_get reads.now j ≡ Some k → k < length ports.old.spans }
    ensures { AreRead values.now signals.now reads.now (length reads.now) ports.old ports.new }
{
    for i in 0..reads.len() {
        let port = reads[i];
        read_one(values, signals[port as usize], ports, port);
    }
}

/// The ports before a process runs: those that processes write hold 0, and none is gone through beside those that are read.
fn prepare(values: &[Raw], signals: &[u32], reads: &[u32], ports: &mut Ports)
    requires can { CanRead values.now ports.old.spans signals.now }
    requires reads { reads.now ≡ read_from 0 ports.old.spans }
    ensures spans { ports.new.spans ≡ ports.old.spans }
    ensures state { ports.new.state ≡ process_ports_before values.now signals.now ports.old.spans
        (length ports.old.state.notified) }
{
    ports.law_fit();
    ports.reset();
    ports.law_fit();
    read_signals(values, signals, reads, ports);
}

/// A process of an instance runs from the values of the signals that its ports reach.
pub(crate) fn act(
    checked: &Checked,
    block: &BlockRow,
    number: u32,
    values: &[Raw],
    frame: &mut Frame,
    ports: &mut ProcessPorts,
)
    requires made { AreMadeFor checked.now block.now.block frame.old ports.old }
    requires can { CanRead values.now ports.old.spans block.now.signals }
    ensures made { AreMadeFor checked.now block.now.block frame.new ports.new }
    ensures run { HasRun checked.now block.now.block number values.now block.now.signals
        frame.old.state frame.new.state ports.new.state }
    ensures fit { ArePortsFit ports.new }
{
    prepare(values, &block.signals, &ports.reads, &mut ports.ports);
    run_body(
        checked,
        block.block,
        Body::Process(number),
        frame,
        &mut ports.ports,
    );
    ports.ports.law_fit();
}
