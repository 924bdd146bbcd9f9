//! What holds of all flat models: each function here only carries its clauses.

ghost use Rattle.tdf_exec_layout.specs.Edges.{EdgesAreRows, PortsGiveOnce, SamplersReadNone, SinksAreRead, SinksWriteNone, WiresAreWired};
ghost use Rattle.tdf_exec_layout.specs.Rates.{PortsSetRates, RatesAreWithin, SamplersPutOne, SinksTakeOne};
ghost use Rattle.tdf_exec_layout.specs.Samples.{EdgesHaveFormats};
ghost use Rattle.tdf_exec_layout.specs.Traced.{SignalsHaveOnePort};

use tdf_bind_invariants::{law_formats, law_limits};

/// Each edge goes from an `out` port to an `in` port of its signal, from a sampler, or to a sink; a port
/// gives one edge at most; each sink reads one, and writes none; no sampler reads one.
pub fn law_edges()
    ensures rows { EdgesAreRows }
    ensures once { PortsGiveOnce }
    ensures sinks { SinksAreRead }
    ensures samplers_read { SamplersReadNone }
    ensures sinks_write { SinksWriteNone }
{}

/// As many samples go through an edge in one firing as the rates of its ports say, one of a sampler
/// and of a sink.
pub fn law_rates()
    ensures ports { PortsSetRates }
    ensures samplers { SamplersPutOne }
    ensures sinks { SinksTakeOne }
{}

/// They are no more than the ports have places for.
pub fn law_rates_within()
    ensures { RatesAreWithin }
{
    law_formats();
    law_limits();
}

/// The wires of a module are those of its block: each has a port of the block, and of the ports that
/// bodies read each has one edge at most.
pub fn law_wired()
    ensures { WiresAreWired }
{
    law_formats();
}

/// Both ports of an edge and its signal are of one format, and so are the samples that the edge holds
/// at first.
pub fn law_edge_formats()
    ensures { EdgesHaveFormats }
{
    law_formats();
}

/// A signal of samples has one `out` port, so no signal is traced at two ports.
pub fn law_one_port()
    ensures { SignalsHaveOnePort }
{
    law_formats();
}
