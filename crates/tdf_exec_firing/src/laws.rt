//! What holds of the definitions: each function here only carries its clause.

ghost use Rattle.tdf_exec_firing.specs.Firing.{BeginReady};
ghost use Rattle.tdf_exec_firing.specs.Formats.{ModulesKeepFormats, SamplersKeepFormats, SinksKeepFormats};

/// Ports whose samples are all 0, as new ones are, have zeros beyond what they read, at all rates.
pub fn law_begin()
    ensures { BeginReady }
{}

/// Where each sample on each edge is of the edge's format, which both its ports have, each firing
/// leaves it so.
pub fn law_formats()
    ensures modules { ModulesKeepFormats }
    ensures samplers { SamplersKeepFormats }
    ensures sinks { SinksKeepFormats }
{}
