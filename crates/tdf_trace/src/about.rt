//! What a trace is of.

use std::marker::Model;
use tdf_base::{Name, Resolution};
use tdf_fixed::{Format, Raw};
use tdf_trace_rows::TraceKind;

/// A variable that is traced: a column of the table, a variable of the dump.
#[derive(Drop)]
pub struct Variable {
    /// The label under which it is written.
    pub label: Name,
    /// The format of its values.
    pub format: Format,
    /// What it shows before its first cell: the value that it begins with, or `None` where that is unknown.
    pub first: Option<Raw>,
}

/// What a trace is of: its kind, the resolution of its times, and its variables by column.
#[derive(Drop)]
pub(crate) struct About {
    pub(crate) kind: TraceKind,
    pub(crate) resolution: Resolution,
    pub(crate) variables: Vec<Variable>,
}

impl Model for About {
    ghost use Rattle.tdf_trace.specs.Writings.{AboutSeen};

    ghost Value = { AboutSeen };

    ghost view = { λ a. record { kind = a.kind; resolution = a.resolution; variables = a.variables.items } };
}
