//! How traces are written.

/// How a run writes its traces.
#[derive(Clone, Copy, Debug, PartialEq, Eq)]
pub enum TraceKind {
    /// A table with a line for each time.
    Table,
    /// A value change dump.
    Vcd,
}
