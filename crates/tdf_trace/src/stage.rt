//! How far a trace is.

/// How far a trace is.
#[derive(Clone, Copy, Debug, PartialEq, Eq)]
pub enum Stage {
    /// Nothing is written.
    New,
    /// The head is written, and some rows may be.
    Open,
    /// A call that writes was refused: the trace takes no further call.
    Broken,
}
