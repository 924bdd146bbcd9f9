//! The bodies of a block.

/// A body of a block: one of the four of a `tdf` block, or a process of a `de` block by its number, counted from 0.
#[derive(Clone, Copy, Debug, PartialEq, Eq)]
pub enum Body {
    Initialize,
    Processing,
    Change,
    Reinitialize,
    Process(u32),
}
