//! The unit of time of a model.

/// What one count of time stands for: the least step between two times of a model.
#[derive(Clone, Copy, Debug, PartialEq, Eq)]
pub enum Resolution {
    /// A picosecond.
    Ps,
    /// A femtosecond.
    Fs,
}
