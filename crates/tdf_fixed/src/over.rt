//! The overflow modes.

/// What becomes of a number outside a format's range (the `SC_` modes of IEEE 1666-2011).
#[derive(Clone, Copy, Debug, PartialEq, Eq)]
pub enum Over {
    /// The low `wl` bits are kept (`SC_WRAP` without saturated bits).
    Wrap,
    /// The nearer end of the range (`SC_SAT`).
    Sat,
    /// 0 (`SC_SAT_ZERO`).
    SatZero,
    /// The nearer end of the symmetric range (`SC_SAT_SYM`); the exact signed minimum too becomes its opposite end.
    SatSym,
}
