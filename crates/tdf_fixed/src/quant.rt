//! The rounding modes.

/// How a value between two neighbours of the last place is rounded (the `SC_` modes of IEEE 1666-2011).
#[derive(Clone, Copy, Debug, PartialEq, Eq)]
pub enum Quant {
    /// Down (`SC_TRN`).
    Trn,
    /// To zero (`SC_TRN_ZERO`).
    TrnZero,
    /// To nearest, a tie up (`SC_RND`).
    Rnd,
    /// To nearest, a tie to zero (`SC_RND_ZERO`).
    RndZero,
    /// To nearest, a tie down (`SC_RND_MIN_INF`).
    RndMinInf,
    /// To nearest, a tie away from zero (`SC_RND_INF`).
    RndInf,
    /// To nearest, a tie to the even last place (`SC_RND_CONV`).
    RndConv,
}
