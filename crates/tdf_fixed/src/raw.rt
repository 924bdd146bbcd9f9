//! A value by its whole count of last places.

/// The number `num / 2^frac`: a fixed-point value by its whole count of last places.
#[derive(Clone, Copy, Debug, PartialEq, Eq)]
pub struct Raw {
    /// The value in units of the last place.
    pub num: i128,
    /// How many bits are after the binary point.
    pub frac: u32,
}
