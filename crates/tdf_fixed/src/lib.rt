//! Fixed-point numbers and their texts, bit-true after IEEE 1666-2011.
//!
//! - `quant`, `over`, `format`, `raw`: rounding modes, overflow modes, formats, and values by their counts of last places.
//! - `casts`: the cast. `short` has it for 64-bit values; `rounding`, `overflows` and `bits` have it in 128 bits.
//! - `literals`, `placing`: decimal numbers, read into a format or exactly.
//! - `decimals`, `digits`: the texts of values, times and bits.
//! - `laws`: what holds of the definitions.
//!
//! The readers of times, and the unit of time of a model, are passed on from `tdf_base`.
#![tactic(auto)]

mod bits;
mod casts;
mod decimals;
mod digits;
mod format;
mod laws;
mod literals;
mod over;
mod overflows;
mod placing;
mod quant;
mod raw;
mod rounding;
mod short;

pub use casts::{cast, cast_trn_wrap};
pub use decimals::{push_decimal, push_femtoseconds, push_seconds, push_seconds_at};
pub use digits::push_bits;
pub use format::Format;
pub use laws::{law_casts, law_overflow, law_readers, law_rounding, law_texts};
pub use literals::{DecimalErr, NumErr, read_decimal, read_exact};
pub use over::Over;
pub use quant::Quant;
pub use raw::Raw;
pub use tdf_base::{Digits, Name, Resolution, TimeErr, Version, read_time, read_time_at};
