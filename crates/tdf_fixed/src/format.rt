//! Formats: word lengths and modes.

ghost use Rattle.std.specs.Prelude.{◌≡◌, ◌-◌, ◌≤◌, MatchOption};

use crate::over::Over;
use crate::overflows::{highest, lowest};
use crate::quant::Quant;

/// A fixed-point format: `wl` bits in all, `iwl` of them before the binary point, so the last place is `2^(iwl-wl)`.
#[derive(Clone, Copy, Debug, PartialEq, Eq)]
pub struct Format {
    /// Whether the range is that of two's complement (`fixed`) or begins at 0 (`ufixed`).
    pub signed: bool,
    /// The word length, 1 to 64 bits.
    pub wl: u32,
    /// The integer word length, at most `wl`.
    pub iwl: u32,
    /// How a value between two neighbours is rounded.
    pub quant: Quant,
    /// What becomes of a number outside the range.
    pub over: Over,
    pub ghost some_bits: { 1 ≤ wl },
    pub ghost few_bits: { wl ≤ 64 },
    pub ghost whole_bits: { iwl ≤ wl },
    pub ghost fraction_bits: { wl - iwl ≤ 63 },
}

impl Format {
    ghost use Rattle.tdf_fixed.specs.Cast.{IsLegal};
    ghost use Rattle.tdf_fixed.specs.Overflow.{IsOfWidth};
    ghost use Rattle.std.specs.Prelude.{◌↔◌, IsSome, IfSome, true};

    /// The format of these parts. `None` exactly where not `1 <= wl <= 64`, not `iwl <= wl`, or `wl - iwl > 63`.
    pub fn new(signed: bool, wl: u32, iwl: u32, quant: Quant, over: Over) -> Option<Format>
        ensures legal { IsSome result ↔ IsLegal wl iwl }
        ensures signed { IfSome result (λ f. f.signed ≡ signed) }
        ensures wl { IfSome result (λ f. f.wl ≡ wl) }
        ensures iwl { IfSome result (λ f. f.iwl ≡ iwl) }
        ensures quant { IfSome result (λ f. f.quant ≡ quant) }
        ensures over { IfSome result (λ f. f.over ≡ over) }
    {
        if wl < 1 || wl > 64 || iwl > wl || wl - iwl > 63 {
            return None;
        }
        Some(Format {
            signed,
            wl,
            iwl,
            quant,
            over,
        })
    }

    /// Whether the range is that of two's complement.
    pub fn signed(&self) -> bool
        ensures { result ≡ self.now.signed }
    {
        self.signed
    }

    /// The word length in bits.
    pub fn wl(&self) -> u32
        ensures { result ≡ self.now.wl }
    {
        self.wl
    }

    /// The integer word length in bits.
    pub fn iwl(&self) -> u32
        ensures { result ≡ self.now.iwl }
    {
        self.iwl
    }

    /// The rounding mode.
    pub fn quant(&self) -> Quant
        ensures { result ≡ self.now.quant }
    {
        self.quant
    }

    /// The overflow mode.
    pub fn over(&self) -> Over
        ensures { result ≡ self.now.over }
    {
        self.over
    }

    /// Whether a number, in units of the last place, lies in the range of the format.
    pub fn holds(&self, num: i128) -> bool
        ensures { (result ≡ true) ↔ IsOfWidth self.now.signed self.now.wl num }
    {
        lowest(self.signed, self.wl) <= num && num <= highest(self.signed, self.wl)
    }
}
