//! What holds of the definitions, whatever the numbers and texts: each function here only carries its clauses.

ghost use Rattle.tdf_fixed.specs.CastLaws.{AreNeighbours, IsMonotone, RoundsToNearest, RoundsDown, IsByValue, CastsExactly, CastKeepsValue, IsIdempotent, IsNearest, IsWrap, IsOnlyWrap};
ghost use Rattle.tdf_fixed.specs.DecimalLaws.{IsValueText, IsTimeText};
ghost use Rattle.tdf_fixed.specs.Spelling.{ReadsLiterals, ReadsExactly, ReadsBack};

/// The neighbour below a fraction and the distance from it are its quotient and rest; rounding keeps the order; the five modes
/// to nearest stay within half a last place, and `trn` gives a number less than one last place below.
pub fn law_rounding()
    ensures neighbours { AreNeighbours }
    ensures monotone { IsMonotone }
    ensures nearest { RoundsToNearest }
    ensures down { RoundsDown }
{}

/// `sat` gives the nearest number of the range; `wrap` gives one that differs by a multiple of `2^wl`, and the only one.
pub fn law_overflow()
    ensures nearest { IsNearest }
    ensures wrap { IsWrap }
    ensures only_wrap { IsOnlyWrap }
{}

/// A cast goes by the value alone, however it is written; it leaves the format's own values alone, all but the exact signed
/// minimum under `sat_sym`, and a second cast changes nothing.
pub fn law_casts()
    ensures by_value { IsByValue }
    ensures kept { CastKeepsValue }
    ensures idempotent { IsIdempotent }
{}

/// The text of a value or of a time below 2^128 counts has the form and the value of a decimal, and is the only text that has; the text of a value
/// reads back as that value.
pub fn law_texts()
    ensures values { IsValueText }
    ensures times { IsTimeText }
    ensures reads_back { ReadsBack }
{}

/// Literals are read exactly where they are spelled so; an exact value has the least count of fraction bits, and a literal is
/// inexact only where no count makes it whole; a literal that is exact casts as that value.
pub fn law_readers()
    ensures literals { ReadsLiterals }
    ensures exactly { ReadsExactly }
    ensures casts { CastsExactly }
{}
