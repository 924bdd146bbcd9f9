//! What holds of the definitions, whatever the texts: each function here only carries its clauses.

ghost use Rattle.std.specs.Prelude.{◌≡◌, ◌<◌, ◌^◌, ◌↔◌, ℕ, List, true, nat_eq};
ghost use Rattle.std.specs.Cmp.Lexicographic.{pointwise};
ghost use Rattle.tdf_base.specs.Spelling.{ReadsNumerals, ReadsTimes, ReadsTimesAt, ReadsBoth, ReadsCounts};
ghost use Rattle.tdf_base.specs.FirstLaws.{FindsFirst};

/// Names, and numbers as they are written, are equal exactly where their bytes are.
pub fn law_names()
    ensures { (x y : List ℕ) → (pointwise nat_eq x y ≡ true) ↔ (x ≡ y) }
{}

/// Numerals and times are read exactly where they are spelled so; a time of the five units is the same count at a
/// resolution of a picosecond; whole numbers and counts read back from their digits.
pub fn law_spelling()
    ensures numerals { ReadsNumerals }
    ensures times { ReadsTimes }
    ensures times_at { ReadsTimesAt }
    ensures both { ReadsBoth }
    ensures counts { (n : ℕ) → n < 10 ^ 18 → ReadsCounts n }
{}

/// The least of some faults is one of them, and none of them comes before it; there is none only where there is no fault.
pub fn law_first()
    ensures { FindsFirst }
{}
