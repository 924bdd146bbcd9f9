//! Casts of 64-bit numbers that no more than a cut of the last bits brings into the format: the common ones, by a shift.

ghost use Rattle.std.specs.Int.{w64};
ghost use Rattle.std.specs.Prelude.{FitsSigned, ◌≡◌, ◌≢◌, ◌≤◌, ◌+◌, ◌-◌, ◌*◌, ◌^◌, ◌*ℤ◌, ◌<◌, pos, unsigned_abs, IsTrue, IfSome, IsSome, Bool, true, ℕ, ℤ};
ghost use Rattle.tdf_fixed.specs.Cast.{cast_of, fraction_of};
ghost use Rattle.tdf_fixed.specs.CastLaws.{least_kept};
ghost use Rattle.tdf_fixed.specs.Overflow.{IsOfWidth, least};
ghost use Rattle.tdf_fixed.specs.Quantise.{below};
ghost use Rattle.tdf_expr_cuts.specs.Cuts.{IsCutOf};
ghost use Rattle.tdf_fixed.specs.declared.over.Over.TheVariants.{SatSym};
ghost use Rattle.tdf_fixed.specs.declared.quant.Quant.TheVariants.{Trn};

use tdf_fixed::{Format, Over, Quant};

/// A number in 64 bits, where it fits.
#[inline(always)]
pub fn short_of(num: i128) -> Option<i64>
    ensures value { IfSome result (λ n. n ≡ num) }
    ensures found { FitsSigned w64 num → IsSome result }
{
    match i64::try_from(num) {
        Ok(short) => Some(short),
        Err(_) => None,
    }
}

/// `num / 2^s`, rounded down.
#[inline(always)]
fn floor(num: i64, s: u32) -> i64
    requires { s ≤ 63 }
    ensures { result ≡ below num (2 ^ s) }
{
    num >> s
}

/// A power of two.
#[inline(always)]
#[tactic(auto, using(crate::proofs::Powers::small_power))]
fn power(bits: u32) -> i64
    requires { bits ≤ 62 }
    ensures value { result ≡ pos (2 ^ bits) }
    ensures small { unsigned_abs result ≤ 2 ^ 62 }
{
    1 << bits
}

/// The number times a power of two.
#[inline(always)]
pub fn multiple(num: i64, bits: u32) -> i64
    requires few { bits ≤ 61 }
    requires small { unsigned_abs num * 2 ^ bits ≤ 2 ^ 61 }
    ensures { result ≡ num *ℤ pos (2 ^ bits) }
{
    num * power(bits)
}

/// Whether a number is seen to be at most `2^places`, without its sign.
#[inline(always)]
#[tactic(auto, using(crate::proofs::Keeping::size_laws))]
fn is_small(num: i64, places: u32) -> bool
    requires { places ≤ 61 }
    ensures small { IsTrue result → unsigned_abs num ≤ 2 ^ places }
    ensures seen { unsigned_abs num < 2 ^ places → IsTrue result }
{
    let high = floor(num, places);
    high == 0 || high == -1
}

/// The number moved up by so many bits, where that is small.
#[inline(always)]
#[tactic(auto, using(crate::proofs::Keeping::raised_small))]
pub fn raised(num: i64, bits: u32) -> Option<i64>
    ensures value { IfSome result (λ n. n ≡ num *ℤ pos (2 ^ bits)) }
    ensures found { bits ≤ 61 → unsigned_abs num < 2 ^ (61 - bits) → IsSome result }
{
    if bits == 0 {
        return Some(num);
    }
    if bits > 61 || !is_small(num, 61 - bits) {
        return None;
    }
    Some(multiple(num, bits))
}

/// Whether a number is seen to lie in the signed range of so many bits.
#[inline(always)]
#[tactic(auto, using(crate::proofs::Keeping::range_laws))]
fn is_within_signed(num: i64, wl: u32) -> bool
    requires { (1 ≤ wl) × (wl ≤ 64) }
    ensures range { IsTrue result → IsOfWidth true wl num }
    ensures seen { IsOfWidth true wl num → IsTrue result }
{
    let high = floor(num, wl - 1);
    high == 0 || high == -1
}

/// Whether a number is seen to lie in the range of so many bits.
#[inline(always)]
#[tactic(auto, using(crate::proofs::Keeping::range_laws))]
fn is_within(num: i64, signed: bool, wl: u32) -> bool
    requires { (1 ≤ wl) × (wl ≤ 62) }
    ensures range { IsTrue result → IsOfWidth signed wl num }
    ensures seen { IsOfWidth signed wl num → IsTrue result }
{
    if signed {
        is_within_signed(num, wl)
    } else {
        floor(num, wl) == 0
    }
}

/// Whether an overflow mode leaves each number of the range alone.
#[inline(always)]
fn is_plain(over: Over) -> bool
    ensures kept { IsTrue result → (signed : Bool) (wl : ℕ) → least_kept over signed wl ≡ least signed wl }
    ensures seen { over ≢ SatSym → IsTrue result }
{
    match over {
        Over::SatSym => false,
        Over::Wrap => true,
        Over::Sat => true,
        Over::SatZero => true,
    }
}

/// Whether a mode cuts the last bits off.
#[inline(always)]
fn is_trn(quant: Quant) -> bool
    ensures is { IsTrue result → quant ≡ Trn }
    ensures seen { quant ≡ Trn → IsTrue result }
{
    match quant {
        Quant::Trn => true,
        _ => false,
    }
}

/// A number of the range, else none.
#[inline(always)]
fn within(num: i64, format: &Format) -> Option<i64>
    requires { format.now.wl ≤ 62 }
    ensures same { IfSome result (λ n. n ≡ num) }
    ensures range { IfSome result (λ n. IsOfWidth format.now.signed format.now.wl n) }
    ensures found { IsOfWidth format.now.signed format.now.wl num → IsSome result }
{
    if is_within(num, format.signed, format.wl) {
        Some(num)
    } else {
        None
    }
}

/// The cast of a number to a format with more bits after the point or as many.
#[inline(always)]
#[tactic(auto, using(crate::proofs::Keeping::raised_is))]
fn widened(num: i64, frac: u32, format: &Format) -> Option<i64>
    requires few { format.now.wl ≤ 62 }
    requires plain { (signed : Bool) (wl : ℕ) → least_kept format.now.over signed wl ≡ least signed wl }
    requires places { frac ≤ fraction_of format.now }
    ensures value { IfSome result (λ n. n ≡ cast_of format.now num frac) }
    ensures raised { fraction_of format.now - frac ≤ 61 → unsigned_abs num < 2 ^ (61 - (fraction_of format.now - frac))
        → IsOfWidth format.now.signed format.now.wl (num *ℤ pos (2 ^ (fraction_of format.now - frac))) → IsSome result }
{
    within(raised(num, format.wl - format.iwl - frac)?, format)
}

/// The cast of a number to a format with fewer bits after the point, by `trn`.
#[inline(always)]
#[tactic(auto, using(crate::proofs::Keeping::cut_is))]
fn narrowed(num: i64, frac: u32, format: &Format) -> Option<i64>
    requires few { (format.now.wl ≤ 62) × (frac - fraction_of format.now ≤ 62) }
    requires plain { (signed : Bool) (wl : ℕ) → least_kept format.now.over signed wl ≡ least signed wl }
    requires places { fraction_of format.now ≤ frac }
    requires trn { format.now.quant ≡ Trn }
    ensures value { IfSome result (λ n. n ≡ cast_of format.now num frac) }
    ensures cut { IsOfWidth format.now.signed format.now.wl (below num (2 ^ (frac - fraction_of format.now))) → IsSome result }
{
    within(floor(num, frac - (format.wl - format.iwl)), format)
}

/// A cast that cuts bits off, to a range of so many bits.
#[derive(Clone, Copy)]
pub struct Cut {
    /// How many bits it cuts off.
    pub shift: u32,
    pub signed: bool,
    /// The bits of the range.
    pub wl: u32,
}

/// The cut that a cast is for numbers that lie in the range then.
#[tactic(auto, using(crate::proofs::Keeping::cut_laws))]
pub fn cut_of(frac: u32, format: &Format) -> Option<Cut>
    ensures cut { IfSome result (λ c. IsCutOf c format.now frac) }
    ensures found { format.now.over ≢ SatSym → format.now.wl ≤ 62 → fraction_of format.now ≤ frac
        → frac - fraction_of format.now ≤ 62 → format.now.quant ≡ Trn → IsSome result }
{
    let to = format.wl - format.iwl;
    if format.wl > 62 || !is_plain(format.over) || frac < to || frac - to > 62 {
        return None;
    }
    if frac != to && !is_trn(format.quant) {
        return None;
    }
    Some(Cut {
        shift: frac - to,
        signed: format.signed,
        wl: format.wl,
    })
}

/// A number without its last bits, where that lies in the range.
#[inline(always)]
pub fn cut_by(num: i64, by: &Cut) -> Option<i64>
    requires { (by.now.shift ≤ 62) × (1 ≤ by.now.wl) × (by.now.wl ≤ 62) }
    ensures same { IfSome result (λ n. n ≡ below num (2 ^ by.now.shift)) }
    ensures range { IfSome result (λ n. IsOfWidth by.now.signed by.now.wl n) }
    ensures found { IsOfWidth by.now.signed by.now.wl (below num (2 ^ by.now.shift))
        → IsSome result }
{
    let whole = floor(num, by.shift);
    if is_within(whole, by.signed, by.wl) {
        Some(whole)
    } else {
        None
    }
}

/// The same cut, where it goes to a signed range whose numbers, moved up by so many bits, have no more than 62.
#[inline(always)]
pub fn roomy_cut(cut: Cut, bits: u32) -> Option<Cut>
    ensures same { IfSome result (λ c. c ≡ cut) }
    ensures signed { IfSome result (λ c. c.signed ≡ true) }
    ensures few { IfSome result (λ c. bits + c.wl ≤ 62) }
    ensures found { cut.signed ≡ true → bits + cut.wl ≤ 62 → IsSome result }
{
    if !cut.signed || cut.wl > 62 || bits > 62 - cut.wl {
        return None;
    }
    Some(Cut {
        shift: cut.shift,
        signed: true,
        wl: cut.wl,
    })
}

/// Whether a cast keeps each number of the signed range of so many bits beside the sign.
#[tactic(auto, using(crate::proofs::Keeping::keeps_laws))]
pub fn keeps_all(bits: u32, frac: u32, format: &Format) -> bool
    ensures keeps { result ≡ true → (num : ℤ) → IsOfWidth true (bits + 1) num
        → cast_of format.now num frac ≡ num }
    ensures found { format.now.over ≢ SatSym → format.now.signed ≡ true
        → frac ≡ fraction_of format.now → bits < format.now.wl → result ≡ true }
{
    if !is_plain(format.over) || !format.signed || frac != format.wl - format.iwl {
        return false;
    }
    bits < format.wl
}

/// The number, where it lies in the range that a cut goes to.
#[inline(always)]
#[tactic(auto, using(crate::proofs::Keeping::width_fits))]
pub fn held_by(num: i128, by: &Cut) -> Option<i64>
    requires { (1 ≤ by.now.wl) × (by.now.wl ≤ 62) }
    ensures same { IfSome result (λ n. n ≡ num) }
    ensures range { IfSome result (λ n. IsOfWidth by.now.signed by.now.wl n) }
    ensures found { IsOfWidth by.now.signed by.now.wl num → IsSome result }
{
    let short = short_of(num)?;
    if is_within(short, by.signed, by.wl) {
        Some(short)
    } else {
        None
    }
}

/// A number of the signed range that a cut goes to, moved up by so many bits.
#[inline(always)]
#[tactic(auto, using(crate::proofs::Keeping::range_raised))]
pub fn multiple_in(num: i64, bits: u32, by: &Cut) -> i64
    requires few { (1 ≤ by.now.wl) × (bits + by.now.wl ≤ 62) }
    requires range { IsOfWidth true by.now.wl num }
    ensures value { result ≡ num *ℤ pos (2 ^ bits) }
    ensures small { unsigned_abs result ≤ 2 ^ 61 }
{
    multiple(num, bits)
}

/// The number itself, where it lies in the range of a signed format with as many bits after the point.
#[inline(always)]
#[tactic(auto, using(crate::proofs::Keeping::kept_is))]
fn kept_signed(num: i64, frac: u32, format: &Format) -> Option<i64>
    requires { (signed : Bool) (wl : ℕ) → least_kept format.now.over signed wl ≡ least signed wl }
    ensures value { IfSome result (λ n. n ≡ cast_of format.now num frac) }
    ensures kept { format.now.signed ≡ true → frac ≡ fraction_of format.now → IsOfWidth true format.now.wl num → IsSome result }
{
    if format.signed && frac == format.wl - format.iwl && is_within_signed(num, format.wl) {
        Some(num)
    } else {
        None
    }
}

/// The cast of a number where it is no more than a cut or a rise, and the number lies in the range then.
#[inline(always)]
fn moved_cast(num: i64, frac: u32, format: &Format) -> Option<i64>
    requires { (signed : Bool) (wl : ℕ) → least_kept format.now.over signed wl ≡ least signed wl }
    ensures value { IfSome result (λ n. n ≡ cast_of format.now num frac) }
    ensures raised { format.now.wl ≤ 62 → frac ≤ fraction_of format.now → fraction_of format.now - frac ≤ 61 → unsigned_abs num < 2 ^ (61 - (fraction_of format.now - frac))
        → IsOfWidth format.now.signed format.now.wl (num *ℤ pos (2 ^ (fraction_of format.now - frac))) → IsSome result }
    ensures cut { format.now.wl ≤ 62 → fraction_of format.now < frac → frac - fraction_of format.now ≤ 62 → format.now.quant ≡ Trn
        → IsOfWidth format.now.signed format.now.wl (below num (2 ^ (frac - fraction_of format.now))) → IsSome result }
{
    let to = format.wl - format.iwl;
    if format.wl > 62 {
        return None;
    }
    if frac <= to {
        return widened(num, frac, format);
    }
    if frac - to > 62 || !is_trn(format.quant) {
        return None;
    }
    narrowed(num, frac, format)
}

/// The cast of a number where that is no more than a cut or a rise, and the number lies in the range then: first the most
/// common case, in which the number stays.
#[inline(always)]
pub fn short_cast(num: i64, frac: u32, format: &Format) -> Option<i64>
    ensures value { IfSome result (λ n. n ≡ cast_of format.now num frac) }
    ensures kept { format.now.over ≢ SatSym → format.now.signed ≡ true
        → frac ≡ fraction_of format.now → IsOfWidth true format.now.wl num → IsSome result }
    ensures raised { format.now.over ≢ SatSym → format.now.wl ≤ 62 → frac ≤ fraction_of format.now
        → fraction_of format.now - frac ≤ 61
        → unsigned_abs num < 2 ^ (61 - (fraction_of format.now - frac))
        → IsOfWidth format.now.signed format.now.wl
        (num *ℤ pos (2 ^ (fraction_of format.now - frac))) → IsSome result }
    ensures cut { format.now.over ≢ SatSym → format.now.wl ≤ 62 → fraction_of format.now < frac
        → frac - fraction_of format.now ≤ 62 → format.now.quant ≡ Trn
        → IsOfWidth format.now.signed format.now.wl
        (below num (2 ^ (frac - fraction_of format.now))) → IsSome result }
{
    if !is_plain(format.over) {
        return None;
    }
    match kept_signed(num, frac, format) {
        Some(same) => Some(same),
        None => moved_cast(num, frac, format),
    }
}
