//! Arithmetic in 64 bits, where the result fits.

ghost use Rattle.std.specs.Int.{w64};
ghost use Rattle.std.specs.Prelude.{FitsSigned, ◌≡◌, ◌+ℤ◌, ◌-ℤ◌, ◌*ℤ◌, neg_ℤ, IfSome, IsSome};

use crate::cuts::short_of;

/// The product of two numbers, where it fits 64 bits.
#[inline(always)]
pub fn product(a: i64, b: i64) -> Option<i64>
    ensures value { IfSome result (λ n. n ≡ a *ℤ b) }
    ensures found { FitsSigned w64 (a *ℤ b) → IsSome result }
{
    short_of(i128::from(a) * i128::from(b))
}

/// The sum of two numbers, where it fits 64 bits.
#[inline(always)]
pub fn sum(a: i64, b: i64) -> Option<i64>
    ensures value { IfSome result (λ n. n ≡ a +ℤ b) }
    ensures found { FitsSigned w64 (a +ℤ b) → IsSome result }
{
    a.checked_add(b)
}

/// The difference of two numbers, where it fits 64 bits.
#[inline(always)]
pub fn difference(a: i64, b: i64) -> Option<i64>
    ensures value { IfSome result (λ n. n ≡ a -ℤ b) }
    ensures found { FitsSigned w64 (a -ℤ b) → IsSome result }
{
    a.checked_sub(b)
}

/// The number with the other sign, where it fits 64 bits.
#[inline(always)]
pub fn negative(a: i64) -> Option<i64>
    ensures value { IfSome result (λ n. n ≡ neg_ℤ a) }
    ensures found { FitsSigned w64 (neg_ℤ a) → IsSome result }
{
    short_of(-i128::from(a))
}
