//! Numbers without needless zeros.

ghost use Rattle.std.specs.Prelude.{◌≡◌, ◌≤◌, ◌++◌, length, take, drop, IfOk, OnOk};
ghost use Rattle.std.specs.List.{prefix_len, suffix_len, position_or_len};
ghost use Rattle.tdf_lang_exprs.specs.Numbers.{trimmed, is_zero, is_point, or_zero_digit, after_point, without_first_zeros, without_last_zeros};

use std::alloc::Global;
use tdf_base::Memory;
use tdf_lang_tree::Digits;

fn point(text: &[u8]) -> usize
    ensures place { result ≡ position_or_len is_point text.now }
    ensures within { result ≤ length text.now }
{
    text.iter().take_while(|byte| **byte != b'.').count()
}

fn first_zeros(text: &[u8]) -> usize
    ensures count { result ≡ prefix_len is_zero text.now }
    ensures within { result ≤ length text.now }
{
    text.iter().take_while(|byte| **byte == b'0').count()
}

fn last_zeros(text: &[u8]) -> usize
    ensures count { result ≡ suffix_len is_zero text.now }
    ensures within { result ≤ length text.now }
{
    text.iter().rev().take_while(|byte| **byte == b'0').count()
}

/// The number that is written, without needless zeros.
///
/// # Errors
/// Out of memory.
#[tactic(auto, unfolding(crate::specs::Numbers::trimmed))]
pub fn read_number(alloc: Global, text: &[u8]) -> Result<Digits, Memory>
    ensures { IfOk result (λ digits. digits ≡ trimmed text.now) }
{
    let mut bytes = Vec::new(alloc);
    let point = point(text);
    push_whole(&mut bytes, &text[..point])?;
    if point == text.len() {
        return Ok(Digits::new(bytes));
    }
    push_fraction(&mut bytes, &text[point + 1..])?;
    Ok(Digits::new(bytes))
}

fn push_whole(bytes: &mut Vec<u8>, whole: &[u8]) -> Result<(), Memory>
    ensures { OnOk result (bytes.new.items ≡ bytes.old.items ++ or_zero_digit (without_first_zeros whole.now)) }
{
    let digits = &whole[first_zeros(whole)..];
    if digits.is_empty() {
        bytes.push(b'0')?;
        return Ok(());
    }
    bytes.extend_from_slice(digits)?;
    Ok(())
}

fn push_fraction(bytes: &mut Vec<u8>, fraction: &[u8]) -> Result<(), Memory>
    ensures { OnOk result (bytes.new.items ≡ bytes.old.items ++ after_point (without_last_zeros fraction.now)) }
{
    let digits = &fraction[..fraction.len() - last_zeros(fraction)];
    if digits.is_empty() {
        return Ok(());
    }
    bytes.push(b'.')?;
    bytes.extend_from_slice(digits)?;
    Ok(())
}
