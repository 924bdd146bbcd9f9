//! Numbers and samples.

ghost use Rattle.std.specs.Prelude.{◌≡◌, ◌≤◌, All, IfOk, map, option_map};
ghost use Rattle.tdf_trace_states.specs.ColumnStates.{sample_in};

use std::alloc::Global;
use std::collections::VecDeque;
use tdf_base::Memory;
use tdf_fixed::{Format, Raw};

/// A number as a sample of a format.
pub fn sample_in(format: Format, num: i128) -> Raw
    ensures { result ≡ sample_in format num }
{
    Raw {
        num,
        frac: format.wl - format.iwl,
    }
}

/// A number as a sample of a format, if there is one.
pub fn carry_in(format: Format, carry: Option<i128>) -> Option<Raw>
    ensures { result ≡ option_map (sample_in format) carry }
{
    match carry {
        None => None,
        Some(num) => Some(sample_in(format, num)),
    }
}

/// The number of a sample, if there is one.
pub fn number_of(value: Option<Raw>) -> Option<i128>
    ensures { result ≡ option_map (λ v. v.num) value }
{
    match value {
        None => None,
        Some(value) => Some(value.num),
    }
}

/// The numbers of samples.
///
/// # Errors
/// Out of memory.
pub fn numbers_of(alloc: Global, values: &VecDeque<Raw>) -> Result<Vec<i128>, Memory>
    ensures { IfOk result (λ nums. nums.items ≡ map (λ v. v.num) values.now.items) }
{
    let mut nums = Vec::new(alloc);
    for i in 0..values.len() {
        nums.push(values[i].num)?;
    }
    Ok(nums)
}

/// Numbers as samples of a format.
///
/// # Errors
/// Out of memory.
pub fn samples_in(alloc: Global, format: Format, nums: &[i128]) -> Result<VecDeque<Raw>, Memory>
    ensures is { IfOk result (λ samples. samples.items ≡ map (sample_in format) nums.now) }
    ensures few { IfOk result (λ samples. All (λ v. v.frac ≤ 120) samples.items) }
{
    let mut samples = VecDeque::new(alloc);
    for i in 0..nums.len() {
        samples.push_back(sample_in(format, nums[i]))?;
    }
    Ok(samples)
}
