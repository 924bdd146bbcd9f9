//! Rates, and the numbers of rate variables.

ghost use Rattle.std.specs.Option.{option_map};
ghost use Rattle.std.specs.Prelude.{◌≡◌, ◌<◌, ◌≤◌, ◌^◌, ◌+◌, ℕ, IfOk, Some, length, slice_get, slice_index};
ghost use Rattle.tdf_expr_compiler.specs.Below.{before, rate_number, rates_of};
ghost use Rattle.tdf_bind_attributes.specs.Roles.{rate_of_limit, variable_at, variable_of};
ghost use Rattle.tdf_bind_attributes.specs.machine.Numbers.{AreRateNumbers};
ghost use Rattle.tdf_expr_symbols.specs.Names.{place_of, Thing as ThingSeen};
ghost use Rattle.tdf_expr_symbols.specs.Seen.{rate_or_one, seen};

use std::alloc::Global;
use tdf_base::{Memory, Name};
use tdf_bind_connections::Rate;
use tdf_expr_symbols::{Scope, Thing};
use tdf_lang_tree::Limit;

/// A number of 32 bits.
///
/// # Errors
/// Out of memory, where it is larger; a model without faults has no such number.
pub(crate) fn short(number: u64) -> Result<u32, Memory>
    ensures { IfOk result (λ n. n ≡ number) }
{
    if number > u64::from(u32::MAX) {
        return Err(Memory);
    }
    Ok(number as u32)
}

/// How many rate variables there are up to a name, where `count` come before it.
fn count_rate(count: u64, thing: Option<Thing>) -> u64
    requires { count < 2 ^ 63 }
    ensures count { (t : ThingSeen) → option_map seen thing.entry ≡ Some t → result ≡ count + rates_of t }
    ensures few { result ≤ count + 1 }
{
    match thing {
        Some(Thing::RateVar(_, _, _)) => count + 1,
        _ => count,
    }
}

/// For each name of a block, how many rate variables come before it.
///
/// # Errors
/// Out of memory.
pub(crate) fn rate_numbers(alloc: Global, scope: &Scope) -> Result<Vec<u64>, Memory>
    ensures { IfOk result (λ numbers. AreRateNumbers scope.now.own numbers.items) }
{
    let mut numbers = Vec::new(alloc);
    let mut count = 0;
    for place in 0..scope.own_len() {
        if count >= 1 << 62 {
            return Err(Memory);
        }
        numbers.push(count)?;
        count = count_rate(count, scope.own_at(place));
    }
    Ok(numbers)
}

/// The number of the rate variable at a place, if it is one.
///
/// # Errors
/// Out of memory, where it is above 2^32.
#[tactic(auto, using(crate::proofs::Numbered::variable_laws))]
fn variable_at(scope: &Scope, numbers: &[u64], place: usize) -> Result<Option<u32>, Memory>
    requires { AreRateNumbers scope.now.own numbers.now }
    ensures { IfOk result (λ var. var ≡ variable_at scope.now.own (Some place) (slice_get scope.now.own.things place)) }
{
    match scope.own_at(place) {
        Some(Thing::RateVar(_, _, _)) => Ok(Some(short(numbers[place])?)),
        _ => Ok(None),
    }
}

/// The number of a rate variable.
///
/// # Errors
/// Out of memory, where it is above 2^32.
fn variable(scope: &Scope, numbers: &[u64], name: &Name) -> Result<Option<u32>, Memory>
    requires { AreRateNumbers scope.now.own numbers.now }
    ensures { IfOk result (λ var. var ≡ variable_of scope.now.own name.now) }
{
    match scope.own_place(name.as_bytes()) {
        None => Ok(None),
        Some(place) => variable_at(scope, numbers, place),
    }
}

/// A rate; 1 where no line says one.
///
/// # Errors
/// Out of memory.
pub(crate) fn rate_in(scope: &Scope, numbers: &[u64], rate: Option<&Limit>) -> Result<Rate, Memory>
    requires { AreRateNumbers scope.now.own numbers.now }
    ensures { IfOk result (λ r. r ≡ rate_of_limit scope.now.own (rate_or_one rate.entry)) }
{
    match rate {
        None => Ok(Rate {
            times: 1,
            var: None,
        }),
        Some(Limit::Int(n)) => Ok(Rate {
            times: short(*n)?,
            var: None,
        }),
        Some(Limit::Var(name)) => Ok(Rate {
            times: 1,
            var: variable(scope, numbers, name)?,
        }),
        Some(Limit::Times(factor, name)) => Ok(Rate {
            times: short(*factor)?,
            var: variable(scope, numbers, name)?,
        }),
    }
}
