//! Where the values of each name of a block are kept.

ghost use Rattle.std.specs.Prelude.{◌≡◌, ◌≤◌, ◌<◌, ◌+◌, ◌^◌, ℕ, Some, IfOk, length, slice_get};
ghost use Rattle.tdf_expr_compiler.specs.Layouts.{IsLayout};
ghost use Rattle.tdf_expr_compiler.specs.machine.Tallies.{IsNext, counts_of};
ghost use Rattle.tdf_expr_symbols.specs.Names.{Thing as ThingSeen};
ghost use Rattle.tdf_expr_symbols.specs.Scope.{greatest_of};
ghost use Rattle.tdf_expr_symbols.specs.Seen.{rate_or_one, seen};

use crate::numbers::Numbers;
use std::alloc::Global;
use tdf_base::Memory;
use tdf_expr_symbols::{Scope, Thing};
use tdf_lang_tree::Limit;

/// Where the values of each name of a block are kept: numbers by the name's place among the names.
#[derive(Drop)]
pub struct Layout {
    pub(crate) names: Vec<Numbers>,
}

/// How many cells, samples, ports, rate variables and events a name has.
#[derive(Clone, Copy)]
struct Tally {
    cells: u128,
    samples: u128,
    ports: u128,
    rates: u128,
    events: u128,
}

/// How many samples a port has, by its rate.
#[tactic(auto, unfolding(tdf_expr_symbols::specs::Scope::greatest_of))]
fn samples(scope: &Scope, rate: Option<&Limit>) -> u128
    ensures { result ≡ greatest_of scope.now.own (rate_or_one rate.entry) }
{
    match rate {
        None => 1,
        Some(rate) => scope.greatest_of(rate),
    }
}

/// How many cells, samples, ports, rate variables and events a name has.
fn counts(scope: &Scope, thing: Thing) -> Tally
    ensures { result ≡ counts_of scope.now.own (seen thing.entry) }
{
    let none = Tally {
        cells: 0,
        samples: 0,
        ports: 0,
        rates: 0,
        events: 0,
    };
    match thing {
        Thing::Var(_, _) => Tally { cells: 1, ..none },
        Thing::Array(_, size, _) => Tally {
            cells: u128::from(size),
            ..none
        },
        Thing::Port(_, _, rate, _) => Tally {
            samples: samples(scope, rate),
            ports: 1,
            ..none
        },
        Thing::RateVar(_, _, _) => Tally { rates: 1, ..none },
        Thing::Event => Tally { events: 1, ..none },
        _ => none,
    }
}

/// The sum, at most 2^31.
///
/// # Errors
/// Out of memory, where it is more.
fn sum(before: u32, count: u128) -> Result<u32, Memory>
    ensures sum { IfOk result (λ n. n ≡ before + count) }
    ensures few { IfOk result (λ n. n ≤ 2 ^ 31) }
{
    let most = 1 << 31;
    if before > most || count > u128::from(most - before) {
        return Err(Memory);
    }
    Ok(before + count as u32)
}

/// The numbers of the next name.
///
/// # Errors
/// Out of memory, where one is above 2^31.
fn after(numbers: Numbers, counts: Tally) -> Result<Numbers, Memory>
    ensures { IfOk result (λ next. IsNext numbers counts next) }
{
    Ok(Numbers {
        cell: sum(numbers.cell, counts.cells)?,
        sample: sum(numbers.sample, counts.samples)?,
        port: sum(numbers.port, counts.ports)?,
        rate: sum(numbers.rate, counts.rates)?,
        event: sum(numbers.event, counts.events)?,
    })
}

/// The numbers of the name after the one at a place.
///
/// # Errors
/// Out of memory, where one is above 2^31.
fn next(scope: &Scope, place: usize, numbers: Numbers) -> Result<Numbers, Memory>
    ensures { (thing : ThingSeen) → slice_get scope.now.own.things place ≡ Some thing
        → IfOk result (λ next. IsNext numbers (counts_of scope.now.own thing) next) }
{
    match scope.own_at(place) {
        None => Ok(numbers),
        Some(thing) => after(numbers, counts(scope, thing)),
    }
}

impl Layout {
    /// The layout of a block's names.
    ///
    /// # Errors
    /// Out of memory, also where a block has more than 2^31 cells or samples.
    #[tactic(auto, using(crate::proofs::Numbered::numbered_laws))]
    pub fn of(alloc: Global, scope: &Scope) -> Result<Layout, Memory>
        ensures { IfOk result (λ layout. IsLayout scope.now.own layout) }
    {
        let mut names = Vec::new(alloc);
        let mut numbers = Numbers {
            cell: 0,
            sample: 0,
            port: 0,
            rate: 0,
            event: 0,
        };
        for place in 0..scope.own_len() {
            names.push(numbers)?;
            numbers = next(scope, place, numbers)?;
        }
        Ok(Layout { names })
    }

    /// The numbers of the name at a place.
    pub(crate) fn at(&self, place: usize) -> Numbers
        requires { place < length self.now.names.items }
        ensures { slice_get self.now.names.items place ≡ Some result }
    {
        self.names[place]
    }
}
