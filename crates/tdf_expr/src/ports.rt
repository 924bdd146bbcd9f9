//! The ports of a block.

ghost use Rattle.std.specs.Prelude.{◌≡◌, ◌++◌, ◌+◌, ◌∷◌, ◌≤◌, ◌^◌, List, length, map, slice_get, Some, OnOk, IfOk};
ghost use Rattle.tdf_expr.specs.machine.Cells.{IsPortKept};
ghost use Rattle.tdf_expr.specs.Plans.{place_of_span, places_from, port_places};
ghost use Rattle.tdf_expr_semantics.specs.Places.{samples_of, sample_shapes};
ghost use Rattle.tdf_expr_symbols.specs.Names.{Thing as ThingSeen};
ghost use Rattle.tdf_expr_symbols.specs.Scope.{greatest_of};
ghost use Rattle.tdf_expr_symbols.specs.Seen.{rate_or_one, seen};
ghost use Rattle.tdf_expr_symbols.specs.Sound.{IsSound};

use crate::spans::PortSpan;
use std::alloc::Global;
use tdf_base::Memory;
use tdf_expr_compiler::format_of;
use tdf_expr_symbols::{Scope, Thing};
use tdf_lang_tree::Limit;

/// The greatest rate of a port.
#[tactic(auto, unfolding(tdf_expr_symbols::specs::Scope::greatest_of))]
fn greatest(scope: &Scope, rate: Option<&Limit>) -> u128
    ensures { result ≡ greatest_of scope.now.own (rate_or_one rate.entry) }
{
    match rate {
        None => 1,
        Some(rate) => scope.greatest_of(rate),
    }
}

/// A number of samples, at most 2^31.
///
/// # Errors
/// Out of memory, where it is more.
fn few(count: u128) -> Result<u32, Memory>
    ensures value { IfOk result (λ n. n ≡ count) }
    ensures few { IfOk result (λ n. n ≤ 2 ^ 31) }
{
    if count > 1 << 31 {
        return Err(Memory);
    }
    Ok(count as u32)
}

/// The port of a name, and the place after its samples.
#[tactic(auto, using(crate::proofs::Ported::port_laws), unfolding(crate::specs::Plans::places_from))]
fn push_port(
    spans: &mut Vec<PortSpan>,
    scope: &Scope,
    thing: Thing,
    first: u32,
) -> Result<u32, Memory>
    requires few { first ≤ 2 ^ 31 }
    requires kept { IsPortKept (seen thing) }
    ensures spans { (rest : List ThingSeen) → IfOk result (λ next. map place_of_span spans.new.items ++ places_from scope.now.own next rest
        ≡ map place_of_span spans.old.items ++ places_from scope.now.own first (seen thing.entry ∷ rest)) }
    ensures next { IfOk result (λ next. next ≡ first + samples_of scope.now.own (seen thing.entry)) }
    ensures few { IfOk result (λ next. next ≤ 2 ^ 31) }
{
    match thing {
        Thing::Port(word, Some(shape), rate, _) => {
            let count = few(greatest(scope, rate))?;
            let next = few(u128::from(first) + u128::from(count))?;
            spans.push(PortSpan {
                word,
                format: format_of(shape),
                first,
                count,
            })?;
            Ok(next)
        }
        _ => Ok(first),
    }
}

/// The port of the name at a place, and the place after its samples.
#[tactic(auto, using(crate::proofs::Planned::port_plan_laws))]
fn push_place(
    spans: &mut Vec<PortSpan>,
    scope: &Scope,
    place: usize,
    first: u32,
) -> Result<u32, Memory>
    requires few { first ≤ 2 ^ 31 }
    requires sound { IsSound scope.now }
    ensures spans { (t : ThingSeen) (rest : List ThingSeen) → slice_get scope.now.own.things place ≡ Some t
        → IfOk result (λ next. map place_of_span spans.new.items ++ places_from scope.now.own next rest
        ≡ map place_of_span spans.old.items ++ places_from scope.now.own first (t ∷ rest)) }
    ensures next { (t : ThingSeen) → slice_get scope.now.own.things place ≡ Some t
        → IfOk result (λ next. next ≡ first + samples_of scope.now.own t) }
    ensures few { IfOk result (λ next. next ≤ 2 ^ 31) }
{
    match scope.own_at(place) {
        None => Ok(first),
        Some(thing) => push_port(spans, scope, thing, first),
    }
}

/// The ports of a block, at most 2^31, and how many samples they have in all.
#[derive(Drop)]
pub(crate) struct PortPlan {
    pub(crate) spans: Vec<PortSpan>,
    pub(crate) samples: u32,
    pub(crate) ghost few: { length spans.items ≤ 2 ^ 31 },
}

/// The ports of a block.
///
/// # Errors
/// Out of memory, also where a block has more than 2^31 ports or samples.
#[tactic(auto, using(crate::proofs::Ported::plan_laws))]
pub(crate) fn port_plan(alloc: Global, scope: &Scope) -> Result<PortPlan, Memory>
    requires sound { IsSound scope.now }
    ensures spans { IfOk result (λ p. map place_of_span p.spans.items ≡ port_places scope.now.own) }
    ensures samples { IfOk result (λ p. p.samples ≡ length (sample_shapes scope.now.own)) }
{
    let mut spans = Vec::new(alloc);
    let mut samples = 0;
    for place in 0..scope.own_len() {
        samples = push_place(&mut spans, scope, place, samples)?;
    }
    if spans.len() > 1 << 31 {
        return Err(Memory);
    }
    Ok(PortPlan { spans, samples })
}
