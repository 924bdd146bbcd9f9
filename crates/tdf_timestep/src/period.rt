//! The period and the steps of one cluster.

ghost use Rattle.std.specs.Prelude.{◌≡◌, ◌<◌, ◌≤◌, ◌+◌, ◌*◌, ◌^◌, ◌↔◌, ◌⊎◌, [], ℕ, List, All, Option, Ok, Err, length, vec_len, IfOk, IsOk, slice_index};
ghost use Rattle.std.specs.Int.{◌∣◌};
ghost use Rattle.tdf_base.specs.Limits.{time_end, most_firings};
ghost use Rattle.tdf_timestep.specs.Period.{IsAssigned, IsDisagreed, IsTooLong, IsInexact, HasSteps};
ghost use Rattle.tdf_timestep.specs.declared.assign.Spot.{Spot};
ghost use Rattle.tdf_timestep.specs.declared.assign.Steps.{Steps};
ghost use Rattle.tdf_timestep.specs.declared.err.StepErr.TheVariants.{NoTimestep, Disagree, TooLong, Inexact, Memory};
ghost use Rattle.tdf_timestep.specs.views.Answers.{IsAgreed, AreStepsUpTo, IsAnswer, step_of};

use crate::assign::{Assign, Spot, Steps};
use crate::err::StepErr;
use crate::exact::first_unwhole;
use crate::order::{first_of, first_other};
use crate::share::period_of;
use std::alloc::Global;
use tdf_base::TIME_END;
use tdf_graph::Net;
use tdf_places::Sparse;

/// The period that all assignments give, below 10^18.
fn agreed(net: &Net, counts: &[u64], assigned: &[Assign]) -> Result<u64, StepErr>
    requires few { All (λ q. q ≤ most_firings) counts.now }
    requires assigned { All (IsAssigned net.now.ports.items counts.now) assigned.now }
    requires small { length assigned.now < 2 ^ 32 }
    ensures { IsAgreed net.now.ports.items counts.now assigned.now result }
{
    let first = match first_of(assigned) {
        None => return Err(StepErr::NoTimestep),
        Some(first) => first,
    };
    let period = period_of(net, counts, &assigned[first as usize]);
    match first_other(net, counts, assigned, period) {
        Some(other) => return Err(StepErr::Disagree { a: first, b: other }),
        None => {}
    }
    if period < u128::from(TIME_END) {
        return Ok(period as u64);
    }
    Err(StepErr::TooLong)
}

/// The step of an actor, 0 where it doesn't fire.
fn step_of(period: u64, count: u64) -> u64
    ensures { result ≡ step_of period count }
{
    if count == 0 {
        return 0;
    }
    period / count
}

/// The steps of all actors.
fn actor_steps(alloc: Global, counts: &[u64], period: u64) -> Result<Sparse, tdf_base::Memory>
    ensures { IfOk result (λ steps. AreStepsUpTo (length counts.now) counts.now period steps.items) }
{
    let mut steps = Sparse::with_capacity(alloc, counts.len())?;
    for actor in 0..counts.len() {
        steps.push(step_of(period, counts[actor]))?;
    }
    Ok(steps)
}

/// The period and the steps, or the fault.
fn answer(alloc: Global, net: &Net, counts: &[u64], assigned: &[Assign]) -> Result<Steps, StepErr>
    requires long { length counts.now ≡ vec_len net.now.actors }
    requires few { All (λ q. q ≤ most_firings) counts.now }
    requires assigned { All (IsAssigned net.now.ports.items counts.now) assigned.now }
    requires small { length assigned.now < 2 ^ 32 }
    ensures { IsAnswer net.now.ports.items counts.now assigned.now result }
{
    let period = match agreed(net, counts, assigned) {
        Ok(period) => period,
        Err(why) => return Err(why),
    };
    match first_unwhole(net, counts, period) {
        None => {}
        Some(Spot { actor, port }) => return Err(StepErr::Inexact { actor, port }),
    }
    match actor_steps(alloc, counts, period) {
        Ok(actor_steps) => Ok(Steps {
            period,
            actor_steps,
        }),
        Err(_) => Err(StepErr::Memory),
    }
}

/// The period of a cluster and the steps of its actors, by the timesteps that are assigned to its modules and ports. A module's
/// timestep gives the period `count * step`, a port's `count * rate * step`; a module's step is the period over its count, a
/// port's the period over its count and its rate. Times are counts of the model's resolution. The refusals take no memory.
///
/// # Errors
/// `NoTimestep` where no timestep is assigned. `Disagree` where an assignment gives another period than the first one, with
/// the places of the first one and of the first that differs; they are ordered by actor, the actor's own before its ports'.
/// `TooLong` where the period is 10^18 or more. `Inexact` where a step isn't whole, with the first such actor or port, in the
/// same order. Or out of memory.
pub fn steps(
    alloc: Global,
    net: &Net,
    counts: &[u64],
    assigned: &[Assign],
) -> Result<Steps, StepErr>
    requires long { length counts.now ≡ vec_len net.now.actors }
    requires few { All (λ q. q ≤ most_firings) counts.now }
    requires assigned { All (IsAssigned net.now.ports.items counts.now) assigned.now }
    requires small { length assigned.now < 2 ^ 32 }

    ensures steps { IfOk result (HasSteps net.now.ports.items counts.now assigned.now) }
    ensures no_timestep { (result ≡ Err NoTimestep) ↔ (assigned.now ≡ []) }
    ensures disagree { (a b : ℕ) → (result ≡ Err (Disagree a b))
        ↔ IsDisagreed net.now.ports.items counts.now assigned.now a b }
    ensures too_long { (result ≡ Err TooLong)
        ↔ IsTooLong net.now.ports.items counts.now assigned.now }
    ensures inexact { (spot : Spot) → (result ≡ Err (Inexact spot.actor spot.port))
        ↔ IsInexact net.now.ports.items counts.now assigned.now spot }
    ensures steps_always { (s : Steps) → HasSteps net.now.ports.items counts.now assigned.now s
        → IsOk result ⊎ (result ≡ Err Memory) }
{
    answer(alloc, net, counts, assigned)
}
