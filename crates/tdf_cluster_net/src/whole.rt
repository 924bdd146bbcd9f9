//! What is told of the cluster's own net, with the numbers of the whole net.

ghost use Rattle.std.specs.Prelude.{◌≡◌, ◌<◌, ◌^◌, ℕ, All, IfOk, Some, length, map, slice_index};
ghost use Rattle.tdf_cluster_net.specs.Numbers.{AllBelow, AreSpread, IsAmong, Rise};
ghost use Rattle.tdf_cluster_net.specs.Own.{IsAssignThere, IsOwnSpot, IsPortWithin, whole_assign, whole_entry, with_number};
ghost use Rattle.tdf_timestep.specs.Order.{spot_of};
ghost use Rattle.tdf_cluster_net.specs.Whole.{IsWholePlan, whole_balance, whole_planning, whole_timing};

use crate::net::ClusterNet;
use crate::numbers::place_of;
use std::alloc::Global;
use tdf_balance::BalanceErr;
use tdf_base::Memory;
use tdf_graph::Net;
use tdf_places::Sparse;
use tdf_schedule::{Entry, Plan, PlanErr};
use tdf_timestep::{Assign, StepErr, Steps};

/// The number that a place stands for, 0 for a place that there is not.
fn number_at(numbers: &[u32], place: u32) -> u32
    ensures { result ≡ slice_index numbers.now place }
{
    let place = place as usize;
    if place < numbers.len() {
        return numbers[place];
    }
    0
}

/// The same where there may be no place.
fn with_number(numbers: &[u32], place: Option<u32>) -> Option<u32>
    ensures { result ≡ with_number numbers.now place }
{
    match place {
        None => None,
        Some(place) => Some(number_at(numbers, place)),
    }
}

/// The place of a number that is there, if there is a number.
fn place_if(numbers: &[u32], number: Option<u32>) -> Option<u32>
    requires few { length numbers.now < 2 ^ 32 }
    requires there { (n : ℕ) → number ≡ Some n → IsAmong numbers.now n }
    ensures is { with_number numbers.now result ≡ number }
    ensures inside { IsPortWithin (length numbers.now) result }
{
    match number {
        None => None,
        Some(number) => Some(place_of(numbers, number)),
    }
}

fn whole_entry(numbers: &[u32], entry: Entry) -> Entry
    ensures { result ≡ whole_entry numbers.now entry }
{
    Entry {
        offset: entry.offset,
        level: entry.level,
        actor: number_at(numbers, entry.actor),
        index: entry.index,
    }
}

/// Entries get the numbers of the whole net.
fn rename_entries(numbers: &[u32], entries: &mut Vec<Entry>)
    ensures { entries.new.items ≡ map (whole_entry numbers.now) entries.old.items }
{
    for i in 0..entries.len() {
        entries[i] = whole_entry(numbers, entries[i]);
    }
}

/// An assignment with the cluster's own numbers.
fn own_assign(net: &ClusterNet, assign: &Assign) -> Assign
    requires { IsAssignThere net.now assign.now }
    ensures is { whole_assign net.now result ≡ assign.now }
    ensures inside { IsOwnSpot net.now (spot_of result) }
{
    Assign {
        actor: place_of(net.actors, assign.actor),
        port: place_if(net.ports, assign.port),
        step: assign.step,
    }
}

/// A list of `count` numbers that has values at some places, and 0 elsewhere.
fn spread(values: Sparse, numbers: &[u32], count: usize) -> Sparse
    requires long { length values.items ≡ length numbers.now }
    requires within { AllBelow count numbers.now }
    requires rising { Rise numbers.now }
    ensures { AreSpread numbers.now count values.items result.items }
{
    values.spread(numbers, count)
}

impl<'g> ClusterNet<'g> {
    /// The net by numbers of its own.
    pub fn net(&self) -> &Net
        ensures actors { result.now.actors.items ≡ self.now.actors }
        ensures edges { result.now.edges.items ≡ self.now.edges }
        ensures ports { result.now.ports.items ≡ self.now.ports }
    {
        &self.net
    }

    /// Why there are no counts, with the number of the edge in the whole net.
    pub fn whole_balance(&self, why: BalanceErr) -> BalanceErr
        ensures { result ≡ whole_balance self.now why }
    {
        match why {
            BalanceErr::Rates { edge } => BalanceErr::Rates {
                edge: number_at(self.edges, edge),
            },
            BalanceErr::TooLarge => BalanceErr::TooLarge,
            BalanceErr::Memory => BalanceErr::Memory,
        }
    }

    /// Why there are no steps, with the numbers of actor and port in the whole net.
    pub fn whole_timing(&self, why: StepErr) -> StepErr
        ensures { result ≡ whole_timing self.now why }
    {
        match why {
            StepErr::NoTimestep => StepErr::NoTimestep,
            StepErr::Disagree { a, b } => StepErr::Disagree { a, b },
            StepErr::TooLong => StepErr::TooLong,
            StepErr::Inexact { actor, port } => StepErr::Inexact {
                actor: number_at(self.actors, actor),
                port: with_number(self.ports, port),
            },
            StepErr::Memory => StepErr::Memory,
        }
    }

    /// Why there is no plan, with the number of the actor in the whole net.
    pub fn whole_planning(&self, why: PlanErr) -> PlanErr
        ensures { result ≡ whole_planning self.now why }
    {
        match why {
            PlanErr::TooLarge => PlanErr::TooLarge,
            PlanErr::Deadlock { actor } => PlanErr::Deadlock {
                actor: number_at(self.actors, actor),
            },
            PlanErr::Noncausal { sink, index } => PlanErr::Noncausal {
                sink: number_at(self.actors, sink),
                index,
            },
            PlanErr::Memory => PlanErr::Memory,
        }
    }

    /// Assignments of the cluster with its own numbers.
    ///
    /// # Errors
    /// Out of memory.
    pub fn own_assigned(&self, alloc: Global, assigned: &[Assign]) -> Result<Vec<Assign>, Memory>
        requires { All (IsAssignThere self.now) assigned.now }
        ensures are { IfOk result (λ own. map (whole_assign self.now) own.items ≡ assigned.now) }
        ensures inside { IfOk result (λ own. All (λ a. IsOwnSpot self.now (spot_of a)) own.items) }
    {
        let mut own = Vec::with_capacity(alloc, assigned.len())?;
        for i in 0..assigned.len() {
            own.push(own_assign(self, &assigned[i]))?;
        }
        Ok(own)
    }

    /// Values of the cluster's actors in a list of `count` actors, 0 for all others.
    ///
    /// # Errors
    /// Out of memory.
    pub fn spread(&self, alloc: Global, count: usize, values: &[u64]) -> Result<Sparse, Memory>
        requires long { length values.now ≡ length self.now.actor_numbers }
        requires within { AllBelow count self.now.actor_numbers }
        requires rising { Rise self.now.actor_numbers }
        ensures { IfOk result (λ all. AreSpread self.now.actor_numbers count values.now all.items) }
    {
        let own = Sparse::of(alloc, values)?;
        Ok(spread(own, self.actors, count))
    }

    /// The values of the cluster's actors from a list of all.
    ///
    /// # Errors
    /// Out of memory.
    pub fn picked(&self, alloc: Global, all: &Sparse) -> Result<Vec<u64>, Memory>
        ensures long { IfOk result (λ values. length values.items ≡ length self.now.actor_numbers) }
        ensures each { IfOk result (λ values. (i : ℕ) → i < length self.now.actor_numbers
            → slice_index values.items i
            ≡ slice_index all.now.items (slice_index self.now.actor_numbers i)) }
    {
        all.gather(alloc, self.actors)
    }

    /// Steps of the cluster's actors among those of `count` actors.
    pub fn spread_steps(&self, count: usize, steps: Steps) -> Steps
        requires long { length steps.actor_steps.items ≡ length self.now.actor_numbers }
        requires within { AllBelow count self.now.actor_numbers }
        requires rising { Rise self.now.actor_numbers }
        ensures period { result.period ≡ steps.period }
        ensures steps { AreSpread self.now.actor_numbers count
            steps.actor_steps.items result.actor_steps.items }
    {
        Steps {
            period: steps.period,
            actor_steps: spread(steps.actor_steps, self.actors, count),
        }
    }

    /// The steps of the cluster's actors from those of all.
    ///
    /// # Errors
    /// Out of memory.
    pub fn picked_steps(&self, alloc: Global, steps: &Steps) -> Result<Steps, Memory>
        ensures period { IfOk result (λ own. own.period ≡ steps.now.period) }
        ensures long { IfOk result (λ own.
            length own.actor_steps.items ≡ length self.now.actor_numbers) }
        ensures each { IfOk result (λ own. (i : ℕ) → i < length self.now.actor_numbers
            → slice_index own.actor_steps.items i
            ≡ slice_index steps.now.actor_steps.items (slice_index self.now.actor_numbers i)) }
    {
        let actor_steps = steps.actor_steps.picked(alloc, self.actors)?;
        Ok(Steps {
            period: steps.period,
            actor_steps,
        })
    }

    /// A plan with the numbers of the whole net, which has `count` edges.
    pub fn whole_plan(&self, count: usize, plan: Plan) -> Plan
        requires long { length plan.bounds.items ≡ length self.now.edge_numbers }
        requires within { AllBelow count self.now.edge_numbers }
        requires rising { Rise self.now.edge_numbers }
        ensures { IsWholePlan self.now count plan result }
    {
        let mut entries = plan.entries;
        rename_entries(self.actors, &mut entries);
        Plan {
            entries,
            bounds: spread(plan.bounds, self.edges, count),
            period: plan.period,
        }
    }
}
