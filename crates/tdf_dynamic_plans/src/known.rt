//! The plans of a cluster that were made last, each with what it is known by.

ghost use Rattle.std.specs.Prelude.{◌≡◌, ◌<◌, ◌≤◌, ◌+◌, ◌-◌, ◌^◌, IfOk, IfSome, [], None, OnOk, Some, drop, false, if◌then◌else◌, length, min, slice_get, true};
ghost use Rattle.tdf_dynamic_plans.specs.Known.{HasKept, HasSameItems, IsKnown, IsKnownAt, IsShort, KnownOf as Known, table_key, row_key};

use crate::attrs::ModuleAttrs;
use crate::timing::Timing;
use std::alloc::Global;
use std::marker::Model;
use tdf_base::Memory;
use tdf_schedule::Plan;

/// The most plans that are kept of a cluster.
const MOST_PLANS: usize = 8;

/// The most entries of a plan that is kept.
const MOST_ENTRIES: usize = 16_384;

/// A module, the values of its rate variables, and the timesteps that are assigned to it and to its ports.
#[derive(Drop)]
pub(crate) struct Key {
    number: u32,
    rates: Vec<u32>,
    steps: Vec<u64>,
}

impl Model for Key {
    ghost use Rattle.tdf_dynamic_plans.specs.Known.{KeyOf};

    ghost Value = { KeyOf };

    ghost view = { λ a. record {
      number = a.number;
      rates = a.rates.items;
      steps = a.steps.items;
    } };
}

/// A plan with its counts and steps, and what it is known by.
#[derive(Drop)]
pub(crate) struct KnownPlan {
    key: Vec<Key>,
    timing: Timing,
    plan: Plan,
}

impl Model for KnownPlan {
    ghost use Rattle.tdf_dynamic_plans.specs.Known.{KnownOf};

    ghost Value = { KnownOf };

    ghost view = { λ a. record {
      key = a.key.items;
      counts = a.timing.counts.items;
      steps = a.timing.steps;
      plan = a.plan;
    } };
}

fn are_same_rates(one: &[u32], other: &[u32]) -> bool
    ensures same { result ≡ true → one.now ≡ other.now }
    ensures other { result ≡ false → one.now ≡ other.now → ⊥ }
{
    one == other
}

fn are_same_steps(one: &[u64], other: &[u64]) -> bool
    ensures same { result ≡ true → one.now ≡ other.now }
    ensures other { result ≡ false → one.now ≡ other.now → ⊥ }
{
    one == other
}

impl Key {
    /// What a module is known by.
    fn new(alloc: Global, attrs: &ModuleAttrs) -> Result<Key, Memory>
        ensures { IfOk result (λ key. key ≡ row_key attrs.now) }
    {
        let rates = Vec::from_slice(alloc, &attrs.rates)?;
        let steps = Vec::from_slice(alloc, &attrs.steps)?;
        Ok(Key {
            number: attrs.number,
            rates,
            steps,
        })
    }

    /// Whether a module is known by it.
    fn is_of(&self, attrs: &ModuleAttrs) -> bool
        ensures same { result ≡ true → self.now ≡ row_key attrs.now }
        ensures other { result ≡ false → self.now ≡ row_key attrs.now → ⊥ }
    {
        self.number == attrs.number
            && are_same_rates(&self.rates, &attrs.rates)
            && are_same_steps(&self.steps, &attrs.steps)
    }
}

/// What a table is known by.
fn table_key(alloc: Global, table: &[ModuleAttrs]) -> Result<Vec<Key>, Memory>
    ensures { IfOk result (λ key. key.items ≡ table_key table.now) }
{
    let mut key = Vec::with_capacity(alloc, table.len())?;
    for i in 0..table.len() {
        key.push(Key::new(alloc, &table[i])?)?;
    }
    Ok(key)
}

/// Whether a table is known by it.
fn is_key_of(key: &[Key], table: &[ModuleAttrs]) -> bool
    ensures same { result ≡ true → key.now ≡ table_key table.now }
    ensures other { result ≡ false → key.now ≡ table_key table.now → ⊥ }
{
    if key.len() != table.len() {
        return false;
    }
    for i in 0..key.len() {
        if !key[i].is_of(&table[i]) {
            return false;
        }
    }
    true
}

/// A plan with the same entries, bounds and period.
fn copy_of(alloc: Global, plan: &Plan) -> Result<Plan, Memory>
    ensures { IfOk result (HasSameItems plan.now) }
{
    let entries = Vec::from_slice(alloc, &plan.entries)?;
    let bounds = plan.bounds.copy(alloc)?;
    Ok(Plan {
        entries,
        bounds,
        period: plan.period,
    })
}

/// The place of the plan that is known by the key of a table.
fn found_in(plans: &[KnownPlan], table: &[ModuleAttrs]) -> Option<usize>
    ensures known { IfSome result (IsKnownAt plans.now (table_key table.now)) }
    ensures none { result ≡ None → IsKnown plans.now (table_key table.now) → ⊥ }
{
    for i in 0..plans.len() {
        let known = &plans[i];
        if is_key_of(&known.key, table) {
            return Some(i);
        }
    }
    None
}

/// A plan that was made under a table, with what it is known by.
fn known_plan(
    alloc: Global,
    table: &[ModuleAttrs],
    timing: Timing,
    plan: &Plan,
) -> Result<KnownPlan, Memory>
    ensures known { IfOk result (λ known. (known.key ≡ table_key table.now)
        × (known.counts ≡ timing.counts.items) × (known.steps ≡ timing.steps)) }
    ensures plan { IfOk result (λ known. HasSameItems plan.now known.plan) }
{
    match table_key(alloc, table) {
        Ok(key) => match copy_of(alloc, plan) {
            Ok(plan) => Ok(KnownPlan { key, timing, plan }),
            Err(refused) => {
                drop(key);
                drop(timing);
                Err(refused)
            }
        },
        Err(refused) => {
            drop(timing);
            Err(refused)
        }
    }
}

/// Has room for one more plan: the one that was kept first gives way, where there are as many as may be.
fn make_room(plans: &mut Vec<KnownPlan>, most: usize)
    requires some { 1 ≤ most }
    requires few { length plans.old.items ≤ most }
    ensures rest { plans.new.items ≡ drop (length plans.old.items + 1 - most) plans.old.items }
    ensures room { length plans.new.items < most }
{
    if plans.len() >= most {
        drop(plans.remove(0));
    }
}

/// The plans of a cluster that were made last, each with what it is known by, and how many were made. No more than eight are
/// kept, and none of more than 16,384 entries; the one that was kept first gives way to the next.
#[derive(Drop)]
pub struct KnownPlans {
    plans: Vec<KnownPlan>,
    most: usize,
    made: u64,
}

impl Model for KnownPlans {
    ghost use Rattle.tdf_dynamic_plans.specs.Known.{AreFew, PlansOf};

    ghost Value = { PlansOf };

    ghost view = { λ a. record { plans = a.plans.items; most = a.most; made = a.made } };

    ghost invariant = { λ a. AreFew (record { plans = a.plans.items; most = a.most; made = a.made }) };
}

impl KnownPlans {
    /// None yet. Plans are kept where the table can change. It takes no memory.
    pub fn new(alloc: Global, changes: bool) -> KnownPlans
        ensures plans { result.plans ≡ [] }
        ensures most { result.most ≡ (if changes then 8 else 0) }
        ensures made { result.made ≡ 0 }
    {
        KnownPlans {
            plans: Vec::new(alloc),
            most: if changes { MOST_PLANS } else { 0 },
            made: 0,
        }
    }

    /// All that are kept, for the table that comes after this one. It takes no memory.
    pub fn take(&mut self, alloc: Global) -> KnownPlans
        ensures all { result ≡ self.old }
        ensures rest { self.new ≡ record self.old { plans = [] } }
    {
        let rest = KnownPlans {
            plans: Vec::new(alloc),
            most: self.most,
            made: self.made,
        };
        std::mem::replace(self, rest)
    }

    /// How often a plan was made; a number that is the greatest stays.
    pub fn plannings(&self) -> u64
        ensures { result ≡ self.now.made }
    {
        self.made
    }

    /// The place of the plan that is known by the key of a table. It takes no memory.
    pub fn find(&self, table: &[ModuleAttrs]) -> Option<usize>
        ensures known { IfSome result (IsKnownAt self.now.plans (table_key table.now)) }
        ensures none { result ≡ None → IsKnown self.now.plans (table_key table.now) → ⊥ }
    {
        found_in(&self.plans, table)
    }

    /// The counts and steps of the plan at a place.
    pub fn timing(&self, place: usize) -> &Timing
        requires { place < length self.now.plans }
        ensures { (known : Known) → slice_get self.now.plans place ≡ Some known
            → (result.now.counts.items ≡ known.counts) × (result.now.steps ≡ known.steps) }
    {
        let known = &self.plans[place];
        &known.timing
    }

    /// A copy of the plan at a place.
    ///
    /// # Errors
    /// Out of memory.
    pub fn plan(&self, alloc: Global, place: usize) -> Result<Plan, Memory>
        requires { place < length self.now.plans }
        ensures { IfOk result (λ plan. (known : Known)
            → slice_get self.now.plans place ≡ Some known → HasSameItems known.plan plan) }
    {
        let known = &self.plans[place];
        copy_of(alloc, &known.plan)
    }

    /// Keeps a plan that was made, if it is short enough.
    ///
    /// # Errors
    /// Out of memory.
    pub fn keep(
        &mut self,
        alloc: Global,
        table: &[ModuleAttrs],
        timing: Timing,
        plan: &Plan,
    ) -> Result<(), Memory>
        ensures kept { OnOk result (HasKept (table_key table.now) timing.counts.items timing.steps
            plan.now self.old self.new) }
        ensures made { OnOk result (self.new.made ≡ min (self.old.made + 1) (2 ^ 64 - 1)) }
        ensures most { self.new.most ≡ self.old.most }
    {
        self.made = self.made.saturating_add(1);
        if self.most == 0 || plan.entries.len() > MOST_ENTRIES {
            drop(timing);
            return Ok(());
        }
        match known_plan(alloc, table, timing, plan) {
            Ok(known) => {
                make_room(&mut self.plans, self.most);
                self.plans.push(known)?;
                Ok(())
            }
            Err(refused) => Err(refused),
        }
    }
}
