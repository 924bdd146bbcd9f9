//! The boundaries of all clusters at a time, in order of number.

use tdf_base::Fault;

/// How a part of an instant ended.
#[derive(Drop)]
pub enum Pass {
    /// All have had their turns.
    Done,
    /// More turns were needed than were left.
    Spent,
    /// What the modules of a cluster ask for at its boundary has a fault.
    Stopped {
        /// The number of the cluster, from 1.
        cluster: u32,
        /// The first fault. It is in a box, so that an answer is short.
        fault: Box<Fault>,
    },
}

/// What came of the turn of a cluster.
#[derive(Drop)]
pub(crate) enum Turn {
    /// Its period goes on, or the next one began with the same plan.
    Kept,
    /// The next period began with a new plan.
    Planned,
    /// No turn is left.
    Spent,
    /// What its modules ask for has a fault.
    Refused(Box<Fault>),
}

ghost use Rattle.std.specs.Prelude.{◌≡◌, ◌⊎◌, ◌≤◌, ◌+◌, ◌-◌, ◌++◌, ◌∷◌, ℕ, [], false, true, length, IfErr, IfOk, IfSome, IsOk, None, Ok, OnErr, OnOk, Some};
ghost use Rattle.tdf_sim_instants.specs.Crossing.{CanCross, HasCrossedBoundary, HasGoneOn, HasNoTurn, HasStopped, HaveCrossed, IsRefusedAt, NoneChanges, crossing_of, ending_at, is_ending, is_new};
ghost use Rattle.tdf_sim_instants.specs.machine.Crossing.{GoesOnBy};
ghost use Rattle.tdf_sim_instants.specs.declared.crossing.Pass.TheVariants.{Done, Spent, Stopped};
ghost use Rattle.tdf_sim_instants.specs.declared.crossing.Turn.TheVariants as came;
ghost use Rattle.std.specs.Global.{Box as BoxOf};
ghost use Rattle.tdf_base.specs.declared.faults.Fault.{Fault as FaultOf};
ghost use Rattle.tdf_dynamic.specs.declared.next.Next.{Next as NextOf};
ghost use Rattle.tdf_dynamic.specs.declared.next.Next.TheVariants.{Same};
ghost use Rattle.tdf_dynamic_plans.specs.Faults.{IsRefusal};
ghost use Rattle.tdf_sim_refinement.specs.Below.{AreTableGroups, CanInstall, ClusterOf, HasBegunPeriod, HasCrossed as HasLeft, HasNoChanges, IsClusterOf, IsSoundFlat, StandsAfter, next_offset};
ghost use Rattle.tdf_sim_history.specs.World.{Refused};
ghost use Rattle.tdf_sim_refinement.specs.Boundary.{HasAnswered, HasPassedBoundary};

use std::alloc::Global;
use tdf_base::{Memory, cluster_number};
use tdf_bind::Flat;
use tdf_dynamic::Next;
use tdf_dynamic_plans::ChangeErr;
use tdf_sim_refinement::{Cluster, TableGroups, law_boundary};

/// Whether the period of a cluster, which began at `since`, ends at a time.
fn is_ending(cluster: &Cluster, since: u64, time: u64) -> bool
    requires { since ≤ time }
    ensures { result ≡ is_ending time since cluster.now }
{
    cluster.next_offset().is_none() && time - since == cluster.period()
}

/// Whether an answer has a new plan.
fn is_new(next: &Next) -> bool
    ensures { result ≡ is_new next.now }
{
    matches!(next, Next::Changed(_, _))
}

/// The next period of a cluster begins with an answer. The answer here is whether it has a new plan.
///
/// # Errors
/// Out of memory; then nothing changes.
fn install(alloc: Global, flat: &Flat, cluster: &mut Cluster, next: Next) -> Result<bool, ChangeErr>
    requires sound { IsSoundFlat flat.now }
    requires crossed { cluster.old.crossed ≡ true }
    requires can { CanInstall flat.now cluster.old next }
    ensures same { next ≡ Same → result ≡ Ok false }
    ensures new { IfOk result (λ new. is_new next ≡ new) }
    ensures begun { OnOk result (HasBegunPeriod cluster.old next cluster.new) }
    ensures of { OnOk result (IsClusterOf flat.now cluster.new) }
    ensures stands { OnOk result (StandsAfter flat.now next cluster.old cluster.new) }
    ensures memory { IfErr result (IsRefusal (λ fault. ⊥)) }
    ensures err { OnErr result (cluster.new ≡ cluster.old) }
{
    let new = is_new(&next);
    match cluster.install(alloc, flat, next) {
        Ok(()) => Ok(new),
        Err(_) => Err(ChangeErr::Memory),
    }
}

/// The modules of a cluster say what they ask for, and its next period begins. The answer is whether it has a new plan.
///
/// # Errors
/// The first fault of what they ask for; or out of memory.
fn begin_next(
    alloc: Global,
    flat: &Flat,
    groups: &TableGroups,
    cluster: &mut Cluster,
) -> Result<bool, ChangeErr>
    requires sound { IsSoundFlat flat.now }
    requires groups { AreTableGroups flat.now.tables groups.now }
    requires of { IsClusterOf flat.now cluster.old }
    requires over { next_offset cluster.old ≡ None }
    requires going { cluster.old.crossed ≡ false }
    ensures passed { IfOk result (λ new. (next : NextOf) × (is_new next ≡ new) × (between : ClusterOf)
        × HasPassedBoundary flat.now next cluster.old between cluster.new) }
    ensures refused { IfErr result (IsRefusal (λ fault.
        HasAnswered flat.now cluster.old (Refused fault))) }
    ensures left { OnErr result (HasLeft cluster.old cluster.new) }
    ensures still { HasNoChanges flat.now.tables cluster.old.number → result ≡ Ok false }
{
    law_boundary();
    match cluster.boundary(alloc, flat, groups) {
        Ok(next) => install(alloc, flat, cluster, next),
        Err(refused) => Err(refused),
    }
}

/// The next period of a cluster begins, as its modules ask for it.
///
/// # Errors
/// Out of memory.
fn cross(
    alloc: Global,
    flat: &Flat,
    groups: &TableGroups,
    cluster: &mut Cluster,
) -> Result<Turn, Memory>
    requires sound { IsSoundFlat flat.now }
    requires groups { AreTableGroups flat.now.tables groups.now }
    requires of { IsClusterOf flat.now cluster.old }
    requires over { next_offset cluster.old ≡ None }
    requires going { cluster.old.crossed ≡ false }
    ensures kept { result ≡ Ok came.Kept → (next : NextOf) × (is_new next ≡ false) × (between : ClusterOf)
        × HasPassedBoundary flat.now next cluster.old between cluster.new }
    ensures planned { result ≡ Ok came.Planned → (next : NextOf) × (is_new next ≡ true) × (between : ClusterOf)
        × HasPassedBoundary flat.now next cluster.old between cluster.new }
    ensures turns { result ≡ Ok came.Spent → ⊥ }
    ensures refused { (fault : BoxOf FaultOf) → result ≡ Ok (came.Refused fault)
        → HasAnswered flat.now cluster.old (Refused fault.value) × HasLeft cluster.old cluster.new }
    ensures still { HasNoChanges flat.now.tables cluster.old.number → result ≡ Ok came.Kept }
{
    match begin_next(alloc, flat, groups, cluster) {
        Ok(true) => Ok(Turn::Planned),
        Ok(false) => Ok(Turn::Kept),
        Err(ChangeErr::Refused(fault)) => Ok(Turn::Refused(Box::new(alloc, fault)?)),
        Err(ChangeErr::Memory) => Err(Memory),
    }
}

/// The boundary of a cluster, if its period ends at this time: it takes a turn.
///
/// # Errors
/// Out of memory.
fn cross_turn(
    alloc: Global,
    flat: &Flat,
    groups: &TableGroups,
    time: u64,
    since: &mut u64,
    cluster: &mut Cluster,
    left: &mut u64,
) -> Result<Turn, Memory>
    requires sound { IsSoundFlat flat.now }
    requires groups { AreTableGroups flat.now.tables groups.now }
    requires begun { since.old ≤ time }
    requires of { IsClusterOf flat.now cluster.old }
    requires going { cluster.old.crossed ≡ false }
    ensures idle { is_ending time since.old cluster.old ≡ false → result ≡ Ok came.Kept }
    ensures stays { is_ending time since.old cluster.old ≡ false
        → HasGoneOn time (ending_at since.old since.new cluster.old cluster.new) left.old left.new }
    ensures crossed { is_ending time since.old cluster.old ≡ true → result ≡ Ok came.Kept
        → HasCrossedBoundary flat.now time false (ending_at since.old since.new cluster.old cluster.new)
        left.old left.new }
    ensures planned { result ≡ Ok came.Planned
        → HasCrossedBoundary flat.now time true (ending_at since.old since.new cluster.old cluster.new)
        left.old left.new }
    ensures over { result ≡ Ok came.Spent → is_ending time since.old cluster.old ≡ true }
    ensures spent { result ≡ Ok came.Spent → left.old ≡ 0 }
    ensures same { result ≡ Ok came.Spent → (cluster.new ≡ cluster.old) × (since.new ≡ since.old)
        × (left.new ≡ left.old) }
    ensures refused { (fault : BoxOf FaultOf) → result ≡ Ok (came.Refused fault)
        → IsRefusedAt flat.now time fault.value since.old cluster.old cluster.new left.old }
    ensures taken { (fault : BoxOf FaultOf) → result ≡ Ok (came.Refused fault)
        → (since.new ≡ time) × (left.new ≡ left.old - 1) }
    ensures still { HasNoChanges flat.now.tables cluster.old.number
        → (result ≡ Ok came.Kept) ⊎ (result ≡ Ok came.Spent) }
{
    if !is_ending(cluster, *since, time) {
        return Ok(Turn::Kept);
    }
    if *left == 0 {
        return Ok(Turn::Spent);
    }
    *left -= 1;
    *since = time;
    cross(alloc, flat, groups, cluster)
}

/// One cluster more that got a new plan.
///
/// # Errors
/// Out of memory.
fn put(planned: &mut Vec<usize>, place: usize) -> Result<Option<Pass>, Memory>
    ensures on { IfOk result (λ ended. ended ≡ None) }
    ensures put { IfOk result (λ ended. planned.new.items ≡ planned.old.items ++ place ∷ []) }
{
    match planned.push(place) {
        Ok(()) => Ok(None),
        Err(_) => Err(Memory),
    }
}

/// How it ends where the modules of the cluster at a place ask for what has a fault.
///
/// # Errors
/// Out of memory.
fn stopped(place: usize, fault: Box<Fault>) -> Result<Option<Pass>, Memory>
    ensures { IfOk result (λ ended. (number : ℕ) × (number ≡ place + 1)
        × (ended ≡ Some (Stopped number fault))) }
{
    match cluster_number(place) {
        Ok(cluster) => Ok(Some(Pass::Stopped { cluster, fault })),
        Err(failed) => {
            drop(fault);
            Err(failed)
        }
    }
}

/// What the turn of the cluster at a place is to the pass: how it ends there, or nothing where it goes on.
///
/// # Errors
/// Out of memory.
fn noted(planned: &mut Vec<usize>, place: usize, turn: Turn) -> Result<Option<Pass>, Memory>
    ensures on { result ≡ Ok None → GoesOnBy turn place planned.old.items planned.new.items }
    ensures spent { result ≡ Ok (Some Spent) → turn ≡ came.Spent }
    ensures stopped { (number : ℕ) (fault : BoxOf FaultOf) → result ≡ Ok (Some (Stopped number fault))
        → (turn ≡ came.Refused fault) × (number ≡ place + 1) }
    ensures done { result ≡ Ok (Some Done) → ⊥ }
    ensures kept { IfOk result (λ ended. IfSome ended (λ _. planned.new.items ≡ planned.old.items)) }
    ensures never { (turn ≡ came.Kept) ⊎ (turn ≡ came.Spent) → IsOk result }
    ensures unplanned { (turn ≡ came.Kept) ⊎ (turn ≡ came.Spent) → planned.new.items ≡ planned.old.items }
{
    match turn {
        Turn::Kept => Ok(None),
        Turn::Planned => put(planned, place),
        Turn::Spent => Ok(Some(Pass::Spent)),
        Turn::Refused(fault) => stopped(place, fault),
    }
}

/// Gives each cluster its boundary, if its period ends at this time, for one of the turns that are left, in order of number.
/// `planned` gains the places of those that got a new plan. The things of the model by cluster are given.
///
/// # Errors
/// Out of memory; only where some cluster's modules may change attributes.
pub fn cross_all(
    alloc: Global,
    flat: &Flat,
    groups: &TableGroups,
    time: u64,
    since: &mut Vec<u64>,
    clusters: &mut Vec<Cluster>,
    planned: &mut Vec<usize>,
    left: &mut u64,
) -> Result<Pass, Memory>
    requires sound { IsSoundFlat flat.now }
    requires groups { AreTableGroups flat.now.tables groups.now }
    requires can { CanCross flat.now time
        (crossing_of clusters.old.items since.old.items left.old planned.old.items) }
    ensures all { result ≡ Ok Done → HaveCrossed flat.now time (length clusters.old.items)
        (crossing_of clusters.old.items since.old.items left.old planned.old.items)
        (crossing_of clusters.new.items since.new.items left.new planned.new.items) }
    ensures part { result ≡ Ok Spent → HasNoTurn flat.now time
        (crossing_of clusters.old.items since.old.items left.old planned.old.items)
        (crossing_of clusters.new.items since.new.items left.new planned.new.items) }
    ensures stopped { (number : ℕ) (fault : BoxOf FaultOf) → result ≡ Ok (Stopped number fault)
        → HasStopped flat.now time number fault.value
        (crossing_of clusters.old.items since.old.items left.old planned.old.items)
        (crossing_of clusters.new.items since.new.items left.new planned.new.items) }
    ensures never { NoneChanges flat.now clusters.old.items → IsOk result }
    ensures unplanned { NoneChanges flat.now clusters.old.items
        → planned.new.items ≡ planned.old.items }
{
    for n in 0..clusters.len() {
        let turn = cross_turn(
            alloc,
            flat,
            groups,
            time,
            &mut since[n],
            &mut clusters[n],
            left,
        )?;
        if let Some(ended) = noted(planned, n, turn)? {
            return Ok(ended);
        }
    }
    Ok(Pass::Done)
}
