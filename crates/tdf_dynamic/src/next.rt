//! What a boundary of a cluster leads to.

ghost use Rattle.std.specs.Prelude.{◌≡◌, ◌≤◌, ℕ, List, All, Contains, Some, Ok, Err, IfOk, IfErr, IsOk, OnOk, OnErr, length};
ghost use Rattle.std.specs.Vec.{vec_capacity};
ghost use Rattle.tdf_base.specs.declared.codes.Code.TheVariants as code;
ghost use Rattle.tdf_cluster_plans.specs.Groups.{AreTableGroups};
ghost use Rattle.tdf_cluster_plans.specs.Own.{IsNetOfCluster};
ghost use Rattle.tdf_dynamic.specs.Change.{fault_of_row, table_after};
ghost use Rattle.tdf_dynamic.specs.Given.{AreFramesOf, IsOfText, IsPlanned, WhenAsked};
ghost use Rattle.tdf_dynamic.specs.Next.{AnswersAsks, HaveChanged, IsCarried};
ghost use Rattle.tdf_dynamic.specs.machine.Asking.{AllTell};
ghost use Rattle.tdf_dynamic.specs.machine.Boundary.{IsFound, IsRefusedAt, IsTableRefused, NoneMarks};
ghost use Rattle.tdf_dynamic.specs.machine.Judging.{IsJudged, IsJudgedFault, IsRejection, IsUnrejected};
ghost use Rattle.tdf_dynamic.specs.machine.Rows.{AreAfter, HoldsBelow, IsFirstPlace, IsRefusing};
ghost use Rattle.tdf_dynamic_plans.specs.Attributes.{AttrsOf, IsOfCluster, clusters_of};
ghost use Rattle.tdf_dynamic_plans.specs.Faults.{HasTiming, IsRefusal, IsStepsFault};
ghost use Rattle.tdf_dynamic_plans.specs.Known.{AreTrueFor, HasTablePlanned, IsKnown, IsKnownAt, table_key};
ghost use Rattle.tdf_dynamic_plans.specs.Rates.{AreRates, IsWired, net_of, net_ports};
ghost use Rattle.tdf_dynamic_plans.specs.declared.err.ChangeErr.TheVariants.{Refused};
ghost use Rattle.tdf_dynamic.specs.declared.next.Next.TheVariants.{Same};
ghost use Rattle.tdf_streams.specs.Below.{AreWithinLimits};
ghost use Rattle.tdf_streams.specs.Periods.{AreAttributes};

use crate::asking::run_changes;
use crate::frames::{Frames, Instance};
use crate::laws::law_one_answer;
use crate::rejecting::{first_rejecting, take_all};
use crate::tables::{first_marked, is_same, set_flags, table_after};
use std::alloc::Global;
use tdf_balance::law_counts;
use tdf_base::{Code, Fault, Place};
use tdf_bind::Flat;
use tdf_cluster_net::ClusterNet;
use tdf_cluster_plans::{TableGroups, cluster_timing, make_plan, own_net};
use tdf_dynamic_plans::{Attrs, ChangeErr, KnownPlans, ModuleAttrs, Timing, module_path};
use tdf_schedule::Plan;

/// What a boundary of a cluster leads to.
#[derive(Drop)]
pub enum Next {
    /// No module differs, and the plan stays.
    Same,
    /// The new table, and the plan under it.
    Changed(Attrs, Plan),
}

/// A fault at the path of a module.
fn module_fault(alloc: Global, flat: &Flat, why: Code, attrs: &ModuleAttrs) -> ChangeErr
    ensures { IsRefusal (λ fault. fault_of_row flat.now.tables why attrs.now ≡ Some fault) result }
{
    match module_path(alloc, &flat.tables, attrs.number) {
        Ok(path) => ChangeErr::Refused(Fault {
            code: why,
            place: Place::At(path),
        }),
        Err(_) => ChangeErr::Memory,
    }
}

/// A boundary of a cluster, after the change bodies of its modules have run.
#[derive(Clone, Copy)]
struct Boundary<'a> {
    flat: &'a Flat,
    /// The things of the model by cluster.
    groups: &'a TableGroups,
    cluster: u32,
    /// The attributes in force.
    table: &'a [ModuleAttrs],
    frames: &'a [Instance],
}

/// Whether no module rejects a new table with this timing, or the fault that one does. The timing of the table in force is given.
fn accepted(
    alloc: Global,
    at: &Boundary,
    old: &Timing,
    new: &[ModuleAttrs],
    timing: &Timing,
) -> Result<(), ChangeErr>
    requires rates { AreRates at.now.flat.now.tables at.now.table.now }
    requires tells { AllTell at.now.flat.now at.now.table.now at.now.frames.now }
    requires new_rates { AreRates at.now.flat.now.tables new.now }
    ensures none { OnOk result (HoldsBelow (λ attrs f. IsRefusing (net_ports at.now.flat.now.tables at.now.table.now) (net_ports at.now.flat.now.tables new.now) old.now.steps timing.now.steps attrs f → ⊥)
        at.now.table.now at.now.frames.now (length at.now.table.now)) }
    ensures refused { IfErr result (IsRefusal (λ fault. (k : ℕ)
        × (first : IsFirstPlace (IsRefusing (net_ports at.now.flat.now.tables at.now.table.now) (net_ports at.now.flat.now.tables new.now) old.now.steps timing.now.steps) at.now.table.now at.now.frames.now k)
        × (fault_of_row at.now.flat.now.tables code.Rejected first.one ≡ Some fault))) }
{
    let table = at.table;
    match first_rejecting(at.flat, table, new, at.frames, &old.steps, &timing.steps) {
        None => Ok(()),
        Some(place) => Err(module_fault(alloc, at.flat, Code::Rejected, &table[place])),
    }
}

/// The counts and steps under the attributes in force, found anew.
fn timing_of(alloc: Global, at: &Boundary) -> Result<Timing, ChangeErr>
    requires wired { IsWired at.now.flat.now.tables }
    requires groups { AreTableGroups at.now.flat.now.tables at.now.groups.now }
    requires has { Contains (clusters_of at.now.flat.now.tables) at.now.cluster }
    requires table { All (IsOfCluster at.now.flat.now.tables at.now.cluster) at.now.table.now }
    requires rates { AreRates at.now.flat.now.tables at.now.table.now }
    ensures timing { IfOk result (λ t. HasTiming at.now.flat.now.tables (net_of at.now.flat.now.tables at.now.table.now) at.now.cluster at.now.table.now t.counts.items t.steps) }
    ensures refused { IfErr result (IsRefusal (IsStepsFault at.now.flat.now.tables (net_of at.now.flat.now.tables at.now.table.now) at.now.cluster at.now.table.now)) }
{
    let tables = &at.flat.tables;
    let own = own_net(alloc, tables, at.groups, at.cluster, at.table)?;
    let found = cluster_timing(alloc, tables, &own, at.cluster, at.table);
    drop(own);
    found
}

/// The counts and steps under the attributes in force: those of the plan that is known, else found anew.
fn old_timing(alloc: Global, at: &Boundary, known: &KnownPlans) -> Result<Timing, ChangeErr>
    requires wired { IsWired at.now.flat.now.tables }
    requires groups { AreTableGroups at.now.flat.now.tables at.now.groups.now }
    requires has { Contains (clusters_of at.now.flat.now.tables) at.now.cluster }
    requires table { All (IsOfCluster at.now.flat.now.tables at.now.cluster) at.now.table.now }
    requires rates { AreRates at.now.flat.now.tables at.now.table.now }
    requires known { AreTrueFor at.now.flat.now.tables at.now.cluster known.now.plans }
    ensures timing { IfOk result (λ t. HasTiming at.now.flat.now.tables (net_of at.now.flat.now.tables at.now.table.now) at.now.cluster at.now.table.now t.counts.items t.steps) }
    ensures refused { IfErr result (IsRefusal (IsStepsFault at.now.flat.now.tables (net_of at.now.flat.now.tables at.now.table.now) at.now.cluster at.now.table.now)) }
{
    match known.find(at.table) {
        Some(place) => Ok(known.timing(place).copy(alloc)?),
        None => timing_of(alloc, at),
    }
}

/// Whether no module rejects a new table with this timing, or the fault that one does.
fn unrejected(
    alloc: Global,
    at: &Boundary,
    new: &[ModuleAttrs],
    timing: &Timing,
    known: &KnownPlans,
) -> Result<(), ChangeErr>
    requires wired { IsWired at.now.flat.now.tables }
    requires groups { AreTableGroups at.now.flat.now.tables at.now.groups.now }
    requires has { Contains (clusters_of at.now.flat.now.tables) at.now.cluster }
    requires table { All (IsOfCluster at.now.flat.now.tables at.now.cluster) at.now.table.now }
    requires rates { AreRates at.now.flat.now.tables at.now.table.now }
    requires planned { IsPlanned at.now.flat.now.tables at.now.cluster at.now.table.now }
    requires tells { AllTell at.now.flat.now at.now.table.now at.now.frames.now }
    requires known { AreTrueFor at.now.flat.now.tables at.now.cluster known.now.plans }
    requires new_rates { AreRates at.now.flat.now.tables new.now }
    ensures none { OnOk result (IsUnrejected at.now.flat.now.tables at.now.cluster at.now.table.now at.now.frames.now (net_ports at.now.flat.now.tables new.now) timing.now.steps) }
    ensures refused { IfErr result (IsRefusal (IsRejection at.now.flat.now.tables at.now.cluster at.now.table.now at.now.frames.now (net_ports at.now.flat.now.tables new.now) timing.now.steps)) }
{
    law_counts();
    if take_all(at.flat, at.table, at.frames) {
        return Ok(());
    }
    match old_timing(alloc, at, known) {
        Ok(old) => accepted(alloc, at, &old, new, timing),
        Err(refused) => Err(refused),
    }
}

/// The plan of a new table that is known at a place, if no module rejects it.
fn judged_known(
    alloc: Global,
    at: &Boundary,
    new: &[ModuleAttrs],
    known: &KnownPlans,
    place: usize,
) -> Result<Plan, ChangeErr>
    requires wired { IsWired at.now.flat.now.tables }
    requires groups { AreTableGroups at.now.flat.now.tables at.now.groups.now }
    requires has { Contains (clusters_of at.now.flat.now.tables) at.now.cluster }
    requires table { All (IsOfCluster at.now.flat.now.tables at.now.cluster) at.now.table.now }
    requires rates { AreRates at.now.flat.now.tables at.now.table.now }
    requires planned { IsPlanned at.now.flat.now.tables at.now.cluster at.now.table.now }
    requires tells { AllTell at.now.flat.now at.now.table.now at.now.frames.now }
    requires known { AreTrueFor at.now.flat.now.tables at.now.cluster known.now.plans }
    requires new { All (IsOfCluster at.now.flat.now.tables at.now.cluster) new.now }
    requires new_rates { AreRates at.now.flat.now.tables new.now }
    requires here { IsKnownAt known.now.plans (table_key new.now) place }
    ensures plan { IfOk result (IsJudged at.now.flat.now.tables at.now.cluster at.now.table.now new.now at.now.frames.now) }
    ensures refused { IfErr result (IsRefusal (IsJudgedFault at.now.flat.now.tables at.now.cluster at.now.table.now new.now at.now.frames.now)) }
    ensures planned { IfOk result (λ plan. HasTablePlanned at.now.flat.now.tables at.now.cluster new.now plan known.now known.now) }
{
    match unrejected(alloc, at, new, known.timing(place), known) {
        Ok(()) => Ok(known.plan(alloc, place)?),
        Err(refused) => Err(refused),
    }
}

/// The plan of a new table that is not known and whose own net is given, if it has one and no module rejects it.
fn judged_anew(
    alloc: Global,
    at: &Boundary,
    new: &[ModuleAttrs],
    own: &ClusterNet,
    known: &mut KnownPlans,
) -> Result<Plan, ChangeErr>
    requires wired { IsWired at.now.flat.now.tables }
    requires groups { AreTableGroups at.now.flat.now.tables at.now.groups.now }
    requires has { Contains (clusters_of at.now.flat.now.tables) at.now.cluster }
    requires table { All (IsOfCluster at.now.flat.now.tables at.now.cluster) at.now.table.now }
    requires rates { AreRates at.now.flat.now.tables at.now.table.now }
    requires planned { IsPlanned at.now.flat.now.tables at.now.cluster at.now.table.now }
    requires tells { AllTell at.now.flat.now at.now.table.now at.now.frames.now }
    requires known { AreTrueFor at.now.flat.now.tables at.now.cluster known.old.plans }
    requires new { All (IsOfCluster at.now.flat.now.tables at.now.cluster) new.now }
    requires new_rates { AreRates at.now.flat.now.tables new.now }
    requires net { IsNetOfCluster at.now.flat.now.tables at.now.cluster new.now own.now }
    requires unknown { IsKnown known.old.plans (table_key new.now) → ⊥ }
    ensures plan { IfOk result (IsJudged at.now.flat.now.tables at.now.cluster at.now.table.now new.now at.now.frames.now) }
    ensures refused { IfErr result (IsRefusal (IsJudgedFault at.now.flat.now.tables at.now.cluster at.now.table.now new.now at.now.frames.now)) }
    ensures planned { IfOk result (λ plan. HasTablePlanned at.now.flat.now.tables at.now.cluster new.now plan known.old known.new) }
{
    let tables = &at.flat.tables;
    let timing = match cluster_timing(alloc, tables, own, at.cluster, new) {
        Ok(timing) => timing,
        Err(refused) => return Err(refused),
    };
    match unrejected(alloc, at, new, &timing, known) {
        Ok(()) => make_plan(alloc, tables, own, at.cluster, new, timing, known),
        Err(refused) => {
            drop(timing);
            Err(refused)
        }
    }
}

/// The plan of a new table, if it has one and no module rejects it. One that is known has no other fault.
fn judged(
    alloc: Global,
    at: &Boundary,
    new: &[ModuleAttrs],
    known: &mut KnownPlans,
) -> Result<Plan, ChangeErr>
    requires wired { IsWired at.now.flat.now.tables }
    requires groups { AreTableGroups at.now.flat.now.tables at.now.groups.now }
    requires has { Contains (clusters_of at.now.flat.now.tables) at.now.cluster }
    requires table { All (IsOfCluster at.now.flat.now.tables at.now.cluster) at.now.table.now }
    requires rates { AreRates at.now.flat.now.tables at.now.table.now }
    requires planned { IsPlanned at.now.flat.now.tables at.now.cluster at.now.table.now }
    requires tells { AllTell at.now.flat.now at.now.table.now at.now.frames.now }
    requires known { AreTrueFor at.now.flat.now.tables at.now.cluster known.old.plans }
    requires new { All (IsOfCluster at.now.flat.now.tables at.now.cluster) new.now }
    requires new_rates { AreRates at.now.flat.now.tables new.now }
    ensures plan { IfOk result (IsJudged at.now.flat.now.tables at.now.cluster at.now.table.now new.now at.now.frames.now) }
    ensures refused { IfErr result (IsRefusal (IsJudgedFault at.now.flat.now.tables at.now.cluster at.now.table.now new.now at.now.frames.now)) }
    ensures planned { IfOk result (λ plan. HasTablePlanned at.now.flat.now.tables at.now.cluster new.now plan known.old known.new) }
{
    if let Some(place) = known.find(new) {
        return judged_known(alloc, at, new, known, place);
    }
    let own = own_net(alloc, &at.flat.tables, at.groups, at.cluster, new)?;
    let judged = judged_anew(alloc, at, new, &own, known);
    drop(own);
    judged
}

/// The new table with its plan, if it has one and no module rejects it.
fn with_table(
    alloc: Global,
    flat: &Flat,
    groups: &TableGroups,
    cluster: u32,
    table: &[ModuleAttrs],
    frames: &[Instance],
    known: &mut KnownPlans,
    spare: Option<Vec<ModuleAttrs>>,
) -> Result<Next, ChangeErr>
    requires limits { AreWithinLimits flat.now }
    requires groups { AreTableGroups flat.now.tables groups.now }
    requires has { Contains (clusters_of flat.now.tables) cluster }
    requires attributes { AreAttributes flat.now cluster table.now }
    requires planned { IsPlanned flat.now.tables cluster table.now }
    requires tells { AllTell flat.now table.now frames.now }
    requires known { AreTrueFor flat.now.tables cluster known.old.plans }
    requires after { (after : List AttrsOf) → AreAfter table.now frames.now (length table.now) after → AreAttributes flat.now cluster after }
    ensures found { IfOk result (IsFound flat.now.tables cluster table.now frames.now) }
    ensures refused { IfErr result (IsRefusal (IsTableRefused flat.now.tables cluster table.now frames.now)) }
    ensures carried { IfOk result (IsCarried flat.now.tables cluster known.old known.new) }
{
    let after = table_after(alloc, flat, table, frames, spare)?;
    let at = Boundary {
        flat,
        groups,
        cluster,
        table,
        frames,
    };
    match judged(alloc, &at, &after, known) {
        Ok(plan) => Ok(Next::Changed(Attrs::new(after, known.take(alloc)), plan)),
        Err(refused) => Err(refused),
    }
}

/// The new table with its plan, where some module differs.
fn changed(
    alloc: Global,
    flat: &Flat,
    groups: &TableGroups,
    cluster: u32,
    table: &[ModuleAttrs],
    frames: &[Instance],
    known: &mut KnownPlans,
    spare: Option<Vec<ModuleAttrs>>,
) -> Result<Next, ChangeErr>
    requires limits { AreWithinLimits flat.now }
    requires groups { AreTableGroups flat.now.tables groups.now }
    requires has { Contains (clusters_of flat.now.tables) cluster }
    requires attributes { AreAttributes flat.now cluster table.now }
    requires planned { IsPlanned flat.now.tables cluster table.now }
    requires tells { AllTell flat.now table.now frames.now }
    requires known { AreTrueFor flat.now.tables cluster known.old.plans }
    requires after { (after : List AttrsOf) → AreAfter table.now frames.now (length table.now) after → AreAttributes flat.now cluster after }
    ensures unmarked { IsOk result → NoneMarks table.now frames.now }
    ensures found { IfOk result (IsFound flat.now.tables cluster table.now frames.now) }
    ensures refused { IfErr result (IsRefusal (IsRefusedAt flat.now.tables cluster table.now frames.now)) }
    ensures carried { IfOk result (IsCarried flat.now.tables cluster known.old known.new) }
{
    match first_marked(table, frames) {
        None => with_table(alloc, flat, groups, cluster, table, frames, known, spare),
        Some(place) => {
            drop(spare);
            Err(module_fault(alloc, flat, Code::Range, &table[place]))
        }
    }
}

/// What the boundary of a cluster between two periods leads to: the change bodies of its modules run, in the order of the table.
/// Where no module differs, the table has the flags that were said, and no memory is taken. Else there is a new table and its
/// plan, or the first fault, and the table stays. The things of the model by cluster are given.
///
/// # Errors
/// The first fault: of rates that are not allowed, then of counts and steps, then of a module that rejects, then of the plan.
/// Or out of memory.
pub fn next_plan(
    alloc: Global,
    flat: &Flat,
    groups: &TableGroups,
    cluster: u32,
    attrs: &mut Attrs,
    frames: &mut Frames,
) -> Result<Next, ChangeErr>
    requires limits { AreWithinLimits flat.now }
    requires text { IsOfText flat.now }
    requires groups { AreTableGroups flat.now.tables groups.now }
    requires has { Contains (clusters_of flat.now.tables) cluster }
    requires attributes { AreAttributes flat.now cluster attrs.old.rows }
    requires planned { IsPlanned flat.now.tables cluster attrs.old.rows }
    requires known { AreTrueFor flat.now.tables cluster attrs.old.known.plans }
    requires frames { AreFramesOf flat.now attrs.old.rows frames.old.modules.items }
    ensures answer { WhenAsked flat.now attrs.old.rows frames.old.modules.items (λ asks.
        AnswersAsks flat.now cluster asks attrs.old.rows attrs.new.rows result) }
    ensures kept { OnErr result (attrs.new.rows ≡ attrs.old.rows) }
    ensures carried { IfOk result (IsCarried flat.now.tables cluster attrs.old.known
        attrs.new.known) }
    ensures frames { WhenAsked flat.now attrs.old.rows frames.old.modules.items (λ asks.
        HaveChanged flat.now asks attrs.old.rows frames.new.modules.items) }
    ensures long { length frames.new.modules.items ≡ length frames.old.modules.items }
    ensures room { vec_capacity frames.old.modules ≤ vec_capacity frames.new.modules }
{
    law_one_answer();
    run_changes(flat, &attrs.rows, &mut frames.modules);
    if is_same(flat, &attrs.rows, &frames.modules) {
        set_flags(&mut attrs.rows, &frames.modules);
        return Ok(Next::Same);
    }
    let spare = attrs.spare.take();
    changed(
        alloc,
        flat,
        groups,
        cluster,
        &attrs.rows,
        &frames.modules,
        &mut attrs.known,
        spare,
    )
}
