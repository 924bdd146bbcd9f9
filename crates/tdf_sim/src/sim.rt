//! A model that was accepted.

ghost use Rattle.std.specs.Prelude.{◌≡◌, ◌+◌, ◌<◌, ◌≤◌, ◌⊎◌, ◌++◌, ◌∷◌, [], Err, IfErr, IfOk, OnErr, OnOk, ℕ, length, map, slice_get, Some, take};
ghost use Rattle.tdf_base.specs.declared.faults.Fault.{Fault};
ghost use Rattle.tdf_bind_tables.specs.Ranges.{AreInRange};
ghost use Rattle.tdf_cluster_plans.specs.Groups.{AreTableGroups};
ghost use Rattle.tdf_dynamic_first.specs.First.{IsFirstPlan, IsPlannable};
ghost use Rattle.tdf_dynamic_plans.specs.Rates.{IsWired};
ghost use Rattle.tdf_sim.specs.Accepted.{ArePlans, IsPlansRefusal};
ghost use Rattle.tdf_sim.specs.FirstFault.{IsPlansFault, cluster_count};
ghost use Rattle.tdf_sim.specs.PlanText.{IsPrintable, cluster_text, clusters_text, plan_rows, plans_text};
ghost use Rattle.tdf_sim.specs.declared.err.SimErr.TheVariants as why;
ghost use Rattle.tdf_sim.specs.machine.Steps.{HavePlans, IsFirstRefusal};

use crate::err::SimErr;
use crate::laws::law_plans_fault;
use std::alloc::Global;
use tdf_base::{Memory, Resolution};
use tdf_bind::Flat;
use tdf_cluster_plans::TableGroups;
use tdf_dynamic_first::{First, first_plan, law_numbers};
use tdf_dynamic_plans::ChangeErr;
use tdf_dynamic_texts::{push_fires, push_plan};

/// A model that was accepted, before its run: its flat model, and for each cluster its attributes and its plan.
#[derive(Drop)]
pub struct Sim {
    /// The flat model.
    pub flat: Flat,
    /// The attributes of each cluster and its plan under them, in order.
    pub firsts: Vec<First>,
}

/// The plan of a cluster.
///
/// # Errors
/// Its first fault, or out of memory.
fn plan_of(alloc: Global, flat: &Flat, groups: &TableGroups, cluster: u32) -> Result<First, SimErr>
    requires plannable { IsPlannable flat.now }
    requires groups { AreTableGroups flat.now.tables groups.now }
    requires cluster { (1 ≤ cluster) × (cluster ≤ cluster_count flat.now.tables) }
    ensures plan { IfOk result (IsFirstPlan flat.now cluster) }
    ensures refused { IfErr result (IsFirstRefusal flat.now cluster) }
{
    law_numbers();
    match first_plan(alloc, flat, groups, cluster) {
        Ok(first) => Ok(first),
        Err(ChangeErr::Refused(fault)) => Err(SimErr::Refused(fault)),
        Err(ChangeErr::Memory) => Err(SimErr::Memory),
    }
}

/// One plan more.
///
/// # Errors
/// Out of memory.
fn put(firsts: &mut Vec<First>, first: First) -> Result<(), SimErr>
    ensures put { OnOk result (firsts.new.items ≡ firsts.old.items ++ first ∷ []) }
    ensures memory { IfErr result (λ error. error ≡ why.Memory) }
{
    match firsts.push(first) {
        Ok(()) => Ok(()),
        Err(_) => Err(SimErr::Memory),
    }
}

/// The plan of the next cluster.
///
/// # Errors
/// The first fault of the cluster, or out of memory.
fn push_next(
    alloc: Global,
    flat: &Flat,
    groups: &TableGroups,
    cluster: u32,
    firsts: &mut Vec<First>,
) -> Result<(), SimErr>
    requires plannable { IsPlannable flat.now }
    requires groups { AreTableGroups flat.now.tables groups.now }
    requires within { cluster ≤ cluster_count flat.now.tables }
    requires next { length firsts.old.items + 1 ≡ cluster }
    requires plans { HavePlans flat.now firsts.old.items }
    ensures next { OnOk result (length firsts.new.items ≡ cluster) }
    ensures plans { OnOk result (HavePlans flat.now firsts.new.items) }
    ensures refused { IfErr result (IsPlansRefusal flat.now) }
{
    match plan_of(alloc, flat, groups, cluster) {
        Ok(first) => put(firsts, first),
        Err(error) => Err(error),
    }
}

/// The plans of all clusters, in order.
///
/// # Errors
/// The first fault of the first cluster that has one, or out of memory.
fn plans_of(alloc: Global, flat: &Flat) -> Result<Vec<First>, SimErr>
    requires plannable { IsPlannable flat.now }
    ensures plans { IfOk result (λ firsts. ArePlans flat.now firsts.items) }
    ensures refused { IfErr result (IsPlansRefusal flat.now) }
{
    let groups = match TableGroups::of(alloc, &flat.tables, flat.cluster_count()) {
        Ok(groups) => groups,
        Err(_) => return Err(SimErr::Memory),
    };
    let mut firsts = Vec::new(alloc);
    for made in 0..flat.cluster_count() {
        if let Err(error) = push_next(alloc, flat, &groups, made + 1, &mut firsts) {
            drop(firsts);
            return Err(error);
        }
    }
    Ok(firsts)
}

/// Appends the plan of a cluster with its firings.
fn push_cluster(
    out: &mut Vec<u8>,
    flat: &Flat,
    groups: &TableGroups,
    cluster: u32,
    first: &First,
) -> Result<(), Memory>
    requires range { AreInRange flat.now.tables }
    requires groups { AreTableGroups flat.now.tables groups.now }
    requires plan { IsFirstPlan flat.now cluster first.now }
    ensures { OnOk result (out.new.items ≡ out.old.items
        ++ cluster_text flat.now.resolution flat.now.tables cluster (Some (plan_rows first.now))) }
{
    push_plan(
        out,
        &flat.tables,
        groups,
        cluster,
        0,
        &first.plan,
        flat.resolution,
    )?;
    push_fires(out, &flat.tables, &first.plan, flat.resolution)
}

/// The plan at a place.
fn first_at(firsts: &Vec<First>, place: usize) -> &First
    requires { place < length firsts.now.items }
    ensures { slice_get firsts.now.items place ≡ Some result.now }
{
    &firsts[place]
}

/// Appends the plans of all clusters, in order.
#[tactic(auto, unfolding(crate::specs::PlanText::clusters_text))]
fn push_clusters(out: &mut Vec<u8>, flat: &Flat, firsts: &Vec<First>) -> Result<(), Memory>
    requires wired { IsWired flat.now.tables }
    requires plans { ArePlans flat.now firsts.now.items }
    ensures { OnOk result (out.new.items ≡ out.old.items
        ++ clusters_text flat.now.resolution flat.now.tables (map plan_rows firsts.now.items)) }
{
    let groups = TableGroups::of(*out.allocator(), &flat.tables, flat.cluster_count())?;
    for made in 0..flat.cluster_count() {
        push_cluster(
            out,
            flat,
            &groups,
            made + 1,
            first_at(firsts, made as usize),
        )?;
    }
    Ok(())
}

impl Sim {
    /// The model that runs a flat model: each cluster has its plan.
    ///
    /// # Errors
    /// The first fault of the first cluster that has one; or out of memory.
    pub fn new(alloc: Global, flat: Flat) -> Result<Sim, SimErr>
        requires plannable { IsPlannable flat }
        ensures own { IfOk result (λ sim. sim.flat ≡ flat) }
        ensures plans { IfOk result (λ sim. ArePlans sim.flat sim.firsts.items) }
        ensures refused { IfErr result (IsPlansRefusal flat) }
        ensures always { (fault : Fault) → IsPlansFault flat fault
            → (result ≡ Err (why.Refused fault)) ⊎ (result ≡ Err why.Memory) }
    {
        law_plans_fault();
        match plans_of(alloc, &flat) {
            Ok(firsts) => Ok(Sim { flat, firsts }),
            Err(error) => {
                drop(flat);
                Err(error)
            }
        }
    }

    /// The unit of all times of the model, in which stops are counted. It takes no memory.
    pub fn resolution(&self) -> Resolution
        ensures { result ≡ self.now.flat.resolution }
    {
        self.flat.resolution()
    }

    /// The number of clusters. It takes no memory.
    pub fn cluster_count(&self) -> u32
        ensures { result ≡ cluster_count self.now.flat.tables }
    {
        self.flat.cluster_count()
    }

    /// Appends the plans of all clusters, each with its firings.
    ///
    /// # Errors
    /// Out of memory; then nothing was appended.
    pub fn push_plan(&self, out: &mut Vec<u8>) -> Result<(), Memory>
        requires printable { IsPrintable self.now }
        ensures whole { OnOk result (out.new.items ≡ out.old.items ++ plans_text self.now) }
        ensures part { OnErr result ((n : ℕ)
            × (out.new.items ≡ out.old.items ++ take n (plans_text self.now))) }
        ensures kept { OnErr result (out.new.items ≡ out.old.items) }
    {
        let mut text = Vec::new(*out.allocator());
        push_clusters(&mut text, &self.flat, &self.firsts)?;
        out.extend_from_slice(&text)?;
        Ok(())
    }
}
