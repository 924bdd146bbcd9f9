//! A run that goes on from a snapshot.

ghost use Rattle.std.specs.Prelude.{◌≡◌, ◌-◌, ◌↔◌, [], true, Err, IfOk, IsOk, List};
ghost use Rattle.tdf_dynamic_first.specs.declared.first.First.{First};
ghost use Rattle.tdf_events.specs.State.{IsKernelState};
ghost use Rattle.tdf_lang_tree.specs.Pure.{PureTree};
ghost use Rattle.tdf_saved.specs.declared.err.StateErr.TheVariants as why;
ghost use Rattle.tdf_sim_instants.specs.InstantLaws.{IsModelOf};
ghost use Rattle.tdf_sim_runs.specs.Reopened.{CanReopen, kind_saved};
ghost use Rattle.tdf_sim_runs.specs.machine.Standing.{IsStanding};
ghost use Rattle.tdf_sim_shown.specs.Below.{ArePlansOf, HasMembersOf, HasTimesOf, IsNotMade, IsValid, resumed_world, rows_from_saved};
ghost use Rattle.tdf_sim_runs.specs.Running.{CanGoOn, IsRunningAt};
ghost use Rattle.tdf_sim_runs.specs.Runs.{model_about};
ghost use Rattle.tdf_trace.specs.declared.stage.Stage.TheVariants.{Open};

use crate::ready::{Standing, stand};
use crate::running::Running;
use std::alloc::Global;
use tdf_bind::Flat;
use tdf_events::Kernel;
use tdf_saved::{Snapshot, StateErr};
use tdf_sim_instants::Engine;
use tdf_sim_shown::{
    Clock, has_members, has_times, law_can, law_restored, law_resumed, shown_from_columns,
};
use tdf_trace_rows::TraceKind;

/// The kind of a trace.
fn kind_of(vcd: bool) -> TraceKind
    ensures { result ≡ kind_saved vcd }
{
    if vcd {
        TraceKind::Vcd
    } else {
        TraceKind::Table
    }
}

/// Whether the times of a snapshot are those of a run, and there is a state for each cluster and each trace.
fn has_both(flat: &Flat, snapshot: &Snapshot) -> bool
    ensures { (result ≡ true) ↔ (HasTimesOf snapshot.now × HasMembersOf flat.now snapshot.now) }
{
    has_times(snapshot) && has_members(flat, snapshot)
}

/// A run goes on with what stands by a snapshot.
fn opened(
    alloc: Global,
    flat: &Flat,
    snapshot: Snapshot,
    standing: Standing,
) -> Result<Running, StateErr>
    requires can { CanReopen flat.now }
    requires times { HasTimesOf snapshot }
    requires members { HasMembersOf flat.now snapshot }
    requires stands { IsStanding flat.now snapshot standing }
    ensures can { IfOk result (CanGoOn flat.now) }
    ensures from { IfOk result (λ run. run.from ≡ snapshot.time) }
    ensures left { IfOk result (λ run. run.left ≡ snapshot.budget - snapshot.used) }
    ensures upto { IfOk result (λ run. run.shown.trace.rows.upto ≡ standing.rows) }
    ensures stage { IfOk result (λ run. run.shown.trace.stage ≡ Open) }
    ensures about { IfOk result (λ run.
        run.shown.trace.about ≡ model_about (kind_saved snapshot.vcd) flat.now) }
    ensures news { IfOk result (λ run. run.news.items ≡ []) }
    ensures plans { IsOk result → (firsts : List First) × ArePlansOf flat.now snapshot firsts }
    ensures valid { (model : PureTree) (firsts : List First) → IsModelOf model flat.now
        → ArePlansOf flat.now snapshot firsts → IsOk result
        → IsValid model flat.now firsts snapshot }
    ensures runs { (model : PureTree) (firsts : List First) → IsModelOf model flat.now
        → ArePlansOf flat.now snapshot firsts → IfOk result
        (IsRunningAt model flat.now (resumed_world model flat.now firsts snapshot []) []) }
    ensures bad { result ≡ Err why.Bad → (model : PureTree) (firsts : List First)
        → IsModelOf model flat.now → IsValid model flat.now firsts snapshot → ⊥ }
{
    law_restored();
    law_resumed();
    law_can();
    let kernel = match Kernel::from_state(alloc, flat, snapshot.kernel, snapshot.time) {
        Ok(kernel) => kernel,
        Err(error) => return Err(error),
    };
    let clock = Clock {
        time: snapshot.time,
        since: &standing.since,
        clusters: &standing.clusters,
    };
    let shown = match shown_from_columns(
        alloc,
        flat,
        kind_of(snapshot.vcd),
        snapshot.columns,
        kernel.values(),
        &clock,
        standing.rows,
    ) {
        Ok(shown) => shown,
        Err(error) => return Err(error),
    };
    let engine = Engine::from_parts(alloc, flat, standing.since, standing.clusters, kernel)?;
    Ok(Running {
        engine,
        shown,
        from: snapshot.time,
        left: snapshot.budget - snapshot.used,
        news: Vec::new(alloc),
    })
}

/// A run that goes on from a snapshot, with the turns that are left of its budget: nothing is due in it before the time of the snapshot,
/// its rows are to be written from the time on that the snapshot says, and no news are held. It goes on from the world that the snapshot
/// says, under the plans of the tables that this says.
///
/// # Errors
/// Bad exactly where the snapshot isn't valid, or out of memory.
pub fn restored_run(alloc: Global, flat: &Flat, snapshot: Snapshot) -> Result<Running, StateErr>
    requires can { CanReopen flat.now }
    ensures can { IfOk result (CanGoOn flat.now) }
    ensures from { IfOk result (λ run. run.from ≡ snapshot.time) }
    ensures left { IfOk result (λ run. run.left ≡ snapshot.budget - snapshot.used) }
    ensures upto { (model : PureTree) (firsts : List First) → IsModelOf model flat.now
        → ArePlansOf flat.now snapshot firsts → IfOk result (λ run.
        run.shown.trace.rows.upto ≡ rows_from_saved model flat.now firsts snapshot) }
    ensures stage { IfOk result (λ run. run.shown.trace.stage ≡ Open) }
    ensures about { IfOk result (λ run.
        run.shown.trace.about ≡ model_about (kind_saved snapshot.vcd) flat.now) }
    ensures news { IfOk result (λ run. run.news.items ≡ []) }
    ensures plans { IsOk result → (firsts : List First) × ArePlansOf flat.now snapshot firsts }
    ensures valid { (model : PureTree) (firsts : List First) → IsModelOf model flat.now
        → ArePlansOf flat.now snapshot firsts → IsOk result
        → IsValid model flat.now firsts snapshot }
    ensures runs { (model : PureTree) (firsts : List First) → IsModelOf model flat.now
        → ArePlansOf flat.now snapshot firsts → IfOk result
        (IsRunningAt model flat.now (resumed_world model flat.now firsts snapshot []) []) }
    ensures bad { result ≡ Err why.Bad → (model : PureTree) (firsts : List First)
        → IsModelOf model flat.now → IsValid model flat.now firsts snapshot → ⊥ }
    ensures bad_always { (model : PureTree) → IsModelOf model flat.now
        → ((firsts : List First) → IsValid model flat.now firsts snapshot → ⊥)
        → IsNotMade result }
{
    law_restored();
    law_can();
    if !has_both(flat, &snapshot) {
        drop(snapshot);
        return Err(StateErr::Bad);
    }
    let standing = match stand(alloc, flat, &snapshot) {
        Ok(standing) => standing,
        Err(error) => {
            drop(snapshot);
            return Err(error);
        }
    };
    opened(alloc, flat, snapshot, standing)
}
