//! The run that waits in the state whose text some bytes are.

ghost use Rattle.std.specs.Prelude.{◌≡◌, ◌⊎◌, Err, IfOk, IsErrOf};
ghost use Rattle.tdf_bind.specs.declared.model.Flat.{Flat};
ghost use Rattle.tdf_saved.specs.State.{SnapshotOf};
ghost use Rattle.tdf_saved.specs.declared.err.StateErr.TheVariants.{Bad, Memory};
ghost use Rattle.tdf_sim_runs.specs.Paused.{IsPaused};
ghost use Rattle.tdf_sim_runs.specs.Reopened.{CanReopen, kind_saved};
ghost use Rattle.tdf_sim.specs.States.{IsNoState, IsRunOf};
ghost use Rattle.tdf_sim.specs.machine.Reading.{IsNoStart, IsReadFor, IsRestored, IsRunIn, IsTextIn};

use crate::elaboration::elaborate;
use crate::err::SimErr;
use crate::laws::law_first_fault;
use crate::sim::Sim;
use crate::state_laws::law_rests_alike;
use std::alloc::Global;
use tdf_base::LONGEST_TEXT;
use tdf_bind::Flat;
use tdf_bind_invariants::law_limits;
use tdf_events_invariants::law_runnable;
use tdf_save::{law_text, text_start};
use tdf_save_reading::read_snapshot;
use tdf_saved::{Snapshot, StateErr};
use tdf_sim_runs::{Paused, restored_run};
use tdf_sim_unique::{law_members, members_of};
use tdf_trace_rows::TraceKind;

/// The form of the trace of a snapshot.
fn kind_of(snapshot: &Snapshot) -> TraceKind
    ensures { result ≡ kind_saved snapshot.now.vcd }
{
    if snapshot.vcd {
        TraceKind::Vcd
    } else {
        TraceKind::Table
    }
}

/// The turns that its run was given.
fn turns_of(snapshot: &Snapshot) -> u64
    ensures { result ≡ snapshot.now.budget }
{
    snapshot.budget
}

/// The snapshot of a flat model whose text the bytes are.
///
/// # Errors
/// `Bad` where they are the text of none, and out of memory.
fn snapshot_in(alloc: Global, flat: &Flat, bytes: &[u8]) -> Result<Snapshot, StateErr>
    requires model { CanReopen flat.now }
    ensures read { IfOk result (IsReadFor flat.now bytes.now) }
    ensures bad { IsErrOf result Bad → (s : SnapshotOf) → ¬ IsReadFor flat.now bytes.now s }
{
    law_members();
    match members_of(alloc, flat) {
        Ok(members) => read_snapshot(alloc, &members, bytes),
        Err(_) => Err(StateErr::Memory),
    }
}

/// The run that waits in a snapshot.
///
/// # Errors
/// `Bad` where the snapshot is not valid, and out of memory.
fn restored(alloc: Global, flat: Flat, snapshot: Snapshot) -> Result<Paused, StateErr>
    requires model { CanReopen flat }
    ensures restored { IfOk result (IsRestored flat snapshot) }
    ensures paused { IfOk result IsPaused }
    ensures bad { IsErrOf result Bad → IsNoStart flat snapshot }
{
    let kind = kind_of(&snapshot);
    let turns = turns_of(&snapshot);
    match restored_run(alloc, &flat, snapshot) {
        Ok(run) => Ok(Paused {
            flat,
            run,
            kind,
            turns,
        }),
        Err(error) => {
            drop(flat);
            Err(error)
        }
    }
}

/// The run that waits in the state of a flat model whose text the bytes are.
///
/// # Errors
/// `Bad` where they are the text of none, and out of memory.
fn run_in(alloc: Global, flat: Flat, bytes: &[u8]) -> Result<Paused, StateErr>
    requires model { CanReopen flat }
    ensures run { IfOk result (IsRunIn flat bytes.now) }
    ensures paused { IfOk result IsPaused }
    ensures bad { IsErrOf result Bad → (s : SnapshotOf) → IsReadFor flat bytes.now s
        → IsNoStart flat s }
{
    law_members();
    law_text();
    match snapshot_in(alloc, &flat, bytes) {
        Ok(snapshot) => restored(alloc, flat, snapshot),
        Err(error) => {
            drop(flat);
            Err(error)
        }
    }
}

/// The run that waits in the state whose text the bytes are, with the text of its model.
///
/// # Errors
/// `Bad` where they are the text of none, and out of memory.
fn run_with(alloc: Global, text: &[u8], bytes: &[u8]) -> Result<Paused, StateErr>
    requires text { IsTextIn bytes.now text.now }
    ensures run { IfOk result (IsRunOf bytes.now) }
    ensures paused { IfOk result IsPaused }
    ensures bad { IsErrOf result Bad → IsNoState bytes.now }
{
    law_first_fault();
    law_limits();
    law_members();
    law_rests_alike();
    law_runnable();
    law_text();
    if LONGEST_TEXT < text.len() {
        return Err(StateErr::Bad);
    }
    match elaborate(alloc, text) {
        Ok(sim) => {
            let Sim { flat, firsts } = sim;
            drop(firsts);
            run_in(alloc, flat, bytes)
        }
        Err(SimErr::Refused(_)) => Err(StateErr::Bad),
        Err(SimErr::Memory) => Err(StateErr::Memory),
    }
}

/// The run that waits in the state whose text the bytes are.
///
/// # Errors
/// `Bad` exactly where they are the text of no valid snapshot with the text of an accepted model, and out of memory.
pub fn read_state(alloc: Global, bytes: &[u8]) -> Result<Paused, StateErr>
    ensures run { IfOk result (IsRunOf bytes.now) }
    ensures paused { IfOk result IsPaused }
    ensures bad { IsErrOf result Bad → IsNoState bytes.now }
    ensures bad_always { IsNoState bytes.now → (result ≡ Err Bad) ⊎ (result ≡ Err Memory) }
{
    law_limits();
    law_members();
    law_text();
    match text_start(bytes) {
        Some(place) => run_with(alloc, &bytes[place..], bytes),
        None => Err(StateErr::Bad),
    }
}
