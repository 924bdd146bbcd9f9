//! The text of the state of a run that waits.

ghost use Rattle.std.specs.Prelude.{[], IfOk, List, ℕ};
ghost use Rattle.tdf_dynamic_first.specs.declared.first.First.{First};
ghost use Rattle.tdf_lang_tree.specs.Pure.{PureTree};
ghost use Rattle.tdf_sim_history.specs.Rules.{start_world};
ghost use Rattle.tdf_sim_runs.specs.Below.{IsModelOf};
ghost use Rattle.tdf_sim_runs.specs.Paused.{IsPaused, IsPausedAt};
ghost use Rattle.tdf_sim_runs.specs.Saving.{is_vcd};
ghost use Rattle.tdf_sim.specs.States.{IsStateText};

use std::alloc::Global;
use tdf_base::Memory;
use tdf_save::push_snapshot;
use tdf_sim_runs::Paused;
use tdf_sim_unique::members_of;

/// The text of the state of a run that waits, with this text of its model: of the snapshot of its history from its first plans on.
///
/// # Errors
/// Out of memory.
pub fn state_text(alloc: Global, paused: &Paused, text: &[u8]) -> Result<Vec<u8>, Memory>
    requires paused { IsPaused paused.now }
    ensures { (model : PureTree) (firsts : List First) (handed : List ℕ)
        → IsModelOf model paused.now.flat
        → IsPausedAt model (start_world model paused.now.flat firsts [] paused.now.turns) handed
        paused.now → IfOk result (λ bytes. IsStateText model paused.now.flat firsts
        paused.now.run.from paused.now.turns (is_vcd paused.now.kind) text.now bytes.items) }
{
    let members = members_of(alloc, &paused.flat)?;
    let snapshot = paused.snapshot(alloc)?;
    let mut bytes = Vec::new(alloc);
    push_snapshot(&mut bytes, &members, text, &snapshot)?;
    Ok(bytes)
}
