//! How a run begins.

ghost use Rattle.std.specs.Prelude.{◌≡◌, IfOk, []};
ghost use Rattle.tdf_sim_instants.specs.InstantLaws.{IsModelOf};
ghost use Rattle.tdf_sim_runs.specs.Running.{CanGoOn, IsRunningAt};
ghost use Rattle.tdf_sim_runs.specs.Runs.{CanRun, model_about};
ghost use Rattle.tdf_trace.specs.declared.stage.Stage.TheVariants.{New};
ghost use Rattle.tdf_lang_tree.specs.Pure.{PureTree};
ghost use Rattle.tdf_sim_history.specs.Rules.{start_world};

use crate::running::Running;
use std::alloc::Global;
use tdf_base::Memory;
use tdf_bind::Flat;
use tdf_dynamic_first::First;
use tdf_sim_instants::Engine;
use tdf_sim_shown::{Shown, law_can};
use tdf_trace_rows::TraceKind;

/// A run before its first instant, whose trace has no head yet.
///
/// # Errors
/// Out of memory.
pub(crate) fn begin(
    alloc: Global,
    flat: &Flat,
    firsts: Vec<First>,
    kind: TraceKind,
    turns: u64,
) -> Result<Running, Memory>
    requires can { CanRun flat.now firsts.items }
    ensures can { IfOk result (CanGoOn flat.now) }
    ensures runs { (model : PureTree) → IsModelOf model flat.now → IfOk result (λ run.
        IsRunningAt model flat.now (start_world model flat.now firsts.items [] turns) [] run) }
    ensures from { IfOk result (λ run. run.from ≡ 0) }
    ensures upto { IfOk result (λ run. run.shown.trace.rows.upto ≡ 0) }
    ensures stage { IfOk result (λ run. run.shown.trace.stage ≡ New) }
    ensures about { IfOk result (λ run. run.shown.trace.about ≡ model_about kind flat.now) }
{
    law_can();
    let engine = Engine::new(alloc, flat, firsts)?;
    let mut shown = match Shown::new(alloc, flat, kind) {
        Ok(shown) => shown,
        Err(failed) => {
            drop(engine);
            return Err(failed);
        }
    };
    if let Err(failed) = shown.start(alloc, flat, &engine.since, &engine.clusters) {
        drop(shown);
        drop(engine);
        return Err(failed);
    }
    Ok(Running {
        engine,
        shown,
        from: 0,
        left: turns,
        news: Vec::new(alloc),
    })
}
