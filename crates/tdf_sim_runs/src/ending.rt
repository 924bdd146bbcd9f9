//! How the trace of a run ends.

ghost use Rattle.std.specs.Prelude.{◌≡◌, ◌≤◌, length};
ghost use Rattle.tdf_trace.specs.Tracked.{AreSince};
ghost use Rattle.tdf_io.specs.Faults.{CountsSinkFaults};
ghost use Rattle.tdf_sim_runs.specs.Ending.{WritesEnd};
ghost use Rattle.tdf_trace.specs.declared.stage.Stage.TheVariants.{Open};

use tdf_io::{Sink, SinkErr};
use tdf_sim_shown::Shown;

/// Writes the other rows below the end, samples that are not there as unknown, and the tail.
///
/// # Errors
/// A write failed, or out of memory.
pub(crate) fn finish<K: Sink>(mut shown: Shown, end: u64, out: &mut K) -> Result<(), SinkErr>
    requires open { shown.trace.stage ≡ Open }
    requires width { shown.tracking.width ≤ length shown.trace.about.variables }
    requires since { AreSince shown.trace.rows.upto shown.tracking.list }
    ensures wrote { WritesEnd K.taken K.faults out.old out.new shown end result }
    ensures counted { CountsSinkFaults (K.faults out.old) (K.faults out.new) result }
{
    match shown.close(end) {
        Ok(()) => shown.trace.finish(end, out),
        Err(_) => Err(SinkErr::Memory),
    }
}
