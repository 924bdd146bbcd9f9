//! The event part of an instant.

ghost use Rattle.std.specs.Prelude.{◌≡◌, ◌<◌, ◌+◌, ◌^◌, OnErr, OnOk, None, Some};
ghost use Rattle.tdf_events.specs.Delta.{AreWritesOf, IsNoneBefore, begun, event_part};
ghost use Rattle.tdf_events.specs.Kernel.{IsKernelOf, side_of};
ghost use Rattle.tdf_events.specs.Runnable.{IsRunnable, signal_formats};
ghost use Rattle.tdf_events.specs.views.Parts.{kernel_of};
ghost use Rattle.tdf_expr.specs.Checked.{IsCheckedOf};
ghost use Rattle.tdf_lang_tree.specs.Pure.{PureTree};

use crate::parts::Parts;
use crate::turns::{Spent, Turns, check_idle, settle};
use crate::waiting::write_sinks;
use tdf_bind::Flat;
use tdf_convert::SignalWrite;

/// An instant begins: the notifications of its time come, and the values that sinks write wait.
fn begin(parts: &mut Parts, flat: &Flat, time: u64, writes: &[SignalWrite])
    requires kernel { IsKernelOf flat.now (kernel_of parts.old) }
    requires early { IsNoneBefore time parts.old.notices.times }
    requires writes { AreWritesOf (signal_formats flat.now) writes.now }
    ensures kernel { IsKernelOf flat.now (kernel_of parts.new) }
    ensures side { side_of (kernel_of parts.new)
        ≡ begun flat.now time writes.now (side_of (kernel_of parts.old)) }
{
    parts
        .notices
        .come(time, &parts.by_event, &mut parts.triggered);
    write_sinks(&mut parts.waiting, writes);
}

/// The event part of an instant: where a sink writes or a process is triggered, delta steps follow until none is.
///
/// # Errors
/// The turns that are left don't suffice.
pub(crate) fn run_instant(
    parts: &mut Parts,
    flat: &Flat,
    time: u64,
    writes: &[SignalWrite],
    turns: &mut Turns,
) -> Result<(), Spent>
    requires runnable { IsRunnable flat.now }
    requires kernel { IsKernelOf flat.now (kernel_of parts.old) }
    requires early { IsNoneBefore time parts.old.notices.times }
    requires writes { AreWritesOf (signal_formats flat.now) writes.now }
    requires fits { turns.old.left + turns.old.used < 2 ^ 64 }
    ensures kernel { OnOk result (IsKernelOf flat.now (kernel_of parts.new)) }
    ensures turns { OnOk result (turns.new.left + turns.new.used
        ≡ turns.old.left + turns.old.used) }
    ensures done { (model : PureTree) → IsCheckedOf model flat.now.checked
        → OnOk result (event_part model flat.now time writes.now (side_of (kernel_of parts.old))
        turns.old.left ≡ Some (side_of (kernel_of parts.new), turns.new.left)) }
    ensures spent { (model : PureTree) → IsCheckedOf model flat.now.checked
        → OnErr result (event_part model flat.now time writes.now (side_of (kernel_of parts.old))
        turns.old.left ≡ None) }
{
    begin(parts, flat, time, writes);
    if writes.len() == 0 && check_idle(parts) {
        return Ok(());
    }
    settle(parts, flat, time, turns)
}
