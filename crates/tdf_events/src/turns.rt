//! Turns, and delta steps until no process is triggered.

ghost use Rattle.std.specs.Prelude.{◌≡◌, ◌<◌, ◌≤◌, ◌+◌, ◌^◌, OnErr, OnOk, None, Some, length, nat_eq};
ghost use Rattle.tdf_events_queue.specs.Sets.{count_on};
ghost use Rattle.tdf_events.specs.Delta.{is_idle, settled, turns_of};
ghost use Rattle.tdf_events.specs.Kernel.{IsKernelOf, side_of};
ghost use Rattle.tdf_events.specs.Runnable.{IsRunnable};
ghost use Rattle.tdf_events.specs.views.Parts.{kernel_of};
ghost use Rattle.tdf_expr.specs.Checked.{IsCheckedOf};
ghost use Rattle.tdf_lang_tree.specs.Pure.{PureTree};

use crate::parts::Parts;
use crate::stepping::step;
use tdf_bind::Flat;

/// Turns of a run: one for each boundary, firing, process run and delta step.
#[derive(Clone, Copy, Debug)]
pub struct Turns {
    /// How many are left.
    pub left: u64,
    /// How many were taken.
    pub used: u64,
}

/// More turns are needed than are left.
#[derive(Clone, Copy, Debug)]
pub struct Spent;

/// How many turns the next delta step takes.
fn count_turns(parts: &Parts) -> u64
    ensures value { result ≡ turns_of (side_of (kernel_of parts.now)) }
    ensures some { 0 < result }
{
    u64::from(parts.triggered.len()) + 1
}

/// Whether no process is triggered.
pub(crate) fn check_idle(parts: &Parts) -> bool
    ensures { result ≡ is_idle (side_of (kernel_of parts.now)) }
{
    parts.triggered.len() == 0
}

/// Delta steps until no process is triggered.
///
/// # Errors
/// The turns that are left don't suffice.
pub(crate) fn settle(
    parts: &mut Parts,
    flat: &Flat,
    time: u64,
    turns: &mut Turns,
) -> Result<(), Spent>
    requires runnable { IsRunnable flat.now }
    requires kernel { IsKernelOf flat.now (kernel_of parts.old) }
    requires fits { turns.old.left + turns.old.used < 2 ^ 64 }
    ensures kernel { OnOk result (IsKernelOf flat.now (kernel_of parts.new)) }
    ensures turns { OnOk result (turns.new.left + turns.new.used
        ≡ turns.old.left + turns.old.used) }
    ensures settled { (model : PureTree) → IsCheckedOf model flat.now.checked
        → OnOk result (settled model flat.now time (side_of (kernel_of parts.old)) turns.old.left
        ≡ Some (side_of (kernel_of parts.new), turns.new.left)) }
    ensures spent { (model : PureTree) → IsCheckedOf model flat.now.checked
        → OnErr result (settled model flat.now time (side_of (kernel_of parts.old))
        turns.old.left ≡ None) }
{
    loop {
        let cost = count_turns(parts);
        if turns.left < cost {
            return Err(Spent);
        }
        turns.left -= cost;
        turns.used += cost;
        step(parts, flat, time);
        if check_idle(parts) {
            return Ok(());
        }
    }
}
