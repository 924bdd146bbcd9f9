//! The event part of an instant.

ghost use Rattle.std.specs.Prelude.{◌≡◌, ◌<◌, ◌^◌, false, None, OnErr, OnOk, Some};
ghost use Rattle.tdf_sim_instants.specs.Settling.{CanSettle, IsBefore, event_turn};
ghost use Rattle.tdf_events.specs.Kernel.{IsKernelOf, side_of};
ghost use Rattle.tdf_expr.specs.Checked.{IsCheckedOf};
ghost use Rattle.tdf_lang_tree.specs.Pure.{PureTree};
ghost use Rattle.tdf_sim_history.specs.Rules.{is_side_due};

use tdf_bind::Flat;
use tdf_convert::SignalWrite;
use tdf_events::{Kernel, Spent, Turns};

/// Whether something is due on the event side at this time.
fn is_due(kernel: &Kernel, time: u64) -> bool
    requires before { IsBefore time (side_of kernel.now) }
    requires going { kernel.now.spent ≡ false }
    ensures { result ≡ is_side_due (side_of kernel.now) time }
{
    match kernel.next_time() {
        Some(next) => next == time,
        None => false,
    }
}

/// The event part of an instant, within the turns that are left, if a sink wrote or something is due on the event side.
///
/// # Errors
/// More turns are needed than are left.
pub(crate) fn settle(
    flat: &Flat,
    time: u64,
    writes: &[SignalWrite],
    kernel: &mut Kernel,
    left: &mut u64,
) -> Result<(), Spent>
    requires { CanSettle flat.now time kernel.old writes.now }
    ensures kernel { OnOk result (IsKernelOf flat.now kernel.new) }
    ensures done { (model : PureTree) → IsCheckedOf model flat.now.checked
        → OnOk result (event_turn model flat.now time writes.now (side_of kernel.old) left.old
        ≡ Some (side_of kernel.new, left.new)) }
    ensures spent { (model : PureTree) → IsCheckedOf model flat.now.checked
        → OnErr result (event_turn model flat.now time writes.now (side_of kernel.old) left.old
        ≡ None) }
{
    if writes.is_empty() && !is_due(kernel, time) {
        return Ok(());
    }
    let mut turns = Turns {
        left: *left,
        used: 0,
    };
    kernel.instant(flat, time, writes, &mut turns)?;
    *left = turns.left;
    Ok(())
}
