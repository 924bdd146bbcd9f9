//! One delta step.

ghost use Rattle.std.specs.Prelude.{◌≡◌};
ghost use Rattle.tdf_events.specs.Delta.{delta_stepped};
ghost use Rattle.tdf_events.specs.Kernel.{IsKernelOf, side_of};
ghost use Rattle.tdf_events.specs.Runnable.{IsRunnable};
ghost use Rattle.tdf_events.specs.views.Parts.{kernel_of};
ghost use Rattle.tdf_expr.specs.Checked.{IsCheckedOf};
ghost use Rattle.tdf_lang_tree.specs.Pure.{PureTree};

use crate::evaluating::evaluate;
use crate::parts::Parts;
use tdf_bind::Flat;

/// One delta step: evaluation, update and delta notification.
pub(crate) fn step(parts: &mut Parts, flat: &Flat, time: u64)
    requires runnable { IsRunnable flat.now }
    requires kernel { IsKernelOf flat.now (kernel_of parts.old) }
    ensures kernel { IsKernelOf flat.now (kernel_of parts.new) }
    ensures side { (model : PureTree) → IsCheckedOf model flat.now.checked
        → side_of (kernel_of parts.new)
        ≡ delta_stepped model flat.now time (side_of (kernel_of parts.old)) }
{
    evaluate(parts, flat, time);
    parts.triggered.clear();
    parts
        .waiting
        .trigger(&parts.values, &parts.by_signal, &mut parts.triggered);
    parts
        .notices
        .take_delta(&parts.by_event, &mut parts.triggered);
    parts.waiting.give(&mut parts.values);
}
