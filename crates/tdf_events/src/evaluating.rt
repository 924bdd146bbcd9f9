//! The triggered processes run.

ghost use Rattle.std.specs.Prelude.{◌≡◌, ◌<◌, length};
ghost use Rattle.tdf_events_queue.specs.Evaluation.{ran_first};
ghost use Rattle.tdf_events.specs.Delta.{after_evaluation};
ghost use Rattle.tdf_events.specs.Kernel.{IsKernelOf, side_of};
ghost use Rattle.tdf_events.specs.Processes.{ran};
ghost use Rattle.tdf_events.specs.Runnable.{IsRunnable};
ghost use Rattle.tdf_events.specs.machine.Running.{CanRun, HasActed, HasRunIn};
ghost use Rattle.tdf_events.specs.views.Parts.{kernel_of};
ghost use Rattle.tdf_expr.specs.Checked.{IsCheckedOf};
ghost use Rattle.tdf_lang_tree.specs.Pure.{PureTree};

use crate::notices::notify_all;
use crate::parts::Parts;
use crate::running::act;
use crate::waiting::write_all;
use tdf_bind::Flat;
use tdf_bind_connections::BlockRow;
use tdf_expr::Checked;

/// The body of a process of an instance runs.
fn act_in(parts: &mut Parts, checked: &Checked, block: &BlockRow, owner: u32, number: u32)
    requires { CanRun checked.now owner block.now (kernel_of parts.old) }
    ensures { HasActed checked.now owner number block.now (kernel_of parts.old)
        (kernel_of parts.new) }
{
    act(
        checked,
        block,
        number,
        &parts.values,
        &mut parts.frames[owner as usize],
        &mut parts.ports[owner as usize],
    );
}

/// A process of an instance runs: what it writes waits, and its events are notified.
fn run_in(
    parts: &mut Parts,
    checked: &Checked,
    block: &BlockRow,
    owner: u32,
    number: u32,
    time: u64,
)
    requires { CanRun checked.now owner block.now (kernel_of parts.old) }
    ensures { HasRunIn checked.now time owner number block.now (kernel_of parts.old)
        (kernel_of parts.new) }
{
    act_in(parts, checked, block, owner, number);
    let ports = parts.ports[owner as usize].ports();
    write_all(&mut parts.waiting, &block.signals, ports);
    notify_all(&mut parts.notices, time, parts.own_events.at(owner), ports);
}

/// A process runs.
fn run_process(parts: &mut Parts, flat: &Flat, time: u64, process: u32)
    requires runnable { IsRunnable flat.now }
    requires kernel { IsKernelOf flat.now (kernel_of parts.old) }
    requires process { process < length flat.now.tables.processes }
    ensures kernel { IsKernelOf flat.now (kernel_of parts.new) }
    ensures triggered { parts.new.triggered ≡ parts.old.triggered }
    ensures ran { (model : PureTree) → IsCheckedOf model flat.now.checked
        → side_of (kernel_of parts.new)
        ≡ ran model flat.now time process (side_of (kernel_of parts.old)) }
{
    let tables = &flat.tables;
    let row = &tables.processes[process as usize];
    let block = &tables.blocks[row.owner as usize];
    run_in(parts, &flat.checked, block, row.owner, row.number, time);
}

/// The listed processes run, one after the other.
fn run_all(parts: &mut Parts, flat: &Flat, time: u64)
    requires runnable { IsRunnable flat.now }
    requires kernel { IsKernelOf flat.now (kernel_of parts.old) }
    ensures kernel { IsKernelOf flat.now (kernel_of parts.new) }
    ensures triggered { parts.new.triggered ≡ parts.old.triggered }
    ensures ran { (model : PureTree) → IsCheckedOf model flat.now.checked
        → side_of (kernel_of parts.new)
        ≡ ran_first (ran model flat.now time) parts.old.triggered.members
        (length parts.old.triggered.members) (side_of (kernel_of parts.old)) }
{
    for i in 0..parts.triggered.len() {
        let process = parts.triggered.members()[i as usize];
        run_process(parts, flat, time, process);
    }
}

/// Evaluation: the triggered processes run in the order of their numbers.
pub(crate) fn evaluate(parts: &mut Parts, flat: &Flat, time: u64)
    requires runnable { IsRunnable flat.now }
    requires kernel { IsKernelOf flat.now (kernel_of parts.old) }
    ensures kernel { IsKernelOf flat.now (kernel_of parts.new) }
    ensures triggered { parts.new.triggered.flags ≡ parts.old.triggered.flags }
    ensures evaluated { (model : PureTree) → IsCheckedOf model flat.now.checked
        → side_of (kernel_of parts.new)
        ≡ after_evaluation model flat.now time (side_of (kernel_of parts.old)) }
{
    parts.triggered.sort();
    run_all(parts, flat, time);
}
