//! The change bodies of the modules of a cluster, and what each asks for.

ghost use Rattle.std.specs.Prelude.{◌≡◌, ◌+◌, ◌<◌, ◌≤◌, ◌^◌, ℕ, List, All, length, Some, slice_get};
ghost use Rattle.std.specs.Vec.{vec_capacity};
ghost use Rattle.tdf_dynamic.specs.Given.{AreFramesOf, IsFrameOf, IsOfText};
ghost use Rattle.tdf_dynamic.specs.Ports.{AreBegun};
ghost use Rattle.tdf_dynamic.specs.machine.Asking.{AreZeroBelow, HasAsked, HaveAsked};
ghost use Rattle.tdf_dynamic_plans.specs.Attributes.{AttrsOf};
ghost use Rattle.tdf_expr.specs.Frames.{ArePortsFit, PortsSeen};
ghost use Rattle.tdf_expr.specs.declared.spans.PortSpan.{PortSpan as PortSpanOf};
ghost use Rattle.tdf_streams.specs.Periods.{HasAllowedRates};

use crate::frames::{Instance, ModuleFrame};
use tdf_bind::Flat;
use tdf_dynamic_plans::ModuleAttrs;
use tdf_expr::{Body, Ports, run_body};
use tdf_fixed::Raw;

/// The samples of a port are 0.
fn clear_port(ports: &mut Ports, port: u32)
    requires port { port < length ports.old.spans }
    requires fit { ArePortsFit ports.old }
    ensures { (p : PortSpanOf) (before : PortsSeen) → slice_get ports.old.spans port ≡ Some p
        → AreZeroBelow p.first before ports.old → AreZeroBelow (p.first + p.count) before ports.new }
{
    let span = ports.port(port);
    let zero = Raw {
        num: 0,
        frac: span.format.wl - span.format.iwl,
    };
    for i in 0..span.count {
        ports.set(port, i, zero);
    }
}

/// All samples are 0.
fn clear_all(ports: &mut Ports, count: u32)
    requires count { count ≡ length ports.old.spans }
    requires fit { ArePortsFit ports.old }
    ensures { AreZeroBelow (length ports.old.state.samples) ports.old ports.new }
{
    for port in 0..count {
        clear_port(ports, port);
        ports.law_fit();
    }
}

/// The ports are as a body finds them that reads nothing. It takes no memory and is never refused.
pub fn begin(ports: &mut Ports)
    requires few { length ports.old.spans ≤ 2 ^ 31 }
    ensures { AreBegun ports.old ports.new }
{
    ports.law_fit();
    ports.reset();
    ports.law_fit();
    let count = ports.ports();
    clear_all(ports, count as u32);
}

/// The change body of a module that has one, over ports that are begun.
fn run_if(flat: &Flat, attrs: &ModuleAttrs, instance: &mut ModuleFrame)
    requires text { IsOfText flat.now }
    requires is_module { attrs.now.number < length flat.now.tables.modules }
    requires allowed { HasAllowedRates flat.now attrs.now }
    requires frame { IsFrameOf flat.now attrs.now instance.old }
    requires begun { AreBegun instance.old.ports instance.old.ports }
    ensures { HasAsked flat.now attrs.now instance.old.frame.state.cells instance.new }
{
    let row = &flat.tables.modules[attrs.number as usize];
    if !row.changes {
        return;
    }
    run_body(
        &flat.checked,
        row.block,
        Body::Change,
        &mut instance.frame,
        &mut instance.ports,
    );
    instance.ports.law_fit();
}

/// A module says what it asks for: its change body runs, where it has changes.
fn run_change(flat: &Flat, attrs: &ModuleAttrs, instance: &mut Instance)
    requires text { IsOfText flat.now }
    requires is_module { attrs.now.number < length flat.now.tables.modules }
    requires allowed { HasAllowedRates flat.now attrs.now }
    requires frame { IsFrameOf flat.now attrs.now instance.old }
    ensures { HasAsked flat.now attrs.now instance.old.frame.state.cells instance.new }
{
    let frame = &mut *instance.boxed;
    begin(&mut frame.ports);
    run_if(flat, attrs, frame);
}

/// The modules of a table say what they ask for, in order. It takes no memory and is never refused.
pub(crate) fn run_changes(flat: &Flat, table: &[ModuleAttrs], frames: &mut Vec<Instance>)
    requires text { IsOfText flat.now }
    requires modules { All (λ attrs. attrs.number < length flat.now.tables.modules) table.now }
    requires allowed { All (HasAllowedRates flat.now) table.now }
    requires frames { AreFramesOf flat.now table.now frames.old.items }
    ensures asked { HaveAsked flat.now table.now (length table.now) frames.old.items frames.new.items }
    ensures room { vec_capacity frames.old ≤ vec_capacity frames.new }
{
    for i in 0..table.len() {
        run_change(flat, &table[i], &mut frames[i]);
    }
}
