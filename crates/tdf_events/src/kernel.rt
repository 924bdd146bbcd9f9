//! The kernel and its calls.

use crate::parts::{Parts, parts_of};
use std::marker::Model;

/// The event side of a model while it runs. Its instants take no memory.
#[derive(Drop)]
pub struct Kernel {
    parts: Parts,
    spent: bool,
}

impl Model for Kernel {
    ghost use Rattle.tdf_events.specs.Kernel.{KernelOf};
    ghost use Rattle.tdf_events.specs.views.Parts.{kernel_of};

    ghost Value = { KernelOf };

    ghost view = { λ a. record (kernel_of a.parts) { spent = a.spent } };
}

ghost use Rattle.std.specs.Prelude.{◌≡◌, ◌<◌, ◌+◌, ◌^◌, Err, IfOk, OnErr, OnOk, None, Some, false, true};
ghost use Rattle.tdf_events.specs.Delta.{AreWritesOf, IsNoneBefore, event_part};
ghost use Rattle.tdf_events.specs.Kernel.{IsKernelOf, IsNextOf, side_of};
ghost use Rattle.tdf_events.specs.Runnable.{IsRunnable, signal_formats};
ghost use Rattle.tdf_events.specs.Side.{start_side};
ghost use Rattle.tdf_events.specs.State.{IsKernelState, kernel_state_of, resumed_side};
ghost use Rattle.tdf_saved.specs.declared.err.StateErr.TheVariants as why;
ghost use Rattle.tdf_expr.specs.Checked.{IsCheckedOf};
ghost use Rattle.tdf_lang_tree.specs.Pure.{PureTree};

use crate::fitting::is_state;
use crate::instants::run_instant;
use crate::resuming::resumed_parts;
use crate::state::{cells_of, nums_of, pending_of};
use crate::turns::{Spent, Turns};
use std::alloc::Global;
use tdf_base::Memory;
use tdf_bind::Flat;
use tdf_convert::SignalWrite;
use tdf_fixed::Raw;
use tdf_saved::{KernelState, StateErr};

impl Kernel {
    /// The event side before the first instant: starting values, declared states, nothing pending; the processes that
    /// run at the start are triggered.
    ///
    /// # Errors
    /// Out of memory.
    pub fn new(alloc: Global, flat: &Flat) -> Result<Kernel, Memory>
        requires { IsRunnable flat.now }
        ensures side { IfOk result (λ kernel. side_of kernel ≡ start_side flat.now) }
        ensures kernel { IfOk result (IsKernelOf flat.now) }
    {
        Ok(Kernel {
            parts: parts_of(alloc, flat)?,
            spent: false,
        })
    }

    /// The settled values of the event signals.
    pub fn values(&self) -> &[Raw]
        requires going { self.now.spent ≡ false }
        ensures { result.now ≡ self.now.values }
    {
        &self.parts.values
    }

    /// What the kernel holds between two instants: the settled values, the cells of each instance of a block of processes,
    /// and the pending notifications, by event.
    ///
    /// # Errors
    /// Out of memory.
    pub fn state(&self, alloc: Global) -> Result<KernelState, Memory>
        requires going { self.now.spent ≡ false }
        ensures { IfOk result (λ state. state ≡ kernel_state_of (side_of self.now)) }
    {
        let values = nums_of(alloc, &self.parts.values)?;
        let blocks = cells_of(alloc, &self.parts.frames)?;
        let pending = pending_of(alloc, &self.parts.notices)?;
        Ok(KernelState {
            values,
            blocks,
            pending,
        })
    }

    /// The event side that goes on from a state at a time, before which every instant has happened; at time 0 the first
    /// one is still to come.
    ///
    /// # Errors
    /// `Bad` exactly where it is no state of the model at this time, or out of memory.
    pub fn from_state(
        alloc: Global,
        flat: &Flat,
        state: KernelState,
        time: u64,
    ) -> Result<Kernel, StateErr>
        requires { IsRunnable flat.now }
        ensures side { IfOk result (λ kernel. side_of kernel ≡ resumed_side flat.now time state) }
        ensures kernel { IfOk result (IsKernelOf flat.now) }
        ensures state { IfOk result (λ kernel. IsKernelState flat.now time state) }
        ensures bad { result ≡ Err why.Bad → IsKernelState flat.now time state → ⊥ }
        ensures bad_always { (IsKernelState flat.now time state → ⊥) → result ≡ Err why.Bad }
    {
        if !is_state(flat, &state, time) {
            drop(state);
            return Err(StateErr::Bad);
        }
        let resumed = resumed_parts(alloc, flat, &state, time);
        drop(state);
        match resumed {
            Ok(parts) => Ok(Kernel {
                parts,
                spent: false,
            }),
            Err(Memory) => Err(StateErr::Memory),
        }
    }

    /// The next time at which something is to be done: 0 where a process is to run at the start, else the least pending
    /// time, and none where there is none.
    pub fn next_time(&self) -> Option<u64>
        requires going { self.now.spent ≡ false }
        ensures { IsNextOf (side_of self.now) result }
    {
        if 0 < self.parts.triggered.len() {
            return Some(0);
        }
        self.parts.notices.next_time()
    }

    /// The event part of an instant, within the turns that are left: the notifications of its time come, and the
    /// values that sinks write wait; where there are such values or a process is triggered, delta steps follow until
    /// none is. Each process that runs and each delta step takes a turn.
    ///
    /// # Errors
    /// More turns are needed than are left. The turns are then as they were; what the kernel holds isn't stated, and no further call
    /// may be made.
    pub fn instant(
        &mut self,
        flat: &Flat,
        time: u64,
        writes: &[SignalWrite],
        turns: &mut Turns,
    ) -> Result<(), Spent>
        requires runnable { IsRunnable flat.now }
        requires kernel { IsKernelOf flat.now self.old }
        requires early { IsNoneBefore time self.old.notices.times }
        requires writes { AreWritesOf (signal_formats flat.now) writes.now }
        requires fits { turns.old.left + turns.old.used < 2 ^ 64 }
        ensures kernel { OnOk result (IsKernelOf flat.now self.new) }
        ensures turns { OnOk result (turns.new.left + turns.new.used
            ≡ turns.old.left + turns.old.used) }
        ensures done { (model : PureTree) → IsCheckedOf model flat.now.checked
            → OnOk result (event_part model flat.now time writes.now (side_of self.old)
            turns.old.left ≡ Some (side_of self.new, turns.new.left)) }
        ensures spent { (model : PureTree) → IsCheckedOf model flat.now.checked
            → OnErr result (event_part model flat.now time writes.now (side_of self.old)
            turns.old.left ≡ None) }
        ensures closed { OnErr result (self.new.spent ≡ true) }
        ensures kept { OnErr result (turns.new ≡ turns.old) }
    {
        let mut counted = *turns;
        match run_instant(&mut self.parts, flat, time, writes, &mut counted) {
            Ok(()) => {
                *turns = counted;
                Ok(())
            }
            Err(spent) => {
                self.spent = true;
                Err(spent)
            }
        }
    }
}
