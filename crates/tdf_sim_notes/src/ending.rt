//! How a run ended, and the closing line of its notes.

ghost use Rattle.std.specs.Fmt.{decimal};
ghost use Rattle.std.specs.Prelude.{◌≡◌, ◌++◌, OnErr, OnOk, codes, length, take};
ghost use Rattle.tdf_io.specs.Bytes.{WritesText};
ghost use Rattle.tdf_sim_notes.specs.Ending.{end_line, end_text, spent_line, stopped_line};

use std::alloc::Global;
use tdf_base::{Fault, Memory, Resolution, push_fault, push_number, push_word};
use tdf_fixed::push_seconds_at;
use tdf_io::{Sink, SinkErr, put_all};

/// How a run ended. Times are in counts of the model's resolution.
#[derive(Drop)]
pub enum End {
    /// It reached its stop.
    Reached {
        /// The stop.
        time: u64,
        /// The turns that it took.
        turns: u64,
    },
    /// A fault came at a boundary of a cluster.
    Stopped {
        /// The time of the boundary.
        time: u64,
        /// The number of the cluster, from 1.
        cluster: u32,
        /// The fault.
        fault: Fault,
    },
    /// It needed more turns than it was given.
    Spent {
        /// The time of the instant that needed them.
        time: u64,
    },
}

/// Appends ` turns N` and ends the line.
#[tactic(auto, using(crate::proofs::Texts::text_laws))]
fn push_turns(out: &mut Vec<u8>, turns: u64) -> Result<(), Memory>
    ensures ok { OnOk result (out.new.items ≡ out.old.items ++ codes " turns " ++ decimal turns ++ codes "\n") }
    ensures kept { take (length out.old.items) out.new.items ≡ out.old.items }
{
    push_word(out, b" turns ")?;
    push_number(out, turns)?;
    push_word(out, b"\n")
}

/// Appends `end TIME turns TAKEN`.
#[tactic(auto, unfolding(crate::specs::Ending::end_line), using(crate::proofs::Texts::text_laws))]
fn push_end(out: &mut Vec<u8>, unit: Resolution, time: u64, taken: u64) -> Result<(), Memory>
    ensures ok { OnOk result (out.new.items ≡ out.old.items ++ end_line unit time taken) }
    ensures kept { take (length out.old.items) out.new.items ≡ out.old.items }
{
    push_word(out, b"end ")?;
    push_seconds_at(out, time, unit)?;
    push_turns(out, taken)
}

/// Appends `stopped TIME cluster C CODE PLACE`.
#[tactic(auto, unfolding(crate::specs::Ending::stopped_line), using(crate::proofs::Texts::text_laws))]
fn push_stopped(
    out: &mut Vec<u8>,
    unit: Resolution,
    time: u64,
    cluster: u32,
    fault: &Fault,
) -> Result<(), Memory>
    ensures ok { OnOk result (out.new.items ≡ out.old.items ++ stopped_line unit time cluster fault.now) }
    ensures kept { take (length out.old.items) out.new.items ≡ out.old.items }
{
    push_word(out, b"stopped ")?;
    push_seconds_at(out, time, unit)?;
    push_word(out, b" cluster ")?;
    push_number(out, u64::from(cluster))?;
    push_word(out, b" ")?;
    push_fault(out, fault)?;
    push_word(out, b"\n")
}

/// Appends `spent TIME turns GIVEN`.
#[tactic(auto, unfolding(crate::specs::Ending::spent_line), using(crate::proofs::Texts::text_laws))]
fn push_spent(out: &mut Vec<u8>, unit: Resolution, time: u64, given: u64) -> Result<(), Memory>
    ensures ok { OnOk result (out.new.items ≡ out.old.items ++ spent_line unit time given) }
    ensures kept { take (length out.old.items) out.new.items ≡ out.old.items }
{
    push_word(out, b"spent ")?;
    push_seconds_at(out, time, unit)?;
    push_turns(out, given)
}

fn push_ending(out: &mut Vec<u8>, unit: Resolution, turns: u64, end: &End) -> Result<(), Memory>
    ensures ok { OnOk result (out.new.items ≡ out.old.items ++ end_text unit turns end.now) }
    ensures kept { take (length out.old.items) out.new.items ≡ out.old.items }
{
    match end {
        End::Reached { time, turns: taken } => push_end(out, unit, *time, *taken),
        End::Stopped {
            time,
            cluster,
            fault,
        } => push_stopped(out, unit, *time, *cluster, fault),
        End::Spent { time } => push_spent(out, unit, *time, turns),
    }
}

/// Appends the closing line of a run that was given so many turns.
///
/// # Errors
/// Out of memory; `out` is then unchanged.
pub fn push_closing(
    out: &mut Vec<u8>,
    unit: Resolution,
    turns: u64,
    end: &End,
) -> Result<(), Memory>
    ensures whole { OnOk result (out.new.items ≡ out.old.items ++ end_text unit turns end.now) }
    ensures kept { OnErr result (out.new.items ≡ out.old.items) }
{
    let start = out.len();
    match push_ending(out, unit, turns, end) {
        Ok(()) => Ok(()),
        Err(error) => {
            out.truncate(start);
            Err(error)
        }
    }
}

/// Writes the closing line of a run that was given so many turns, as one piece.
///
/// # Errors
/// A write failed, or out of memory.
pub fn write_closing<N: Sink>(
    alloc: Global,
    unit: Resolution,
    turns: u64,
    end: &End,
    notes: &mut N,
) -> Result<(), SinkErr>
    ensures { WritesText N.taken N.faults notes.old notes.new (end_text unit turns end.now) result }
{
    let mut text = Vec::new(alloc);
    match push_closing(&mut text, unit, turns, end) {
        Ok(()) => put_all(notes, &text),
        Err(Memory) => Err(SinkErr::Memory),
    }
}
