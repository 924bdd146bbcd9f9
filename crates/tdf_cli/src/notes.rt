//! Outcomes that only leave a note.

ghost use Rattle.std.specs.Prelude.{◌≡◌, IfOk};
ghost use Rattle.tdf_cli.specs.Refusals.{refusal_text};
ghost use Rattle.tdf_cli.specs.Tables.{line_refusal};
ghost use Rattle.tdf_cli.specs.declared.status.Status.TheVariants.{Refused};
ghost use Rattle.tdf_io.specs.Bytes.{WritesText};

use crate::refusals::{push_line_refusal, push_refusal};
use crate::status::Status;
use std::alloc::Global;
use tdf_base::Fault;
use tdf_io::{Sink, SinkErr, put_all};

/// Leaves a note, and answers this status.
pub(crate) fn noted<N: Sink>(notes: &mut N, text: &[u8], status: Status) -> Result<Status, SinkErr>
    ensures status { IfOk result (λ s. s ≡ status) }
    ensures writes { WritesText N.taken N.faults notes.old notes.new text.now result }
{
    match put_all(notes, text) {
        Ok(()) => Ok(status),
        Err(error) => Err(error),
    }
}

/// Notes the first fault of a text.
pub(crate) fn refuse<N: Sink>(alloc: Global, notes: &mut N, fault: Fault) -> Result<Status, SinkErr>
    ensures status { IfOk result (λ s. s ≡ Refused) }
    ensures writes { WritesText N.taken N.faults notes.old notes.new (refusal_text fault) result }
{
    let mut text = Vec::new(alloc);
    let pushed = push_refusal(&mut text, &fault);
    drop(fault);
    match pushed {
        Ok(()) => noted(notes, &text, Status::Refused),
        Err(_) => Err(SinkErr::Memory),
    }
}

/// Notes a fault of a table, on a line.
pub(crate) fn refuse_line<N: Sink>(
    alloc: Global,
    notes: &mut N,
    word: &[u8],
    line: u32,
) -> Result<Status, SinkErr>
    ensures status { IfOk result (λ s. s ≡ Refused) }
    ensures writes { WritesText N.taken N.faults notes.old notes.new (line_refusal word.now line)
        result }
{
    let mut text = Vec::new(alloc);
    match push_line_refusal(&mut text, word, line) {
        Ok(()) => noted(notes, &text, Status::Refused),
        Err(_) => Err(SinkErr::Memory),
    }
}
