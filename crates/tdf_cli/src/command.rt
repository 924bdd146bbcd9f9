//! The top call.

ghost use Rattle.std.specs.Prelude.{◌≡◌, ◌≢◌, ◌⊎◌, ◌≤◌, ℕ, List, Some, length, true};
ghost use Rattle.tdf_cli.specs.Input.{AskToRead, InputIs, NoMemory, Reading, Text, most_bytes, reads_text};
ghost use Rattle.tdf_cli.specs.Outcome.{HasOutcome, WritesNothingOrFront, WritesOutcome};
ghost use Rattle.tdf_cli.specs.Runs.{Outcome};
ghost use Rattle.tdf_cli.specs.Status.{no_memory, status_number, write_fault};
ghost use Rattle.tdf_cli.specs.declared.status.Status.{Status};
ghost use Rattle.tdf_cli.specs.declared.status.Status.TheVariants.{ReadFault};
ghost use Rattle.tdf_cli_load.specs.Text.{load_text};
ghost use Rattle.tdf_cli_words.specs.Words.{taken_of, texts_of};
ghost use Rattle.tdf_cli_words.specs.declared.asked.Settings.{Settings};
ghost use Rattle.tdf_cli_words.specs.declared.asked.Settings.TheVariants.{Load};
ghost use Rattle.tdf_io.specs.Faults.{FaultsRose};

use crate::input::input_of;
use crate::jobs::finish;
use crate::laws::law_one_outcome;
use crate::status::{NO_MEMORY, WRITE_FAULT};
use std::alloc::Global;
use tdf_io::{Sink, SinkErr, Source};

/// The command: takes its words, those after the program's name, reads the model, or makes one for `load`, does the job, and
/// answers the status of the program.
///
/// The status is 0 where the job is done, 1 where the text has a fault, 2 where the words are not accepted, 3 where a read
/// failed, 4 where a write failed, 5 where a refused change of attributes stopped a run, 6 where the turns of a run were too few, 7
/// where it is out of memory, 8 where the text has more bytes than its job reads (1,048,576 of a model, 67,108,864 of a table or of a
/// state, 4,194,304 of a model and a table), 9 where the stop is too late for the resolution of the model, 10 where the text of a state
/// would have more than 67,108,864 bytes, 11 where a text is that of no state, and 12 where the stop is before the time of the state.
///
/// What a job made, as the tree of its text, a model that is not run and what a run leaves, is left to the end of the process, which
/// gives it back at once. A caller that goes on keeps that memory.
pub fn tool<S: Source, O: Sink, N: Sink>(
    alloc: Global,
    words: &Vec<String>,
    model: &mut S,
    out: &mut O,
    notes: &mut N,
) -> u8
    // But for 4 and 7, the status, the output and the notes are those of the outcome for what came
    // of the words and of reading.
    ensures outcome { result ≢ write_fault → result ≢ no_memory → (r : Reading)
        × (status : Status) × (result ≡ status_number status)
        × InputIs (texts_of words.now.items) r (S.left model.old) (S.left model.new)
        (S.faults model.old) (S.faults model.new)
        × WritesOutcome r status (O.taken out.old) (O.taken out.new) (N.taken notes.old)
        (N.taken notes.new) }

    // After 4 and 7 both sinks hold front parts of the texts of that outcome, or nothing was
    // written. Where it ran out of memory while the words or the text were read, the status is 7
    // and nothing was written.
    ensures part { (result ≡ write_fault) ⊎ (result ≡ no_memory) → (r : Reading)
        × (r ≡ NoMemory → result ≡ no_memory)
        × InputIs (texts_of words.now.items) r (S.left model.old) (S.left model.new)
        (S.faults model.old) (S.faults model.new)
        × WritesNothingOrFront r (O.taken out.old) (O.taken out.new) (N.taken notes.old)
        (N.taken notes.new) }

    // Where the words are not accepted, or ask for `load`, nothing is read.
    ensures unread { ¬ AskToRead (texts_of words.now.items) → model.new ≡ model.old }
    ensures read_fault { result ≡ status_number ReadFault
        → FaultsRose (S.faults model.old) (S.faults model.new) }
    ensures write_fault { result ≡ write_fault
        → FaultsRose (O.faults out.old) (O.faults out.new)
        ⊎ FaultsRose (N.faults notes.old) (N.faults notes.new) }

    // Where the status is none of 3, 4 and 7, the count of faults of the source is as it was.
    ensures source_kept { result ≢ status_number ReadFault → result ≢ write_fault
        → result ≢ no_memory → S.faults model.new ≡ S.faults model.old }

    // Where the status isn't 4, the counts of faults of both sinks are as they were.
    ensures out_kept { result ≢ write_fault → O.faults out.new ≡ O.faults out.old }
    ensures notes_kept { result ≢ write_fault → N.faults notes.new ≡ N.faults notes.old }

    // Words that are accepted, a text of a length that is, an outcome for them, and no count of
    // faults that rose: the status is that of the outcome, or it is out of memory.
    ensures complete { (job : Settings) (text : List ℕ) (o : Outcome)
        → taken_of (texts_of words.now.items) ≡ Some job
        → reads_text job ≡ true → S.left model.old ≡ Some text → length text ≤ most_bytes job
        → HasOutcome (Text job text) o
        → ¬ FaultsRose (S.faults model.old) (S.faults model.new)
        → ¬ FaultsRose (O.faults out.old) (O.faults out.new)
        → ¬ FaultsRose (N.faults notes.old) (N.faults notes.new)
        → (result ≡ status_number o.status) ⊎ (result ≡ no_memory) }

    // The same for `load`, whose text is made.
    ensures complete_load { (seed size : ℕ) (o : Outcome)
        → taken_of (texts_of words.now.items) ≡ Some (Load seed size)
        → HasOutcome (Text (Load seed size) (load_text seed size)) o
        → ¬ FaultsRose (O.faults out.old) (O.faults out.new)
        → ¬ FaultsRose (N.faults notes.old) (N.faults notes.new)
        → (result ≡ status_number o.status) ⊎ (result ≡ no_memory) }
{
    law_one_outcome();
    let input = input_of(alloc, words, model);
    match finish(alloc, &input, out, notes) {
        Ok(status) => status.number(),
        Err(SinkErr::Failed) => WRITE_FAULT,
        Err(SinkErr::Memory) => NO_MEMORY,
    }
}
