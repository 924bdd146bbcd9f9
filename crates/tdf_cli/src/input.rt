//! The words, and then the text of the model.

ghost use Rattle.std.specs.Prelude.{◌≡◌, List, Option, Some, true, ℕ};
ghost use Rattle.tdf_cli.specs.Input.{AskToRead, InputIs, IsReady, ReadFault, most_bytes, reading, reads_text};
ghost use Rattle.tdf_cli_words.specs.Jobs.{IsLoad, IsWithin};
ghost use Rattle.tdf_cli_words.specs.Words.{taken_of, texts_of};
ghost use Rattle.tdf_cli_words.specs.declared.asked.Settings.TheVariants.{Load};

use std::alloc::Global;
use tdf_base::LONGEST_TEXT;
use tdf_cli_load::load_text;
use tdf_cli_words::{Settings, WordsErr, settings};
use tdf_io::{LoadErr, Source, read_all};
use tdf_tables::LONGEST_TABLE;

/// The most bytes of the text of `drive` that is read.
const LONGEST_STIMULUS: usize = 4_194_304;

/// The most bytes of the text of a state.
pub(crate) const LONGEST_STATE: usize = 67_108_864;

/// What came of the words and of reading the model.
#[derive(Drop)]
pub(crate) enum Input {
    /// The words are not accepted, and nothing was read.
    BadWords,
    /// What the words ask for, and its text: all that the source had left, or one that was made.
    Text(Settings, Vec<u8>),
    /// A byte more than the job reads was read.
    TooLong,
    /// A read failed.
    ReadFault,
    /// Out of memory.
    NoMemory,
}

/// Makes the text of `load`.
fn make(alloc: Global, seed: u64, size: u64) -> Input
    requires within { IsLoad seed size }
    ensures input { (words : List (List ℕ)) (old : Option (List ℕ)) (before : ℕ)
        → taken_of words ≡ Some (Load seed size)
        → InputIs words (reading result) old old before before }
    ensures ready { IsReady (reading result) }
{
    match load_text(alloc, seed, size) {
        Ok(text) if text.len() <= LONGEST_TEXT => {
            Input::Text(Settings::Load { seed, size }, text)
        }
        _ => Input::NoMemory,
    }
}

/// The most bytes that a job reads.
fn most_bytes(job: &Settings) -> usize
    ensures { result ≡ most_bytes job.now }
{
    match job {
        Settings::Drive(_) => LONGEST_STIMULUS,
        Settings::Resume { .. } => LONGEST_STATE,
        Settings::Sample(_) | Settings::Stats { .. } => LONGEST_TABLE,
        _ => LONGEST_TEXT,
    }
}

/// Reads the text of a job.
fn read<S: Source>(alloc: Global, job: Settings, model: &mut S) -> Input
    requires within { IsWithin job }
    requires reads { reads_text job ≡ true }
    ensures input { (words : List (List ℕ)) → taken_of words ≡ Some job
        → InputIs words (reading result) (S.left model.old) (S.left model.new)
        (S.faults model.old) (S.faults model.new) }
    ensures ready { IsReady (reading result) }
    ensures kept { ¬ (reading result ≡ ReadFault) → S.faults model.new ≡ S.faults model.old }
{
    match read_all(alloc, model, most_bytes(&job)) {
        Ok(text) => Input::Text(job, text),
        Err(LoadErr::TooLong) => Input::TooLong,
        Err(LoadErr::ReadFault) => Input::ReadFault,
        Err(LoadErr::Memory) => Input::NoMemory,
    }
}

/// Takes the words, and then reads the model, or makes one.
pub(crate) fn input_of<S: Source>(alloc: Global, words: &Vec<String>, model: &mut S) -> Input
    ensures input { InputIs (texts_of words.now.items) (reading result) (S.left model.old)
        (S.left model.new) (S.faults model.old) (S.faults model.new) }
    ensures ready { IsReady (reading result) }
    ensures kept { ¬ (reading result ≡ ReadFault) → S.faults model.new ≡ S.faults model.old }
    ensures unread { ¬ AskToRead (texts_of words.now.items) → model.new ≡ model.old }
{
    match settings(alloc, words) {
        Ok(Settings::Load { seed, size }) => make(alloc, seed, size),
        Ok(job) => read(alloc, job, model),
        Err(WordsErr::Usage) => Input::BadWords,
        Err(WordsErr::Memory) => Input::NoMemory,
    }
}
