//! The program `tdf`: the command over standard input, output and error.
#![tactic(auto)]

mod words;

ghost use Rattle.std.specs.Prelude.{◌≡◌, ◌≢◌, ◌⊎◌, []};
ghost use Rattle.tdf_cli.specs.Status.{no_memory, usage, write_fault};
ghost use Rattle.tdf_io.specs.Faults.{FaultsRose};

use crate::words::{Words, words_of};
use std::io::Write;
use std::process::ExitCode;
use tdf_cli::{NO_MEMORY, USAGE, WRITE_FAULT, tool};
use tdf_io::{SinkErr, StdSink, StdSource, put_all};

/// Hands on what both streams have gathered, the output first: where that fails, what is left of the notes is dropped, so
/// that they tell of no end that the output doesn't have. The status stands, unless one of them fails.
fn hand_on<O: Write + Drop, N: Write + Drop>(
    status: u8,
    out: &mut StdSink<O>,
    notes: &mut StdSink<N>,
) -> u8
    ensures answer { (result ≡ status) ⊎ (result ≡ write_fault) }
    ensures all { result ≢ write_fault → (out.new.waiting ≡ []) × (notes.new.waiting ≡ []) }
    ensures order { (out.new.waiting ≡ []) ⊎ (notes.new ≡ notes.old) }
    ensures cause { result ≢ status → FaultsRose out.old.faults out.new.faults
        ⊎ FaultsRose notes.old.faults notes.new.faults }
{
    match out.flush() {
        Ok(()) => match notes.flush() {
            Ok(()) => status,
            Err(_) => WRITE_FAULT,
        },
        Err(_) => WRITE_FAULT,
    }
}

/// What is answered for words that the runtime can't tell as text: they aren't accepted.
fn not_text<N: Write + Drop>(notes: &mut StdSink<N>) -> u8
    ensures answer { (result ≡ usage) ⊎ (result ≡ write_fault) ⊎ (result ≡ no_memory) }
    ensures cause { result ≡ write_fault → FaultsRose notes.old.faults notes.new.faults }
{
    match put_all(notes, b"usage\n") {
        Ok(()) => USAGE,
        Err(SinkErr::Failed) => WRITE_FAULT,
        Err(SinkErr::Memory) => NO_MEMORY,
    }
}

fn main(rt: HostRuntime) -> ExitCode {
    let mut model = StdSource::new(rt.stdin());
    let mut out = StdSink::new(rt.stdout());
    let mut notes = StdSink::new(rt.stderr());
    let status = match words_of(&rt) {
        Words::Text(words) => tool(rt.alloc(), &words, &mut model, &mut out, &mut notes),
        Words::NotText => not_text(&mut notes),
        Words::NoMemory => NO_MEMORY,
    };
    ExitCode::from(hand_on(status, &mut out, &mut notes))
}
