//! A fault of a model: what is wrong, where it is, and how it is printed.

ghost use Rattle.std.specs.Prelude.{◌≡◌, ◌++◌, take, length, IfOk, OnOk, OnErr};
ghost use Rattle.tdf_base.specs.Fault.{fault_text, place_text, at_line_text, at_port_text, at_path_text, at_index_text};

use crate::codes::Code;
use crate::memory::Memory;
use crate::texts::{push_number, push_word};
use std::alloc::Global;
use std::marker::Model;

/// A dotted path, as `left.amplifier.out`, seen as its text.
#[derive(Drop)]
pub struct Path {
    text: Vec<u8>,
}

impl Model for Path {
    ghost use Rattle.std.specs.Prelude.{List, ℕ};

    ghost Value = { List ℕ };

    ghost view = { λ a. a.text.items };
}

impl Path {
    /// The path with this text. It takes no memory.
    pub fn new(text: Vec<u8>) -> Path
        ensures { result ≡ text.items }
    {
        Path { text }
    }

    /// A path with a copy of this text.
    ///
    /// # Errors
    /// Out of memory.
    pub fn copied(alloc: Global, text: &[u8]) -> Result<Path, Memory>
        ensures { IfOk result (λ path. path ≡ text.now) }
    {
        Ok(Path::new(Vec::from_slice(alloc, text)?))
    }

    /// The text of this path.
    pub fn as_bytes(&self) -> &[u8]
        ensures { result.now ≡ self.now }
    {
        self.text.as_slice()
    }
}

/// Where a fault is.
#[derive(Drop)]
pub enum Place {
    /// In the model as a whole.
    Nowhere,
    /// On a line of the text, counted from 1.
    Line(u32),
    /// At a port that a line of the text names.
    LinePort(u32, Path),
    /// At a part of the bound model.
    At(Path),
    /// Between two parts of the bound model.
    Both(Path, Path),
    /// At one sample or element of a part of the bound model, counted from 0.
    AtIndex(Path, u64),
}

/// A fault of a model.
#[derive(Drop)]
pub struct Fault {
    /// What is wrong.
    pub code: Code,
    /// Where it is.
    pub place: Place,
}

fn push_line(out: &mut Vec<u8>, line: u32) -> Result<(), Memory>
    ensures ok { OnOk result (out.new.items ≡ out.old.items ++ at_line_text line) }
    ensures kept { take (length out.old.items) out.new.items ≡ out.old.items }
{
    push_word(out, b" line ")?;
    push_number(out, u64::from(line))
}

fn push_port(out: &mut Vec<u8>, port: &Path) -> Result<(), Memory>
    ensures ok { OnOk result (out.new.items ≡ out.old.items ++ at_port_text port.now) }
    ensures kept { take (length out.old.items) out.new.items ≡ out.old.items }
{
    push_word(out, b" port ")?;
    push_word(out, port.as_bytes())
}

fn push_path(out: &mut Vec<u8>, path: &Path) -> Result<(), Memory>
    ensures ok { OnOk result (out.new.items ≡ out.old.items ++ at_path_text path.now) }
    ensures kept { take (length out.old.items) out.new.items ≡ out.old.items }
{
    push_word(out, b" path ")?;
    push_word(out, path.as_bytes())
}

fn push_index(out: &mut Vec<u8>, index: u64) -> Result<(), Memory>
    ensures ok { OnOk result (out.new.items ≡ out.old.items ++ at_index_text index) }
    ensures kept { take (length out.old.items) out.new.items ≡ out.old.items }
{
    push_word(out, b" index ")?;
    push_number(out, index)
}

fn push_line_port(out: &mut Vec<u8>, line: u32, port: &Path) -> Result<(), Memory>
    ensures ok { OnOk result (out.new.items ≡ out.old.items ++ (at_line_text line ++ at_port_text port.now)) }
    ensures kept { take (length out.old.items) out.new.items ≡ out.old.items }
{
    push_line(out, line)?;
    push_port(out, port)
}

fn push_both(out: &mut Vec<u8>, first: &Path, second: &Path) -> Result<(), Memory>
    ensures ok { OnOk result (out.new.items ≡ out.old.items ++ (at_path_text first.now ++ at_path_text second.now)) }
    ensures kept { take (length out.old.items) out.new.items ≡ out.old.items }
{
    push_path(out, first)?;
    push_path(out, second)
}

fn push_at_index(out: &mut Vec<u8>, path: &Path, index: u64) -> Result<(), Memory>
    ensures ok { OnOk result (out.new.items ≡ out.old.items ++ (at_path_text path.now ++ at_index_text index)) }
    ensures kept { take (length out.old.items) out.new.items ≡ out.old.items }
{
    push_path(out, path)?;
    push_index(out, index)
}

#[tactic(auto, unfolding(crate::specs::Fault::place_text))]
fn push_place(out: &mut Vec<u8>, place: &Place) -> Result<(), Memory>
    ensures ok { OnOk result (out.new.items ≡ out.old.items ++ place_text place.now) }
    ensures kept { take (length out.old.items) out.new.items ≡ out.old.items }
{
    match place {
        Place::Nowhere => Ok(()),
        Place::Line(line) => push_line(out, *line),
        Place::LinePort(line, port) => push_line_port(out, *line, port),
        Place::At(path) => push_path(out, path),
        Place::Both(first, second) => push_both(out, first, second),
        Place::AtIndex(path, index) => push_at_index(out, path, *index),
    }
}

#[tactic(auto, unfolding(crate::specs::Fault::fault_text))]
fn push_parts(out: &mut Vec<u8>, fault: &Fault) -> Result<(), Memory>
    ensures ok { OnOk result (out.new.items ≡ out.old.items ++ fault_text fault.now) }
    ensures kept { take (length out.old.items) out.new.items ≡ out.old.items }
{
    push_word(out, fault.code.word())?;
    push_place(out, &fault.place)
}

/// Appends a fault as `CODE PLACE`: `SYNTAX line 3`, `MISMATCH line 7 port left.in`, `RATES path a.x path b.y`,
/// `RANGE path a.x index 2`, or the code alone.
///
/// # Errors
/// Out of memory; `out` is then unchanged.
pub fn push_fault(out: &mut Vec<u8>, fault: &Fault) -> Result<(), Memory>
    ensures ok { OnOk result (out.new.items ≡ out.old.items ++ fault_text fault.now) }
    ensures err { OnErr result (out.new.items ≡ out.old.items) }
{
    let start = out.len();
    match push_parts(out, fault) {
        Ok(()) => Ok(()),
        Err(error) => {
            out.truncate(start);
            Err(error)
        }
    }
}
