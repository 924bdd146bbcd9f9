//! Writing a table.

ghost use Rattle.std.specs.Prelude.{◌≡◌, ◌++◌, ◌∷◌, [], OnErr, OnOk, length, map, take};
ghost use Rattle.tdf_io.specs.Bytes.{WritesText};
ghost use Rattle.tdf_tables.specs.Rows.{AppendsPart, row_of};
ghost use Rattle.tdf_tables.specs.Tables.{table_head_text, table_row_text, table_rows_text, table_text};
ghost use Rattle.tdf_tables.specs.Words.{spaced, words_of};

use crate::table::{Row, Table};
use std::alloc::Global;
use tdf_base::{Memory, push_word};
use tdf_fixed::push_femtoseconds;
use tdf_io::{Sink, SinkErr, put_all};

/// Appends words, each after one space.
#[tactic(auto, using(crate::proofs::Texts::spaced_laws))]
fn push_spaced(out: &mut Vec<u8>, words: &[u8]) -> Result<(), Memory>
    ensures ok { OnOk result (out.new.items ≡ out.old.items ++ spaced (words_of words.now)) }
    ensures kept { take (length out.old.items) out.new.items ≡ out.old.items }
{
    match words {
        [] => Ok(()),
        [_, more @ ..] => {
            out.push(b' ')?;
            push_word(out, more)
        }
    }
}

/// Appends words, each after one space, and an LF.
#[tactic(auto, using(crate::proofs::Texts::word_laws))]
fn push_words(out: &mut Vec<u8>, words: &[u8]) -> Result<(), Memory>
    ensures ok { OnOk result (out.new.items ≡ out.old.items ++ (spaced (words_of words.now) ++ 10 ∷ [])) }
    ensures kept { take (length out.old.items) out.new.items ≡ out.old.items }
{
    push_spaced(out, words)?;
    push_word(out, b"\n")
}

#[tactic(auto, using(crate::proofs::Texts::word_laws))]
fn push_head_parts(out: &mut Vec<u8>, table: &Table) -> Result<(), Memory>
    ensures ok { OnOk result (out.new.items ≡ out.old.items ++ table_head_text table.now.labels) }
    ensures kept { take (length out.old.items) out.new.items ≡ out.old.items }
{
    push_word(out, b"%time")?;
    push_words(out, table.labels())
}

/// Appends the head; out of memory leaves the text as it was.
fn push_head(out: &mut Vec<u8>, table: &Table) -> Result<(), Memory>
    ensures ok { OnOk result (out.new.items ≡ out.old.items ++ table_head_text table.now.labels) }
    ensures err { OnErr result (out.new.items ≡ out.old.items) }
{
    let start = out.len();
    match push_head_parts(out, table) {
        Ok(()) => Ok(()),
        Err(refused) => {
            out.truncate(start);
            Err(refused)
        }
    }
}

#[tactic(auto, using(crate::proofs::Texts::word_laws))]
fn push_row_parts(out: &mut Vec<u8>, row: &Row) -> Result<(), Memory>
    ensures ok { OnOk result (out.new.items ≡ out.old.items ++ table_row_text (row_of row.now)) }
    ensures kept { take (length out.old.items) out.new.items ≡ out.old.items }
{
    push_femtoseconds(out, row.time)?;
    push_words(out, row.cells)
}

/// Appends a row; out of memory leaves the text as it was.
fn push_row(out: &mut Vec<u8>, row: &Row) -> Result<(), Memory>
    ensures ok { OnOk result (out.new.items ≡ out.old.items ++ table_row_text (row_of row.now)) }
    ensures err { OnErr result (out.new.items ≡ out.old.items) }
{
    let start = out.len();
    match push_row_parts(out, row) {
        Ok(()) => Ok(()),
        Err(refused) => {
            out.truncate(start);
            Err(refused)
        }
    }
}

/// Appends rows.
#[tactic(auto, using(crate::proofs::Texts::row_laws))]
fn push_rows(out: &mut Vec<u8>, rows: &[Row]) -> Result<(), Memory>
    ensures whole { OnOk result (out.new.items ≡ out.old.items ++ table_rows_text (map row_of rows.now)) }
    ensures part { OnErr result (AppendsPart out.old.items out.new.items (table_rows_text (map row_of rows.now))) }
{
    for k in 0..rows.len() {
        push_row(out, &rows[k])?;
    }
    Ok(())
}

/// Appends the text of a table.
///
/// # Errors
/// Out of memory; the front of the text may be appended then.
pub fn push_table(out: &mut Vec<u8>, table: &Table) -> Result<(), Memory>
    ensures whole { OnOk result (out.new.items ≡ out.old.items ++ table_text table.now) }
    ensures part { OnErr result (AppendsPart out.old.items out.new.items (table_text table.now)) }
{
    push_head(out, table)?;
    push_rows(out, table.rows())
}

/// Writes the head, as one piece.
fn write_head<K: Sink>(line: &mut Vec<u8>, table: &Table, sink: &mut K) -> Result<(), SinkErr>
    ensures { WritesText K.taken K.faults sink.old sink.new (table_head_text table.now.labels) result }
{
    line.clear();
    match push_head(line, table) {
        Ok(()) => put_all(sink, line),
        Err(Memory) => Err(SinkErr::Memory),
    }
}

/// Writes a row, as one piece.
fn write_row<K: Sink>(line: &mut Vec<u8>, row: &Row, sink: &mut K) -> Result<(), SinkErr>
    ensures { WritesText K.taken K.faults sink.old sink.new (table_row_text (row_of row.now)) result }
{
    line.clear();
    match push_row(line, row) {
        Ok(()) => put_all(sink, line),
        Err(Memory) => Err(SinkErr::Memory),
    }
}

/// Writes rows, one after the other.
fn write_rows<K: Sink>(line: &mut Vec<u8>, rows: &[Row], sink: &mut K) -> Result<(), SinkErr>
    ensures { WritesText K.taken K.faults sink.old sink.new (table_rows_text (map row_of rows.now)) result }
{
    for k in 0..rows.len() {
        match write_row(line, &rows[k], sink) {
            Ok(()) => {}
            Err(error) => return Err(error),
        }
    }
    Ok(())
}

/// Writes the text of a table. It takes memory for one line.
///
/// # Errors
/// A write failed, or out of memory; the sink took a front part of the text then.
pub fn write_table<K: Sink>(alloc: Global, table: &Table, sink: &mut K) -> Result<(), SinkErr>
    ensures { WritesText K.taken K.faults sink.old sink.new (table_text table.now) result }
{
    let mut line = Vec::new(alloc);
    match write_head(&mut line, table, sink) {
        Ok(()) => write_rows(&mut line, table.rows(), sink),
        Err(error) => Err(error),
    }
}
