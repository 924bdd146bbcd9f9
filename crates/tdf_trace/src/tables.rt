//! The lines of a table.
ghost use Rattle.std.specs.Prelude.{◌≡◌, ◌<◌, ◌++◌, codes, length, OnOk};
ghost use Rattle.tdf_io.specs.Bytes.{pieces_text};
ghost use Rattle.tdf_trace.specs.Columns.{HasFewPlaces, before_row, shown_row};
ghost use Rattle.tdf_trace.specs.Tables.{cell_piece, cell_text, label_piece, table_head, table_line};
ghost use Rattle.tdf_trace.specs.Writings.{labels_of};
ghost use Rattle.tdf_trace.specs.views.Seen.{AreShown};

use crate::about::Variable;
use crate::column::Column;
use tdf_base::{Memory, Resolution, push_word};
use tdf_fixed::{Raw, push_decimal, push_seconds_at};

/// Appends a label with a space before it.
#[tactic(auto, using(crate::proofs::Pieces::label_at, std::proofs::Common::append_assoc))]
fn push_label(line: &mut Vec<u8>, variables: &Vec<Variable>, column: usize) -> Result<(), Memory>
    requires { column < length variables.now.items }
    ensures { OnOk result (line.new.items ≡ line.old.items ++ label_piece (labels_of variables.now.items) column) }
{
    push_word(line, b" ")?;
    push_word(line, variables[column].label.as_bytes())
}

/// Appends the labels.
#[tactic(auto, using(crate::proofs::Pieces::piece_laws))]
fn push_labels(line: &mut Vec<u8>, variables: &Vec<Variable>) -> Result<(), Memory>
    ensures { OnOk result (line.new.items ≡ line.old.items ++ pieces_text (label_piece (labels_of variables.now.items)) (length variables.now.items)) }
{
    for i in 0..variables.len() {
        push_label(line, variables, i)?;
    }
    Ok(())
}

/// Appends the head: `%time LABEL LABEL ..`.
#[tactic(auto, unfolding(crate::specs::Tables::table_head), using(crate::proofs::Pieces::text_laws))]
pub(crate) fn push_head(line: &mut Vec<u8>, variables: &Vec<Variable>) -> Result<(), Memory>
    ensures { OnOk result (line.new.items ≡ line.old.items ++ table_head (labels_of variables.now.items)) }
{
    push_word(line, b"%time")?;
    push_labels(line, variables)?;
    push_word(line, b"\n")
}

/// Appends a value, or `*` where it is unknown.
fn push_value(line: &mut Vec<u8>, value: Option<Raw>) -> Result<(), Memory>
    requires { HasFewPlaces value }
    ensures { OnOk result (line.new.items ≡ line.old.items ++ cell_text value) }
{
    match value {
        None => push_word(line, b"*"),
        Some(value) => push_decimal(line, value),
    }
}

/// Appends what a column shows, with a space before it.
fn push_cell(line: &mut Vec<u8>, columns: &Vec<Column>, column: usize) -> Result<(), Memory>
    requires column { column < length columns.now.items }
    requires shown { AreShown columns.now.items }
    ensures { OnOk result (line.new.items ≡ line.old.items ++ cell_piece (shown_row columns.now.items) column) }
{
    push_word(line, b" ")?;
    push_value(line, columns[column].shown())
}

/// Appends what the columns show.
#[tactic(auto, using(crate::proofs::Pieces::piece_laws))]
fn push_cells(line: &mut Vec<u8>, columns: &Vec<Column>) -> Result<(), Memory>
    requires shown { AreShown columns.now.items }
    ensures { OnOk result (line.new.items ≡ line.old.items ++ pieces_text (cell_piece (shown_row columns.now.items)) (length columns.now.items)) }
{
    for i in 0..columns.len() {
        push_cell(line, columns, i)?;
    }
    Ok(())
}

/// Appends a row: `TIME CELL CELL ..`, the time in seconds.
#[tactic(auto, unfolding(crate::specs::Tables::table_line), using(crate::proofs::Pieces::text_laws))]
pub(crate) fn push_line(
    line: &mut Vec<u8>,
    columns: &Vec<Column>,
    time: u64,
    resolution: Resolution,
) -> Result<(), Memory>
    requires shown { AreShown columns.now.items }
    ensures { OnOk result (line.new.items ≡ line.old.items ++ table_line resolution time (before_row columns.now.items) (shown_row columns.now.items)) }
{
    push_seconds_at(line, time, resolution)?;
    push_cells(line, columns)?;
    push_word(line, b"\n")
}
