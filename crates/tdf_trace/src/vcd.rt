//! The lines of a value change dump (IEEE 1364-2005, 18.2).
ghost use Rattle.std.specs.Prelude.{◌≡◌, ◌<◌, ◌≤◌, ◌++◌, codes, length, not, OnOk};
ghost use Rattle.tdf_base.specs.Limits.{most_traces};
ghost use Rattle.tdf_io.specs.Bytes.{pieces_text};
ghost use Rattle.tdf_trace.specs.Columns.{before_row, shown_row};
ghost use Rattle.tdf_trace.specs.Tables.{cell_in_row};
ghost use Rattle.tdf_trace.specs.Vcd.{change_piece, changes_text, declaration_piece, column_differs, identifier_code, is_same, time_line, timescale, value_bits, value_change, value_piece, values, vcd_line, vcd_tail};
ghost use Rattle.tdf_trace.specs.Writings.{labels_of, sizes_of};

use crate::about::Variable;
use crate::column::Column;
use tdf_base::{Memory, Resolution, push_number, push_word};
use tdf_fixed::{Raw, push_bits};

/// Appends the character that stands for a variable.
fn push_code(line: &mut Vec<u8>, column: usize) -> Result<(), Memory>
    requires { column < most_traces }
    ensures { OnOk result (line.new.items ≡ line.old.items ++ identifier_code column) }
{
    line.push(b'!' + column as u8)?;
    Ok(())
}

/// Appends the line that says what a count of time stands for.
pub(crate) fn push_timescale(line: &mut Vec<u8>, resolution: Resolution) -> Result<(), Memory>
    ensures { OnOk result (line.new.items ≡ line.old.items ++ timescale resolution) }
{
    match resolution {
        Resolution::Ps => push_word(line, b"$timescale 1 ps $end\n"),
        Resolution::Fs => push_word(line, b"$timescale 1 fs $end\n"),
    }
}

/// Appends the line that declares a variable.
#[tactic(auto, using(crate::proofs::Pieces::variable_laws))]
pub(crate) fn push_declaration(
    line: &mut Vec<u8>,
    variables: &Vec<Variable>,
    column: usize,
) -> Result<(), Memory>
    requires column { column < length variables.now.items }
    requires few { length variables.now.items ≤ most_traces }
    ensures { OnOk result (line.new.items ≡ line.old.items ++ declaration_piece (sizes_of variables.now.items) (labels_of variables.now.items) column) }
{
    push_word(line, b"$var wire ")?;
    push_number(line, u64::from(variables[column].format.wl))?;
    push_word(line, b" ")?;
    push_code(line, column)?;
    push_word(line, b" ")?;
    push_word(line, variables[column].label.as_bytes())?;
    push_word(line, b" $end\n")
}

/// Whether two cells show the same.
fn same(a: Option<Raw>, b: Option<Raw>) -> bool
    ensures { result ≡ is_same a b }
{
    match a {
        None => b.is_none(),
        Some(x) => match b {
            None => false,
            Some(y) => x.num == y.num && x.frac == y.frac,
        },
    }
}

/// Whether a column shows what it showed before.
fn same_at(columns: &Vec<Column>, column: usize) -> bool
    requires { column < length columns.now.items }
    ensures { result ≡ is_same (cell_in_row (before_row columns.now.items) column) (cell_in_row (shown_row columns.now.items) column) }
{
    same(columns[column].before(), columns[column].shown())
}

/// Whether some column shows something else than before.
#[tactic(auto, using(crate::proofs::Changes::differ_laws))]
fn any_differs(columns: &Vec<Column>) -> bool
    ensures { result ≡ column_differs (before_row columns.now.items) (shown_row columns.now.items) (length columns.now.items) }
{
    let mut found = false;
    for i in 0..columns.len() {
        if !same_at(columns, i) {
            found = true;
        }
    }
    found
}

/// Appends the bits of a value, or `x` where it is unknown.
fn push_value_bits(line: &mut Vec<u8>, value: Option<Raw>, size: u32) -> Result<(), Memory>
    requires { size ≤ 64 }
    ensures { OnOk result (line.new.items ≡ line.old.items ++ value_bits value size) }
{
    match value {
        None => push_word(line, b"x"),
        Some(value) => push_bits(line, value, size),
    }
}

/// Appends the line of a value.
#[tactic(auto, using(std::proofs::Common::append_assoc))]
fn push_value(
    line: &mut Vec<u8>,
    value: Option<Raw>,
    size: u32,
    column: usize,
) -> Result<(), Memory>
    requires size { size ≤ 64 }
    requires column { column < most_traces }
    ensures { OnOk result (line.new.items ≡ line.old.items ++ value_change value size column) }
{
    push_word(line, b"b")?;
    push_value_bits(line, value, size)?;
    push_word(line, b" ")?;
    push_code(line, column)?;
    push_word(line, b"\n")
}

/// Appends the line of what a column shows.
fn push_value_at(
    line: &mut Vec<u8>,
    variables: &Vec<Variable>,
    columns: &Vec<Column>,
    column: usize,
) -> Result<(), Memory>
    requires column { column < length columns.now.items }
    requires same { length variables.now.items ≡ length columns.now.items }
    requires few { length columns.now.items ≤ most_traces }
    ensures { OnOk result (line.new.items ≡ line.old.items ++ value_piece (sizes_of variables.now.items) (shown_row columns.now.items) column) }
{
    push_value(
        line,
        columns[column].shown(),
        variables[column].format.wl,
        column,
    )
}

/// Appends a line for each column.
#[tactic(auto, using(crate::proofs::Pieces::piece_laws))]
fn push_values(
    line: &mut Vec<u8>,
    variables: &Vec<Variable>,
    columns: &Vec<Column>,
) -> Result<(), Memory>
    requires same { length variables.now.items ≡ length columns.now.items }
    requires few { length columns.now.items ≤ most_traces }
    ensures { OnOk result (line.new.items ≡ line.old.items ++ pieces_text (value_piece (sizes_of variables.now.items) (shown_row columns.now.items)) (length columns.now.items)) }
{
    for i in 0..columns.len() {
        push_value_at(line, variables, columns, i)?;
    }
    Ok(())
}

/// Appends the line of what a column shows, where that is something else than before.
fn push_change(
    line: &mut Vec<u8>,
    variables: &Vec<Variable>,
    columns: &Vec<Column>,
    column: usize,
) -> Result<(), Memory>
    requires column { column < length columns.now.items }
    requires same { length variables.now.items ≡ length columns.now.items }
    requires few { length columns.now.items ≤ most_traces }
    ensures { OnOk result (line.new.items ≡ line.old.items ++ change_piece (sizes_of variables.now.items) (before_row columns.now.items) (shown_row columns.now.items) column) }
{
    if same_at(columns, column) {
        return Ok(());
    }
    push_value_at(line, variables, columns, column)
}

/// Appends a line for each column that shows something else.
#[tactic(auto, using(crate::proofs::Pieces::piece_laws))]
fn push_changes(
    line: &mut Vec<u8>,
    variables: &Vec<Variable>,
    columns: &Vec<Column>,
) -> Result<(), Memory>
    requires same { length variables.now.items ≡ length columns.now.items }
    requires few { length columns.now.items ≤ most_traces }
    ensures { OnOk result (line.new.items ≡ line.old.items ++ pieces_text (change_piece (sizes_of variables.now.items) (before_row columns.now.items) (shown_row columns.now.items)) (length columns.now.items)) }
{
    for i in 0..columns.len() {
        push_change(line, variables, columns, i)?;
    }
    Ok(())
}

/// Appends `#TIME`, in counts of the resolution.
#[tactic(auto, using(std::proofs::Common::append_assoc))]
fn push_time(line: &mut Vec<u8>, time: u64) -> Result<(), Memory>
    ensures { OnOk result (line.new.items ≡ line.old.items ++ time_line time) }
{
    push_word(line, b"#")?;
    push_number(line, time)?;
    push_word(line, b"\n")
}

/// Appends the first row: all values.
#[tactic(auto, using(crate::proofs::Pieces::text_laws))]
fn push_dump(
    line: &mut Vec<u8>,
    variables: &Vec<Variable>,
    columns: &Vec<Column>,
) -> Result<(), Memory>
    requires same { length variables.now.items ≡ length columns.now.items }
    requires few { length columns.now.items ≤ most_traces }
    ensures { OnOk result (line.new.items ≡ line.old.items ++ (time_line 0 ++ codes "$dumpvars\n" ++ values (sizes_of variables.now.items) (shown_row columns.now.items) ++ codes "$end\n")) }
{
    push_time(line, 0)?;
    push_word(line, b"$dumpvars\n")?;
    push_values(line, variables, columns)?;
    push_word(line, b"$end\n")
}

/// Appends a row: all values at 0, later the changes, and nothing where there is none.
#[tactic(auto, unfolding(crate::specs::Vcd::vcd_line), using(crate::proofs::Pieces::text_laws))]
pub(crate) fn push_line(
    line: &mut Vec<u8>,
    variables: &Vec<Variable>,
    columns: &Vec<Column>,
    time: u64,
) -> Result<(), Memory>
    requires same { length variables.now.items ≡ length columns.now.items }
    requires few { length columns.now.items ≤ most_traces }
    ensures { OnOk result (line.new.items ≡ line.old.items ++ vcd_line (sizes_of variables.now.items) time (before_row columns.now.items) (shown_row columns.now.items)) }
{
    if time == 0 {
        return push_dump(line, variables, columns);
    }
    if !any_differs(columns) {
        return Ok(());
    }
    push_time(line, time)?;
    push_changes(line, variables, columns)
}

/// Appends the end time, where something was before it.
#[tactic(auto, unfolding(crate::specs::Vcd::vcd_tail), using(crate::proofs::Pieces::text_laws))]
pub(crate) fn push_tail(line: &mut Vec<u8>, end: u64) -> Result<(), Memory>
    ensures { OnOk result (line.new.items ≡ line.old.items ++ vcd_tail end) }
{
    if 0 < end {
        return push_time(line, end);
    }
    Ok(())
}
