//! The ports and arrays of the driver.

ghost use Rattle.std.specs.Prelude.{◌≡◌, ◌<◌, ◌^◌, ◌++◌, IfOk, OnOk, length, map};
ghost use Rattle.tdf_lang_tree.specs.Pure.{DPort, DStore, SArray};
ghost use Rattle.tdf_lang_tree.specs.Views.{pure_de_line};
ghost use Rattle.tdf_lang_tree.specs.declared.blocks.PortKind.TheVariants as port_kind;
ghost use Rattle.tdf_lang_tree.specs.declared.shapes.FormatRef.TheVariants.{Own};
ghost use Rattle.tdf_stim.specs.Driver.{array_name, column_lines, columns_lines, literals, port_name};
ghost use Rattle.tdf_stim.specs.Signals.{columns_from};
ghost use Rattle.tdf_stim.specs.machine.Cells.{added_lines, first_words, number_after};
ghost use Rattle.tdf_stim.specs.machine.Maps.{seen};
ghost use Rattle.tdf_tables.specs.Rows.{row_of};
ghost use Rattle.tdf_tables.specs.Words.{words_of};

use crate::literals::{all_cells, literals, next_column};
use crate::names::name_with;
use crate::signals::Source;
use std::alloc::Global;
use tdf_base::Memory;
use tdf_lang_tree::{DeLine, FormatRef, PortKind, PortLine, Shape, Store};
use tdf_tables::Row;

/// `de_out qJ SHAPE`
fn port_line(alloc: Global, number: usize, shape: Shape) -> Result<DeLine, Memory>
    ensures { IfOk result (λ line. pure_de_line line ≡ DPort (record {
      line = 0;
      kind = port_kind.DeOut;
      name = port_name number;
      format = Own shape;
    })) }
{
    Ok(DeLine::Port(PortLine {
        line: 0,
        kind: PortKind::DeOut,
        name: name_with(alloc, b"q", number)?,
        format: FormatRef::Own(shape),
    }))
}

/// `array aJ SHAPE N LIT ..`
fn array_line(
    alloc: Global,
    number: usize,
    source: &Source,
    cells: &[&[u8]],
) -> Result<DeLine, Memory>
    ensures { IfOk result (λ line. pure_de_line line ≡ DStore (SArray 0 (array_name number) (Own source.now.shape)
        (length cells.now) (literals source.now.start.now (first_words (map (λ text. words_of text.now) cells.now))))) }
{
    let name = name_with(alloc, b"a", number)?;
    let values = literals(alloc, source.start, cells)?;
    Ok(DeLine::Store(Store::Array {
        line: 0,
        name,
        format: FormatRef::Own(source.shape),
        length: cells.len() as u64,
        values,
    }))
}

/// The port and the array of one column.
fn push_column(
    alloc: Global,
    lines: &mut Vec<DeLine>,
    number: usize,
    source: &Source,
    cells: &[&[u8]],
) -> Result<(), Memory>
    ensures { OnOk result (map pure_de_line lines.new.items ≡ map pure_de_line lines.old.items
        ++ column_lines number (record {
          label = source.now.label.now;
          shape = source.now.shape;
          start = source.now.start.now;
          cells = first_words (map (λ text. words_of text.now) cells.now);
        })) }
{
    lines.push(port_line(alloc, number, source.shape)?)?;
    lines.push(array_line(alloc, number, source, cells)?)?;
    Ok(())
}

/// The port and the array of a column, where it drives. Says the number of the next column that does.
fn add_column(
    alloc: Global,
    lines: &mut Vec<DeLine>,
    number: usize,
    source: &Option<Source>,
    cells: &[&[u8]],
) -> Result<usize, Memory>
    requires { number < 2 ^ 62 }
    ensures lines { OnOk result (map pure_de_line lines.new.items ≡ map pure_de_line lines.old.items
        ++ added_lines number (seen source.now) (map (λ text. words_of text.now) cells.now)) }
    ensures number { IfOk result (λ next. next ≡ number_after number (seen source.now)) }
{
    match source {
        None => Ok(number),
        Some(source) => {
            push_column(alloc, lines, number, source, cells)?;
            Ok(number + 1)
        }
    }
}

/// The ports and arrays of all columns that drive.
///
/// # Errors
/// Out of memory.
pub(crate) fn push_columns(
    alloc: Global,
    lines: &mut Vec<DeLine>,
    sources: &[Option<Source>],
    rows: &[Row],
) -> Result<(), Memory>
    ensures { OnOk result (map pure_de_line lines.new.items ≡ map pure_de_line lines.old.items
        ++ columns_lines 0 (columns_from (map row_of rows.now) 0 (map seen sources.now))) }
{
    let mut cells = all_cells(alloc, rows)?;
    let mut number = 0;
    for source in sources {
        number = add_column(alloc, lines, number, source, cells.as_slice())?;
        next_column(&mut cells);
    }
    Ok(())
}
