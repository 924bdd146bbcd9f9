//! The cells of a column as literals.

ghost use Rattle.std.specs.Prelude.{◌≡◌, [], IfOk, drop, map, slice_index_or};
ghost use Rattle.tdf_stim.specs.Driver.{cell_literal, literals};
ghost use Rattle.tdf_stim.specs.machine.Cells.{above, first_words};
ghost use Rattle.tdf_tables.specs.Rows.{row_of};
ghost use Rattle.tdf_tables.specs.Words.{words_of};

use std::alloc::Global;
use tdf_base::{Digits, Memory};
use tdf_lang_tree::Lit;
use tdf_tables::{Row, cut_word};

/// The cells of the rows, each row from its first on.
pub(crate) fn all_cells<'t>(alloc: Global, rows: &[Row<'t>]) -> Result<Vec<&'t [u8]>, Memory>
    ensures { IfOk result (λ cells. map (λ text. words_of text.now) cells.items ≡ map (λ row. row.cells) (map row_of rows.now)) }
{
    let mut cells = Vec::new(alloc);
    for row in rows {
        cells.push(row.cells)?;
    }
    Ok(cells)
}

/// The first word, or nothing.
fn first_word<'t>(text: &'t [u8]) -> &'t [u8]
    ensures { result.now ≡ slice_index_or (words_of text.entry.now) 0 [] }
{
    match cut_word(text) {
        Some((word, _)) => word,
        None => b"",
    }
}

/// The words after the first.
fn other_words<'t>(text: &'t [u8]) -> &'t [u8]
    ensures { words_of result.now ≡ drop 1 (words_of text.entry.now) }
{
    match cut_word(text) {
        Some((_, words)) => words,
        None => text,
    }
}

/// Leaves out the first cell of each row.
pub(crate) fn next_column(cells: &mut Vec<&[u8]>)
    ensures { map (λ text. words_of text.now) cells.new.items ≡ map (drop 1) (map (λ text. words_of text.now) cells.old.items) }
{
    for i in 0..cells.len() {
        cells[i] = other_words(cells[i]);
    }
}

/// A copy of a literal.
fn copied(alloc: Global, literal: &Lit) -> Result<Lit, Memory>
    ensures { IfOk result (λ copy. copy ≡ literal.now) }
{
    Ok(Lit {
        minus: literal.minus,
        digits: Digits::copied(alloc, literal.digits.as_bytes())?,
    })
}

/// A cell as a literal, where this one stands above it.
fn literal(alloc: Global, above: &Lit, cell: &[u8]) -> Result<Lit, Memory>
    ensures { IfOk result (λ literal. literal ≡ cell_literal above.now cell.now) }
{
    match cell {
        [] => copied(alloc, above),
        [b'*', ..] => copied(alloc, above),
        [b'-', digits @ ..] => Ok(Lit {
            minus: true,
            digits: Digits::copied(alloc, digits)?,
        }),
        _ => Ok(Lit {
            minus: false,
            digits: Digits::copied(alloc, cell)?,
        }),
    }
}

/// A cell as a literal, below these of its column.
fn next_literal(alloc: Global, start: &Lit, column: &[Lit], cell: &[u8]) -> Result<Lit, Memory>
    ensures { IfOk result (λ literal. literal ≡ cell_literal (above start.now column.now) cell.now) }
{
    if column.len() == 0 {
        return literal(alloc, start, cell);
    }
    literal(alloc, &column[column.len() - 1], cell)
}

/// The first cells of all rows as literals.
///
/// # Errors
/// Out of memory.
pub(crate) fn literals(alloc: Global, start: &Lit, cells: &[&[u8]]) -> Result<Vec<Lit>, Memory>
    ensures { IfOk result (λ column. column.items
        ≡ literals start.now (first_words (map (λ text. words_of text.now) cells.now))) }
{
    let mut column = Vec::new(alloc);
    for text in cells {
        let value = next_literal(alloc, start, column.as_slice(), first_word(*text))?;
        column.push(value)?;
    }
    Ok(column)
}
