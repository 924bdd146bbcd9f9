//! The rows of a text that are left.

ghost use Rattle.std.specs.Prelude.{IfOk, OnOk, length, ◌≡◌, ◌≤◌};
ghost use Rattle.tdf_base.specs.Limits.{longest_text};
ghost use Rattle.tdf_lang_lexer.specs.Rows.{rows_of};
ghost use Rattle.tdf_lang_parser.specs.views.RowViews.{rows_left};

use std::alloc::Global;
use tdf_base::Memory;
use tdf_lang_lexer::RowReader;

/// The rows of a text from one on: its number, or none where no row is left; its pieces; and the rows after it.
#[derive(Drop)]
pub(crate) struct RowsLeft<'t> {
    pub number: Option<u32>,
    pub pieces: Vec<&'t [u8]>,
    pub after: RowReader<'t>,
}

/// All rows of a text.
pub(crate) fn all_rows<'t>(alloc: Global, text: &'t [u8]) -> Result<RowsLeft<'t>, Memory>
    requires { length text.now ≤ longest_text }
    ensures { IfOk result (λ r. rows_left r ≡ rows_of text.entry.now) }
{
    let mut pieces = Vec::new(alloc);
    let mut after = RowReader::new(text);
    let number = after.next(&mut pieces)?;
    Ok(RowsLeft {
        number,
        pieces,
        after,
    })
}

/// The first row is left no more.
pub(crate) fn leave_first(rows: &mut RowsLeft) -> Result<(), Memory>
    ensures { OnOk result (rows_left rows.new ≡ rows.old.after) }
{
    rows.number = rows.after.next(&mut rows.pieces)?;
    Ok(())
}
