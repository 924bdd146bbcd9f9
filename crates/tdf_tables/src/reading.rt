//! Reading a table.

ghost use Rattle.std.specs.Prelude.{◌≡◌, ◌≤◌, ◌⊎◌, ℕ, Err, IfErr, IfOk, Ok, length};
ghost use Rattle.tdf_tables.specs.Faults.{HasTableFault, IsTableRefusal};
ghost use Rattle.tdf_tables.specs.Tables.{SpellsTable, TableOf, longest_table};
ghost use Rattle.tdf_tables.specs.declared.err.TableErr.TheVariants.{Line, Memory};

use crate::err::TableErr;
use crate::heads::read_head;
use crate::rows::read_rows;
use crate::table::{Table, count_words};
use std::alloc::Global;

/// The most bytes of the text of a table that is read.
pub const LONGEST_TABLE: usize = 67_108_864;

/// The table that a text is, or the first line at fault.
fn read<'t>(alloc: Global, bytes: &'t [u8]) -> Result<Table<'t>, TableErr>
    requires { length bytes.now ≤ longest_table }
    ensures table { IfOk result (λ t. SpellsTable bytes.entry.now t) }
    ensures refused { IfErr result (IsTableRefusal bytes.entry.now) }
{
    let (labels, rest) = match read_head(alloc, bytes) {
        Ok(Some(head)) => head,
        Ok(None) => return Err(TableErr::Line(1)),
        Err(_) => return Err(TableErr::Memory),
    };
    match read_rows(alloc, rest, count_words(labels)) {
        Ok(rows) => Ok(Table::new(labels, rows)),
        Err(why) => Err(why),
    }
}

/// Reads the table that a text is. It takes 32 bytes a row, and the text stays.
///
/// # Errors
/// `Line` exactly where the text is that of no table: the first line that breaks the form, counted from the head, which is 1. A
/// missing line is the number of lines plus 1, and a last line without LF breaks the form. Else only `Memory`: out of memory.
pub fn read_table<'t>(alloc: Global, bytes: &'t [u8]) -> Result<Table<'t>, TableErr>
    requires short { length bytes.now ≤ longest_table }
    ensures table { IfOk result (λ t. SpellsTable bytes.entry.now t) }
    ensures refused { IfErr result (IsTableRefusal bytes.entry.now) }

    // Each answer comes wherever its cause is there, but for want of memory.
    ensures table_always { (t : TableOf) → SpellsTable bytes.entry.now t
        → (result ≡ Ok t) ⊎ (result ≡ Err Memory) }
    ensures line_always { (line : ℕ) → HasTableFault bytes.entry.now line
        → (result ≡ Err (Line line)) ⊎ (result ≡ Err Memory) }
{
    read(alloc, bytes)
}
