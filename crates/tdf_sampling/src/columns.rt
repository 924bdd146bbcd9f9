//! What is kept of the cells of a column.

ghost use Rattle.std.specs.Prelude.{◌≡◌, ◌++◌, ◌<◌, ◌+◌, OnOk, option_map};
ghost use Rattle.tdf_sampling.specs.Statistics.{change_count_text, counts_text, is_unknown, limits_text, or_dash};
ghost use Rattle.tdf_sampling.specs.machine.Measures.{HasRoom, change, greater, lesser, measured_line, no_cells, with_cell};

use crate::order::is_at_most;
use std::marker::Model;
use tdf_base::{Memory, push_number, push_word};

/// What is kept of the cells of a column so far. Cells stay in the text of the table.
#[derive(Drop)]
pub(crate) struct Column<'t> {
    unknown: u64,
    changes: u64,
    least: Option<&'t [u8]>,
    greatest: Option<&'t [u8]>,
    last: Option<&'t [u8]>,
}

impl<'t> Model for Column<'t> {
    ghost use Rattle.std.specs.Prelude.{option_map};
    ghost use Rattle.tdf_sampling.specs.machine.Measures.{Measured};

    ghost Value = { Measured };

    ghost view = { λ a. record {
      unknown = a.unknown;
      changes = a.changes;
      least = option_map (λ s. s.now) a.least;
      greatest = option_map (λ s. s.now) a.greatest;
      last = option_map (λ s. s.now) a.last;
    } };
}

fn is_unknown(cell: &[u8]) -> bool
    ensures { result ≡ is_unknown cell.now }
{
    cell == b"*".as_slice()
}

/// 1 where a cell differs from the last one.
fn change(last: Option<&[u8]>, cell: &[u8]) -> u64
    ensures is { result ≡ change (option_map (λ s. s.now) last.entry) cell.now }
    ensures one { result < 2 }
{
    match last {
        None => 0,
        Some(before) => u64::from(before != cell),
    }
}

fn lesser<'t>(least: Option<&'t [u8]>, number: &'t [u8]) -> Option<&'t [u8]>
    ensures { option_map (λ s. s.now) result ≡ lesser (option_map (λ s. s.now) least.entry) number.entry.now }
{
    match least {
        None => Some(number),
        Some(before) => {
            if is_at_most(before, number) {
                return Some(before);
            }
            Some(number)
        }
    }
}

fn greater<'t>(greatest: Option<&'t [u8]>, number: &'t [u8]) -> Option<&'t [u8]>
    ensures { option_map (λ s. s.now) result ≡ greater (option_map (λ s. s.now) greatest.entry) number.entry.now }
{
    match greatest {
        None => Some(number),
        Some(before) => {
            if is_at_most(number, before) {
                return Some(before);
            }
            Some(number)
        }
    }
}

/// Appends a number, or `-` where there is none.
fn push_number_or_dash(line: &mut Vec<u8>, number: Option<&[u8]>) -> Result<(), Memory>
    ensures { OnOk result (line.new.items ≡ line.old.items ++ or_dash (option_map (λ s. s.now) number.entry)) }
{
    match number {
        None => push_word(line, b"-"),
        Some(text) => push_word(line, text),
    }
}

/// Appends ` cells N unknown U`.
#[tactic(auto, unfolding(crate::specs::Statistics::counts_text), using(crate::proofs::Texts::text_laws))]
fn push_counts(line: &mut Vec<u8>, cells: u64, unknown: u64) -> Result<(), Memory>
    ensures { OnOk result (line.new.items ≡ line.old.items ++ counts_text cells unknown) }
{
    push_word(line, b" cells ")?;
    push_number(line, cells)?;
    push_word(line, b" unknown ")?;
    push_number(line, unknown)
}

/// Appends ` min A max B`.
#[tactic(auto, unfolding(crate::specs::Statistics::limits_text), using(crate::proofs::Texts::text_laws))]
fn push_limits(
    line: &mut Vec<u8>,
    least: Option<&[u8]>,
    greatest: Option<&[u8]>,
) -> Result<(), Memory>
    ensures { OnOk result (line.new.items ≡ line.old.items
        ++ limits_text (option_map (λ s. s.now) least.entry) (option_map (λ s. s.now) greatest.entry)) }
{
    push_word(line, b" min ")?;
    push_number_or_dash(line, least)?;
    push_word(line, b" max ")?;
    push_number_or_dash(line, greatest)
}

/// Appends ` changes C` and ends the line.
#[tactic(auto, unfolding(crate::specs::Statistics::change_count_text), using(crate::proofs::Texts::text_laws))]
fn push_changes(line: &mut Vec<u8>, changes: u64) -> Result<(), Memory>
    ensures { OnOk result (line.new.items ≡ line.old.items ++ change_count_text changes) }
{
    push_word(line, b" changes ")?;
    push_number(line, changes)?;
    push_word(line, b"\n")
}

impl<'t> Column<'t> {
    /// A column without cells.
    pub(crate) fn new() -> Column<'t>
        ensures { result ≡ no_cells }
    {
        Column {
            unknown: 0,
            changes: 0,
            least: None,
            greatest: None,
            last: None,
        }
    }

    /// One cell more.
    pub(crate) fn add(&mut self, cell: &'t [u8])
        requires { HasRoom self.old }
        ensures { self.new ≡ with_cell self.old cell.entry.now }
    {
        self.changes += change(self.last, cell);
        self.last = Some(cell);
        if is_unknown(cell) {
            self.unknown += 1;
            return;
        }
        self.least = lesser(self.least, cell);
        self.greatest = greater(self.greatest, cell);
    }

    /// Appends the column's line: `LABEL cells N unknown U min A max B changes C`.
    #[tactic(auto, unfolding(crate::specs::machine::Measures::measured_line), using(crate::proofs::Texts::text_laws))]
    pub(crate) fn push_line(
        &self,
        line: &mut Vec<u8>,
        label: &[u8],
        count: u64,
    ) -> Result<(), Memory>
        ensures { OnOk result (line.new.items ≡ line.old.items ++ measured_line label.now count self.now) }
    {
        push_word(line, label)?;
        push_counts(line, count, self.unknown)?;
        push_limits(line, self.least, self.greatest)?;
        push_changes(line, self.changes)
    }
}
