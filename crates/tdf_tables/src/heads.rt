//! The head of a table.

ghost use Rattle.std.specs.Option.{option_map};
ghost use Rattle.std.specs.Prelude.{◌≡◌, ◌++◌, IfOk, IfSome, None};
ghost use Rattle.tdf_tables.specs.Faults.{HasNoHead};
ghost use Rattle.tdf_tables.specs.Tables.{AreColumnLabels, table_head_text};
ghost use Rattle.tdf_tables.specs.Words.{words_of};
ghost use Rattle.tdf_tables.specs.machine.Scan.{label_part};

use crate::labels::are_labels;
use crate::lines::cut_line;
use std::alloc::Global;
use tdf_base::Memory;

/// What comes after `%time`, which is to begin with a space.
#[tactic(auto, using(crate::proofs::LineLaws::cut_laws))]
fn label_part<'t>(line: &'t [u8]) -> Option<&'t [u8]>
    ensures { option_map (λ labels. labels.now) result ≡ label_part line.entry.now }
{
    if line.starts_with(b"%time ".as_slice()) {
        return Some(&line[5..]);
    }
    None
}

/// The labels of the head as they are written, and what comes after its line; none where no head begins the text.
pub(crate) fn read_head<'t>(
    alloc: Global,
    text: &'t [u8],
) -> Result<Option<(&'t [u8], &'t [u8])>, Memory>
    ensures labels { IfOk result (λ o. IfSome o (λ p. AreColumnLabels (words_of p.0.now))) }
    ensures is { IfOk result (λ o. IfSome o (λ p. text.entry.now ≡ table_head_text (words_of p.0.now) ++ p.1.now)) }
    ensures none { IfOk result (λ o. o ≡ None → HasNoHead text.entry.now) }
{
    let Some((line, rest)) = cut_line(text) else {
        return Ok(None);
    };
    let Some(labels) = label_part(line) else {
        return Ok(None);
    };
    if !are_labels(alloc, labels)? {
        return Ok(None);
    }
    Ok(Some((labels, rest)))
}
