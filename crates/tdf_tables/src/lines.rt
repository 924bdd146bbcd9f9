//! Lines, and the cells of a line.

ghost use Rattle.std.specs.List.{list_any, position_or_len};
ghost use Rattle.std.specs.Option.{option_map};
ghost use Rattle.std.specs.Prelude.{◌≡◌, ◌++◌, ◌∷◌, ◌≤◌, ◌<◌, None, false, IfSome, length, drop, take};
ghost use Rattle.tdf_tables.specs.machine.Scan.{after_cell, are_cells, is_line_end};

use crate::cells::is_cell;
use crate::table::cut_space;

fn line_len(text: &[u8]) -> usize
    ensures value { result ≡ position_or_len is_line_end text.now }
{
    text.iter().take_while(|byte| **byte != b'\n').count()
}

/// The first line, without its LF, and what comes after it; none where no line ends.
#[tactic(auto, using(crate::proofs::LineLaws::cut_laws))]
pub(crate) fn cut_line<'t>(text: &'t [u8]) -> Option<(&'t [u8], &'t [u8])>
    ensures cut { IfSome result (λ p. text.entry.now ≡ p.0.now ++ 10 ∷ p.1.now) }
    ensures line { IfSome result (λ p. list_any is_line_end p.0.now ≡ false) }
    ensures none { result ≡ None → list_any is_line_end text.entry.now ≡ false }
{
    let end = line_len(text);
    if end < text.len() {
        return Some((&text[..end], &text[end + 1..]));
    }
    None
}

/// What comes after a space and a cell; none where the text begins otherwise.
pub(crate) fn cut_cell<'t>(text: &'t [u8]) -> Option<&'t [u8]>
    ensures { option_map (λ rest. rest.now) result ≡ after_cell text.entry.now }
{
    match text {
        [b' ', more @ ..] => {
            let (word, after) = cut_space(more);
            if is_cell(word) { Some(after) } else { None }
        }
        _ => None,
    }
}

/// Whether the text is so many cells, each after one space.
#[tactic(auto, using(crate::proofs::LineLaws::cell_steps))]
pub(crate) fn are_cells(count: usize, text: &[u8]) -> bool
    ensures { result ≡ are_cells count text.now }
{
    let mut rest = text;
    for _k in 0..count {
        match cut_cell(rest) {
            Some(after) => rest = after,
            None => return false,
        }
    }
    rest.is_empty()
}
