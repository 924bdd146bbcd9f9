//! The lines of a text that have a piece.

ghost use Rattle.std.specs.Prelude.{IfOk, MatchOption, [], length, map, ◌∷◌, ◌≡◌, ◌≤◌};
ghost use Rattle.tdf_base.specs.Limits.{longest_text};
ghost use Rattle.tdf_lang_lexer.specs.Rows.{rows_of};

use crate::pieces::push_pieces;
use crate::text::cut_line;
use std::marker::Model;
use tdf_base::Memory;

/// Reads the lines of a text that have a piece, one after another. It borrows from the text.
#[derive(Drop)]
pub struct RowReader<'t> {
    number: u32,
    rest: &'t [u8],
}

impl<'t> Model for RowReader<'t> {
    ghost use Rattle.std.specs.Prelude.{List, length, ◌+◌, ◌≤◌};
    ghost use Rattle.tdf_base.specs.Limits.{longest_text};
    ghost use Rattle.tdf_lang_lexer.specs.Rows.{Row, rows_from};
    ghost use Rattle.tdf_lang_lexer.specs.Text.{lines_of};

    /// The rows that are left.
    ghost Value = { List Row };

    ghost view = { λ a. rows_from a.number (lines_of a.rest.now) };

    ghost invariant = { λ a. a.number + length a.rest.now ≤ longest_text + 1 };
}

impl<'t> RowReader<'t> {
    /// Before the first row of a text. The lines of a text are numbered from 1.
    #[tactic(auto, unfolding(crate::specs::Rows::rows_of))]
    pub fn new(text: &'t [u8]) -> RowReader<'t>
        requires { length text.now ≤ longest_text }
        ensures { result ≡ rows_of text.entry.now }
    {
        RowReader {
            number: 1,
            rest: text,
        }
    }

    /// The number of the next line that has a piece, whose pieces then stand alone in `pieces`; none where no such
    /// line is left.
    ///
    /// # Errors
    /// Out of memory.
    #[tactic(auto, using(crate::proofs::LineLaws::row_laws))]
    pub fn next(&mut self, pieces: &mut Vec<&'t [u8]>) -> Result<Option<u32>, Memory>
        ensures { IfOk result (λ o. MatchOption o (self.old ≡ [])
            (λ n. self.old
            ≡ (record { number = n; pieces = map (λ p. p.now) pieces.new.items }) ∷ self.new)) }
    {
        pieces.clear();
        while !self.rest.is_empty() {
            let number = self.number;
            let (line, after) = cut_line(self.rest);
            self.number = number + 1;
            self.rest = after;
            push_pieces(line, pieces)?;
            if !pieces.is_empty() {
                return Ok(Some(number));
            }
        }
        Ok(None)
    }
}
