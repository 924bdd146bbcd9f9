//! From a text to its tree.

ghost use Rattle.std.specs.Prelude.{IfErr, IfOk, OnOk, Some, length, map, ◌+◌, ◌∷◌, ◌≡◌, ◌≤◌};
ghost use Rattle.tdf_base.specs.Limits.{longest_text};
ghost use Rattle.tdf_lang_parser.specs.Formed.{IsFormed};
ghost use Rattle.tdf_lang_parser.specs.Head.{SpellsVersion};
ghost use Rattle.tdf_lang_parser.specs.Refused.{IsWhy, SpellsText};
ghost use Rattle.tdf_lang_parser.specs.machine.Heads.{resolution_line};
ghost use Rattle.tdf_lang_parser.specs.machine.Places.{is_lost, reads_row};
ghost use Rattle.tdf_lang_parser.specs.machine.Walks.{IsEnd, IsModelRead, IsRead, IsWalked};
ghost use Rattle.tdf_lang_parser.specs.views.PlaceViews.{shown_place};
ghost use Rattle.tdf_lang_parser.specs.views.RowViews.{rows_left};
ghost use Rattle.tdf_lang_lexer.specs.Dialect.{token_line, token_lines};
ghost use Rattle.tdf_lang_lexer.specs.Rows.{Row, rows_of};
ghost use Rattle.tdf_lang_lexer.specs.Text.{lines_of};
ghost use Rattle.tdf_lang_lexer.specs.Token.{tok};
ghost use Rattle.tdf_lang_tree.specs.Kept.{IsKept};
ghost use Rattle.tdf_lang_tree.specs.LinesIn.{HasLinesInOrder};
ghost use Rattle.tdf_lang_tree.specs.Views.{pure_tree};

use crate::err::LangErr;
use crate::heads::{read_version, resolution_line};
use crate::places::{Outer, Place};
use crate::rows::{RowsLeft, all_rows, leave_first};
use crate::turns::{goes, lose};
use std::alloc::Global;
use tdf_base::{Memory, Resolution, Version};
use tdf_lang_lexer::{Dialect, Token, line_count, push_tokens, text_fault};
use tdf_lang_lines::read_form;
use tdf_lang_tree::Tree;

/// Where a line leads, by its tokens.
#[tactic(auto, unfolding(crate::specs::machine::Places::reads_row))]
fn read_tokens(
    alloc: Global,
    dialect: Dialect,
    at: &mut Place,
    number: u32,
    tokens: &[Token],
) -> Result<(), Memory>
    ensures { OnOk result (shown_place at.new ≡ reads_row dialect (shown_place at.old) (record { number = number; tokens = map tok tokens.now })) }
{
    match read_form(alloc, dialect.version, tokens) {
        Ok(Some(form)) => goes(alloc, at, number, form),
        Ok(None) => {
            lose(at);
            Ok(())
        }
        Err(refused) => Err(refused),
    }
}

/// Where a row leads. Its tokens are gathered in `tokens`.
fn read_row<'t>(
    alloc: Global,
    dialect: Dialect,
    at: &mut Place,
    number: u32,
    pieces: &[&'t [u8]],
    tokens: &mut Vec<Token<'t>>,
) -> Result<(), Memory>
    ensures { OnOk result (shown_place at.new ≡ reads_row dialect (shown_place at.old) (token_line dialect (record { number = number; pieces = map (λ p. p.now) pieces.now }))) }
{
    tokens.clear();
    match push_tokens(dialect, pieces, tokens) {
        Ok(()) => read_tokens(alloc, dialect, at, number, tokens),
        Err(refused) => Err(refused),
    }
}

fn is_lost(at: &Place) -> bool
    ensures { result ≡ is_lost (shown_place at.now) }
{
    match at {
        Place::Lost => true,
        Place::Globals(_) => false,
        Place::Tdf(_, _, _) => false,
        Place::De(_, _, _) => false,
        Place::Net(_, _) => false,
        Place::Top(_, _) => false,
        Place::Traces(_) => false,
    }
}

/// The number of lines, plus 1.
fn line_after(text: &[u8]) -> u32
    requires { length text.now ≤ longest_text }
    ensures { result ≡ length (lines_of text.now) + 1 }
{
    line_count(text) + 1
}

/// The tree, where the last line leads to the traces.
#[tactic(auto, unfolding(crate::specs::machine::Places::fault_from))]
fn ended(at: Place, text: &[u8]) -> Result<Tree, LangErr>
    requires { length text.now ≤ longest_text }
    ensures { IsEnd result (shown_place at) (length (lines_of text.now) + 1) }
{
    match at {
        Place::Traces(tree) => Ok(tree),
        other => {
            drop(other);
            Err(LangErr::Syntax {
                line: line_after(text),
            })
        }
    }
}

/// Row by row.
#[tactic(auto, using(crate::proofs::WalkLaws::walk_laws))]
fn walk(alloc: Global, dialect: Dialect, rows: &mut RowsLeft, text: &[u8]) -> Result<Tree, LangErr>
    requires { length text.now ≤ longest_text }
    ensures { IsWalked result dialect (token_lines dialect (rows_left rows.old)) (length (lines_of text.now) + 1) }
{
    let mut tokens = Vec::new(alloc);
    let mut at = Place::Globals(Outer {
        dialect,
        globals: Vec::new(alloc),
    });
    while let Some(number) = rows.number {
        read_row(alloc, dialect, &mut at, number, &rows.pieces, &mut tokens)?;
        if is_lost(&at) {
            drop(at);
            return Err(LangErr::Syntax { line: number });
        }
        leave_first(rows)?;
    }
    ended(at, text)
}

/// The tree that the rows after those that open the text spell, or their first fault.
fn read_model(
    alloc: Global,
    dialect: Dialect,
    rows: &mut RowsLeft,
    text: &[u8],
) -> Result<Tree, LangErr>
    requires { length text.now ≤ longest_text }
    ensures { IsModelRead result dialect (token_lines dialect (rows_left rows.old)) (length (lines_of text.now) + 1) }
{
    walk(alloc, dialect, rows, text)
}

/// The rows after the `language` line, where the first of them is a resolution line.
fn after_resolution(
    alloc: Global,
    dialect: Dialect,
    rows: &mut RowsLeft,
    text: &[u8],
) -> Result<Tree, LangErr>
    requires short { length text.now ≤ longest_text }
    requires first { resolution_line dialect.version (rows_left rows.old) ≡ Some dialect.resolution }
    ensures { (h : Row) → SpellsVersion h.pieces dialect.version → IsRead result (h ∷ rows_left rows.old) (length (lines_of text.now) + 1) }
{
    leave_first(rows)?;
    read_model(alloc, dialect, rows, text)
}

/// The rows after the `language` line: a resolution line, where version 3 has one, and the model.
fn after_version(
    alloc: Global,
    version: Version,
    rows: &mut RowsLeft,
    text: &[u8],
) -> Result<Tree, LangErr>
    requires { length text.now ≤ longest_text }
    ensures { (h : Row) → SpellsVersion h.pieces version → IsRead result (h ∷ rows_left rows.old) (length (lines_of text.now) + 1) }
{
    match resolution_line(version, rows) {
        Some(resolution) => after_resolution(
            alloc,
            Dialect {
                version,
                resolution,
            },
            rows,
            text,
        ),
        None => read_model(
            alloc,
            Dialect {
                version,
                resolution: Resolution::Ps,
            },
            rows,
            text,
        ),
    }
}

/// The tree that the rows of a text spell, or their first fault.
fn read_rows(alloc: Global, text: &[u8]) -> Result<Tree, LangErr>
    requires { length text.now ≤ longest_text }
    ensures { IsRead result (rows_of text.now) (length (lines_of text.now) + 1) }
{
    let mut rows = all_rows(alloc, text)?;
    let Some(number) = rows.number else {
        return Err(LangErr::Syntax {
            line: line_after(text),
        });
    };
    match read_version(&rows.pieces) {
        Some(version) => {
            leave_first(&mut rows)?;
            after_version(alloc, version, &mut rows, text)
        }
        None => Err(LangErr::Syntax { line: number }),
    }
}

/// Reads a model text: the tree that its rows spell, in the version of the language that its first row says.
///
/// # Errors
/// `Byte` and `LongLine` with the first line that has such a fault; else `Syntax` with the first line that its place doesn't
/// allow, or the number of lines plus 1 where the text ends too early; `Memory` where it is out of memory.
pub fn parse(alloc: Global, text: &[u8]) -> Result<Tree, LangErr>
    requires { length text.now ≤ longest_text }
    ensures tree { IfOk result (λ t. SpellsText text.now (pure_tree t)) }
    ensures kept { IfOk result (λ t. IsKept (pure_tree t)) }
    ensures order { IfOk result (λ t. HasLinesInOrder (pure_tree t)) }
    ensures formed { IfOk result (λ t. IsFormed (pure_tree t)) }
    ensures refused { IfErr result (λ e. IsWhy e text.now) }
{
    if let Some(fault) = text_fault(text) {
        return Err(LangErr::from(fault));
    }
    read_rows(alloc, text)
}
