//! A table and its rows.

ghost use Rattle.std.specs.List.{before_first, position_or_len};
ghost use Rattle.std.specs.Prelude.{◌≡◌, ◌∷◌, ◌<◌, [], IfSome, None, drop, length, map, option_map, slice_get};
ghost use Rattle.tdf_tables.specs.Rows.{row_of};
ghost use Rattle.tdf_tables.specs.Words.{is_blank, words_of};

use std::marker::Model;

/// A row of a table. Its cells stay in the text that it was read from.
#[derive(Clone, Copy)]
pub struct Row<'t> {
    /// The time in fs.
    pub time: u128,
    /// The cells as they are written, each after one space; `cut_word` goes over them.
    pub cells: &'t [u8],
}

/// A table: labels, and rows with a cell for each. Its words stay in the text that it was read from.
#[derive(Drop)]
pub struct Table<'t> {
    labels: &'t [u8],
    rows: Vec<Row<'t>>,
}

impl<'t> Model for Table<'t> {
    ghost use Rattle.std.specs.Prelude.{map};
    ghost use Rattle.tdf_tables.specs.Rows.{row_of};
    ghost use Rattle.tdf_tables.specs.Tables.{TableOf};
    ghost use Rattle.tdf_tables.specs.Words.{words_of};

    ghost Value = { TableOf };

    ghost view = { λ t. record { labels = words_of t.labels.now; rows = map row_of t.rows.items } };
}

impl<'t> Table<'t> {
    pub(crate) fn new(labels: &'t [u8], rows: Vec<Row<'t>>) -> Table<'t>
        ensures labels { result.labels ≡ words_of labels.entry.now }
        ensures rows { result.rows ≡ map row_of rows.entry.items }
    {
        Table { labels, rows }
    }

    /// The labels as they are written, each after one space; `cut_word` goes over them.
    pub fn labels(&self) -> &'t [u8]
        ensures { words_of result.now ≡ self.now.labels }
    {
        self.labels
    }

    /// How many columns there are, counted in the head.
    pub fn columns(&self) -> usize
        ensures { result ≡ length self.now.labels }
    {
        count_words(self.labels)
    }

    /// The rows, in order.
    pub fn rows(&self) -> &[Row<'t>]
        ensures { map row_of result.now ≡ self.now.rows }
    {
        self.rows.as_slice()
    }

    /// The table of the same labels with these rows.
    pub fn with_rows(&self, rows: Vec<Row<'t>>) -> Table<'t>
        ensures labels { result.labels ≡ self.now.labels }
        ensures rows { result.rows ≡ map row_of rows.entry.items }
    {
        Table::new(self.labels, rows)
    }
}

fn word_len(text: &[u8]) -> usize
    ensures value { result ≡ position_or_len is_blank text.now }
{
    text.iter().take_while(|byte| **byte != b' ').count()
}

/// The text up to its first space, and the text from there on.
#[tactic(auto, using(crate::proofs::LineLaws::cut_laws))]
pub(crate) fn cut_space<'t>(text: &'t [u8]) -> (&'t [u8], &'t [u8])
    ensures word { result.0.now ≡ before_first is_blank text.entry.now }
    ensures rest { result.1.now ≡ drop (position_or_len is_blank text.entry.now) text.entry.now }
{
    let end = word_len(text);
    (&text[..end], &text[end..])
}

/// The first of some words, each after one space, and the words after it; none where there is no word.
#[tactic(auto, using(crate::proofs::Words::step_laws))]
pub fn cut_word<'t>(text: &'t [u8]) -> Option<(&'t [u8], &'t [u8])>
    ensures word { IfSome result (λ p. words_of text.entry.now ≡ p.0.now ∷ words_of p.1.now) }
    ensures shorter { IfSome result (λ p. length p.1.now < length text.entry.now) }
    ensures none { result ≡ None → words_of text.entry.now ≡ [] }
{
    match text {
        [] => None,
        [_, words @ ..] => Some(cut_space(words)),
    }
}

/// How many words there are.
pub(crate) fn count_words(text: &[u8]) -> usize
    ensures { result ≡ length (words_of text.now) }
{
    let mut count = 0;
    let mut rest = text;
    while let Some((_, after)) = cut_word(rest) {
        count += 1;
        rest = after;
    }
    count
}

/// The word at a place, counted from 0.
pub fn word_at<'t>(text: &'t [u8], place: usize) -> Option<&'t [u8]>
    ensures { option_map (λ w. w.now) result ≡ slice_get (words_of text.entry.now) place }
{
    let mut rest = text;
    for _before in 0..place {
        match cut_word(rest) {
            Some((_, after)) => rest = after,
            None => return None,
        }
    }
    match cut_word(rest) {
        Some((word, _)) => Some(word),
        None => None,
    }
}
