//! The pieces of a line by the longest match.

ghost use Rattle.std.specs.List.{list_all, position_or_len, prefix_len};
ghost use Rattle.std.specs.Prelude.{drop, slice_index, IfOk, OnOk, length, map, slice_range, ◌++◌, ◌+◌, ◌<◌, ◌≡◌, ◌≤◌};
ghost use Rattle.tdf_base.specs.Digits.{is_digit};
ghost use Rattle.tdf_base.specs.Names.{is_letter, is_part};
ghost use Rattle.tdf_lang_lexer.specs.Pieces.{begins_with_digit, without_comment, is_comment, is_pair, is_space, joins, pieces_of};
ghost use Rattle.tdf_lang_lexer.specs.machine.Pieces.{pieces_left, word_end};
ghost use Rattle.tdf_lang_lexer.specs.Text.{unless_empty};

use tdf_base::Memory;

pub(crate) fn is_letter(byte: u8) -> bool
    ensures { result ≡ is_letter byte }
{
    (b'a' <= byte && byte <= b'z') || (b'A' <= byte && byte <= b'Z') || byte == b'_'
}

fn is_part(byte: u8) -> bool
    ensures { result ≡ is_part byte }
{
    is_letter(byte) || byte.is_ascii_digit()
}

fn is_space(byte: u8) -> bool
    ensures { result ≡ is_space byte }
{
    byte == b' ' || byte == b'\t'
}

fn is_pair(first: u8, second: u8) -> bool
    ensures { result ≡ is_pair first second }
{
    (second == b'=' && (first == b'<' || first == b'>' || first == b'=' || first == b'!'))
        || (first == b'<' && second == b'<')
        || (first == b'>' && second == b'>')
}

fn is_digits(text: &[u8]) -> bool
    ensures { result ≡ list_all is_digit text.now }
{
    text.iter().all(|byte| byte.is_ascii_digit())
}

pub(crate) fn is_word(text: &[u8]) -> bool
    ensures { result ≡ list_all is_part text.now }
{
    text.iter().all(|byte| is_part(*byte))
}

fn begins_with_digit(text: &[u8]) -> bool
    ensures { result ≡ begins_with_digit text.now }
{
    match text {
        [] => false,
        [byte, ..] => byte.is_ascii_digit(),
    }
}

fn joins(now: &[u8], byte: u8, rest: &[u8]) -> bool
    ensures { result ≡ joins now.now byte rest.now }
{
    match now {
        [] => false,
        [first, more @ ..] => {
            if is_part(*first) {
                is_part(byte) || (byte == b'.' && is_digits(now) && begins_with_digit(rest))
            } else {
                more.is_empty() && is_pair(*first, byte)
            }
        }
    }
}

/// Appends a piece, if it has a byte.
#[tactic(auto, using(crate::proofs::PieceLaws::put_laws))]
fn put<'t>(list: &mut Vec<&'t [u8]>, piece: &'t [u8]) -> Result<(), Memory>
    ensures { OnOk result (map (λ p. p.now) list.new.items ≡ map (λ p. p.now) list.old.items ++ unless_empty piece.now) }
{
    if piece.is_empty() {
        return Ok(());
    }
    list.push(piece)?;
    Ok(())
}

/// Whether the piece from `from` takes the byte at `i`.
#[tactic(auto, using(crate::proofs::LineLaws::cut_laws))]
fn joins_at(code: &[u8], from: usize, i: usize) -> bool
    requires within { i < length code.now }
    requires begun { from ≤ i }
    ensures { result ≡ joins (slice_range code.now from i) (slice_index code.now i) (drop (i + 1) code.now) }
{
    joins(&code[from..i], code[i], &code[i + 1..])
}

/// One byte further: the piece so far begins at `from`, and the answer is where it begins then.
#[tactic(auto, using(crate::proofs::PieceLaws::step_laws))]
fn step<'t>(
    list: &mut Vec<&'t [u8]>,
    code: &'t [u8],
    from: usize,
    i: usize,
) -> Result<usize, Memory>
    requires within { i < length code.now }
    requires begun { from ≤ i }
    ensures begun { IfOk result (λ f. f ≤ i + 1) }
    ensures same { IfOk result (λ f. map (λ p. p.now) list.new.items ++ pieces_left code.now f (i + 1) ≡ map (λ p. p.now) list.old.items ++ pieces_left code.now from i) }
{
    if joins_at(code, from, i) {
        return Ok(from);
    }
    put(list, &code[from..i])?;
    if is_space(code[i]) {
        return Ok(i + 1);
    }
    Ok(i)
}

/// How many bytes of a word stand first.
#[tactic(auto, using(crate::proofs::WordRuns::run_laws))]
fn part_len(text: &[u8]) -> usize
    ensures count { result ≡ prefix_len is_part text.now }
    ensures within { result ≤ length text.now }
{
    text.iter().take_while(|byte| is_part(**byte)).count()
}

/// Where a word from `from` that has come to `at` ends; `at` itself, where no word is begun.
#[tactic(auto, using(crate::proofs::WordRuns::run_laws))]
fn word_end(code: &[u8], from: usize, at: usize) -> usize
    requires within { at ≤ length code.now }
    ensures { result ≡ word_end code.now from at }
{
    if from < at && is_part(code[from]) {
        return at + part_len(&code[at..]);
    }
    at
}

fn code_len(line: &[u8]) -> usize
    ensures { result ≡ position_or_len is_comment line.now }
{
    line.iter().take_while(|byte| **byte != b'#').count()
}

/// Appends the pieces of a line.
pub(crate) fn push_pieces<'t>(line: &'t [u8], list: &mut Vec<&'t [u8]>) -> Result<(), Memory>
    ensures { OnOk result (map (λ p. p.now) list.new.items
        ≡ map (λ p. p.now) list.old.items ++ pieces_of (without_comment line.now)) }
{
    let code = &line[..code_len(line)];
    let mut from = 0;
    let mut at = 0;
    while at < code.len() {
        from = step(list, code, from, at)?;
        at = word_end(code, from, at + 1);
    }
    put(list, &code[from..])?;
    Ok(())
}
