//! The bytes and the lines of a text.

ghost use Rattle.std.specs.List.{after_first, before_first, list_all, position_or_len, prefix_len};
ghost use Rattle.std.specs.Prelude.{drop, length, take, ◌≡◌, ◌+◌, ◌≤◌};
ghost use Rattle.tdf_base.specs.Limits.{longest_text};
ghost use Rattle.tdf_lang_lexer.specs.Text.{is_allowed_byte, fault_of, is_line_end, line_fault_of, lines_of};
ghost use Rattle.tdf_lang_lexer.specs.machine.Texts.{is_printable, length_fault};

use tdf_base::LONGEST_LINE;

/// The first fault of a text's bytes and line lengths. On one line `Byte` comes before `LongLine`.
#[derive(Clone, Copy, Debug, PartialEq, Eq)]
pub enum TextFault {
    /// The line holds a byte that isn't LF, TAB or from the space to `~`.
    Byte { line: u32 },
    /// The line has more than 1,024 bytes, without its LF.
    LongLine { line: u32 },
}

/// The length of the first line, without its LF.
fn line_len(text: &[u8]) -> usize
    ensures { result ≡ position_or_len is_line_end text.now }
{
    text.iter().take_while(|byte| **byte != b'\n').count()
}

/// What stands before a byte of a text, and after it; before and after its end.
#[tactic(auto, using(crate::proofs::LineLaws::cut_laws))]
fn cut_at<'t>(text: &'t [u8], end: usize) -> (&'t [u8], &'t [u8])
    requires { end ≤ length text.now }
    ensures before { result.0.now ≡ take end text.now }
    ensures after { result.1.now ≡ drop (end + 1) text.now }
{
    if end < text.len() {
        return (&text[..end], &text[end + 1..]);
    }
    (text, &[])
}

/// The first line, without its LF, and what stands after it.
#[tactic(auto, using(crate::proofs::LineLaws::cut_laws))]
pub(crate) fn cut_line<'t>(text: &'t [u8]) -> (&'t [u8], &'t [u8])
    ensures line { result.0.now ≡ before_first is_line_end text.now }
    ensures rest { result.1.now ≡ after_first is_line_end text.now }
{
    cut_at(text, line_len(text))
}

fn is_allowed(byte: u8) -> bool
    ensures { result ≡ is_allowed_byte byte }
{
    byte == b'\n' || byte == b'\t' || (b' ' <= byte && byte <= b'~')
}

fn is_clean(bytes: &[u8]) -> bool
    ensures { result ≡ list_all is_allowed_byte bytes.now }
{
    bytes.iter().all(|byte| is_allowed(*byte))
}

fn line_fault(line: u32, bytes: &[u8]) -> Option<TextFault>
    ensures { result ≡ line_fault_of line bytes.now }
{
    if !is_clean(bytes) {
        return Some(TextFault::Byte { line });
    }
    if bytes.len() > LONGEST_LINE {
        return Some(TextFault::LongLine { line });
    }
    None
}

fn is_printable(byte: u8) -> bool
    ensures { result ≡ is_printable byte }
{
    b' ' <= byte && byte <= b'~'
}

/// How many printable bytes stand first.
fn printable_len(text: &[u8]) -> usize
    ensures { result ≡ prefix_len is_printable text.now }
{
    text.iter().take_while(|byte| is_printable(**byte)).count()
}

fn length_fault(line: u32, bytes: &[u8]) -> Option<TextFault>
    ensures { result ≡ length_fault line bytes.now }
{
    if bytes.len() > LONGEST_LINE {
        return Some(TextFault::LongLine { line });
    }
    None
}

/// The fault of the first line, if it has one, and what stands after the line. A line of printable bytes is read once.
#[tactic(auto, using(crate::proofs::PrintableLaws::printable_laws))]
fn checked_line<'t>(number: u32, text: &'t [u8]) -> (Option<TextFault>, &'t [u8])
    ensures fault { result.0 ≡ line_fault_of number (before_first is_line_end text.now) }
    ensures rest { result.1.now ≡ after_first is_line_end text.now }
{
    let end = printable_len(text);
    if end < text.len() && text[end] != b'\n' {
        let (line, after) = cut_line(text);
        return (line_fault(number, line), after);
    }
    let (line, after) = cut_at(text, end);
    (length_fault(number, line), after)
}

/// The fault of the least line that has one. It takes no memory.
#[tactic(auto, using(crate::proofs::LineLaws::fault_laws), unfolding(crate::specs::Text::fault_of))]
pub fn text_fault(text: &[u8]) -> Option<TextFault>
    requires { length text.now ≤ longest_text }
    ensures { result ≡ fault_of text.now }
{
    let mut rest = text;
    let mut number = 1;
    while !rest.is_empty() {
        let (fault, after) = checked_line(number, rest);
        if let Some(fault) = fault {
            return Some(fault);
        }
        rest = after;
        number += 1;
    }
    None
}

/// The number of lines.
#[tactic(auto, using(crate::proofs::LineLaws::count_laws))]
pub fn line_count(text: &[u8]) -> u32
    requires { length text.now ≤ longest_text }
    ensures { result ≡ length (lines_of text.now) }
{
    let mut rest = text;
    let mut count = 0;
    while !rest.is_empty() {
        let (_, after) = cut_line(rest);
        rest = after;
        count += 1;
    }
    count
}
