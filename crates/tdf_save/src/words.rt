//! Words, each after one space, and lines of them.

ghost use Rattle.std.specs.Prelude.{◌≡◌, ◌++◌, ◌∷◌, [], OnOk, decimal, length, map, take};
ghost use Rattle.tdf_save.specs.Text.{after_spaces, saved_line};

use itoa::{Buffer, Integer};
use tdf_base::{Memory, push_word};

/// Appends a word after one space.
#[tactic(auto, using(crate::proofs::WordLists::word_laws))]
pub(crate) fn push_spaced(out: &mut Vec<u8>, word: &[u8]) -> Result<(), Memory>
    ensures ok { OnOk result (out.new.items ≡ out.old.items ++ 32 ∷ word.now) }
    ensures kept { take (length out.old.items) out.new.items ≡ out.old.items }
{
    push_word(out, b" ")?;
    push_word(out, word)
}

/// Appends a line with one word after its keyword.
#[tactic(auto, using(crate::proofs::WordLists::line_laws))]
pub(crate) fn push_line(out: &mut Vec<u8>, keyword: &[u8], word: &[u8]) -> Result<(), Memory>
    ensures ok { OnOk result (out.new.items ≡ out.old.items
        ++ saved_line keyword.now (word.now ∷ [])) }
    ensures kept { take (length out.old.items) out.new.items ≡ out.old.items }
{
    push_word(out, keyword)?;
    push_spaced(out, word)?;
    push_word(out, b"\n")
}

/// Appends a line with two words after its keyword.
#[tactic(auto, using(crate::proofs::WordLists::line_laws))]
pub(crate) fn push_pair(
    out: &mut Vec<u8>,
    keyword: &[u8],
    first: &[u8],
    second: &[u8],
) -> Result<(), Memory>
    ensures ok { OnOk result (out.new.items ≡ out.old.items
        ++ saved_line keyword.now (first.now ∷ (second.now ∷ []))) }
    ensures kept { take (length out.old.items) out.new.items ≡ out.old.items }
{
    push_word(out, keyword)?;
    push_spaced(out, first)?;
    push_spaced(out, second)?;
    push_word(out, b"\n")
}

/// Appends a line with two numbers after its keyword.
pub(crate) fn push_two_numbers(
    out: &mut Vec<u8>,
    keyword: &[u8],
    first: u64,
    second: u64,
) -> Result<(), Memory>
    ensures ok { OnOk result (out.new.items ≡ out.old.items
        ++ saved_line keyword.now (decimal first ∷ (decimal second ∷ []))) }
    ensures kept { take (length out.old.items) out.new.items ≡ out.old.items }
{
    push_pair(
        out,
        keyword,
        Buffer::new().format(first).as_bytes(),
        Buffer::new().format(second).as_bytes(),
    )
}

/// Appends a line with three numbers after its keyword.
#[tactic(auto, using(crate::proofs::WordLists::line_laws))]
pub(crate) fn push_three_numbers(
    out: &mut Vec<u8>,
    keyword: &[u8],
    first: u64,
    second: u64,
    third: u64,
) -> Result<(), Memory>
    ensures ok { OnOk result (out.new.items ≡ out.old.items
        ++ saved_line keyword.now (decimal first ∷ (decimal second ∷ (decimal third ∷ [])))) }
    ensures kept { take (length out.old.items) out.new.items ≡ out.old.items }
{
    push_word(out, keyword)?;
    push_spaced(out, Buffer::new().format(first).as_bytes())?;
    push_spaced(out, Buffer::new().format(second).as_bytes())?;
    push_spaced(out, Buffer::new().format(third).as_bytes())?;
    push_word(out, b"\n")
}

/// Appends numbers, each after one space.
#[tactic(auto, using(crate::proofs::WordLists::list_laws))]
fn push_numbers<N: Integer>(out: &mut Vec<u8>, numbers: &[N]) -> Result<(), Memory>
    ensures ok { OnOk result (out.new.items ≡ out.old.items
        ++ after_spaces (map N.text numbers.now)) }
    ensures kept { take (length out.old.items) out.new.items ≡ out.old.items }
{
    for k in 0..numbers.len() {
        push_spaced(out, Buffer::new().format(numbers[k]).as_bytes())?;
    }
    Ok(())
}

/// Appends a line of numbers after its keyword.
#[tactic(auto, using(crate::proofs::WordLists::line_laws))]
pub(crate) fn push_numbers_line<N: Integer>(
    out: &mut Vec<u8>,
    keyword: &[u8],
    numbers: &[N],
) -> Result<(), Memory>
    ensures ok { OnOk result (out.new.items ≡ out.old.items
        ++ saved_line keyword.now (map N.text numbers.now)) }
    ensures kept { take (length out.old.items) out.new.items ≡ out.old.items }
{
    push_word(out, keyword)?;
    push_numbers(out, numbers)?;
    push_word(out, b"\n")
}

/// Appends a line of a path and numbers after its keyword.
#[tactic(auto, using(crate::proofs::WordLists::line_laws))]
pub(crate) fn push_path_line<N: Integer>(
    out: &mut Vec<u8>,
    keyword: &[u8],
    path: &[u8],
    numbers: &[N],
) -> Result<(), Memory>
    ensures ok { OnOk result (out.new.items ≡ out.old.items
        ++ saved_line keyword.now (path.now ∷ map N.text numbers.now)) }
    ensures kept { take (length out.old.items) out.new.items ≡ out.old.items }
{
    push_word(out, keyword)?;
    push_spaced(out, path)?;
    push_numbers(out, numbers)?;
    push_word(out, b"\n")
}
