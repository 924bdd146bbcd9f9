//! Numbers of a saved text, read exactly as they are written.

ghost use Rattle.std.specs.List.{before_first, position_or_len};
ghost use Rattle.std.specs.Option.{MatchOption};
ghost use Rattle.std.specs.Fmt.{signed_decimal};
ghost use Rattle.std.specs.Prelude.{◌≡◌, ◌≢◌, ◌++◌, ◌∷◌, [], ◌<◌, ◌^◌, ℕ, suc, ℤ, negsuc, List, IfSome, None, Some, decimal, drop, length};
ghost use Rattle.tdf_save.specs.Members.{IsCount32, IsCount64, IsNum};
ghost use Rattle.tdf_save.specs.Text.{accept_word};
ghost use Rattle.tdf_save.specs.machine.Pieces.{Any, AnyFlag, Stops, is_stop};
ghost use Rattle.tdf_save_reading.specs.machine.Pieces.{IsPiece, NoPiece};

use itoa::Buffer;

/// What comes after a piece that begins a text; none where the text begins otherwise.
pub(crate) fn cut<'t>(text: &'t [u8], piece: &[u8]) -> Option<&'t [u8]>
    ensures { MatchOption result ((rest : List ℕ) → text.entry.now ≢ piece.now ++ rest)
        (λ rest. text.entry.now ≡ piece.now ++ rest.now) }
{
    text.strip_prefix(piece)
}

/// The number that a word is, as `{}` writes it; none for every other word.
fn whole(word: &[u8]) -> Option<u64>
    ensures is { IfSome result (λ n. word.now ≡ decimal n) }
    ensures fits { IfSome result (λ n. n < 2 ^ 64) }
    ensures always { (n : ℕ) → n < 2 ^ 64 → word.now ≡ decimal n → result ≡ Some n }
{
    let Ok(text) = std::str::from_utf8(word) else {
        return None;
    };
    let Ok(number) = text.parse::<u64>() else {
        return None;
    };
    let mut buffer = Buffer::new();
    if buffer.format(number).as_bytes() == word {
        return Some(number);
    }
    None
}

fn word_len(text: &[u8]) -> usize
    ensures value { result ≡ position_or_len is_stop text.now }
{
    text.iter()
        .take_while(|byte| **byte != b' ' && **byte != b'\n')
        .count()
}

/// The text up to its first space or LF, and the text from there on.
#[tactic(auto, using(crate::proofs::Readings::cut_laws))]
fn cut_word<'t>(text: &'t [u8]) -> (&'t [u8], &'t [u8])
    ensures word { result.0.now ≡ before_first is_stop text.entry.now }
    ensures rest { result.1.now ≡ drop (position_or_len is_stop text.entry.now) text.entry.now }
{
    let end = word_len(text);
    (&text[..end], &text[end..])
}

/// The number that begins a text, up to a space or LF, and what comes after it.
pub(crate) fn read_count<'t>(text: &'t [u8]) -> Option<(u64, &'t [u8])>
    ensures is { IfSome result (λ p. IsPiece decimal IsCount64 Stops text.entry.now p.0 p.1.now) }
    ensures none { result ≡ None → NoPiece decimal IsCount64 Stops text.entry.now }
{
    let (word, rest) = cut_word(text);
    if rest.is_empty() {
        return None;
    }
    match whole(word) {
        Some(number) => Some((number, rest)),
        None => None,
    }
}

/// The number below 0 with these digits, as `{}` writes it; none for all else.
fn negated(digits: &[u8]) -> Option<i128>
    ensures is { IfSome result (λ n. 45 ∷ digits.now ≡ signed_decimal n) }
    ensures fits { IfSome result (λ n. IsNum n) }
    ensures always { (k : ℕ) → k < 2 ^ 63 → digits.now ≡ decimal (suc k) → result ≡ Some (negsuc k) }
{
    match whole(digits) {
        Some(size) if 0 < size && size <= 9_223_372_036_854_775_808 => Some(-i128::from(size)),
        _ => None,
    }
}

/// The number with a sign that a word is, as `{}` writes it; none for every other word.
fn whole_num(word: &[u8]) -> Option<i128>
    ensures is { IfSome result (λ n. word.now ≡ signed_decimal n) }
    ensures fits { IfSome result (λ n. IsNum n) }
    ensures always { (n : ℤ) → IsNum n → word.now ≡ signed_decimal n → result ≡ Some n }
{
    if let Some(digits) = cut(word, b"-") {
        return negated(digits);
    }
    match whole(word) {
        Some(size) => Some(i128::from(size)),
        None => None,
    }
}

/// The number with a sign that begins a text, up to a space or LF, and what comes after it.
pub(crate) fn read_num<'t>(text: &'t [u8]) -> Option<(i128, &'t [u8])>
    ensures is { IfSome result (λ p. IsPiece signed_decimal IsNum Stops text.entry.now p.0 p.1.now) }
    ensures none { result ≡ None → NoPiece signed_decimal IsNum Stops text.entry.now }
{
    let (word, rest) = cut_word(text);
    if rest.is_empty() {
        return None;
    }
    match whole_num(word) {
        Some(number) => Some((number, rest)),
        None => None,
    }
}

/// The number of at most 32 bits that begins a text, up to a space or LF, and what comes after it.
fn read_rate<'t>(text: &'t [u8]) -> Option<(u32, &'t [u8])>
    ensures is { IfSome result (λ p. IsPiece decimal IsCount32 Stops text.entry.now p.0 p.1.now) }
    ensures none { result ≡ None → NoPiece decimal IsCount32 Stops text.entry.now }
{
    let Some((number, rest)) = read_count(text) else {
        return None;
    };
    if number > 4_294_967_295 {
        return None;
    }
    Some((number as u32, rest))
}

/// A space, and the number after it.
pub(crate) fn spaced_rate<'t>(text: &'t [u8]) -> Option<(u32, &'t [u8])>
    ensures is { IfSome result (λ p. IsPiece (λ v. 32 ∷ decimal v) IsCount32 Stops text.entry.now p.0 p.1.now) }
    ensures none { result ≡ None → NoPiece (λ v. 32 ∷ decimal v) IsCount32 Stops text.entry.now }
{
    match cut(text, b" ") {
        Some(word) => read_rate(word),
        None => None,
    }
}

/// A space, and the number after it.
pub(crate) fn spaced_count<'t>(text: &'t [u8]) -> Option<(u64, &'t [u8])>
    ensures is { IfSome result (λ p. IsPiece (λ v. 32 ∷ decimal v) IsCount64 Stops text.entry.now p.0 p.1.now) }
    ensures none { result ≡ None → NoPiece (λ v. 32 ∷ decimal v) IsCount64 Stops text.entry.now }
{
    match cut(text, b" ") {
        Some(word) => read_count(word),
        None => None,
    }
}

/// A space, and the number after it.
pub(crate) fn spaced_num<'t>(text: &'t [u8]) -> Option<(i128, &'t [u8])>
    ensures is { IfSome result (λ p. IsPiece (λ v. 32 ∷ signed_decimal v) IsNum Stops text.entry.now p.0 p.1.now) }
    ensures none { result ≡ None → NoPiece (λ v. 32 ∷ signed_decimal v) IsNum Stops text.entry.now }
{
    match cut(text, b" ") {
        Some(word) => read_num(word),
        None => None,
    }
}

/// What comes after a keyword, a space and a path; none where the text begins otherwise.
pub(crate) fn cut_path<'t>(text: &'t [u8], keyword: &[u8], path: &[u8]) -> Option<&'t [u8]>
    ensures { MatchOption result ((rest : List ℕ) → text.entry.now ≢ (keyword.now ++ 32 ∷ path.now) ++ rest)
        (λ rest. text.entry.now ≡ (keyword.now ++ 32 ∷ path.now) ++ rest.now) }
{
    let Some(mid) = cut(text, keyword) else {
        return None;
    };
    let Some(rest) = cut(mid, b" ") else {
        return None;
    };
    cut(rest, path)
}

/// A space, `0` or `1`, and the end of the line.
pub(crate) fn last_flag<'t>(text: &'t [u8]) -> Option<(bool, &'t [u8])>
    ensures is { IfSome result (λ p.
        IsPiece (λ flag. (32 ∷ accept_word flag) ++ 10 ∷ []) AnyFlag Any text.entry.now p.0 p.1.now) }
    ensures none { result ≡ None
        → NoPiece (λ flag. (32 ∷ accept_word flag) ++ 10 ∷ []) AnyFlag Any text.entry.now }
{
    if let Some(rest) = cut(text, b" 1\n") {
        return Some((true, rest));
    }
    match cut(text, b" 0\n") {
        Some(rest) => Some((false, rest)),
        None => None,
    }
}

/// A space, a number, and the end of the line.
pub(crate) fn last_count<'t>(text: &'t [u8]) -> Option<(u64, &'t [u8])>
    ensures is { IfSome result (λ p. IsPiece (λ v. (32 ∷ decimal v) ++ 10 ∷ []) IsCount64 Any text.entry.now p.0 p.1.now) }
    ensures none { result ≡ None → NoPiece (λ v. (32 ∷ decimal v) ++ 10 ∷ []) IsCount64 Any text.entry.now }
{
    let Some((number, rest)) = spaced_count(text) else {
        return None;
    };
    match cut(rest, b"\n") {
        Some(left) => Some((number, left)),
        None => None,
    }
}

/// A space, a number, and the end of the line.
pub(crate) fn last_num<'t>(text: &'t [u8]) -> Option<(i128, &'t [u8])>
    ensures is { IfSome result (λ p. IsPiece (λ v. (32 ∷ signed_decimal v) ++ 10 ∷ []) IsNum Any text.entry.now p.0 p.1.now) }
    ensures none { result ≡ None → NoPiece (λ v. (32 ∷ signed_decimal v) ++ 10 ∷ []) IsNum Any text.entry.now }
{
    let Some((number, rest)) = spaced_num(text) else {
        return None;
    };
    match cut(rest, b"\n") {
        Some(left) => Some((number, left)),
        None => None,
    }
}
