//! The reserved words and symbols by their spelling.

ghost use Rattle.std.specs.Cmp.Lexicographic.{pointwise};
ghost use Rattle.std.specs.Prelude.{List, ℕ, map, nat_eq, ◌≡◌, ◌∷◌};
ghost use Rattle.tdf_lang_lexer.specs.Words.{key_of, lookup, symbol_of};
ghost use Rattle.tdf_lang_lexer.specs.machine.Words.{begins_with_letter, is_initial};

use crate::key::{Key, Symbol};
use crate::pieces::is_letter;

/// The reserved words, each with its spelling.
const KEYS: [(&[u8], Key); 57] = [
    (b"accept_attribute_changes", Key::AcceptAttributeChanges),
    (b"after", Key::After),
    (b"and", Key::And),
    (b"array", Key::Array),
    (b"bind", Key::Bind),
    (b"change_attributes", Key::ChangeAttributes),
    (b"composite", Key::Composite),
    (b"const", Key::Const),
    (b"de", Key::De),
    (b"de_in", Key::DeIn),
    (b"de_out", Key::DeOut),
    (b"de_signal", Key::DeSignal),
    (b"delay", Key::Delay),
    (b"does_attribute_changes", Key::DoesAttributeChanges),
    (b"dont_initialize", Key::DontInitialize),
    (b"else", Key::Else),
    (b"end", Key::End),
    (b"event", Key::Event),
    (b"fixed", Key::Fixed),
    (b"for", Key::For),
    (b"if", Key::If),
    (b"in", Key::In),
    (b"initial", Key::Initial),
    (b"initialize", Key::Initialize),
    (b"instance", Key::Instance),
    (b"language", Key::Language),
    (b"not", Key::Not),
    (b"notify", Key::Notify),
    (b"or", Key::Or),
    (b"out", Key::Out),
    (b"process", Key::Process),
    (b"processing", Key::Processing),
    (b"rate", Key::Rate),
    (b"reinitialize", Key::Reinitialize),
    (b"reject_attribute_changes", Key::RejectAttributeChanges),
    (b"rnd", Key::Rnd),
    (b"rnd_conv", Key::RndConv),
    (b"rnd_inf", Key::RndInf),
    (b"rnd_min_inf", Key::RndMinInf),
    (b"rnd_zero", Key::RndZero),
    (b"sat", Key::Sat),
    (b"sat_sym", Key::SatSym),
    (b"sat_zero", Key::SatZero),
    (b"select", Key::Select),
    (b"sensitive", Key::Sensitive),
    (b"set_attributes", Key::SetAttributes),
    (b"signal", Key::Signal),
    (b"tdf", Key::Tdf),
    (b"timestep", Key::Timestep),
    (b"top", Key::Top),
    (b"trace", Key::Trace),
    (b"trn", Key::Trn),
    (b"trn_zero", Key::TrnZero),
    (b"type", Key::Type),
    (b"ufixed", Key::Ufixed),
    (b"var", Key::Var),
    (b"wrap", Key::Wrap),
];

/// Whether two texts are the same. Most differ in their first bytes.
fn is_same(text: &[u8], word: &[u8]) -> bool
    ensures { result ≡ pointwise nat_eq text.now word.now }
{
    match (text, word) {
        ([first, more @ ..], [letter, rest @ ..]) => *first == *letter && more == rest,
        ([], []) => true,
        _ => false,
    }
}

/// The first word of a table that is spelled so.
fn lookup(mut table: &[(&[u8], Key)], text: &[u8]) -> Option<Key>
    ensures { result ≡ lookup (map (λ e. (e.0.now, e.1)) table.entry.now) text.now }
{
    while let [entry, rest @ ..] = table {
        if is_same(text, entry.0) {
            return Some(entry.1);
        }
        table = rest;
    }
    None
}

/// The reserved words that begin with a letter.

fn words_with(first: u8) -> &'static [(&'static [u8], Key)]
    ensures { (more : List ℕ) → lookup (map (λ e. (e.0.now, e.1)) result.now) (first ∷ more) ≡ key_of (first ∷ more) }
{
    match first {
        b'a' => &KEYS[0..4],
        b'b' => &KEYS[4..5],
        b'c' => &KEYS[5..8],
        b'd' => &KEYS[8..15],
        b'e' => &KEYS[15..18],
        b'f' => &KEYS[18..20],
        b'i' => &KEYS[20..25],
        b'l' => &KEYS[25..26],
        b'n' => &KEYS[26..28],
        b'o' => &KEYS[28..30],
        b'p' => &KEYS[30..32],
        b'r' => &KEYS[32..40],
        b's' => &KEYS[40..47],
        b't' => &KEYS[47..54],
        b'u' => &KEYS[54..55],
        b'v' => &KEYS[55..56],
        b'w' => &KEYS[56..57],
        _ => &KEYS,
    }
}

/// The reserved word that is spelled so.
#[tactic(auto, using(crate::proofs::WordLaws::no_key))]
pub(crate) fn key_of(text: &[u8]) -> Option<Key>
    ensures { result ≡ key_of text.now }
{
    match text {
        [first, ..] if is_initial(*first) => lookup(words_with(*first), text),
        _ => None,
    }
}

fn is_initial(byte: u8) -> bool
    ensures { result ≡ is_initial byte }
{
    (b'a' <= byte && byte <= b'f')
        || byte == b'i'
        || byte == b'l'
        || (b'n' <= byte && byte <= b'p')
        || (b'r' <= byte && byte <= b'w')
}

fn begins_with_letter(text: &[u8]) -> bool
    ensures { result ≡ begins_with_letter text.now }
{
    match text {
        [] => false,
        [first, ..] => is_letter(*first),
    }
}

fn is(text: &[u8], word: &str) -> bool
    ensures { result ≡ pointwise nat_eq text.now word.now }
{
    text == word.as_bytes()
}

/// The symbol that is written so.
#[tactic(auto, using(crate::proofs::WordLaws::no_symbol))]
pub(crate) fn symbol_of(text: &[u8]) -> Option<Symbol>
    ensures { result ≡ symbol_of text.now }
{
    if begins_with_letter(text) {
        return None;
    }
    sign_of(text)
}

#[tactic(auto, unfolding(crate::specs::Words::symbol_of, crate::specs::Words::sign))]
fn sign_of(text: &[u8]) -> Option<Symbol>
    ensures { result ≡ symbol_of text.now }
{
    if is(text, "(") {
        return Some(Symbol::Open);
    }
    if is(text, ")") {
        return Some(Symbol::Close);
    }
    if is(text, "[") {
        return Some(Symbol::OpenSquare);
    }
    if is(text, "]") {
        return Some(Symbol::CloseSquare);
    }
    if is(text, ",") {
        return Some(Symbol::Comma);
    }
    if is(text, ".") {
        return Some(Symbol::Point);
    }
    if is(text, "+") {
        return Some(Symbol::Plus);
    }
    if is(text, "-") {
        return Some(Symbol::Minus);
    }
    if is(text, "*") {
        return Some(Symbol::Times);
    }
    if is(text, "<<") {
        return Some(Symbol::ShiftLeft);
    }
    if is(text, ">>") {
        return Some(Symbol::ShiftRight);
    }
    if is(text, "<") {
        return Some(Symbol::Less);
    }
    if is(text, "<=") {
        return Some(Symbol::AtMost);
    }
    if is(text, "==") {
        return Some(Symbol::Equal);
    }
    if is(text, "!=") {
        return Some(Symbol::NotEqual);
    }
    if is(text, ">") {
        return Some(Symbol::Greater);
    }
    if is(text, ">=") {
        return Some(Symbol::AtLeast);
    }
    if is(text, "=") {
        return Some(Symbol::Becomes);
    }
    None
}
