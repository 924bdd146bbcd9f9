//! The two parts of the text of `drive`.

ghost use Rattle.std.specs.Prelude.{◌≡◌, ◌≤◌, ◌&&◌, true, drop, length};
ghost use Rattle.tdf_cli.specs.Parts.{bytes_before, is_parted_here, model_part, table_part};

/// Whether the line `stimulus` begins a text.
fn is_parted_here(text: &[u8]) -> bool
    ensures { result ≡ is_parted_here text.now }
{
    text.starts_with(b"stimulus\n".as_slice()) || text == b"stimulus".as_slice()
}

/// Whether a line begins at a place, and is `stimulus`.
#[tactic(auto, using(std::proofs::lemmas::List::take_rest))]
fn is_parted_at(begins: bool, text: &[u8], at: usize) -> bool
    requires { at ≤ length text.now }
    ensures { result ≡ (begins && is_parted_here (drop at text.now)) }
{
    begins && is_parted_here(&text[at..])
}

/// The bytes before the first line `stimulus`: all, where there is none.
fn bytes_before(text: &[u8]) -> usize
    ensures { result ≡ bytes_before true text.now }
{
    let mut begins = true;
    for (at, byte) in text.iter().enumerate() {
        if is_parted_at(begins, text, at) {
            return at;
        }
        begins = *byte == b'\n';
    }
    text.len()
}

/// The model, and the table, behind a line `stimulus`; or all, and nothing.
#[tactic(auto, using(crate::proofs::PartCounts::before_within, crate::proofs::PartCounts::no_more))]
pub(crate) fn parts_of(text: &[u8]) -> (&[u8], &[u8])
    ensures model { result.0.now ≡ model_part text.now }
    ensures table { result.1.now ≡ table_part text.now }
{
    let (model, rest) = text.split_at(bytes_before(text));
    if rest.len() < 9 {
        return (model, &[]);
    }
    (model, &rest[9..])
}
