//! Where the text of the model begins.

ghost use Rattle.std.specs.List.{position};
ghost use Rattle.std.specs.Prelude.{◌≡◌, ◌<◌, ℕ, IfSome, None, length};
ghost use Rattle.tdf_save.specs.Start.{IsTextStart, ends_a_line};
ghost use Rattle.tdf_save.specs.machine.Start.{text_start_of};

fn line_end(text: &[u8]) -> Option<usize>
    ensures at { result ≡ position ends_a_line text.now }
    ensures within { IfSome result (λ end. end < length text.now) }
{
    text.iter().position(|byte| *byte == b'\n')
}

/// The place after the first line that begins with `text `, looked for line by line.
#[tactic(auto, using(crate::proofs::Starts::start_laws))]
fn find_start(bytes: &[u8]) -> Option<usize>
    ensures { result ≡ text_start_of bytes.now }
{
    let mut rest = bytes;
    let mut place = 0;
    for _line in 0..bytes.len() {
        let Some(end) = line_end(rest) else {
            return None;
        };
        place += end + 1;
        if rest.starts_with(b"text ".as_slice()) {
            return Some(place);
        }
        rest = &rest[end + 1..];
    }
    None
}

/// The place after the first line that begins with `text `; none where there is no such line that ends with LF.
pub fn text_start(bytes: &[u8]) -> Option<usize>
    ensures place { IfSome result (IsTextStart bytes.now) }
    ensures none { result ≡ None → (place : ℕ) → IsTextStart bytes.now place → ⊥ }
{
    find_start(bytes)
}
