//! The faults of texts, and how they are noted.

ghost use Rattle.std.specs.Prelude.{◌≡◌, ◌++◌, List, ℕ, MatchOption, OnOk};
ghost use Rattle.tdf_lang_parser.specs.Refused.{IsWhy};
ghost use Rattle.tdf_lang_parser.specs.declared.err.LangErr.TheVariants as why;
ghost use Rattle.tdf_cli.specs.Refusals.{refusal_text};
ghost use Rattle.tdf_cli.specs.Tables.{line_refusal};
ghost use Rattle.tdf_sim.specs.FirstFault.{IsTextFault, on_line};

use tdf_base::{Code, Fault, Memory, Place, push_fault, push_number};
use tdf_lang_parser::LangErr;

/// A fault of a line.
fn on_line(code: Code, line: u32) -> Fault
    ensures { result ≡ on_line code line }
{
    Fault {
        code,
        place: Place::Line(line),
    }
}

/// The first fault of a text that the parser refused, or none where it is out of memory.
pub(crate) fn first_fault(refused: LangErr) -> Option<Fault>
    ensures { MatchOption result (refused ≡ why.Memory) (λ fault. (text : List ℕ)
        → IsWhy refused text → IsTextFault text fault) }
{
    match refused {
        LangErr::Byte { line } => Some(on_line(Code::Byte, line)),
        LangErr::LongLine { line } => Some(on_line(Code::LongLine, line)),
        LangErr::Syntax { line } => Some(on_line(Code::Syntax, line)),
        LangErr::Memory => None,
    }
}

/// Appends the note of a text that has this fault.
#[tactic(auto, unfolding(crate::specs::Refusals::refusal_text), using(crate::proofs::Outcomes::text_lemmas))]
pub(crate) fn push_refusal(note: &mut Vec<u8>, fault: &Fault) -> Result<(), Memory>
    ensures { OnOk result (note.new.items ≡ note.old.items ++ refusal_text fault.now) }
{
    note.extend_from_slice(b"refused ")?;
    push_fault(note, fault)?;
    note.extend_from_slice(b"\n")?;
    Ok(())
}

/// Appends the note of a table that has this fault on a line.
#[tactic(auto, unfolding(crate::specs::Tables::line_refusal), using(crate::proofs::Outcomes::text_lemmas))]
pub(crate) fn push_line_refusal(note: &mut Vec<u8>, word: &[u8], line: u32) -> Result<(), Memory>
    ensures { OnOk result (note.new.items ≡ note.old.items ++ line_refusal word.now line) }
{
    note.extend_from_slice(b"refused ")?;
    note.extend_from_slice(word)?;
    note.extend_from_slice(b" line ")?;
    push_number(note, u64::from(line))?;
    note.extend_from_slice(b"\n")?;
    Ok(())
}
