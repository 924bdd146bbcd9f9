//! Why a text is refused.

use tdf_base::Memory;
use tdf_lang_lexer::TextFault;
use thiserror::Error;

/// Why `parse` gives no tree. The lines of a text are numbered from 1.
#[derive(Clone, Copy, Debug, Error, PartialEq, Eq)]
pub enum LangErr {
    /// The line holds a byte that isn't allowed.
    #[error("a byte that isn't allowed on line {line}")]
    Byte { line: u32 },
    /// The line has more than 1,024 bytes.
    #[error("line {line} is too long")]
    LongLine { line: u32 },
    /// The line is the first that its place doesn't allow.
    #[error("a syntax fault on line {line}")]
    Syntax { line: u32 },
    /// Out of memory.
    #[error("out of memory")]
    Memory,
}

impl From<Memory> for LangErr {
    ghost use Rattle.std.specs.Prelude.{◌≡◌};
    ghost use Rattle.tdf_lang_parser.specs.declared.err.LangErr.TheVariants as why;

    ghost from_gives = { λ _ e. e ≡ why.Memory };

    fn from(_refused: Memory) -> LangErr {
        LangErr::Memory
    }
}

impl From<TextFault> for LangErr {
    ghost use Rattle.std.specs.Prelude.{◌≡◌};
    ghost use Rattle.tdf_lang_parser.specs.Refused.{refusal_of};

    ghost from_gives = { λ fault e. e ≡ refusal_of fault };

    fn from(fault: TextFault) -> LangErr {
        match fault {
            TextFault::Byte { line } => LangErr::Byte { line },
            TextFault::LongLine { line } => LangErr::LongLine { line },
        }
    }
}
