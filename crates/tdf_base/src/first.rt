//! Faults of lines in their order, and the first so far.

ghost use Rattle.std.specs.Prelude.{◌≡◌};
ghost use Rattle.tdf_base.specs.First.{rank, comes_before, lesser, noted};

use crate::codes::Code;

/// A fault of a line, counted from 1.
#[derive(Clone, Copy, Debug, PartialEq, Eq)]
pub struct LineFault {
    pub line: u32,
    pub code: Code,
}

fn rank(code: Code) -> u8
    ensures { result ≡ rank code }
{
    match code {
        Code::Duplicate => 0,
        Code::Unknown => 1,
        Code::Limit => 2,
        Code::Format => 3,
        Code::Kind => 4,
        Code::InexactLiteral => 5,
        Code::Wide => 6,
        Code::WideCast => 7,
        Code::Index => 8,
        Code::Heavy => 9,
        Code::Writers => 10,
        Code::UnknownPort => 11,
        Code::TwiceBound => 12,
        Code::Mismatch => 13,
        Code::Unbound => 14,
        _ => 15,
    }
}

fn comes_before(a: LineFault, b: LineFault) -> bool
    ensures { result ≡ comes_before a b }
{
    a.line < b.line || (a.line == b.line && rank(a.code) < rank(b.code))
}

#[tactic(auto, unfolding(crate::specs::First::lesser))]
fn lesser(first: Option<LineFault>, fault: LineFault) -> Option<LineFault>
    ensures { result ≡ lesser first fault }
{
    match first {
        None => Some(fault),
        Some(found) => {
            if comes_before(fault, found) {
                return Some(fault);
            }
            first
        }
    }
}

/// The first fault so far, where this line may have one more.
#[tactic(auto, unfolding(crate::specs::First::noted))]
pub fn noted(first: Option<LineFault>, is: bool, code: Code, line: u32) -> Option<LineFault>
    ensures { result ≡ noted is code line first }
{
    if is {
        return lesser(first, LineFault { line, code });
    }
    first
}
