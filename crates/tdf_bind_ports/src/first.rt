//! The faults of `bind` and `instance` lines in their order, and the first so far.

ghost use Rattle.std.specs.Option.{option_map};
ghost use Rattle.std.specs.Prelude.{◌≡◌, None, IfOk};
ghost use Rattle.tdf_base.specs.First.{rank};
ghost use Rattle.tdf_bind_ports.specs.Faults.{code_of, link_comes_before, fault_of_link, lesser_link, link_noted};
ghost use Rattle.tdf_bind_ports.specs.Seen.{seen_fault, seen_wrong};

use std::alloc::Global;
use std::marker::Model;
use tdf_base::{Code, Fault, Memory, Path, Place};

/// What is wrong with a line.
#[derive(Clone, Copy)]
pub(crate) enum Wrong<'t> {
    UnknownPort,
    TwiceBound,
    Mismatch,
    /// No line binds this port.
    Unbound(&'t [u8]),
}

/// A fault of a line, counted from 1.
#[derive(Clone, Copy)]
pub(crate) struct LinkFault<'t> {
    line: u32,
    wrong: Wrong<'t>,
}

/// The first fault so far, if there is one.
#[derive(Drop)]
pub(crate) struct First<'t> {
    found: Option<LinkFault<'t>>,
}

impl<'t> Model for First<'t> {
    ghost use Rattle.std.specs.Option.{option_map};
    ghost use Rattle.std.specs.Prelude.{Option};
    ghost use Rattle.tdf_bind_ports.specs.Faults.{LinkFault as FaultSeen};
    ghost use Rattle.tdf_bind_ports.specs.Seen.{seen_fault};

    ghost Value = { Option FaultSeen };

    ghost view = { λ a. option_map seen_fault a.found };
}

fn rank(wrong: Wrong) -> u8
    ensures { result ≡ rank (code_of (seen_wrong wrong.entry)) }
{
    match wrong {
        Wrong::UnknownPort => 11,
        Wrong::TwiceBound => 12,
        Wrong::Mismatch => 13,
        Wrong::Unbound(_) => 14,
    }
}

fn comes_before(a: LinkFault, b: LinkFault) -> bool
    ensures { result ≡ link_comes_before (seen_fault a.entry) (seen_fault b.entry) }
{
    a.line < b.line || (a.line == b.line && rank(a.wrong) < rank(b.wrong))
}

#[tactic(auto, unfolding(crate::specs::Faults::lesser_link))]
fn lesser<'t>(first: Option<LinkFault<'t>>, fault: LinkFault<'t>) -> Option<LinkFault<'t>>
    ensures { option_map seen_fault result ≡ lesser_link (option_map seen_fault first.entry) (seen_fault fault.entry) }
{
    match first {
        None => Some(fault),
        Some(found) => {
            if comes_before(fault, found) {
                return Some(fault);
            }
            Some(found)
        }
    }
}

fn code_of(wrong: Wrong) -> Code
    ensures { result ≡ code_of (seen_wrong wrong.entry) }
{
    match wrong {
        Wrong::UnknownPort => Code::UnknownPort,
        Wrong::TwiceBound => Code::TwiceBound,
        Wrong::Mismatch => Code::Mismatch,
        Wrong::Unbound(_) => Code::Unbound,
    }
}

/// The fault that is printed.
///
/// # Errors
/// Out of memory.
fn fault_of(alloc: Global, fault: LinkFault) -> Result<Fault, Memory>
    ensures { IfOk result (λ f. f ≡ fault_of_link (seen_fault fault.entry)) }
{
    let place = match fault.wrong {
        Wrong::Unbound(port) => Place::LinePort(fault.line, Path::copied(alloc, port)?),
        _ => Place::Line(fault.line),
    };
    Ok(Fault {
        code: code_of(fault.wrong),
        place,
    })
}

impl<'t> First<'t> {
    /// No fault so far.
    pub(crate) fn new() -> First<'t>
        ensures { result ≡ None }
    {
        First { found: None }
    }

    /// The first fault so far, where this line may have one more.
    #[tactic(auto, unfolding(crate::specs::Faults::link_noted))]
    pub(crate) fn note(&mut self, is: bool, wrong: Wrong<'t>, line: u32)
        ensures { self.new ≡ link_noted is (seen_wrong wrong.entry) line self.old }
    {
        if is {
            self.found = lesser(self.found, LinkFault { line, wrong });
        }
    }

    /// The fault that is printed, if there is one.
    ///
    /// # Errors
    /// Out of memory.
    pub(crate) fn fault(&self, alloc: Global) -> Result<Option<Fault>, Memory>
        ensures { IfOk result (λ fault. fault ≡ option_map fault_of_link self.now) }
    {
        match self.found {
            None => Ok(None),
            Some(fault) => Ok(Some(fault_of(alloc, fault)?)),
        }
    }
}
