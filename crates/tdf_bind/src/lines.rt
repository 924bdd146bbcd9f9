//! The lines that ask for traces.

ghost use Rattle.std.specs.Prelude.{◌≡◌, ◌++◌, ◌∷◌, [], map, IfOk, OnOk};
ghost use Rattle.tdf_bind.specs.Flat.{dotted, trace_line};
ghost use Rattle.tdf_bind.specs.machine.Steps.{dotted_after};
ghost use Rattle.tdf_lang_tree.specs.Views.{pure_trace};

use std::alloc::Global;
use tdf_base::{Memory, Name, Path};
use tdf_bind_connections::TraceLine;
use tdf_lang_tree::Trace1;

/// One name more of a path.
///
/// # Errors
/// Out of memory.
fn push_name(text: &mut Vec<u8>, place: usize, name: &Name) -> Result<(), Memory>
    ensures { OnOk result (text.new.items ≡ dotted_after text.old.items place name.now) }
{
    if place > 0 {
        text.push(b'.')?;
    }
    text.extend_from_slice(name.as_bytes())?;
    Ok(())
}

/// The text of a path.
///
/// # Errors
/// Out of memory.
#[tactic(auto, using(crate::proofs::Dots::dot_laws))]
fn dotted(alloc: Global, names: &[Name]) -> Result<Vec<u8>, Memory>
    ensures { IfOk result (λ text. text.items ≡ dotted names.now) }
{
    let mut text = Vec::new(alloc);
    for place in 0..names.len() {
        push_name(&mut text, place, &names[place])?;
    }
    Ok(text)
}

/// A line that asks for a trace.
///
/// # Errors
/// Out of memory.
fn trace_line(alloc: Global, trace: &Trace1) -> Result<TraceLine, Memory>
    ensures { IfOk result (λ line. line ≡ trace_line (pure_trace trace.now)) }
{
    let text = dotted(alloc, &trace.path)?;
    Ok(TraceLine {
        line: trace.line,
        path: Path::new(text),
        label: Name::copied(alloc, trace.label.as_bytes())?,
    })
}

/// The lines that ask for traces.
///
/// # Errors
/// Out of memory.
#[tactic(auto, using(crate::proofs::Dots::line_laws))]
pub(crate) fn trace_lines(alloc: Global, traces: &Vec<Trace1>) -> Result<Vec<TraceLine>, Memory>
    ensures { IfOk result (λ lines. lines.items ≡ map trace_line (map pure_trace traces.now.items)) }
{
    let mut lines = Vec::new(alloc);
    for trace in traces {
        lines.push(trace_line(alloc, trace)?)?;
    }
    Ok(lines)
}
