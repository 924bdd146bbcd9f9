//! The signals that a composite declares, with their formats and their first values.

ghost use Rattle.std.specs.List.{AllZip, flat_map};
ghost use Rattle.std.specs.Option.{option_map};
ghost use Rattle.std.specs.Prelude.{◌≡◌, ◌++◌, Some, IfOk, OnOk};
ghost use Rattle.tdf_fixed.specs.Cast.{IsLegal};
ghost use Rattle.tdf_fixed.specs.Literal.{decimal_of};
ghost use Rattle.tdf_bind_names.specs.Signals.{declared_by, or_zero, start_sample, literal_text, zero_of, IsFormatOf, IsSignal};
ghost use Rattle.tdf_bind_names.specs.machine.Lists.{list_of};
ghost use Rattle.tdf_lang_tree.specs.declared.shapes.Shape.{Shape as ShapeOf};

use std::alloc::Global;
use tdf_base::{Memory, Name};
use tdf_bind_hierarchy::SignalLine;
use tdf_expr_symbols::{Table, format_of};
use tdf_fixed::{Format, Over, Quant, Raw, read_decimal};
use tdf_lang_tree::{FormatRef, Lit, Member, Shape};

/// A format that stands where a line has none.
fn no_format() -> Format {
    Format {
        signed: true,
        wl: 1,
        iwl: 1,
        quant: Quant::Trn,
        over: Over::Wrap,
    }
}

/// The format that a line writes, where it is one.
fn format_in(shape: Shape) -> Format
    ensures { IsLegal shape.wl shape.iwl → IsFormatOf shape result }
{
    if shape.wl < 1 || shape.wl > 64 || shape.iwl > shape.wl || shape.wl - shape.iwl > 63 {
        return no_format();
    }
    Format {
        signed: shape.signed,
        wl: shape.wl as u32,
        iwl: shape.iwl as u32,
        quant: shape.quant,
        over: shape.over,
    }
}

fn format_or(shape: Option<Shape>) -> Format
    ensures { (s : ShapeOf) → shape ≡ Some s → IsLegal s.wl s.iwl → IsFormatOf s result }
{
    match shape {
        None => no_format(),
        Some(shape) => format_in(shape),
    }
}

fn zero_of(format: Format) -> Raw
    ensures { result ≡ zero_of format }
{
    Raw {
        num: 0,
        frac: format.wl - format.iwl,
    }
}

/// The text of a literal.
fn text_of(alloc: Global, value: &Lit) -> Result<Vec<u8>, Memory>
    ensures { IfOk result (λ text. text.items ≡ literal_text value.now) }
{
    let mut text = Vec::new(alloc);
    if value.minus {
        text.push(b'-')?;
    }
    text.extend_from_slice(value.digits.as_bytes())?;
    Ok(text)
}

/// The value of a text in a format; 0 where it is no number.
fn value_or_zero(text: &[u8], format: Format) -> Raw
    ensures { result ≡ or_zero format (decimal_of format text.now) }
{
    match read_decimal(text, format) {
        Ok(raw) => raw,
        Err(_) => zero_of(format),
    }
}

/// The first value of a signal.
fn start_of(alloc: Global, format: Format, start: Option<&Lit>) -> Result<Raw, Memory>
    ensures { IfOk result (λ raw. raw ≡ start_sample format (option_map (λ v. v.now) start.entry)) }
{
    match start {
        None => Ok(zero_of(format)),
        Some(value) => {
            let text = text_of(alloc, value)?;
            Ok(value_or_zero(&text, format))
        }
    }
}

fn signal(
    alloc: Global,
    globals: &Table,
    name: &Name,
    format: &FormatRef,
    start: Option<&Lit>,
) -> Result<SignalLine, Memory>
    ensures { IfOk result (λ s. IsSignal globals.now
        (record { name = name.now; format = format.now; start = option_map (λ v. v.now) start.entry }) s) }
{
    let format = format_or(format_of(globals, format));
    let event = start.is_some();
    let start = start_of(alloc, format, start)?;
    Ok(SignalLine {
        event,
        name: Name::copied(alloc, name.as_bytes())?,
        format,
        start,
    })
}

/// The signal that a line declares, if it declares one.
fn signal_in(alloc: Global, globals: &Table, member: &Member) -> Result<Option<SignalLine>, Memory>
    ensures { IfOk result (λ s. AllZip (IsSignal globals.now) (declared_by member.now) (list_of s)) }
{
    match member {
        Member::Signal { name, format, .. } => Ok(Some(signal(
            alloc, globals, name, format, None,
        )?)),
        Member::DeSignal {
            name,
            format,
            start,
            ..
        } => { Ok(Some(signal(alloc, globals, name, format, Some(start))?)) }
        Member::Port(_) => Ok(None),
        Member::Instance { .. } => Ok(None),
        Member::Bind { .. } => Ok(None),
    }
}

fn push_signal(out: &mut Vec<SignalLine>, signal: Option<SignalLine>) -> Result<(), Memory>
    ensures { OnOk result (out.new.items ≡ out.old.items ++ list_of signal) }
{
    match signal {
        None => Ok(()),
        Some(signal) => {
            out.push(signal)?;
            Ok(())
        }
    }
}

/// The signals of a composite.
///
/// # Errors
/// Out of memory.
#[tactic(auto, using(crate::proofs::Lists::signal_laws))]
pub(crate) fn signals_of(
    alloc: Global,
    globals: &Table,
    members: &Vec<Member>,
) -> Result<Vec<SignalLine>, Memory>
    ensures { IfOk result (λ signals.
        AllZip (IsSignal globals.now) (flat_map declared_by members.now.items) signals.items) }
{
    let mut out = Vec::new(alloc);
    for member in members {
        let signal = signal_in(alloc, globals, member)?;
        push_signal(&mut out, signal)?;
    }
    Ok(out)
}
