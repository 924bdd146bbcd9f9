//! The words of a line.

ghost use Rattle.std.specs.Prelude.{◌≡◌, ◌++◌, OnOk, codes};
ghost use Rattle.std.specs.Fmt.{decimal};
ghost use Rattle.std.specs.List.{flat_map};
ghost use Rattle.tdf_lang_printer.specs.Lines.{sign_text, quant_text, over_text, shape_text, format_text, minus_text, lit_text, lits_text, time_text, limit_text, points_text, path_text, port_text, unit_text};
ghost use Rattle.tdf_lang_printer.specs.machine.Texts.{point_text, value_text};

use tdf_base::{Memory, Resolution, push_number};
use tdf_fixed::{Over, Quant};
use tdf_lang_tree::{FormatRef, Limit, Lit, Name, PortKind, Shape};

/// A line's first word, with the space after it, and a name.
pub(crate) fn push_head(out: &mut Vec<u8>, word: &[u8], name: &Name) -> Result<(), Memory>
    ensures { OnOk result (out.new.items ≡ out.old.items ++ (word.now ++ name.now)) }
{
    out.extend_from_slice(word)?;
    out.extend_from_slice(name.as_bytes())?;
    Ok(())
}

/// A space and a name.
pub(crate) fn push_name(out: &mut Vec<u8>, name: &Name) -> Result<(), Memory>
    ensures { OnOk result (out.new.items ≡ out.old.items ++ (codes " " ++ name.now)) }
{
    out.push(b' ')?;
    out.extend_from_slice(name.as_bytes())?;
    Ok(())
}

/// A space and a whole number.
pub(crate) fn push_count(out: &mut Vec<u8>, count: u64) -> Result<(), Memory>
    ensures { OnOk result (out.new.items ≡ out.old.items ++ (codes " " ++ decimal count)) }
{
    out.push(b' ')?;
    push_number(out, count)
}

fn sign_text(signed: bool) -> &'static [u8]
    ensures { result.now ≡ sign_text signed }
{
    if signed { b"fixed " } else { b"ufixed " }
}

fn quant_text(quant: Quant) -> &'static [u8]
    ensures { result.now ≡ quant_text quant }
{
    match quant {
        Quant::Trn => b" trn",
        Quant::TrnZero => b" trn_zero",
        Quant::Rnd => b" rnd",
        Quant::RndZero => b" rnd_zero",
        Quant::RndMinInf => b" rnd_min_inf",
        Quant::RndInf => b" rnd_inf",
        Quant::RndConv => b" rnd_conv",
    }
}

fn over_text(over: Over) -> &'static [u8]
    ensures { result.now ≡ over_text over }
{
    match over {
        Over::Wrap => b" wrap",
        Over::Sat => b" sat",
        Over::SatZero => b" sat_zero",
        Over::SatSym => b" sat_sym",
    }
}

pub(crate) fn port_text(kind: PortKind) -> &'static [u8]
    ensures { result.now ≡ port_text kind }
{
    match kind {
        PortKind::In => b"in ",
        PortKind::Out => b"out ",
        PortKind::DeIn => b"de_in ",
        PortKind::DeOut => b"de_out ",
    }
}

fn push_shape(out: &mut Vec<u8>, shape: Shape) -> Result<(), Memory>
    ensures { OnOk result (out.new.items ≡ out.old.items ++ shape_text shape) }
{
    out.extend_from_slice(sign_text(shape.signed))?;
    push_number(out, shape.wl)?;
    push_count(out, shape.iwl)?;
    out.extend_from_slice(quant_text(shape.quant))?;
    out.extend_from_slice(over_text(shape.over))?;
    Ok(())
}

/// A space and a shape.
pub(crate) fn push_spaced_shape(out: &mut Vec<u8>, shape: Shape) -> Result<(), Memory>
    ensures { OnOk result (out.new.items ≡ out.old.items ++ (codes " " ++ shape_text shape)) }
{
    out.push(b' ')?;
    push_shape(out, shape)
}

/// A space and a format.
pub(crate) fn push_format(out: &mut Vec<u8>, format: &FormatRef) -> Result<(), Memory>
    ensures { OnOk result (out.new.items ≡ out.old.items ++ (codes " " ++ format_text format.now)) }
{
    match format {
        FormatRef::Own(shape) => push_spaced_shape(out, *shape),
        FormatRef::Named(name) => push_name(out, name),
    }
}

/// A space and a literal.
pub(crate) fn push_lit(out: &mut Vec<u8>, lit: &Lit) -> Result<(), Memory>
    ensures { OnOk result (out.new.items ≡ out.old.items ++ value_text lit.now) }
{
    out.push(b' ')?;
    out.extend_from_slice(minus_text(lit.minus))?;
    out.extend_from_slice(lit.digits.as_bytes())?;
    Ok(())
}

fn minus_text(minus: bool) -> &'static [u8]
    ensures { result.now ≡ minus_text minus }
{
    if minus { b"-" } else { b"" }
}

/// Literals, each after a space.
#[tactic(auto, using(crate::proofs::Texts::list_laws, std::proofs::lemmas::Grind::common_steps))]
pub(crate) fn push_lits(out: &mut Vec<u8>, list: &[Lit]) -> Result<(), Memory>
    ensures { OnOk result (out.new.items ≡ out.old.items ++ lits_text list.now) }
{
    for lit in list {
        push_lit(out, lit)?;
    }
    Ok(())
}

pub(crate) fn unit_text(unit: Resolution) -> &'static [u8]
    ensures { result.now ≡ unit_text unit }
{
    match unit {
        Resolution::Ps => b"ps",
        Resolution::Fs => b"fs",
    }
}

/// A time: its count, and the unit of one count.
pub(crate) fn push_time(out: &mut Vec<u8>, unit: Resolution, count: u64) -> Result<(), Memory>
    ensures { OnOk result (out.new.items ≡ out.old.items ++ time_text unit count) }
{
    push_number(out, count)?;
    out.extend_from_slice(unit_text(unit))?;
    Ok(())
}

/// A space and a limit.
pub(crate) fn push_limit(out: &mut Vec<u8>, limit: &Limit) -> Result<(), Memory>
    ensures { OnOk result (out.new.items ≡ out.old.items ++ (codes " " ++ limit_text limit.now)) }
{
    match limit {
        Limit::Int(count) => push_count(out, *count),
        Limit::Var(name) => push_name(out, name),
        Limit::Times(count, name) => {
            push_count(out, *count)?;
            out.extend_from_slice(b" * ")?;
            out.extend_from_slice(name.as_bytes())?;
            Ok(())
        }
    }
}

/// A point and a name.
fn push_step(out: &mut Vec<u8>, name: &Name) -> Result<(), Memory>
    ensures { OnOk result (out.new.items ≡ out.old.items ++ point_text name.now) }
{
    out.push(b'.')?;
    out.extend_from_slice(name.as_bytes())?;
    Ok(())
}

#[tactic(auto, using(crate::proofs::Texts::list_laws, std::proofs::lemmas::Grind::common_steps))]
fn push_steps(out: &mut Vec<u8>, names: &[Name]) -> Result<(), Memory>
    ensures { OnOk result (out.new.items ≡ out.old.items ++ points_text names.now) }
{
    for name in names {
        push_step(out, name)?;
    }
    Ok(())
}

/// A dotted path.
pub(crate) fn push_path(out: &mut Vec<u8>, path: &[Name]) -> Result<(), Memory>
    ensures { OnOk result (out.new.items ≡ out.old.items ++ path_text path.now) }
{
    match path {
        [] => Ok(()),
        [first, rest @ ..] => {
            out.extend_from_slice(first.as_bytes())?;
            push_steps(out, rest)
        }
    }
}
