//! Lines that are one reserved word, or a reserved word and a name.

ghost use Rattle.std.specs.Option.{option_map};
ghost use Rattle.std.specs.Prelude.{IfOk, map, ◌≡◌};
ghost use Rattle.tdf_lang_lines.specs.FormViews.{pure_form};
ghost use Rattle.tdf_lang_tree.specs.Forms.{FComposite, FDe, FEvent, FPort, FSensitive, FTdf, FType};
ghost use Rattle.tdf_lang_lines.specs.machine.Reads.{nothing_after, word_form};
ghost use Rattle.tdf_lang_exprs.specs.machine.Formats.{format_of, shape_of};
ghost use Rattle.tdf_lang_lexer.specs.Token.{tok};

use crate::form::LineForm;
use std::alloc::Global;
use tdf_base::Memory;
use tdf_lang_exprs::{read_format, read_shape};
use tdf_lang_lexer::{Key, Token};
use tdf_lang_tree::{Name, PortKind};

pub(crate) fn word_form(word: Key) -> Option<LineForm>
    ensures { option_map pure_form result ≡ word_form word }
{
    match word {
        Key::Top => Some(LineForm::Top),
        Key::End => Some(LineForm::End),
        Key::SetAttributes => Some(LineForm::SetAttributes),
        Key::Initialize => Some(LineForm::Initialize),
        Key::Processing => Some(LineForm::Processing),
        Key::ChangeAttributes => Some(LineForm::ChangeAttributes),
        Key::Reinitialize => Some(LineForm::Reinitialize),
        Key::DoesAttributeChanges => Some(LineForm::Does),
        Key::AcceptAttributeChanges => Some(LineForm::Accept),
        Key::RejectAttributeChanges => Some(LineForm::Reject),
        Key::Process => Some(LineForm::Process),
        Key::DontInitialize => Some(LineForm::DontInitialize),
        Key::Else => Some(LineForm::Else),
        _ => None,
    }
}

/// The form, where nothing follows.
pub(crate) fn nothing_after(form: LineForm, rest: &[Token]) -> Option<LineForm>
    ensures { option_map pure_form result ≡ nothing_after (pure_form form) (map tok rest.now) }
{
    match rest {
        [] => Some(form),
        _ => {
            drop(form);
            None
        }
    }
}

pub(crate) fn tdf_form(
    alloc: Global,
    name: &[u8],
    rest: &[Token],
) -> Result<Option<LineForm>, Memory>
    ensures { IfOk result (λ o. option_map pure_form o ≡ nothing_after (FTdf name.now) (map tok rest.now)) }
{
    Ok(nothing_after(LineForm::Tdf(Name::copied(alloc, name)?), rest))
}

pub(crate) fn de_form(
    alloc: Global,
    name: &[u8],
    rest: &[Token],
) -> Result<Option<LineForm>, Memory>
    ensures { IfOk result (λ o. option_map pure_form o ≡ nothing_after (FDe name.now) (map tok rest.now)) }
{
    Ok(nothing_after(LineForm::De(Name::copied(alloc, name)?), rest))
}

pub(crate) fn composite_form(
    alloc: Global,
    name: &[u8],
    rest: &[Token],
) -> Result<Option<LineForm>, Memory>
    ensures { IfOk result (λ o. option_map pure_form o ≡ nothing_after (FComposite name.now) (map tok rest.now)) }
{
    Ok(nothing_after(LineForm::Composite(Name::copied(alloc, name)?), rest))
}

pub(crate) fn event_form(
    alloc: Global,
    name: &[u8],
    rest: &[Token],
) -> Result<Option<LineForm>, Memory>
    ensures { IfOk result (λ o. option_map pure_form o ≡ nothing_after (FEvent name.now) (map tok rest.now)) }
{
    Ok(nothing_after(LineForm::Event(Name::copied(alloc, name)?), rest))
}

pub(crate) fn sensitive_form(
    alloc: Global,
    name: &[u8],
    rest: &[Token],
) -> Result<Option<LineForm>, Memory>
    ensures { IfOk result (λ o. option_map pure_form o ≡ nothing_after (FSensitive name.now) (map tok rest.now)) }
{
    Ok(nothing_after(LineForm::Sensitive(Name::copied(alloc, name)?), rest))
}

pub(crate) fn type_form(
    alloc: Global,
    name: &[u8],
    rest: &[Token],
) -> Result<Option<LineForm>, Memory>
    ensures { IfOk result (λ o. option_map pure_form o ≡ option_map (FType name.now) (shape_of (map tok rest.now))) }
{
    match read_shape(rest) {
        Some(shape) => Ok(Some(LineForm::Type(Name::copied(alloc, name)?, shape))),
        None => Ok(None),
    }
}

pub(crate) fn port_form(
    alloc: Global,
    kind: PortKind,
    name: &[u8],
    rest: &[Token],
) -> Result<Option<LineForm>, Memory>
    ensures { IfOk result (λ o. option_map pure_form o ≡ option_map (FPort kind name.now) (format_of (map tok rest.now))) }
{
    let name = Name::copied(alloc, name)?;
    match read_format(alloc, rest) {
        Ok(Some(format)) => Ok(Some(LineForm::Port(kind, name, format))),
        Ok(None) => {
            drop(name);
            Ok(None)
        }
        Err(refused) => {
            drop(name);
            Err(refused)
        }
    }
}
