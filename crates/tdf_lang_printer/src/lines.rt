//! The lines of blocks.

ghost use Rattle.std.specs.Prelude.{◌≡◌, ◌∷◌, [], ◌++◌, OnOk};
ghost use Rattle.std.specs.List.{flat_map};
ghost use Rattle.tdf_lang_printer.specs.Canon.{port_line};
ghost use Rattle.tdf_lang_printer.specs.Lines.{full_line};
ghost use Rattle.tdf_base.specs.declared.resolution.Resolution.TheVariants.{Ps};
ghost use Rattle.tdf_lang_tree.specs.Forms.{FStep};
ghost use Rattle.tdf_lang_printer.specs.machine.Texts.{value_line, store_text, tdf_line_text, attr_text, initial_text, de_line_text, sense_text, member_text, trace_text};

use crate::words::{
    port_text, push_count, push_format, push_head, push_limit, push_lit, push_lits, push_name,
    push_path, push_time,
};
use tdf_base::{Memory, Resolution, push_number};
use tdf_lang_tree::{
    Attr, DeLine, FormatRef, Initial, Lit, Member, Name, PortLine, Sense, Store, TdfLine, Trace1,
};

pub(crate) fn push_end(out: &mut Vec<u8>) -> Result<(), Memory>
    ensures { OnOk result (out.new.items ≡ out.old.items ++ 10 ∷ []) }
{
    out.push(b'\n')?;
    Ok(())
}

fn push_port(out: &mut Vec<u8>, port: &PortLine) -> Result<(), Memory>
    ensures { OnOk result (out.new.items ≡ out.old.items ++ full_line Ps (port_line port.now)) }
{
    push_head(out, port_text(port.kind), &port.name)?;
    push_format(out, &port.format)?;
    push_end(out)
}

/// A word, a name, a format and a literal.
fn push_value(
    out: &mut Vec<u8>,
    word: &[u8],
    name: &Name,
    format: &FormatRef,
    value: &Lit,
) -> Result<(), Memory>
    ensures { OnOk result (out.new.items ≡ out.old.items ++ value_line word.now name.now format.now value.now) }
{
    push_head(out, word, name)?;
    push_format(out, format)?;
    push_lit(out, value)?;
    push_end(out)
}

fn push_store(out: &mut Vec<u8>, store: &Store) -> Result<(), Memory>
    ensures { OnOk result (out.new.items ≡ out.old.items ++ store_text store.now) }
{
    match store {
        Store::Const {
            name,
            format,
            value,
            ..
        } => push_value(out, b"const ", name, format, value),
        Store::Var {
            name,
            format,
            value,
            ..
        } => push_value(out, b"var ", name, format, value),
        Store::Array {
            name,
            format,
            length,
            values,
            ..
        } => {
            push_head(out, b"array ", name)?;
            push_format(out, format)?;
            push_count(out, *length)?;
            push_lits(out, values)?;
            push_end(out)
        }
    }
}

fn push_tdf_line(out: &mut Vec<u8>, line: &TdfLine) -> Result<(), Memory>
    ensures { OnOk result (out.new.items ≡ out.old.items ++ tdf_line_text line.now) }
{
    match line {
        TdfLine::Port(port) => push_port(out, port),
        TdfLine::Store(store) => push_store(out, store),
        TdfLine::Rate {
            name,
            least,
            greatest,
            start,
            ..
        } => {
            push_head(out, b"rate ", name)?;
            push_count(out, *least)?;
            push_count(out, *greatest)?;
            push_count(out, *start)?;
            push_end(out)
        }
    }
}

/// `timestep`, the port, if there is one, and the time.
pub(crate) fn push_step(
    out: &mut Vec<u8>,
    unit: Resolution,
    port: &Option<Name>,
    step: u64,
) -> Result<(), Memory>
    ensures { OnOk result (out.new.items ≡ out.old.items ++ full_line unit (FStep port.now step)) }
{
    match port {
        None => {
            out.extend_from_slice(b"timestep ")?;
            push_time(out, unit, step)?;
            push_end(out)
        }
        Some(name) => {
            push_head(out, b"timestep ", name)?;
            out.push(b' ')?;
            push_time(out, unit, step)?;
            push_end(out)
        }
    }
}

/// A line of one word.
pub(crate) fn push_word(out: &mut Vec<u8>, word: &[u8]) -> Result<(), Memory>
    ensures { OnOk result (out.new.items ≡ out.old.items ++ (word.now ++ 10 ∷ [])) }
{
    out.extend_from_slice(word)?;
    push_end(out)
}

/// A line of two parts, with no space between them.
pub(crate) fn push_pair(out: &mut Vec<u8>, first: &[u8], second: &[u8]) -> Result<(), Memory>
    ensures { OnOk result (out.new.items ≡ out.old.items ++ (first.now ++ (second.now ++ 10 ∷ []))) }
{
    out.extend_from_slice(first)?;
    push_word(out, second)
}

/// A line of a word and a name.
pub(crate) fn push_named(out: &mut Vec<u8>, word: &[u8], name: &Name) -> Result<(), Memory>
    ensures { OnOk result (out.new.items ≡ out.old.items ++ ((word.now ++ name.now) ++ 10 ∷ [])) }
{
    push_head(out, word, name)?;
    push_end(out)
}

fn push_attr(out: &mut Vec<u8>, unit: Resolution, attr: &Attr) -> Result<(), Memory>
    ensures { OnOk result (out.new.items ≡ out.old.items ++ attr_text unit attr.now) }
{
    match attr {
        Attr::Step { port, step, .. } => push_step(out, unit, port, *step),
        Attr::Rate { port, rate, .. } => {
            push_head(out, b"rate ", port)?;
            push_limit(out, rate)?;
            push_end(out)
        }
        Attr::Delay { port, count, .. } => {
            push_head(out, b"delay ", port)?;
            push_count(out, *count)?;
            push_end(out)
        }
        Attr::Does { .. } => push_word(out, b"does_attribute_changes"),
        Attr::Accept { .. } => push_word(out, b"accept_attribute_changes"),
        Attr::Reject { .. } => push_word(out, b"reject_attribute_changes"),
    }
}

fn push_initial(out: &mut Vec<u8>, initial: &Initial) -> Result<(), Memory>
    ensures { OnOk result (out.new.items ≡ out.old.items ++ initial_text initial.now) }
{
    push_head(out, b"initial ", &initial.port)?;
    push_count(out, initial.place)?;
    push_lit(out, &initial.value)?;
    push_end(out)
}

fn push_de_line(out: &mut Vec<u8>, line: &DeLine) -> Result<(), Memory>
    ensures { OnOk result (out.new.items ≡ out.old.items ++ de_line_text line.now) }
{
    match line {
        DeLine::Port(port) => push_port(out, port),
        DeLine::Store(store) => push_store(out, store),
        DeLine::Event { name, .. } => push_named(out, b"event ", name),
    }
}

fn push_sense(out: &mut Vec<u8>, sense: &Sense) -> Result<(), Memory>
    ensures { OnOk result (out.new.items ≡ out.old.items ++ sense_text sense.now) }
{
    push_named(out, b"sensitive ", &sense.name)
}

fn push_member(out: &mut Vec<u8>, member: &Member) -> Result<(), Memory>
    ensures { OnOk result (out.new.items ≡ out.old.items ++ member_text member.now) }
{
    match member {
        Member::Port(port) => push_port(out, port),
        Member::Signal { name, format, .. } => {
            push_head(out, b"signal ", name)?;
            push_format(out, format)?;
            push_end(out)
        }
        Member::DeSignal {
            name,
            format,
            start,
            ..
        } => push_value(out, b"de_signal ", name, format, start),
        Member::Instance { name, block, .. } => {
            push_head(out, b"instance ", name)?;
            push_name(out, block)?;
            push_end(out)
        }
        Member::Bind {
            instance,
            port,
            target,
            ..
        } => {
            push_head(out, b"bind ", instance)?;
            out.push(b'.')?;
            out.extend_from_slice(port.as_bytes())?;
            push_name(out, target)?;
            push_end(out)
        }
    }
}

fn push_trace(out: &mut Vec<u8>, trace: &Trace1) -> Result<(), Memory>
    ensures { OnOk result (out.new.items ≡ out.old.items ++ trace_text trace.now) }
{
    out.extend_from_slice(b"trace ")?;
    push_path(out, &trace.path)?;
    push_name(out, &trace.label)?;
    push_end(out)
}

/// The lines of a `tdf` block before its parts.
pub(crate) fn push_tdf_lines(out: &mut Vec<u8>, list: &[TdfLine]) -> Result<(), Memory>
    ensures { OnOk result (out.new.items ≡ out.old.items ++ flat_map tdf_line_text list.now) }
{
    for line in list {
        push_tdf_line(out, line)?;
    }
    Ok(())
}

/// The lines of `set_attributes`.
pub(crate) fn push_attrs(out: &mut Vec<u8>, unit: Resolution, list: &[Attr]) -> Result<(), Memory>
    ensures { OnOk result (out.new.items ≡ out.old.items ++ flat_map (attr_text unit) list.now) }
{
    for attr in list {
        push_attr(out, unit, attr)?;
    }
    Ok(())
}

/// The `initial` lines of a block.
pub(crate) fn push_initials(out: &mut Vec<u8>, list: &[Initial]) -> Result<(), Memory>
    ensures { OnOk result (out.new.items ≡ out.old.items ++ flat_map initial_text list.now) }
{
    for initial in list {
        push_initial(out, initial)?;
    }
    Ok(())
}

/// The lines of a `de` block before its processes.
pub(crate) fn push_de_lines(out: &mut Vec<u8>, list: &[DeLine]) -> Result<(), Memory>
    ensures { OnOk result (out.new.items ≡ out.old.items ++ flat_map de_line_text list.now) }
{
    for line in list {
        push_de_line(out, line)?;
    }
    Ok(())
}

/// The `sensitive` lines of a process.
pub(crate) fn push_senses(out: &mut Vec<u8>, list: &[Sense]) -> Result<(), Memory>
    ensures { OnOk result (out.new.items ≡ out.old.items ++ flat_map sense_text list.now) }
{
    for sense in list {
        push_sense(out, sense)?;
    }
    Ok(())
}

/// The lines of a `composite` block.
pub(crate) fn push_members(out: &mut Vec<u8>, list: &[Member]) -> Result<(), Memory>
    ensures { OnOk result (out.new.items ≡ out.old.items ++ flat_map member_text list.now) }
{
    for member in list {
        push_member(out, member)?;
    }
    Ok(())
}

/// The lines after `top`.
pub(crate) fn push_traces(out: &mut Vec<u8>, list: &[Trace1]) -> Result<(), Memory>
    ensures { OnOk result (out.new.items ≡ out.old.items ++ flat_map trace_text list.now) }
{
    for trace in list {
        push_trace(out, trace)?;
    }
    Ok(())
}
