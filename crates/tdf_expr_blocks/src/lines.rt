//! The faults of lines that stand outside of bodies.

ghost use Rattle.std.specs.Option.{option_map};
ghost use Rattle.std.specs.Prelude.{◌≡◌};
ghost use Rattle.tdf_expr_blocks.specs.Lines.{array_faults, attr_faults, de_line_faults, delay_of, format_faults, initial_faults, is_format, is_no_rate, is_range, member_faults, rate_faults, sense_faults, shape_faults, store_faults, tdf_line_faults};
ghost use Rattle.tdf_base.specs.First.{least_with};
ghost use Rattle.tdf_expr_symbols.specs.Seen.{seen};
ghost use Rattle.tdf_lang_tree.specs.Views.{pure_de_line, pure_store, pure_tdf_line};

use tdf_base::{Code, GREATEST_DELAY, GREATEST_RATE, LineFault, noted};
use tdf_expr_symbols::{Place, Scope, Thing};
use tdf_expr_types::{note_kind, note_multiple, note_step};
use tdf_lang_tree::{
    Attr, DeLine, FormatRef, Initial, Limit, Member, Sense, Shape, Store, TdfLine,
};

/// The greatest count of bits of a format, and of those after its point.
const MOST_BITS: u64 = 64;

const MOST_PART: u64 = 63;

fn is_format(shape: Shape) -> bool
    ensures { result ≡ is_format shape }
{
    1 <= shape.wl
        && shape.wl <= MOST_BITS
        && shape.iwl <= shape.wl
        && shape.wl - shape.iwl <= MOST_PART
}

/// Notes a format that is none.
#[tactic(auto, using(crate::proofs::Leasts::least_laws))]
pub fn note_shape(first: &mut Option<LineFault>, line: u32, shape: Shape)
    ensures { first.new ≡ least_with first.old (shape_faults line shape) }
{
    *first = noted(*first, !is_format(shape), Code::Format, line);
}

/// Notes the faults of a format on a line.
#[tactic(auto, using(crate::proofs::Leasts::least_laws))]
fn note_format(first: &mut Option<LineFault>, scope: &Scope, line: u32, format: &FormatRef)
    ensures { first.new ≡ least_with first.old (format_faults scope.now.globals line format.now) }
{
    match format {
        FormatRef::Own(shape) => note_shape(first, line, *shape),
        FormatRef::Named(name) => {
            note_kind(first, Place::Format, scope.global(name.as_bytes()), line)
        }
    }
}

fn is_no_rate(n: u64) -> bool
    ensures { result ≡ is_no_rate n }
{
    n < 1 || n > GREATEST_RATE
}

#[tactic(auto, using(crate::proofs::Leasts::least_laws))]
fn note_array(first: &mut Option<LineFault>, line: u32, size: u64, given: usize)
    ensures { first.new ≡ least_with first.old (array_faults line size given) }
{
    *first = noted(*first, is_no_rate(size), Code::Limit, line);
    *first = noted(*first, size < given as u64, Code::Index, line);
}

/// Notes the faults of a constant, a variable or an array.
#[tactic(auto, using(crate::proofs::Leasts::least_laws))]
fn note_store(first: &mut Option<LineFault>, scope: &Scope, store: &Store)
    ensures { first.new ≡ least_with first.old
        (store_faults scope.now.globals (pure_store store.now)) }
{
    match store {
        Store::Const { line, format, .. } => note_format(first, scope, *line, format),
        Store::Var { line, format, .. } => note_format(first, scope, *line, format),
        Store::Array {
            line,
            format,
            length,
            values,
            ..
        } => {
            note_format(first, scope, *line, format);
            note_array(first, *line, *length, values.len());
        }
    }
}

fn is_range(least: u64, greatest: u64, start: u64) -> bool
    ensures { result ≡ is_range least greatest start }
{
    1 <= least && least <= start && start <= greatest && greatest <= GREATEST_RATE
}

/// Notes the faults of a declaration of a `tdf` block.
#[tactic(auto, using(crate::proofs::Leasts::least_laws), unfolding(crate::specs::Lines::tdf_line_faults))]
pub fn note_tdf_line(first: &mut Option<LineFault>, scope: &Scope, line: &TdfLine)
    ensures { first.new ≡ least_with first.old
        (tdf_line_faults scope.now.globals (pure_tdf_line line.now)) }
{
    match line {
        TdfLine::Port(port) => note_format(first, scope, port.line, &port.format),
        TdfLine::Store(store) => note_store(first, scope, store),
        TdfLine::Rate {
            line,
            least,
            greatest,
            start,
            ..
        } => *first = noted(
            *first,
            !is_range(*least, *greatest, *start),
            Code::Limit,
            *line,
        ),
    }
}

/// Notes the faults of a declaration of a `de` block.
#[tactic(auto, using(crate::proofs::Leasts::least_laws), unfolding(crate::specs::Lines::de_line_faults))]
pub fn note_de_line(first: &mut Option<LineFault>, scope: &Scope, line: &DeLine)
    ensures { first.new ≡ least_with first.old
        (de_line_faults scope.now.globals (pure_de_line line.now)) }
{
    match line {
        DeLine::Port(port) => note_format(first, scope, port.line, &port.format),
        DeLine::Store(store) => note_store(first, scope, store),
        DeLine::Event { .. } => {}
    }
}

/// Notes the faults of a rate that a port is given.
#[tactic(auto, using(crate::proofs::Leasts::least_laws))]
fn note_rate(first: &mut Option<LineFault>, scope: &Scope, line: u32, rate: &Limit)
    ensures { first.new ≡ least_with first.old (rate_faults scope.now line rate.now) }
{
    match rate {
        Limit::Int(n) => *first = noted(*first, is_no_rate(*n), Code::Limit, line),
        Limit::Var(r) => note_kind(first, Place::Rate, scope.own(r.as_bytes()), line),
        Limit::Times(c, r) => {
            note_kind(first, Place::Rate, scope.own(r.as_bytes()), line);
            note_multiple(first, scope, line, *c, rate);
        }
    }
}

/// Notes the faults of a line of `set_attributes`.
#[tactic(auto, using(crate::proofs::Leasts::least_laws), unfolding(crate::specs::Lines::attr_faults))]
pub fn note_attr(first: &mut Option<LineFault>, scope: &Scope, attr: &Attr)
    ensures { first.new ≡ least_with first.old (attr_faults scope.now attr.now) }
{
    match attr {
        Attr::Step { line, port, step } => note_step(first, scope, &[], *line, port, *step),
        Attr::Rate { line, port, rate } => {
            note_kind(first, Place::Port, scope.own(port.as_bytes()), *line);
            note_rate(first, scope, *line, rate);
        }
        Attr::Delay { line, port, count } => {
            note_kind(first, Place::Port, scope.own(port.as_bytes()), *line);
            *first = noted(*first, *count > GREATEST_DELAY, Code::Limit, *line);
        }
        Attr::Does { .. } => {}
        Attr::Accept { .. } => {}
        Attr::Reject { .. } => {}
    }
}

fn delay_of(thing: Option<Thing>) -> u64
    ensures { result ≡ delay_of (option_map seen thing.entry) }
{
    match thing {
        Some(Thing::Port(_, _, _, delay)) => delay,
        _ => 0,
    }
}

/// Notes the faults of an initial sample.
#[tactic(auto, using(crate::proofs::Leasts::least_laws), unfolding(crate::specs::Lines::initial_faults))]
pub fn note_initial(first: &mut Option<LineFault>, scope: &Scope, initial: &Initial)
    ensures { first.new ≡ least_with first.old (initial_faults scope.now initial.now) }
{
    let thing = scope.own(initial.port.as_bytes());
    note_kind(first, Place::Port, thing, initial.line);
    *first = noted(
        *first,
        !(initial.place < delay_of(thing)),
        Code::Index,
        initial.line,
    );
}

/// Notes the faults of a `sensitive` line.
#[tactic(auto, using(crate::proofs::Leasts::least_laws), unfolding(crate::specs::Lines::sense_faults))]
pub fn note_sense(first: &mut Option<LineFault>, scope: &Scope, sense: &Sense)
    ensures { first.new ≡ least_with first.old (sense_faults scope.now sense.now) }
{
    note_kind(
        first,
        Place::Sensed,
        scope.own(sense.name.as_bytes()),
        sense.line,
    );
}

/// Notes the faults of a line of a `composite` block or of `top`.
#[tactic(auto, using(crate::proofs::Leasts::least_laws), unfolding(crate::specs::Lines::member_faults))]
pub fn note_member(first: &mut Option<LineFault>, scope: &Scope, member: &Member)
    ensures { first.new ≡ least_with first.old (member_faults scope.now member.now) }
{
    match member {
        Member::Port(port) => note_format(first, scope, port.line, &port.format),
        Member::Signal { line, format, .. } => note_format(first, scope, *line, format),
        Member::DeSignal { line, format, .. } => note_format(first, scope, *line, format),
        Member::Instance { line, block, .. } => {
            note_kind(first, Place::Block, scope.global(block.as_bytes()), *line)
        }
        Member::Bind {
            line,
            instance,
            target,
            ..
        } => {
            note_kind(
                first,
                Place::Instance,
                scope.own(instance.as_bytes()),
                *line,
            );
            note_kind(first, Place::Bound, scope.own(target.as_bytes()), *line);
        }
    }
}
