//! Parts of one line each.

ghost use Rattle.std.specs.Prelude.{◌≡◌, length, map};
ghost use Rattle.tdf_lang_tree.specs.Views.{pure_de_line, pure_store, pure_tdf_line, pure_trace};
ghost use Rattle.tdf_stim_lines.specs.Numbered.{attr_at, de_line_at, initial_at, lines_at, member_at, sense_at, store_at, tdf_line_at, trace_at};
ghost use Rattle.tdf_stim_lines.specs.machine.Walk.{Walks};

use tdf_lang_tree::{Attr, DeLine, Initial, Member, Sense, Store, TdfLine, Trace1};

fn set_store(store: &mut Store, at: u32)
    ensures { pure_store store.new ≡ store_at at (pure_store store.old) }
{
    match store {
        Store::Const { line, .. } => *line = at,
        Store::Var { line, .. } => *line = at,
        Store::Array { line, .. } => *line = at,
    }
}

fn set_tdf_line(part: &mut TdfLine, at: u32)
    ensures { pure_tdf_line part.new ≡ tdf_line_at at (pure_tdf_line part.old) }
{
    match part {
        TdfLine::Port(port) => port.line = at,
        TdfLine::Store(store) => set_store(store, at),
        TdfLine::Rate { line, .. } => *line = at,
    }
}

/// Numbers the lines of a `tdf` block before its parts.
pub(crate) fn number_tdf_lines(list: &mut Vec<TdfLine>, at: u32) -> u32
    ensures { Walks length (lines_at tdf_line_at) at result (map pure_tdf_line list.old.items) (map pure_tdf_line list.new.items) }
{
    let mut next = at;
    for i in 0..list.len() {
        set_tdf_line(&mut list[i], next);
        next = next.saturating_add(1);
    }
    next
}

fn set_attr(attr: &mut Attr, at: u32)
    ensures { attr.new ≡ attr_at at attr.old }
{
    match attr {
        Attr::Step { line, .. } => *line = at,
        Attr::Rate { line, .. } => *line = at,
        Attr::Delay { line, .. } => *line = at,
        Attr::Does { line } => *line = at,
        Attr::Accept { line } => *line = at,
        Attr::Reject { line } => *line = at,
    }
}

/// Numbers the lines of `set_attributes`.
pub(crate) fn number_attrs(list: &mut Vec<Attr>, at: u32) -> u32
    ensures { Walks length (lines_at attr_at) at result list.old.items list.new.items }
{
    let mut next = at;
    for i in 0..list.len() {
        set_attr(&mut list[i], next);
        next = next.saturating_add(1);
    }
    next
}

fn set_initial(initial: &mut Initial, at: u32)
    ensures { initial.new ≡ initial_at at initial.old }
{
    initial.line = at;
}

/// Numbers the initial samples of `initialize`.
pub(crate) fn number_initials(list: &mut Vec<Initial>, at: u32) -> u32
    ensures { Walks length (lines_at initial_at) at result list.old.items list.new.items }
{
    let mut next = at;
    for i in 0..list.len() {
        set_initial(&mut list[i], next);
        next = next.saturating_add(1);
    }
    next
}

fn set_de_line(part: &mut DeLine, at: u32)
    ensures { pure_de_line part.new ≡ de_line_at at (pure_de_line part.old) }
{
    match part {
        DeLine::Port(port) => port.line = at,
        DeLine::Store(store) => set_store(store, at),
        DeLine::Event { line, .. } => *line = at,
    }
}

/// Numbers the lines of a `de` block before its processes.
pub(crate) fn number_de_lines(list: &mut Vec<DeLine>, at: u32) -> u32
    ensures { Walks length (lines_at de_line_at) at result (map pure_de_line list.old.items) (map pure_de_line list.new.items) }
{
    let mut next = at;
    for i in 0..list.len() {
        set_de_line(&mut list[i], next);
        next = next.saturating_add(1);
    }
    next
}

fn set_sense(sense: &mut Sense, at: u32)
    ensures { sense.new ≡ sense_at at sense.old }
{
    sense.line = at;
}

/// Numbers the `sensitive` lines of a process.
pub(crate) fn number_senses(list: &mut Vec<Sense>, at: u32) -> u32
    ensures { Walks length (lines_at sense_at) at result list.old.items list.new.items }
{
    let mut next = at;
    for i in 0..list.len() {
        set_sense(&mut list[i], next);
        next = next.saturating_add(1);
    }
    next
}

fn set_member(member: &mut Member, at: u32)
    ensures { member.new ≡ member_at at member.old }
{
    match member {
        Member::Port(port) => port.line = at,
        Member::Signal { line, .. } => *line = at,
        Member::DeSignal { line, .. } => *line = at,
        Member::Instance { line, .. } => *line = at,
        Member::Bind { line, .. } => *line = at,
    }
}

/// Numbers the lines of a `composite` block or of `top`.
pub(crate) fn number_members(list: &mut Vec<Member>, at: u32) -> u32
    ensures { Walks length (lines_at member_at) at result list.old.items list.new.items }
{
    let mut next = at;
    for i in 0..list.len() {
        set_member(&mut list[i], next);
        next = next.saturating_add(1);
    }
    next
}

fn set_trace(trace: &mut Trace1, at: u32)
    ensures { pure_trace trace.new ≡ trace_at at (pure_trace trace.old) }
{
    trace.line = at;
}

/// Numbers the traces.
pub(crate) fn number_traces(list: &mut Vec<Trace1>, at: u32) -> u32
    ensures { Walks length (lines_at trace_at) at result (map pure_trace list.old.items) (map pure_trace list.new.items) }
{
    let mut next = at;
    for i in 0..list.len() {
        set_trace(&mut list[i], next);
        next = next.saturating_add(1);
    }
    next
}
