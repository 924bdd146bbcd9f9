//! The names that the lines of blocks declare and use.

ghost use Rattle.std.specs.Prelude.{◌≡◌, ◌++◌, [], ◌∷◌, IfOk, OnOk};
ghost use Rattle.tdf_base.specs.First.{least_with};
ghost use Rattle.tdf_expr_names.specs.Names.{uses, declares, format_name_faults, formatted_faults, store_name_faults, name_of_store, tdf_line_name_faults, names_of_tdf_line, de_line_name_faults, names_of_de_line, member_name_faults, names_of_member, attr_name_faults};
ghost use Rattle.tdf_expr_names.specs.machine.Scope.{locals, declared};
ghost use Rattle.tdf_lang_tree.specs.Views.{pure_store, pure_tdf_line, pure_de_line};

use crate::exprs::{check_global_use, check_limit, check_maybe, check_use};
use crate::scope::Scope;
use std::alloc::AllocError;
use tdf_base::{Code, LineFault, Name, noted};
use tdf_lang_tree::{Attr, DeLine, FormatRef, Member, Store, TdfLine};

/// The first fault so far, where this line declares a name of the block.
///
/// # Errors
/// Out of memory.
#[tactic(auto, using(crate::proofs::LineFirsts::line_laws))]
fn check_name<'t>(
    first: Option<LineFault>,
    scope: &mut Scope<'_, 't>,
    line: u32,
    name: &'t Name,
) -> Result<Option<LineFault>, AllocError>
    ensures first { IfOk result (λ f. f ≡ least_with first
        (declares scope.old.own line name.entry.now)) }
    ensures names { OnOk result (scope.new ≡ declared scope.old (name.entry.now ∷ [])) }
{
    let new = scope.declare(name.as_bytes())?;
    Ok(noted(first, !new, Code::Duplicate, line))
}

/// The first fault so far, where this line names a format.
#[tactic(auto, using(crate::proofs::LineFirsts::line_laws))]
fn check_format(
    first: Option<LineFault>,
    scope: &Scope,
    line: u32,
    format: &FormatRef,
) -> Option<LineFault>
    ensures { result ≡ least_with first (format_name_faults scope.now.globals line format.now) }
{
    match format {
        FormatRef::Own(_) => first,
        FormatRef::Named(name) => check_global_use(first, scope, line, name),
    }
}

/// The first fault so far, where this line declares a name of the block and gives it a format.
///
/// # Errors
/// Out of memory.
#[tactic(auto, using(crate::proofs::LineFirsts::line_laws))]
fn check_formatted<'t>(
    first: Option<LineFault>,
    scope: &mut Scope<'_, 't>,
    line: u32,
    name: &'t Name,
    format: &FormatRef,
) -> Result<Option<LineFault>, AllocError>
    ensures first { IfOk result (λ f. f ≡ least_with first
        (formatted_faults scope.old.globals scope.old.own line name.entry.now format.now)) }
    ensures names { OnOk result (scope.new ≡ declared scope.old (name.entry.now ∷ [])) }
{
    let first = check_name(first, scope, line, name)?;
    Ok(check_format(first, scope, line, format))
}

/// The first fault so far, with those of a constant, a variable or an array.
///
/// # Errors
/// Out of memory.
fn check_store<'t>(
    first: Option<LineFault>,
    scope: &mut Scope<'_, 't>,
    store: &'t Store,
) -> Result<Option<LineFault>, AllocError>
    ensures first { IfOk result (λ f. f ≡ least_with first
        (store_name_faults scope.old.globals scope.old.own (pure_store store.entry.now))) }
    ensures names { OnOk result (scope.new ≡ declared scope.old
        (name_of_store (pure_store store.entry.now) ∷ [])) }
{
    match store {
        Store::Const {
            line,
            name,
            format,
            ..
        } => check_formatted(first, scope, *line, name, format),
        Store::Var {
            line,
            name,
            format,
            ..
        } => check_formatted(first, scope, *line, name, format),
        Store::Array {
            line,
            name,
            format,
            ..
        } => check_formatted(first, scope, *line, name, format),
    }
}

/// The first fault so far, with those of a line of a `tdf` block before its parts.
///
/// # Errors
/// Out of memory.
pub(crate) fn check_tdf_line<'t>(
    first: Option<LineFault>,
    scope: &mut Scope<'_, 't>,
    line: &'t TdfLine,
) -> Result<Option<LineFault>, AllocError>
    ensures first { IfOk result (λ f. f ≡ least_with first
        (tdf_line_name_faults scope.old.globals scope.old.own (pure_tdf_line line.entry.now))) }
    ensures names { OnOk result (scope.new ≡ declared scope.old
        (names_of_tdf_line (pure_tdf_line line.entry.now))) }
{
    match line {
        TdfLine::Port(port) => {
            check_formatted(first, scope, port.line, &port.name, &port.format)
        }
        TdfLine::Store(store) => check_store(first, scope, store),
        TdfLine::Rate { line, name, .. } => check_name(first, scope, *line, name),
    }
}

/// The first fault so far, with those of a line of a `de` block before its processes.
///
/// # Errors
/// Out of memory.
pub(crate) fn check_de_line<'t>(
    first: Option<LineFault>,
    scope: &mut Scope<'_, 't>,
    line: &'t DeLine,
) -> Result<Option<LineFault>, AllocError>
    ensures first { IfOk result (λ f. f ≡ least_with first
        (de_line_name_faults scope.old.globals scope.old.own (pure_de_line line.entry.now))) }
    ensures names { OnOk result (scope.new ≡ declared scope.old
        (names_of_de_line (pure_de_line line.entry.now))) }
{
    match line {
        DeLine::Port(port) => check_formatted(first, scope, port.line, &port.name, &port.format),
        DeLine::Store(store) => check_store(first, scope, store),
        DeLine::Event { line, name } => check_name(first, scope, *line, name),
    }
}

/// The first fault so far, where this line uses a name of its block, and no loop variable can be in force.
#[tactic(auto, using(crate::proofs::LineFirsts::line_laws))]
fn check_own_use(
    first: Option<LineFault>,
    scope: &Scope,
    line: u32,
    name: &Name,
) -> Option<LineFault>
    ensures { result ≡ least_with first (uses scope.now.own line name.now) }
{
    noted(first, !scope.has_own(name.as_bytes()), Code::Unknown, line)
}

/// The first fault so far, where this line declares an instance of a block.
///
/// # Errors
/// Out of memory.
#[tactic(auto, using(crate::proofs::LineFirsts::line_laws))]
fn check_instance<'t>(
    first: Option<LineFault>,
    scope: &mut Scope<'_, 't>,
    line: u32,
    name: &'t Name,
    block: &Name,
) -> Result<Option<LineFault>, AllocError>
    ensures first { IfOk result (λ f. f ≡ least_with first
        (declares scope.old.own line name.entry.now ++ uses scope.old.globals line block.now)) }
    ensures names { OnOk result (scope.new ≡ declared scope.old (name.entry.now ∷ [])) }
{
    let first = check_name(first, scope, line, name)?;
    Ok(check_global_use(first, scope, line, block))
}

/// The first fault so far, where this line binds a port of an instance.
#[tactic(auto, using(crate::proofs::LineFirsts::line_laws))]
fn check_bind(
    first: Option<LineFault>,
    scope: &Scope,
    line: u32,
    instance: &Name,
    target: &Name,
) -> Option<LineFault>
    ensures { result ≡ least_with first
        (uses scope.now.own line instance.now ++ uses scope.now.own line target.now) }
{
    let first = check_own_use(first, scope, line, instance);
    check_own_use(first, scope, line, target)
}

/// The first fault so far, with those of a line of a `composite` block or of `top`.
///
/// # Errors
/// Out of memory.
pub(crate) fn check_member<'t>(
    first: Option<LineFault>,
    scope: &mut Scope<'_, 't>,
    member: &'t Member,
) -> Result<Option<LineFault>, AllocError>
    ensures first { IfOk result (λ f. f ≡ least_with first
        (member_name_faults scope.old.globals scope.old.own member.entry.now)) }
    ensures names { OnOk result (scope.new ≡ declared scope.old
        (names_of_member member.entry.now)) }
{
    match member {
        Member::Port(port) => check_formatted(first, scope, port.line, &port.name, &port.format),
        Member::Signal { line, name, format } => {
            check_formatted(first, scope, *line, name, format)
        }
        Member::DeSignal {
            line,
            name,
            format,
            ..
        } => check_formatted(first, scope, *line, name, format),
        Member::Instance { line, name, block } => {
            check_instance(first, scope, *line, name, block)
        }
        Member::Bind {
            line,
            instance,
            target,
            ..
        } => Ok(check_bind(first, scope, *line, instance, target)),
    }
}

/// The first fault so far, with those of a line of `set_attributes`.
#[tactic(auto, using(crate::proofs::LineFirsts::line_laws))]
pub(crate) fn check_attr(first: Option<LineFault>, scope: &Scope, attr: &Attr) -> Option<LineFault>
    ensures { result ≡ least_with first (attr_name_faults (locals scope.now) attr.now) }
{
    match attr {
        Attr::Step { line, port, .. } => check_maybe(first, scope, *line, port),
        Attr::Rate { line, port, rate } => {
            let first = check_use(first, scope, *line, port);
            check_limit(first, scope, *line, rate)
        }
        Attr::Delay { line, port, .. } => check_use(first, scope, *line, port),
        Attr::Does { .. } => first,
        Attr::Accept { .. } => first,
        Attr::Reject { .. } => first,
    }
}
