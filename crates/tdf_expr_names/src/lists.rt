//! Lines of blocks, one after another.

ghost use Rattle.std.specs.List.{flat_map};
ghost use Rattle.std.specs.Prelude.{◌≡◌, map, IfOk, OnOk};
ghost use Rattle.tdf_base.specs.First.{least_with};
ghost use Rattle.tdf_expr_names.specs.Names.{tdf_lines_faults, names_of_tdf_lines, de_lines_faults, names_of_de_lines, members_faults, attr_name_faults, initial_name_faults, sense_name_faults};
ghost use Rattle.tdf_expr_names.specs.machine.Scope.{locals, declared};
ghost use Rattle.tdf_lang_tree.specs.Views.{pure_tdf_line, pure_de_line};

use crate::exprs::check_use;
use crate::lines::{check_attr, check_de_line, check_member, check_tdf_line};
use crate::scope::Scope;
use std::alloc::AllocError;
use tdf_base::LineFault;
use tdf_lang_tree::{Attr, DeLine, Initial, Member, Sense, TdfLine};

/// The first fault so far, with those of the lines of a `tdf` block before its parts.
///
/// # Errors
/// Out of memory.
#[tactic(auto, using(crate::proofs::ListFirsts::tdf_lines_laws))]
pub(crate) fn check_tdf_lines<'t>(
    first: Option<LineFault>,
    scope: &mut Scope<'_, 't>,
    lines: &'t Vec<TdfLine>,
) -> Result<Option<LineFault>, AllocError>
    ensures first { IfOk result (λ f. f ≡ least_with first
        (tdf_lines_faults scope.old.globals scope.old.own (map pure_tdf_line lines.entry.now.items))) }
    ensures names { OnOk result (scope.new ≡ declared scope.old
        (names_of_tdf_lines (map pure_tdf_line lines.entry.now.items))) }
{
    let mut first = first;
    for line in lines {
        first = check_tdf_line(first, scope, line)?;
    }
    Ok(first)
}

/// The first fault so far, with those of the lines of a `de` block before its processes.
///
/// # Errors
/// Out of memory.
#[tactic(auto, using(crate::proofs::ListFirsts::de_lines_laws))]
pub(crate) fn check_de_lines<'t>(
    first: Option<LineFault>,
    scope: &mut Scope<'_, 't>,
    lines: &'t Vec<DeLine>,
) -> Result<Option<LineFault>, AllocError>
    ensures first { IfOk result (λ f. f ≡ least_with first
        (de_lines_faults scope.old.globals scope.old.own (map pure_de_line lines.entry.now.items))) }
    ensures names { OnOk result (scope.new ≡ declared scope.old
        (names_of_de_lines (map pure_de_line lines.entry.now.items))) }
{
    let mut first = first;
    for line in lines {
        first = check_de_line(first, scope, line)?;
    }
    Ok(first)
}

/// The first fault so far, with those of the lines of a `composite` block or of `top`.
///
/// # Errors
/// Out of memory.
#[tactic(auto, using(crate::proofs::ListFirsts::members_laws))]
pub(crate) fn check_members<'t>(
    first: Option<LineFault>,
    scope: &mut Scope<'_, 't>,
    members: &'t Vec<Member>,
) -> Result<Option<LineFault>, AllocError>
    ensures { IfOk result (λ f. f ≡ least_with first
        (members_faults scope.old.globals scope.old.own members.entry.now.items)) }
{
    let mut first = first;
    for member in members {
        first = check_member(first, scope, member)?;
    }
    Ok(first)
}

/// The first fault so far, with those of the lines of `set_attributes`.
#[tactic(auto, using(crate::proofs::ListFirsts::attrs_laws))]
pub(crate) fn check_attrs(
    first: Option<LineFault>,
    scope: &Scope,
    attrs: &Vec<Attr>,
) -> Option<LineFault>
    ensures { result ≡ least_with first
        (flat_map (attr_name_faults (locals scope.now)) attrs.now.items) }
{
    let mut first = first;
    for attr in attrs {
        first = check_attr(first, scope, attr);
    }
    first
}

/// The first fault so far, with those of `initial` lines.
#[tactic(auto, using(crate::proofs::ListFirsts::initials_laws))]
pub(crate) fn check_initials(
    first: Option<LineFault>,
    scope: &Scope,
    initials: &Vec<Initial>,
) -> Option<LineFault>
    ensures { result ≡ least_with first
        (flat_map (initial_name_faults (locals scope.now)) initials.now.items) }
{
    let mut first = first;
    for initial in initials {
        first = check_use(first, scope, initial.line, &initial.port);
    }
    first
}

/// The first fault so far, with those of `sensitive` lines.
#[tactic(auto, using(crate::proofs::ListFirsts::senses_laws))]
pub(crate) fn check_senses(
    first: Option<LineFault>,
    scope: &Scope,
    senses: &Vec<Sense>,
) -> Option<LineFault>
    ensures { result ≡ least_with first
        (flat_map (sense_name_faults (locals scope.now)) senses.now.items) }
{
    let mut first = first;
    for sense in senses {
        first = check_use(first, scope, sense.line, &sense.name);
    }
    first
}
