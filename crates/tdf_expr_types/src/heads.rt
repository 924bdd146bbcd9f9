//! The faults of statements on their own lines.

ghost use Rattle.std.specs.Option.{option_map};
ghost use Rattle.std.specs.Prelude.{◌≡◌, ◌||◌, Some, map, nat_lt, not};
ghost use Rattle.tdf_base.specs.Limits.{greatest_rate as most_rate};
ghost use Rattle.tdf_base.specs.declared.codes.Code.TheVariants as code;
ghost use Rattle.tdf_base.specs.First.{fault_if, least_with};
ghost use Rattle.tdf_expr_symbols.specs.Faults.{changes, limit_faults, multiple_faults, notifies, shape_in, step_faults, stmt_faults, target_faults, value_faults};
ghost use Rattle.tdf_expr_symbols.specs.Scope.{greatest_of, least_of};
ghost use Rattle.tdf_expr_symbols.specs.Seen.{seen, seen_loop};
ghost use Rattle.tdf_expr_types.specs.machine.Sites.{change_faults_at, changes_at, for_faults_at, limit_faults_at, notify_faults_at, stmt_faults_at, target_faults_at, value_faults_at};
ghost use Rattle.tdf_lang_tree.specs.Pure.{SAssign, SSetRate, SSetStep};
ghost use Rattle.tdf_lang_tree.specs.Views.{pure_expr};

use crate::exprs::check_expr;
use crate::indices::note_index;
use crate::notes::note_kind;
use crate::site::Site;
use crate::sizes;
use tdf_base::{Code, GREATEST_RATE, LineFault, Name, noted};
use tdf_expr_symbols::{OpenLoop, Part, Place, Scope, Thing};
use tdf_lang_tree::{Expr, Index, Limit, Shape};

/// Whether a body may notify events.
fn notifies(part: Part) -> bool
    ensures { result ≡ notifies part }
{
    matches!(part, Part::Process)
}

/// Whether a body may change attributes.
fn changes(site: &Site) -> bool
    ensures { result ≡ changes_at site.now }
{
    match site.part {
        Part::Change => site.scope.does(),
        Part::Initialize => false,
        Part::Processing => false,
        Part::Reinitialize => false,
        Part::Process => false,
    }
}

/// Whether a multiple of a rate variable is beyond the limits of a rate.
fn is_beyond(scope: &Scope, times: u64, limit: &Limit) -> bool
    ensures { result ≡ (nat_lt times 1 || (nat_lt most_rate times || nat_lt most_rate (greatest_of scope.now.own limit.now))) }
{
    times < 1 || (times > GREATEST_RATE || scope.greatest_of(limit) > u128::from(GREATEST_RATE))
}

/// Notes where a multiple of a rate variable is beyond the limits of a rate.
#[tactic(auto, using(crate::proofs::Leasts::least_laws))]
pub fn note_multiple(
    first: &mut Option<LineFault>,
    scope: &Scope,
    line: u32,
    times: u64,
    limit: &Limit,
)
    ensures { first.new ≡ least_with first.old (multiple_faults scope.now line times limit.now) }
{
    *first = noted(*first, is_beyond(scope, times, limit), Code::Limit, line);
}

/// Notes the faults of the limit of a `for`.
#[tactic(auto, using(crate::proofs::Leasts::least_laws))]
fn note_limit(first: &mut Option<LineFault>, site: &Site, limit: &Limit)
    ensures { first.new ≡ least_with first.old (limit_faults_at site.now limit.now) }
{
    match limit {
        Limit::Int(n) => *first = noted(*first, *n > GREATEST_RATE, Code::Limit, site.line),
        Limit::Var(r) => note_kind(first, Place::Limit, site.named(r), site.line),
        Limit::Times(c, r) => {
            note_kind(first, Place::Limit, site.named(r), site.line);
            note_multiple(first, site.scope, site.line, *c, limit);
        }
    }
}

/// Whether a `for` begins at its limit or beyond it.
fn is_late(scope: &Scope, from: u64, end: &Limit) -> bool
    ensures { result ≡ not (nat_lt from (least_of scope.now.own end.now)) }
{
    !(u128::from(from) < scope.least_of(end))
}

/// Notes the faults of a statement that sets a timestep.
#[tactic(auto, using(crate::proofs::Leasts::least_laws))]
pub fn note_step<'t>(
    first: &mut Option<LineFault>,
    scope: &Scope<'_, 't>,
    loops: &[OpenLoop<'t>],
    line: u32,
    port: &Option<Name>,
    step: u64,
)
    ensures { first.new ≡ least_with first.old
        (step_faults scope.now (map seen_loop loops.entry.now) line port.now step) }
{
    match port {
        None => *first = noted(*first, step == 0, Code::Limit, line),
        Some(port) => {
            note_kind(
                first,
                Place::Port,
                scope.named(loops, port.as_bytes()),
                line,
            );
            *first = noted(*first, step == 0, Code::Limit, line);
        }
    }
}

/// Notes the faults of what is assigned.
#[tactic(auto, using(crate::proofs::Leasts::least_laws))]
fn note_target(
    first: &mut Option<LineFault>,
    site: &Site,
    thing: Option<Thing>,
    index: &Option<Index>,
)
    ensures { first.new ≡ least_with first.old
        (target_faults_at site.now (option_map seen thing.entry) index.now) }
{
    match index {
        None => note_kind(first, Place::Target(site.part), thing, site.line),
        Some(index) => {
            note_kind(first, Place::TargetElement(site.part), thing, site.line);
            note_index(first, site, thing, index);
        }
    }
}

fn shape_in(thing: Option<Thing>) -> Option<Shape>
    ensures { result ≡ shape_in (option_map seen thing.entry) }
{
    match thing {
        None => None,
        Some(thing) => thing.shape(),
    }
}

/// Notes the faults of a value that is assigned.
#[tactic(auto, using(crate::proofs::Leasts::least_laws))]
fn note_value(first: &mut Option<LineFault>, site: &Site, thing: Option<Thing>, value: &Expr)
    ensures { first.new ≡ least_with first.old
        (value_faults_at site.now (option_map seen thing.entry) (pure_expr value.now)) }
{
    let size = check_expr(first, site, value);
    let is_wide = sizes::is_wide_cast(shape_in(thing), size);
    *first = noted(*first, is_wide, Code::WideCast, site.line);
}

/// Notes the faults of an assignment.
#[tactic(auto, using(crate::proofs::Leasts::least_laws))]
pub fn note_assign(
    first: &mut Option<LineFault>,
    site: &Site,
    name: &Name,
    index: &Option<Index>,
    value: &Expr,
)
    ensures { first.new ≡ least_with first.old
        (stmt_faults_at site.now (SAssign site.now.line name.now index.now (pure_expr value.now))) }
{
    let thing = site.named(name);
    note_target(first, site, thing, index);
    note_value(first, site, thing, value);
}

/// Notes the faults of the head of a `for`.
#[tactic(auto, using(crate::proofs::Leasts::least_laws))]
pub fn note_for(first: &mut Option<LineFault>, site: &Site, from: u64, limit: &Limit)
    ensures { first.new ≡ least_with first.old (for_faults_at site.now from limit.now) }
{
    note_limit(first, site, limit);
    *first = noted(
        *first,
        is_late(site.scope, from, limit),
        Code::Index,
        site.line,
    );
}

/// Notes the faults of `notify`.
#[tactic(auto, using(crate::proofs::Leasts::least_laws))]
pub fn note_notify(first: &mut Option<LineFault>, site: &Site, event: &Name)
    ensures { first.new ≡ least_with first.old (notify_faults_at site.now event.now) }
{
    *first = noted(*first, !notifies(site.part), Code::Kind, site.line);
    note_kind(first, Place::Notified, site.named(event), site.line);
}

/// Notes a statement that only a body that changes attributes may have.
#[tactic(auto, using(crate::proofs::Leasts::least_laws))]
pub fn note_change(first: &mut Option<LineFault>, site: &Site)
    ensures { first.new ≡ least_with first.old (change_faults_at site.now) }
{
    *first = noted(*first, !changes(site), Code::Kind, site.line);
}

/// Notes the faults of a statement that sets a rate.
#[tactic(auto, using(crate::proofs::Leasts::least_laws))]
pub fn note_set_rate(first: &mut Option<LineFault>, site: &Site, name: &Name, value: &Expr)
    ensures { first.new ≡ least_with first.old
        (stmt_faults_at site.now (SSetRate site.now.line name.now (pure_expr value.now))) }
{
    note_change(first, site);
    note_kind(first, Place::Rate, site.named(name), site.line);
    check_expr(first, site, value);
}

/// Notes the faults of a statement that sets a timestep.
#[tactic(auto, using(crate::proofs::Leasts::least_laws))]
pub fn note_set_step(first: &mut Option<LineFault>, site: &Site, port: &Option<Name>, step: u64)
    ensures { first.new ≡ least_with first.old
        (stmt_faults_at site.now (SSetStep site.now.line port.now step)) }
{
    note_change(first, site);
    note_step(first, site.scope, site.loops, site.line, port, step);
}
