//! Whether an index may lie outside its array or port. Numbers are counted up to the greatest of 128 bits, which no size reaches.

ghost use Rattle.std.specs.Option.{option_map};
ghost use Rattle.std.specs.Prelude.{◌≡◌, ◌+◌, ◌*◌, ◌-◌, ◌^◌, map, min, nat_le, nat_lt};
ghost use Rattle.tdf_expr_types.specs.machine.Sites.{breaks_at, breaks_size_at, index_faults_at, name_faults_at};
ghost use Rattle.tdf_expr_types.specs.machine.Sizes.{seen_multiple, seen_size};
ghost use Rattle.tdf_base.specs.First.{least_with};
ghost use Rattle.tdf_expr_symbols.specs.Index.{breaks, breaks_in, breaks_size, greatest_index, index_faults, is_excepted, is_multiple_within, is_index_negative, is_outside, is_within, multiple_of, index_kind_faults, name_in, size_of};
ghost use Rattle.tdf_expr_symbols.specs.Scope.{least_of};
ghost use Rattle.tdf_expr_symbols.specs.Seen.{seen, seen_loop};

use crate::notes::note_kind;
use crate::site::Site;
use tdf_base::{Code, LineFault, Name, noted};
use tdf_expr_symbols::{Place, Scope, Thing};
use tdf_lang_tree::{Index, Limit};

/// How many elements an array has, or samples a port in one firing.
#[derive(Clone, Copy)]
pub enum Size<'t> {
    /// The length of an array, or the rate 1 of a port without a line that says another.
    Count(u64),
    /// The rate of a port.
    Rate(&'t Limit),
}

/// A multiple of a rate variable.
#[derive(Clone, Copy)]
pub struct Multiple<'t> {
    pub times: u64,
    pub variable: &'t [u8],
}

/// The size of what a name stands for.
fn size_of<'t>(thing: Option<Thing<'t>>) -> Option<Size<'t>>
    ensures { option_map seen_size result ≡ size_of (option_map seen thing.entry) }
{
    match thing {
        Some(Thing::Array(_, size, _)) => Some(Size::Count(size)),
        Some(Thing::Port(_, _, None, _)) => Some(Size::Count(1)),
        Some(Thing::Port(_, _, Some(rate), _)) => Some(Size::Rate(rate)),
        _ => None,
    }
}

/// The loop variable of an index.
fn name_in(index: &Index) -> Option<&Name>
    ensures { option_map (λ n. n.now) result ≡ name_in index.entry.now }
{
    match index {
        Index::Int(_) => None,
        Index::Var(i) => Some(i),
        Index::Plus(i, _) => Some(i),
        Index::Minus(i, _) => Some(i),
        Index::From(_, i) => Some(i),
        Index::Times(_, i) => Some(i),
        Index::TimesPlus(_, i, _) => Some(i),
    }
}

/// Whether the least value of an index is below 0.
fn is_negative(index: &Index, from: u64, most: u128) -> bool
    ensures { result ≡ is_index_negative index.now from most }
{
    match index {
        Index::Minus(_, n) => from < *n,
        Index::From(n, _) => u128::from(*n) < most,
        Index::Int(_) => false,
        Index::Var(_) => false,
        Index::Plus(_, _) => false,
        Index::Times(_, _) => false,
        Index::TimesPlus(_, _, _) => false,
    }
}

fn sum(a: u128, b: u64) -> u128
    ensures { result ≡ min (a + b) (2 ^ 128 - 1) }
{
    a.saturating_add(u128::from(b))
}

fn product(c: u64, a: u128) -> u128
    ensures { result ≡ min (c * a) (2 ^ 128 - 1) }
{
    u128::from(c).saturating_mul(a)
}

/// The greatest value of an index, or the greatest number.
fn greatest_index(index: &Index, from: u64, most: u128) -> u128
    ensures { result ≡ min (greatest_index index.now from most) (2 ^ 128 - 1) }
{
    match index {
        Index::Int(n) => u128::from(*n),
        Index::Var(_) => most,
        Index::Plus(_, n) => sum(most, *n),
        Index::Minus(_, n) => most.saturating_sub(u128::from(*n)),
        Index::From(n, _) => u128::from(n.saturating_sub(from)),
        Index::Times(c, _) => product(*c, most),
        Index::TimesPlus(c, _, d) => sum(product(*c, most), *d),
    }
}

/// The multiple of a rate variable that a limit is.
fn multiple_of(limit: &Limit) -> Option<Multiple>
    ensures { option_map seen_multiple result ≡ multiple_of limit.entry.now }
{
    match limit {
        Limit::Int(_) => None,
        Limit::Var(r) => Some(Multiple {
            times: 1,
            variable: r.as_bytes(),
        }),
        Limit::Times(c, r) => Some(Multiple {
            times: *c,
            variable: r.as_bytes(),
        }),
    }
}

fn size_multiple<'t>(size: Size<'t>) -> Option<Multiple<'t>>
    ensures { option_map seen_multiple result ≡ multiple_of (seen_size size.entry) }
{
    match size {
        Size::Count(_) => None,
        Size::Rate(rate) => multiple_of(rate),
    }
}

/// Whether `c * k` is at most `m`.
#[tactic(auto, using(crate::proofs::Numbers::number_laws))]
fn is_small(c: u64, k: u64, m: u64) -> bool
    ensures { result ≡ nat_le (c * k) m }
{
    product(c, u128::from(k)) <= u128::from(m)
}

/// Whether an index that runs to a multiple of a rate variable stays within a port of a multiple of the same.
fn is_within(index: &Index, k: u64, m: u64) -> bool
    ensures { result ≡ is_within index.now k m }
{
    match index {
        Index::Var(_) => k <= m,
        Index::Times(c, _) => 0 < *c && is_small(*c, k, m),
        Index::TimesPlus(c, _, d) => *d < *c && is_small(*c, k, m),
        Index::Minus(_, _) => k <= m,
        Index::Int(_) => false,
        Index::Plus(_, _) => false,
        Index::From(_, _) => false,
    }
}

fn is_multiple_within(index: &Index, end: Option<Multiple>, rate: Option<Multiple>) -> bool
    ensures { result ≡ is_multiple_within index.now (option_map seen_multiple end.entry) (option_map seen_multiple rate.entry) }
{
    let Some(end) = end else {
        return false;
    };
    let Some(rate) = rate else {
        return false;
    };
    end.variable == rate.variable && is_within(index, end.times, rate.times)
}

/// Whether an index needs no upper check.
#[tactic(auto, unfolding(tdf_expr_symbols::specs::Index::is_excepted))]
fn is_excepted(index: &Index, end: &Limit, size: Size) -> bool
    ensures { result ≡ is_excepted index.now end.now (seen_size size.entry) }
{
    is_multiple_within(index, multiple_of(end), size_multiple(size))
}

#[tactic(auto, unfolding(tdf_expr_symbols::specs::Scope::least_of))]
fn least_size(scope: &Scope, size: Size) -> u128
    ensures { result ≡ least_of scope.now.own (seen_size size.entry) }
{
    match size {
        Size::Count(n) => u128::from(n),
        Size::Rate(rate) => scope.least_of(rate),
    }
}

/// Whether an index's greatest value is below the least size.
#[tactic(auto, using(crate::proofs::Numbers::number_laws))]
fn is_below(scope: &Scope, index: &Index, from: u64, most: u128, size: Size) -> bool
    ensures { result ≡ nat_lt (greatest_index index.now from most) (least_of scope.now.own (seen_size size.entry)) }
{
    greatest_index(index, from, most) < least_size(scope, size)
}

/// Whether an index may lie outside, where its loop variable runs from a number to a limit.
fn is_outside(scope: &Scope, size: Size, index: &Index, from: u64, end: &Limit) -> bool
    ensures { result ≡ is_outside scope.now.own (seen_size size.entry) index.now from end.now }
{
    let most = scope.greatest_of(end).saturating_sub(1);
    is_negative(index, from, most)
        || (!is_excepted(index, end, size) && !is_below(scope, index, from, most, size))
}

fn breaks(scope: &Scope, size: Size, index: &Index, thing: Option<Thing>) -> bool
    ensures { result ≡ breaks scope.now.own (seen_size size.entry) index.now (option_map seen thing.entry) }
{
    match thing {
        Some(Thing::Loop(from, end)) => is_outside(scope, size, index, from, end),
        _ => false,
    }
}

fn breaks_in(site: &Site, size: Size, index: &Index) -> bool
    ensures { result ≡ breaks_at site.now (seen_size size.entry) index.now }
{
    match name_in(index) {
        None => !is_below(site.scope, index, 0, 0, size),
        Some(name) => breaks(site.scope, size, index, site.named(name)),
    }
}

fn breaks_size(site: &Site, size: Option<Size>, index: &Index) -> bool
    ensures { result ≡ breaks_size_at site.now (option_map seen_size size.entry) index.now }
{
    match size {
        None => false,
        Some(size) => breaks_in(site, size, index),
    }
}

#[tactic(auto, using(crate::proofs::Leasts::least_laws))]
fn note_name(first: &mut Option<LineFault>, site: &Site, name: Option<&Name>)
    ensures { first.new ≡ least_with first.old
        (name_faults_at site.now (option_map (λ n. n.now) name.entry)) }
{
    if let Some(name) = name {
        note_kind(first, Place::Index, site.named(name), site.line);
    }
}

/// Notes the faults of an index on an array or port.
#[tactic(auto, using(crate::proofs::Leasts::least_laws), unfolding(tdf_expr_symbols::specs::Index::index_faults))]
pub fn note_index(first: &mut Option<LineFault>, site: &Site, thing: Option<Thing>, index: &Index)
    ensures { first.new ≡ least_with first.old
        (index_faults_at site.now (option_map seen thing.entry) index.now) }
{
    note_name(first, site, name_in(index));
    let broken = breaks_size(site, size_of(thing), index);
    *first = noted(*first, broken, Code::Index, site.line);
}
