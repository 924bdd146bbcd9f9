//! Loops whose body is one assignment of a value that is read straight from the cells: a copy of an element, and a sum with
//! a product of two elements. Their turns go without a walk over the tree.

ghost use Rattle.std.specs.Int.{w64};
ghost use Rattle.std.specs.Prelude.{◌≡◌, ◌≢◌, ℕ, ◌+◌, ◌<◌, ◌≤◌, ◌^◌, ◌*ℤ◌, max, unsigned_abs, FitsSigned, IfSome, IsSome, IsTrue, true, false, length};
ghost use Rattle.tdf_expr_machine.specs.Acts.{IsTurnSafe, act_turn};
ghost use Rattle.tdf_expr_machine.specs.Turns.{AreTurnsSafe, turned};
ghost use Rattle.tdf_expr_machine.specs.declared.nodes.Node.TheVariants.{Cell, CellAt};
ghost use Rattle.tdf_expr_machine.specs.machine.Plain.{AreCells, AreTerms, IsElement, IsInnerProduct, IsOn, IsOnTarget, IsPlain, IsPlainSet, IsProduct, IsRowCopy, IsRowsProduct, IsShortProduct, IsSum, IsTarget, IsTrackOf, PlainFits, TermsFit, inner_step, plain_value, terms_value, target_place, track_place};
ghost use Rattle.tdf_fixed.specs.Quantise.{below};
ghost use Rattle.tdf_fixed.specs.Overflow.{IsOfWidth};
ghost use Rattle.tdf_expr_state.specs.State.{cell_at, state_of};

use crate::acts::Act;
use crate::nodes::Node;
use crate::spots::Spot;
use tdf_expr_cuts::{
    Cut, cut_by, cut_of, held_by, keeps_all, multiple_in, product, raised, roomy_cut, short_of, sum,
};
use tdf_expr_state::{Cells, Signals};

/// A place that goes up or down with the innermost loop variable.
#[derive(Clone, Copy)]
pub(crate) struct Track {
    at: u32,
    down: bool,
}

/// A cell moved up by some bits, and a product of two elements moved up by some bits.
#[derive(Clone, Copy)]
pub(crate) struct Terms {
    base: u32,
    lift: u32,
    first: Track,
    second: Track,
    rise: u32,
}

/// A value that is read straight from the cells.
#[derive(Clone, Copy)]
pub(crate) enum Plain {
    Element(Track),
    Sum(Terms),
}

/// Where a value goes.
#[derive(Clone, Copy)]
pub(crate) enum Target {
    Cell(u32),
    Element(Track),
}

/// A value that is cut into a cell.
#[derive(Clone, Copy)]
pub(crate) struct PlainSet {
    target: Target,
    value: Plain,
    cut: Cut,
    /// Whether all steps of the value fit 64 bits wherever the statement is safe.
    narrow: bool,
}

/// How a place goes with the innermost of so many loop variables and one.
#[tactic(auto, using(crate::proofs::Plains::track_laws))]
fn track_of(spot: Spot, depth: usize) -> Option<Track>
    ensures { IfSome result (λ track. IsTrackOf spot depth track) }
{
    match spot {
        Spot::Rise {
            at,
            times,
            variable,
            less,
        } => {
            if times == 1 && variable as usize == depth && less <= at {
                return Some(Track {
                    at: at - less,
                    down: false,
                });
            }
            None
        }
        Spot::Fall { at, variable } => {
            if variable as usize == depth {
                return Some(Track { at, down: true });
            }
            None
        }
        Spot::Fixed(_) => None,
    }
}

/// Where a value goes, by such a place.
#[tactic(auto, using(crate::proofs::Plains::track_laws))]
fn target_of(spot: Spot, depth: usize) -> Option<Target>
    ensures { IfSome result (λ target. IsTarget spot depth target) }
{
    match spot {
        Spot::Fixed(at) => Some(Target::Cell(at)),
        other => match track_of(other, depth) {
            Some(track) => Some(Target::Element(track)),
            None => None,
        },
    }
}

/// The place of a cell and how many bits its number has, where the expression is one.
fn cell_of(node: &Node) -> Option<(u32, u32)>
    ensures { IfSome result (λ at. node.now ≡ Cell at.0 at.1) }
{
    match node {
        Node::Cell(at, bits) => Some((*at, *bits)),
        _ => None,
    }
}

/// The place of an element and how many bits its number has, where the expression is one.
fn element_of(node: &Node) -> Option<(Spot, u32)>
    ensures { IfSome result (λ at. node.now ≡ CellAt at.0 at.1) }
{
    match node {
        Node::CellAt(at, bits) => Some((*at, *bits)),
        _ => None,
    }
}

/// The two elements of a product.
fn product_of(node: &Node, depth: usize) -> Option<(Track, Track)>
    ensures { IfSome result (λ both. IsProduct node.now depth both.0 both.1) }
{
    match node {
        Node::Product(a, b) => {
            let first = track_of(element_of(a)?.0, depth)?;
            let second = track_of(element_of(b)?.0, depth)?;
            Some((first, second))
        }
        _ => None,
    }
}

/// The parts of a sum of a cell and a product.
fn terms_of(node: &Node, depth: usize) -> Option<Terms>
    ensures { IfSome result (λ terms. IsSum node.now depth terms) }
{
    match node {
        Node::Sum(a, lift, b, rise) => {
            let (base, _) = cell_of(a)?;
            let (first, second) = product_of(b, depth)?;
            Some(Terms {
                base,
                lift: *lift,
                first,
                second,
                rise: *rise,
            })
        }
        _ => None,
    }
}

/// A value that is read straight from the cells.
fn plain_of(node: &Node, depth: usize) -> Option<Plain>
    ensures { IfSome result (λ value. IsPlain node.now depth value) }
{
    match node {
        Node::CellAt(at, _) => match track_of(*at, depth) {
            Some(track) => Some(Plain::Element(track)),
            None => None,
        },
        _ => match terms_of(node, depth) {
            Some(terms) => Some(Plain::Sum(terms)),
            None => None,
        },
    }
}

/// An assignment of a value that is read straight from the cells.

fn plain_set(act: &Act, depth: usize) -> Option<PlainSet>
    ensures { IfSome result (λ set. IsPlainSet act.now depth set) }
{
    match act {
        Act::SetCell { spot, cast } => {
            let target = target_of(*spot, depth)?;
            let value = plain_of(&cast.value.node, depth)?;
            let cut = cut_of(cast.frac, &cast.format)?;
            Some(PlainSet {
                target,
                value,
                cut,
                narrow: cast.value.narrow,
            })
        }
        _ => None,
    }
}

/// The place at a turn.
#[inline(always)]
fn track_place(track: Track, turn: u32) -> usize
    requires { IsOn track turn }
    ensures { result ≡ track_place track turn }
{
    if track.down {
        track.at as usize - turn as usize
    } else {
        track.at as usize + turn as usize
    }
}

/// The place of a target at a turn.
#[inline(always)]
fn target_place(target: Target, turn: u32) -> usize
    requires { IsOnTarget target turn }
    ensures { result ≡ target_place target turn }
{
    match target {
        Target::Cell(at) => at as usize,
        Target::Element(track) => track_place(track, turn),
    }
}

/// The number at an element, where it fits 64 bits, as it always does where it is narrow.
#[inline(always)]
fn element(track: Track, turn: u32, narrow: bool, cells: &Cells) -> Option<i64>
    requires element { IsElement track turn cells.now.cells }
    requires fits { narrow ≡ true → FitsSigned w64 (cell_at cells.now.cells (track_place track turn)) }
    ensures value { IfSome result (λ n. n ≡ cell_at cells.now.cells (track_place track turn)) }
    ensures found { FitsSigned w64 (cell_at cells.now.cells (track_place track turn)) → IsSome result }
{
    let num = cells.cell(track_place(track, turn));
    if narrow {
        return Some(num as i64);
    }
    short_of(num)
}

/// The product of two elements, where it fits 64 bits.
#[inline(always)]
fn elements_product(
    first: Track,
    second: Track,
    turn: u32,
    narrow: bool,
    cells: &Cells,
) -> Option<i64>
    requires elements { IsElement first turn cells.now.cells × IsElement second turn cells.now.cells }
    requires fits { narrow ≡ true → IsShortProduct first second turn cells.now.cells }
    ensures value { IfSome result (λ n. n ≡ cell_at cells.now.cells (track_place first turn) *ℤ cell_at cells.now.cells (track_place second turn)) }
    ensures found { IsShortProduct first second turn cells.now.cells → IsSome result }
{
    let first = element(first, turn, narrow, cells)?;
    let second = element(second, turn, narrow, cells)?;
    if narrow {
        return Some(first * second);
    }
    product(first, second)
}

/// A cell and a product, where each step fits 64 bits.
#[inline(always)]
fn terms_value(terms: &Terms, turn: u32, narrow: bool, cells: &Cells) -> Option<i64>
    requires terms { AreTerms terms.now turn cells.now.cells }
    requires fits { narrow ≡ true → TermsFit terms.now turn cells.now.cells }
    ensures value { IfSome result (λ n. n ≡ terms_value terms.now turn cells.now.cells) }
    ensures found { TermsFit terms.now turn cells.now.cells → IsSome result }
{
    let base = raised(short_of(cells.cell(terms.base as usize))?, terms.lift)?;
    let both = elements_product(terms.first, terms.second, turn, narrow, cells)?;
    sum(base, raised(both, terms.rise)?)
}

/// The value of such an expression, where each step of it fits 64 bits.
#[inline(always)]
fn plain_value(value: &Plain, turn: u32, narrow: bool, cells: &Cells) -> Option<i64>
    requires cells { AreCells value.now turn cells.now.cells }
    requires fits { narrow ≡ true → PlainFits value.now turn cells.now.cells }
    ensures value { IfSome result (λ n. n ≡ plain_value value.now turn cells.now.cells) }
    ensures found { PlainFits value.now turn cells.now.cells → IsSome result }
{
    match value {
        Plain::Element(track) => element(*track, turn, narrow, cells),
        Plain::Sum(terms) => terms_value(terms, turn, narrow, cells),
    }
}

/// The number that a cell gets, where each step fits 64 bits.
#[inline(always)]
fn plain_cut(set: &PlainSet, turn: u32, cells: &Cells) -> Option<i64>
    requires cells { AreCells set.now.value turn cells.now.cells }
    requires fits { set.now.narrow ≡ true → PlainFits set.now.value turn cells.now.cells }
    requires cut { (set.now.cut.shift ≤ 62) × (1 ≤ set.now.cut.wl) × (set.now.cut.wl ≤ 62) }
    ensures same { IfSome result (λ n. n ≡ below (plain_value set.now.value turn cells.now.cells) (2 ^ set.now.cut.shift)) }
    ensures range { IfSome result (λ n. IsOfWidth set.now.cut.signed set.now.cut.wl n) }
    ensures found { PlainFits set.now.value turn cells.now.cells
        → IsOfWidth set.now.cut.signed set.now.cut.wl (below (plain_value set.now.value turn cells.now.cells) (2 ^ set.now.cut.shift)) → IsSome result }
{
    cut_by(plain_value(&set.value, turn, set.narrow, cells)?, &set.cut)
}

/// One turn, where each step of it fits 64 bits; else nothing is changed.
#[inline(always)]
fn plain_turn(
    act: &Act,
    set: &PlainSet,
    loops: &[u32],
    turn: u32,
    cells: &mut Cells,
    signals: &Signals,
) -> bool
    requires set { IsPlainSet act.now (length loops.now) set.now }
    requires safe { IsTurnSafe act.now loops.now turn (state_of cells.old signals.now) }
    ensures done { IsTrue result → state_of cells.new signals.now ≡ act_turn act.now loops.now turn (state_of cells.old signals.now) }
    ensures kept { result ≡ false → cells.new ≡ cells.old }
{
    match plain_cut(set, turn, cells) {
        Some(num) => {
            cells.set_cell(target_place(set.target, turn), i128::from(num));
            true
        }
        None => false,
    }
}

/// The turns of a loop, from the first on and below the end.
#[derive(Clone, Copy)]
pub(crate) struct TurnRange {
    pub(crate) from: u32,
    pub(crate) end: u32,
}

/// The turns of a loop up to the first that doesn't fit 64 bits, and the number of that turn. A copy of it for each form
/// asks for the form before the loop, not at each turn.
#[inline(always)]
#[tactic(auto, using(crate::proofs::Runs::turn_laws))]
fn plain_turns(
    act: &Act,
    set: &PlainSet,
    turns: TurnRange,
    loops: &[u32],
    cells: &mut Cells,
    signals: &Signals,
) -> u32
    requires set { IsPlainSet act.now (length loops.now) set.now }
    requires safe { AreTurnsSafe (act_turn act.now loops.now) (IsTurnSafe act.now loops.now) turns.from turns.end (state_of cells.old signals.now) }
    ensures after { turns.from ≤ result }
    ensures within { result ≤ max turns.from turns.end }
    ensures state { state_of cells.new signals.now ≡ turned (act_turn act.now loops.now) turns.from result (state_of cells.old signals.now) }
{
    for i in turns.from..turns.end {
        if !plain_turn(act, set, loops, i, cells, signals) {
            return i;
        }
    }
    turns.from.max(turns.end)
}

/// A copy of an element, whose format keeps each number of the other's.
#[derive(Clone, Copy)]
pub(crate) struct RowCopy {
    to: Track,
    of: Track,
}

/// The copy that an assignment makes.
#[tactic(auto, using(crate::proofs::Plains::copy_laws))]
fn row_copy(act: &Act, depth: usize) -> Option<RowCopy>
    ensures { IfSome result (λ row. IsRowCopy act.now depth row) }
{
    match act {
        Act::SetCell { spot, cast } => {
            let (at, bits) = element_of(&cast.value.node)?;
            if !keeps_all(bits, cast.frac, &cast.format) {
                return None;
            }
            let to = track_of(*spot, depth)?;
            let of = track_of(at, depth)?;
            Some(RowCopy { to, of })
        }
        _ => None,
    }
}

/// The turns of a loop that copies a row, which ask for nothing. A copy of it for each way asks for that before the loop.
#[inline(always)]
#[tactic(auto, using(crate::proofs::Runs::turn_laws))]
fn copied_turns(
    act: &Act,
    row: RowCopy,
    turns: TurnRange,
    loops: &[u32],
    cells: &mut Cells,
    signals: &Signals,
)
    requires row { IsRowCopy act.now (length loops.now) row }
    requires safe { AreTurnsSafe (act_turn act.now loops.now) (IsTurnSafe act.now loops.now) turns.from turns.end (state_of cells.old signals.now) }
    ensures { state_of cells.new signals.now ≡ turned (act_turn act.now loops.now) turns.from turns.end (state_of cells.old signals.now) }
{
    for i in turns.from..turns.end {
        let num = cells.cell(track_place(row.of, i));
        cells.set_cell(track_place(row.to, i), num);
    }
}

/// The turns of a loop that copies a row.
#[inline(always)]
fn row_turns(
    act: &Act,
    row: RowCopy,
    turns: TurnRange,
    loops: &[u32],
    cells: &mut Cells,
    signals: &Signals,
)
    requires row { IsRowCopy act.now (length loops.now) row }
    requires safe { AreTurnsSafe (act_turn act.now loops.now) (IsTurnSafe act.now loops.now) turns.from turns.end (state_of cells.old signals.now) }
    ensures { state_of cells.new signals.now ≡ turned (act_turn act.now loops.now) turns.from turns.end (state_of cells.old signals.now) }
{
    let (to, of) = (row.to.at, row.of.at);
    if row.to.down && row.of.down {
        let to = Track { at: to, down: true };
        let of = Track { at: of, down: true };
        return copied_turns(act, RowCopy { to, of }, turns, loops, cells, signals);
    }
    if !row.to.down && !row.of.down {
        let to = Track {
            at: to,
            down: false,
        };
        let of = Track {
            at: of,
            down: false,
        };
        return copied_turns(act, RowCopy { to, of }, turns, loops, cells, signals);
    }
    copied_turns(act, row, turns, loops, cells, signals)
}

/// A cell that gets itself, moved up by some bits, and a product of the next elements of two rows: after the turns it
/// holds the inner product of the rows.
#[derive(Clone, Copy)]
pub(crate) struct InnerProduct {
    at: u32,
    lift: u32,
    first: u32,
    second: u32,
    cut: Cut,
}

/// The begin of a row of elements that goes up and doesn't reach a cell at these turns.
#[inline(always)]
fn row_of(track: Track, at: u32, turns: TurnRange) -> Option<u32>
    ensures row { IfSome result (λ first. track ≡ record { at = first; down = false }) }
    ensures apart { IfSome result (λ first. (turn : ℕ) → turns.from ≤ turn → turn < turns.end → first + turn ≢ at) }
{
    let from = u64::from(track.at) + u64::from(turns.from);
    let end = u64::from(track.at) + u64::from(turns.end);
    if track.down || (from <= u64::from(at) && u64::from(at) < end) {
        return None;
    }
    Some(track.at)
}

/// The inner product that an assignment makes at these turns.
#[inline(always)]
fn inner_product_of(set: &PlainSet, turns: TurnRange) -> Option<InnerProduct>
    ensures { IfSome result (λ inner. IsInnerProduct set.now turns.from turns.end inner) }
{
    match (set.target, set.value) {
        (Target::Cell(at), Plain::Sum(terms)) => {
            if !set.narrow || terms.base != at || terms.rise != 0 {
                return None;
            }
            let first = row_of(terms.first, at, turns)?;
            let second = row_of(terms.second, at, turns)?;
            let cut = roomy_cut(set.cut, terms.lift)?;
            Some(InnerProduct {
                at,
                lift: terms.lift,
                first,
                second,
                cut,
            })
        }
        _ => None,
    }
}

/// The product of the elements at a turn.
#[inline(always)]
fn rows_product(inner: &InnerProduct, turn: u32, cells: &Cells) -> i64
    requires first { inner.now.first + turn < length cells.now.cells }
    requires second { inner.now.second + turn < length cells.now.cells }
    requires short { IsRowsProduct inner.now turn cells.now.cells }
    ensures value { result ≡ cell_at cells.now.cells (inner.now.first + turn) *ℤ cell_at cells.now.cells (inner.now.second + turn) }
    ensures small { unsigned_abs result < 2 ^ 61 }
{
    let first = cells.cell(inner.first as usize + turn as usize) as i64;
    let second = cells.cell(inner.second as usize + turn as usize) as i64;
    first * second
}

/// The sum after a turn, where it lies in the range.
#[inline(always)]
fn inner_step(inner: &InnerProduct, turn: u32, sum: i64, cells: &Cells) -> Option<i64>
    requires first { inner.now.first + turn < length cells.now.cells }
    requires second { inner.now.second + turn < length cells.now.cells }
    requires cut { (inner.now.cut.shift ≤ 62) × (1 ≤ inner.now.cut.wl) × (inner.now.lift + inner.now.cut.wl ≤ 62) }
    requires range { IsOfWidth true inner.now.cut.wl sum }
    requires short { IsRowsProduct inner.now turn cells.now.cells }
    ensures value { IfSome result (λ n. n ≡ inner_step inner.now turn sum cells.now.cells) }
    ensures range { IfSome result (λ n. IsOfWidth inner.now.cut.signed inner.now.cut.wl n) }
    ensures found { IsOfWidth inner.now.cut.signed inner.now.cut.wl (inner_step inner.now turn sum cells.now.cells) → IsSome result }
{
    let both = rows_product(inner, turn, cells);
    cut_by(multiple_in(sum, inner.lift, &inner.cut) + both, &inner.cut)
}

/// The turns of a loop that makes an inner product, as `plain_turns`. The sum is kept out of the cells till the end.
#[inline(always)]
#[tactic(auto, using(crate::proofs::Runs::turn_laws))]
fn inner_turns(
    act: &Act,
    set: &PlainSet,
    inner: &InnerProduct,
    turns: TurnRange,
    loops: &[u32],
    cells: &mut Cells,
    signals: &Signals,
) -> u32
    requires set { IsPlainSet act.now (length loops.now) set.now }
    requires inner { IsInnerProduct set.now turns.from turns.end inner.now }
    requires some { turns.from < turns.end }
    requires safe { AreTurnsSafe (act_turn act.now loops.now) (IsTurnSafe act.now loops.now) turns.from turns.end (state_of cells.old signals.now) }
    ensures after { turns.from ≤ result }
    ensures within { result ≤ turns.end }
    ensures state { state_of cells.new signals.now ≡ turned (act_turn act.now loops.now) turns.from result (state_of cells.old signals.now) }
{
    let place = inner.at as usize;
    let Some(first) = held_by(cells.cell(place), &inner.cut) else {
        return turns.from;
    };
    let mut sum = first;
    for i in turns.from..turns.end {
        match inner_step(inner, i, sum, cells) {
            Some(next) => sum = next,
            None => {
                cells.set_cell(place, i128::from(sum));
                return i;
            }
        }
    }
    cells.set_cell(place, i128::from(sum));
    turns.end
}

/// The turns of a loop that makes an inner product, and none of another.
#[inline(always)]
#[tactic(auto, using(crate::proofs::Runs::turn_laws))]
fn product_turns(
    act: &Act,
    set: &PlainSet,
    turns: TurnRange,
    loops: &[u32],
    cells: &mut Cells,
    signals: &Signals,
) -> u32
    requires set { IsPlainSet act.now (length loops.now) set.now }
    requires some { turns.from < turns.end }
    requires safe { AreTurnsSafe (act_turn act.now loops.now) (IsTurnSafe act.now loops.now) turns.from turns.end (state_of cells.old signals.now) }
    ensures after { turns.from ≤ result }
    ensures within { result ≤ turns.end }
    ensures state { state_of cells.new signals.now ≡ turned (act_turn act.now loops.now) turns.from result (state_of cells.old signals.now) }
{
    match inner_product_of(set, turns) {
        Some(inner) => inner_turns(act, set, &inner, turns, loops, cells, signals),
        None => turns.from,
    }
}

/// The turns of a loop that adds products to a cell, as `plain_turns`: as an inner product till a turn whose sum doesn't lie
/// in its range.
#[inline(always)]
#[tactic(auto, using(crate::proofs::Runs::turn_laws))]
fn sum_turns(
    act: &Act,
    set: &PlainSet,
    turns: TurnRange,
    loops: &[u32],
    cells: &mut Cells,
    signals: &Signals,
) -> u32
    requires set { IsPlainSet act.now (length loops.now) set.now }
    requires safe { AreTurnsSafe (act_turn act.now loops.now) (IsTurnSafe act.now loops.now) turns.from turns.end (state_of cells.old signals.now) }
    ensures after { turns.from ≤ result }
    ensures within { result ≤ max turns.from turns.end }
    ensures state { state_of cells.new signals.now ≡ turned (act_turn act.now loops.now) turns.from result (state_of cells.old signals.now) }
{
    if turns.end <= turns.from {
        return turns.from;
    }
    let next = product_turns(act, set, turns, loops, cells, signals);
    let rest = TurnRange {
        from: next,
        end: turns.end,
    };
    plain_turns(act, set, rest, loops, cells, signals)
}

/// The turns of a loop that go without a walk over the tree of its body, none where its form is another; and the turn that
/// comes next.
#[tactic(auto, using(crate::proofs::Runs::turn_laws))]
pub(crate) fn quick_turns(
    body: &Act,
    turns: TurnRange,
    loops: &[u32],
    cells: &mut Cells,
    signals: &Signals,
) -> u32
    requires { AreTurnsSafe (act_turn body.now loops.now) (IsTurnSafe body.now loops.now) turns.from turns.end (state_of cells.old signals.now) }
    ensures after { turns.from ≤ result }
    ensures within { result ≤ max turns.from turns.end }
    ensures state { state_of cells.new signals.now ≡ turned (act_turn body.now loops.now) turns.from result (state_of cells.old signals.now) }
{
    if let Some(row) = row_copy(body, loops.len()) {
        row_turns(body, row, turns, loops, cells, signals);
        return turns.from.max(turns.end);
    }
    match plain_set(body, loops.len()) {
        Some(set) => match (set.target, set.value) {
            (Target::Element(_), Plain::Element(_)) => {
                plain_turns(body, &set, turns, loops, cells, signals)
            }
            (Target::Cell(_), Plain::Sum(_)) => {
                sum_turns(body, &set, turns, loops, cells, signals)
            }
            _ => turns.from,
        },
        None => turns.from,
    }
}
