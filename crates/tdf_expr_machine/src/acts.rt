//! Compiled statements, and how they run.

ghost use Rattle.std.specs.Prelude.{◌≡◌, ◌<◌, ◌≤◌, ◌^◌, ◌&&◌, IsTrue, length, nat_eq, nat_le, pos, take};
ghost use Rattle.tdf_expr_machine.specs.Acts.{AreTurns, IsSafeAct, acted, rate_within, turns_end, with_rate_of, act_turn, IsTurnSafe};
ghost use Rattle.tdf_expr_machine.specs.Turns.{AreTurnsSafe, turned};
ghost use Rattle.tdf_fixed.specs.Cast.{cast_of, fraction_of};
ghost use Rattle.tdf_expr_machine.specs.Nodes.{IsCastable, IsSafe, IsSpot, is_true, node_value, spot_place};
ghost use Rattle.tdf_expr_state.specs.State.{state_of, with_cell};

use crate::expressions::Expression;
use crate::nodes::{Node, Sight, eval};
use crate::numbers::low;
use crate::plain::{TurnRange, quick_turns};
use crate::spots::{Spot, place};
use tdf_expr_flat::{Operation, run_flat};
use tdf_expr_state::{Cells, Signals};
use tdf_fixed::Format;

/// Where a loop ends.
#[derive(Clone, Copy)]
pub enum Turns {
    Fixed(u32),
    /// A number times the value of the rate variable of this number.
    Times { factor: u32, rate: u32 },
}

/// The least and the greatest value of a rate variable.
#[derive(Clone, Copy)]
pub struct Bounds {
    pub least: u32,
    pub greatest: u32,
}

/// An expression, and the format that its value, which has so many fraction bits, is cast into.
#[derive(Drop)]
pub struct CastNode {
    pub value: Expression,
    pub frac: u32,
    pub format: Format,
}

/// A statement.
#[derive(Drop)]
pub enum Act {
    Skip,
    /// A value is cast into a cell.
    SetCell {
        spot: Spot,
        cast: CastNode,
    },
    /// A value is cast into a sample of this port.
    SetSample {
        port: u32,
        spot: Spot,
        cast: CastNode,
    },
    /// The value, which has so many fraction bits, goes into this rate variable if it is allowed there.
    SetRate {
        rate: u32,
        value: Node,
        frac: u32,
        bounds: Bounds,
    },
    /// The module (place 0) or a port (place 1 + its number) is given a timestep.
    SetStep {
        place: u32,
        step: u64,
    },
    /// An event is notified, to come after a time.
    Notify {
        event: u32,
        after: u64,
    },
    /// The rates are accepted or rejected.
    Answer(bool),
    If {
        test: Expression,
        yes: Box<Act>,
        no: Box<Act>,
    },
    /// The innermost loop variable runs from the number up to and not including the end.
    For {
        from: u32,
        turns: Turns,
        body: Box<Act>,
    },
    Seq(Box<Act>, Box<Act>),
    /// Assignments and notifications, one after another, as flat code.
    Flat(Vec<Operation>),
}

/// Whether a value without a rest lies within bounds.
fn is_rate(bounds: Bounds, whole: u128, rest: u128) -> bool
    ensures is { result ≡ (nat_eq rest 0 && (nat_le bounds.least whole && nat_le whole bounds.greatest)) }
    ensures small { IsTrue result → whole ≤ bounds.greatest }
{
    rest == 0 && u128::from(bounds.least) <= whole && whole <= u128::from(bounds.greatest)
}

/// As `rate_of`, of a number that isn't negative.
fn whole_rate(bounds: Bounds, frac: u32, num: u128) -> Option<u32>
    requires { frac ≤ 120 }
    ensures { result ≡ rate_within bounds frac (pos num) }
{
    let whole = num >> frac;
    if is_rate(bounds, whole, low(num, frac)) {
        Some(whole as u32)
    } else {
        None
    }
}

/// The rate `num / 2^frac`, where that is a whole number within bounds.
fn rate_of(bounds: Bounds, frac: u32, num: i128) -> Option<u32>
    requires { frac ≤ 120 }
    ensures { result ≡ rate_within bounds frac num }
{
    if num < 0 {
        return None;
    }
    whole_rate(bounds, frac, num as u128)
}

/// A rate variable gets its rate; one that isn't allowed is noted.
fn set_rate(number: u32, rate: Option<u32>, cells: &mut Cells, signals: &mut Signals)
    requires { number < length cells.old.rates }
    ensures frame { cells.new ≡ (with_rate_of number rate (state_of cells.old signals.old)).frame }
    ensures ports { signals.new ≡ (with_rate_of number rate (state_of cells.old signals.old)).ports }
{
    match rate {
        Some(value) => cells.set_rate(number as usize, value),
        None => signals.mark_range_fault(),
    }
}

/// Where a loop ends at these rates.
fn turns_end(turns: Turns, cells: &Cells) -> u32
    requires { AreTurns turns cells.now.rates }
    ensures { result ≡ turns_end turns cells.now.rates }
{
    match turns {
        Turns::Fixed(end) => end,
        Turns::Times { factor, rate } => factor * cells.rate(rate as usize),
    }
}

/// The loop variables, with room for more.
fn copied(loops: &[u32]) -> [u32; 8]
    requires { length loops.now < 8 }
    ensures { take (length loops.now) result ≡ loops.now }
{
    let mut all = [0; 8];
    for depth in 0..loops.len() {
        all[depth] = loops[depth];
    }
    all
}

/// The value of an expression is cast into a cell.
#[inline(never)]
fn assign(spot: Spot, cast: &CastNode, loops: &[u32], cells: &mut Cells, signals: &Signals)
    requires safe { IsSafe cast.now.value (state_of cells.old signals.now) loops.now }
    requires castable { IsCastable (node_value cast.now.value (state_of cells.old signals.now) loops.now) cast.now.frac (fraction_of cast.now.format) }
    requires spot { IsSpot spot loops.now × (spot_place spot loops.now < length cells.old.cells) }
    ensures { cells.new ≡ (with_cell (spot_place spot loops.now) (cast_of cast.now.format (node_value cast.now.value (state_of cells.old signals.now) loops.now) cast.now.frac) (state_of cells.old signals.now)).frame }
{
    let at = Sight {
        cells,
        signals,
        loops,
    };
    let num = cast.value.eval(cast.frac, &cast.format, &at);
    cells.set_cell(place(spot, loops), num);
}

/// The value of an expression, cast into its format.
#[inline(always)]
fn output(cast: &CastNode, loops: &[u32], cells: &Cells, signals: &Signals) -> i128
    requires safe { IsSafe cast.now.value (state_of cells.now signals.now) loops.now }
    requires castable { IsCastable (node_value cast.now.value (state_of cells.now signals.now) loops.now) cast.now.frac (fraction_of cast.now.format) }
    ensures { result ≡ cast_of cast.now.format (node_value cast.now.value (state_of cells.now signals.now) loops.now) cast.now.frac }
{
    let at = Sight {
        cells,
        signals,
        loops,
    };
    cast.value.eval(cast.frac, &cast.format, &at)
}

/// Whether an expression holds.
#[inline(always)]
fn is_met(test: &Expression, loops: &[u32], cells: &Cells, signals: &Signals) -> bool
    requires { IsSafe test.now (state_of cells.now signals.now) loops.now }
    ensures { result ≡ is_true (node_value test.now (state_of cells.now signals.now) loops.now) }
{
    let at = Sight {
        cells,
        signals,
        loops,
    };
    test.holds(&at)
}

/// Runs a statement at these loop variables, outermost first. It takes no memory. An assignment to a cell and flat code take no walk.
#[cycle(runs)]
#[inline(always)]
pub fn run(act: &Act, loops: &[u32], cells: &mut Cells, signals: &mut Signals)
    requires { IsSafeAct act.now loops.now (state_of cells.old signals.old) }
    ensures frame { cells.new ≡ (acted act.now loops.now (state_of cells.old signals.old)).frame }
    ensures ports { signals.new ≡ (acted act.now loops.now (state_of cells.old signals.old)).ports }
{
    match act {
        Act::SetCell { spot, cast } => assign(*spot, cast, loops, cells, signals),
        Act::Flat(code) => run_flat(code, cells, signals),
        _ => walk(act, loops, cells, signals),
    }
}

/// Runs a statement at each turn of a loop, inside these loop variables.
#[cycle(runs)]
#[inline(never)]
#[tactic(auto, using(crate::proofs::Runs::turn_laws))]
fn run_turns(
    body: &Act,
    from: u32,
    end: u32,
    loops: &[u32],
    cells: &mut Cells,
    signals: &mut Signals,
)
    requires room { length loops.now < 8 }
    requires safe { AreTurnsSafe (act_turn body.now loops.now) (IsTurnSafe body.now loops.now) from end (state_of cells.old signals.old) }
    ensures frame { cells.new ≡ (turned (act_turn body.now loops.now) from end (state_of cells.old signals.old)).frame }
    ensures ports { signals.new ≡ (turned (act_turn body.now loops.now) from end (state_of cells.old signals.old)).ports }
{
    let mut inner = copied(loops);
    for i in from..end {
        inner[loops.len()] = i;
        run(body, &inner[..=loops.len()], cells, signals);
    }
}

/// Runs a statement at each turn of a loop: the first turns without a walk over its tree, where its form allows that.
#[cycle(runs)]
#[inline(never)]
fn run_loop(
    body: &Act,
    from: u32,
    end: u32,
    loops: &[u32],
    cells: &mut Cells,
    signals: &mut Signals,
)
    requires room { length loops.now < 8 }
    requires safe { AreTurnsSafe (act_turn body.now loops.now) (IsTurnSafe body.now loops.now) from end (state_of cells.old signals.old) }
    ensures frame { cells.new ≡ (turned (act_turn body.now loops.now) from end (state_of cells.old signals.old)).frame }
    ensures ports { signals.new ≡ (turned (act_turn body.now loops.now) from end (state_of cells.old signals.old)).ports }
{
    let next = quick_turns(body, TurnRange { from, end }, loops, cells, signals);
    if next < end {
        run_turns(body, next, end, loops, cells, signals);
    }
}

/// Runs a statement by its form.
#[cycle(runs)]
#[inline(never)]
#[tactic(auto, using(crate::proofs::Runs::turn_laws))]
fn walk(act: &Act, loops: &[u32], cells: &mut Cells, signals: &mut Signals)
    requires { IsSafeAct act.now loops.now (state_of cells.old signals.old) }
    ensures frame { cells.new ≡ (acted act.now loops.now (state_of cells.old signals.old)).frame }
    ensures ports { signals.new ≡ (acted act.now loops.now (state_of cells.old signals.old)).ports }
{
    match act {
        Act::Skip => {}
        Act::SetCell { spot, cast } => assign(*spot, cast, loops, cells, signals),
        Act::SetSample { port, spot, cast } => {
            let num = output(cast, loops, cells, signals);
            signals.set_sample(*port as usize, place(*spot, loops), num);
        }
        Act::SetRate {
            rate,
            value,
            frac,
            bounds,
        } => {
            let found = rate_of(*bounds, *frac, eval(value, cells, signals, loops));
            set_rate(*rate, found, cells, signals);
        }
        Act::SetStep { place, step } => signals.set_step(*place as usize, *step),
        Act::Notify { event, after } => signals.notify(*event as usize, *after),
        Act::Answer(accepted) => signals.answer(*accepted),
        Act::If { test, yes, no } => {
            if is_met(test, loops, cells, signals) {
                run(yes, loops, cells, signals);
            } else {
                run(no, loops, cells, signals);
            }
        }
        Act::For { from, turns, body } => {
            let end = turns_end(*turns, cells);
            run_loop(body, *from, end, loops, cells, signals);
        }
        Act::Seq(first, second) => {
            run(first, loops, cells, signals);
            run(second, loops, cells, signals);
        }
        Act::Flat(code) => run_flat(code, cells, signals),
    }
}
