//! The steps of flat code, and how they run.

ghost use Rattle.std.specs.Prelude.{◌≡◌, IfSome, IsSome, None, pos};
ghost use Rattle.tdf_expr_flat.specs.Flat.{AreSafeSteps, IsFit, IsOperand, IsSafeStep, hand_of, operand_value, after_steps, after_step};
ghost use Rattle.tdf_expr_state.specs.State.{state_of};
ghost use Rattle.tdf_fixed.specs.Cast.{cast_of};

use tdf_expr_cuts::multiple;
use tdf_expr_state::{Cells, Signals};
use tdf_fixed::{Format, Raw, cast};

/// What a step reads: the number of a variable, of an element or of a sample at a fixed place, moved up by so many bits, or a
/// number by itself.
#[derive(Clone, Copy)]
pub enum Operand {
    Cell { place: u32, up: u32 },
    Sample { place: u32, up: u32 },
    Number(i64),
}

/// A cast of a number that has so many fraction bits into a format: it cuts so many last bits off where what is left lies
/// between the bounds, both of them included.
#[derive(Clone, Copy)]
pub struct Fit {
    pub frac: u32,
    pub format: Format,
    pub shift: u32,
    pub least: i64,
    pub most: i64,
}

/// A step, on a number in hand.
#[derive(Clone, Copy)]
pub enum Operation {
    /// The operand is taken in hand.
    Take(Operand),
    /// The operand is added to the number in hand.
    Add(Operand),
    /// The operand is taken from the number in hand.
    Subtract(Operand),
    /// The number in hand is multiplied by the operand.
    Multiply(Operand),
    /// The number in hand is cast into a cell, and stays in hand.
    PutCell { place: u32, fit: Fit },
    /// The number in hand is cast into a sample of a port, and stays in hand.
    PutSample { port: u32, place: u32, fit: Fit },
    /// An event is notified, to come after a time.
    Notify { event: u32, after: u64 },
}

/// The number of an operand.
#[inline(always)]
#[tactic(auto, using(crate::proofs::InOrder::operand_laws))]
fn value(operand: &Operand, cells: &Cells, signals: &Signals) -> i64
    requires { IsOperand operand.now (state_of cells.now signals.now) }
    ensures { result ≡ operand_value operand.now (state_of cells.now signals.now) }
{
    match operand {
        Operand::Cell { place, up } => multiple(cells.cell(*place as usize) as i64, *up),
        Operand::Sample { place, up } => multiple(signals.sample(*place as usize) as i64, *up),
        Operand::Number(num) => *num,
    }
}

/// The number without its last bits, where that is its cast.
#[inline(always)]
fn cut(num: i64, fit: &Fit) -> Option<i64>
    requires { IsFit num fit.now }
    ensures { IfSome result (λ kept. kept ≡ cast_of fit.now.format num fit.now.frac) }
{
    let kept = num >> fit.shift;
    if fit.least <= kept && kept <= fit.most {
        Some(kept)
    } else {
        None
    }
}

/// The cast of a number, in 128 bits.
#[cold]
#[inline(never)]
fn wide_fit(num: i64, fit: &Fit) -> i128
    requires { IsFit num fit.now }
    ensures { result ≡ cast_of fit.now.format num fit.now.frac }
{
    let num = i128::from(num);
    let value = Raw {
        num,
        frac: fit.frac,
    };
    cast(value, fit.format).num
}

/// One step, where it takes neither 128 bits nor a notification, and the number in hand after it; else none, and all is as it was.
#[inline(always)]
fn quick_step(
    operation: &Operation,
    number: i64,
    cells: &mut Cells,
    signals: &mut Signals,
) -> Option<i64>
    requires { IsSafeStep operation.now (hand_of number (state_of cells.old signals.old)) }
    ensures number { IfSome result (λ next. next
        ≡ (after_step operation.now (hand_of number (state_of cells.old signals.old))).number) }
    ensures frame { IsSome result → cells.new
        ≡ (after_step operation.now (hand_of number (state_of cells.old signals.old))).state.frame }
    ensures ports { IsSome result → signals.new
        ≡ (after_step operation.now (hand_of number (state_of cells.old signals.old))).state.ports }
    ensures none { result ≡ None → (cells.new ≡ cells.old) × (signals.new ≡ signals.old)
        × (number ≡ (after_step operation.now
        (hand_of number (state_of cells.old signals.old))).number) }
{
    match operation {
        Operation::Take(operand) => Some(value(operand, cells, signals)),
        Operation::Add(operand) => Some(number + value(operand, cells, signals)),
        Operation::Subtract(operand) => Some(number - value(operand, cells, signals)),
        Operation::Multiply(operand) => Some(number * value(operand, cells, signals)),
        Operation::PutCell { place, fit } => {
            let kept = cut(number, fit)?;
            cells.set_cell(*place as usize, i128::from(kept));
            Some(number)
        }
        Operation::PutSample { port, place, fit } => {
            let kept = cut(number, fit)?;
            signals.set_sample(*port as usize, *place as usize, i128::from(kept));
            Some(number)
        }
        Operation::Notify { .. } => None,
    }
}

/// What a step does to the values and to the ports, in 128 bits.
#[inline(always)]
fn long_step(operation: &Operation, number: i64, cells: &mut Cells, signals: &mut Signals)
    requires { IsSafeStep operation.now (hand_of number (state_of cells.old signals.old)) }
    ensures frame { cells.new
        ≡ (after_step operation.now (hand_of number (state_of cells.old signals.old))).state.frame }
    ensures ports { signals.new
        ≡ (after_step operation.now (hand_of number (state_of cells.old signals.old))).state.ports }
{
    match operation {
        Operation::PutCell { place, fit } => {
            cells.set_cell(*place as usize, wide_fit(number, fit));
        }
        Operation::PutSample { port, place, fit } => {
            signals.set_sample(*port as usize, *place as usize, wide_fit(number, fit));
        }
        Operation::Notify { event, after } => signals.notify(*event as usize, *after),
        _ => {}
    }
}

/// One step, and the number in hand after it.
#[inline(always)]
fn step(operation: &Operation, number: i64, cells: &mut Cells, signals: &mut Signals) -> i64
    requires { IsSafeStep operation.now (hand_of number (state_of cells.old signals.old)) }
    ensures number { result
        ≡ (after_step operation.now (hand_of number (state_of cells.old signals.old))).number }
    ensures frame { cells.new
        ≡ (after_step operation.now (hand_of number (state_of cells.old signals.old))).state.frame }
    ensures ports { signals.new
        ≡ (after_step operation.now (hand_of number (state_of cells.old signals.old))).state.ports }
{
    match quick_step(operation, number, cells, signals) {
        Some(next) => next,
        None => {
            long_step(operation, number, cells, signals);
            number
        }
    }
}

/// Runs steps, with a number in hand at first.
#[inline(never)]
#[tactic(auto, using(crate::proofs::InOrder::run_laws))]
fn run_steps(code: &[Operation], first: i64, cells: &mut Cells, signals: &mut Signals)
    requires { AreSafeSteps code.now (hand_of first (state_of cells.old signals.old)) }
    ensures frame { cells.new
        ≡ (after_steps code.now (hand_of first (state_of cells.old signals.old))).state.frame }
    ensures ports { signals.new
        ≡ (after_steps code.now (hand_of first (state_of cells.old signals.old))).state.ports }
{
    let mut number = first;
    for operation in code {
        number = step(operation, number, cells, signals);
    }
}

/// Runs flat code, with 0 in hand at first. It takes no memory.
///
/// The loop over quick steps makes no call, so it needs no frame; all from the first other step on is left to `run_steps`.
#[tactic(auto, using(crate::proofs::InOrder::run_laws))]
pub fn run_flat(code: &[Operation], cells: &mut Cells, signals: &mut Signals)
    requires { AreSafeSteps code.now (hand_of (pos 0) (state_of cells.old signals.old)) }
    ensures frame { cells.new
        ≡ (after_steps code.now (hand_of (pos 0) (state_of cells.old signals.old))).state.frame }
    ensures ports { signals.new
        ≡ (after_steps code.now (hand_of (pos 0) (state_of cells.old signals.old))).state.ports }
{
    let mut number = 0;
    for at in 0..code.len() {
        match quick_step(&code[at], number, cells, signals) {
            Some(next) => number = next,
            None => {
                run_steps(&code[at..], number, cells, signals);
                return;
            }
        }
    }
}
