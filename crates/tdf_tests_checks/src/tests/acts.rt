//! Compiled statements and expressions that are made by hand. Whole bodies are compiled and run in `instances`.

ghost use Rattle.std.specs.Prelude.{◌≡◌, ◌∷◌, [], pos};

use std::alloc::Global;
use std::test::Fail;
use tdf_base::Memory;
use tdf_expr_machine::{Act, Node, eval, run, sequence};
use tdf_expr_state::{Cells, Signals};

/// Runs two statements as one: rates are rejected, and then accepted.
///
/// # Errors
/// Out of memory.
fn run_both(alloc: Global, cells: &mut Cells, signals: &mut Signals) -> Result<(), Memory> {
    let acts = vec![in alloc; Act::Answer(false), Act::Answer(true)]?;
    match sequence(alloc, acts) {
        Ok(act) => {
            run(&act, &[], cells, signals);
            drop(act);
            Ok(())
        }
        Err(refused) => Err(refused),
    }
}

#[test]
fn sequences(rt: HostRuntime) -> Result<(), Fail> {
    let mut cells = Cells::new(Vec::new(rt.alloc()), Vec::new(rt.alloc()));
    let mut signals = Signals::new(rt.alloc(), 0, 0, 0)?;
    run_both(rt.alloc(), &mut cells, &mut signals)?;
    assert!(rt; signals.accepts() == Some(true));
    Ok(())
}

/// The value of cell 0 moved up by two bits, and the innermost loop variable.
///
/// # Errors
/// Out of memory.
fn sum(alloc: Global, cells: &Cells, signals: &Signals, turn: u32) -> Result<i128, Memory>
    requires { cells.now.cells ≡ pos 6 ∷ [] }
{
    let cell = Box::new(alloc, Node::Cell(0, 3))?;
    match Box::new(alloc, Node::Loop(0)) {
        Ok(variable) => {
            let sum = Node::Sum(cell, 2, variable, 0);
            let num = eval(&sum, cells, signals, &[turn]);
            drop(sum);
            Ok(num)
        }
        Err(refused) => {
            drop(cell);
            Err(Memory::from(refused))
        }
    }
}

#[test]
fn values(rt: HostRuntime) -> Result<(), Fail> {
    let cells = Cells::new(vec![in rt.alloc(); 6]?, Vec::new(rt.alloc()));
    let signals = Signals::new(rt.alloc(), 0, 0, 0)?;
    assert_eq!(rt; sum(rt.alloc(), &cells, &signals, 7)?, 31);
    Ok(())
}
