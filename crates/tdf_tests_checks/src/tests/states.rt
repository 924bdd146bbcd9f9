//! Cells and signals.

ghost use Rattle.std.specs.Prelude.{◌≡◌, length};

use std::test::Fail;
use tdf_expr_state::{Cells, Signals};

#[test]
fn cells(rt: HostRuntime) -> Result<(), Fail> {
    let mut cells = Cells::new(vec![in rt.alloc(); 4, -5, 6]?, vec![in rt.alloc(); 1, 2]?);
    cells.set_cell(1, -9);
    cells.set_rate(0, 3);
    assert!(rt; cells.cells() == [4, -9, 6].as_slice());
    assert!(rt; cells.rates() == [3, 2].as_slice());
    assert!(rt; cells.cell(2) == 6 && cells.rate(1) == 2);
    Ok(())
}

/// Whether the first port alone is unassigned, and the samples are these.
fn has_samples(signals: &Signals) -> bool
    requires { length signals.now.assigned ≡ 2 }
{
    signals.samples() == [0, 8, 0, -7, 2].as_slice()
        && !signals.is_assigned(0)
        && signals.is_assigned(1)
}

/// Whether the least times and the last timesteps stand.
fn has_times(signals: &Signals) -> bool
    requires notified { length signals.now.notified ≡ 3 }
    requires steps { length signals.now.steps ≡ 3 }
{
    signals.notified(0) == Some(4)
        && signals.notified(1) == None
        && signals.notified(2) == Some(0)
        && signals.step(0) == Some(10)
        && signals.step(1) == None
        && signals.step(2) == Some(30)
}

/// Whether nothing is asked for, and the samples are these.
fn is_clear(signals: &Signals) -> bool
    requires assigned { length signals.now.assigned ≡ 2 }
    requires notified { length signals.now.notified ≡ 3 }
    requires steps { length signals.now.steps ≡ 3 }
{
    signals.samples() == [0, 0, 0, 0, 2].as_slice()
        && !signals.is_assigned(1)
        && signals.notified(0) == None
        && signals.step(2) == None
        && signals.accepts() == None
        && !signals.out_of_range()
}

/// What the statements of some bodies ask for, with the samples from outside.
fn ask(signals: &mut Signals)
    requires samples { length signals.old.samples ≡ 5 }
    requires assigned { length signals.old.assigned ≡ 2 }
    requires notified { length signals.old.notified ≡ 3 }
    requires steps { length signals.old.steps ≡ 3 }
    ensures samples { length signals.new.samples ≡ 5 }
    ensures assigned { length signals.new.assigned ≡ 2 }
    ensures notified { length signals.new.notified ≡ 3 }
    ensures steps { length signals.new.steps ≡ 3 }
{
    signals.put_sample(1, 8);
    signals.set_sample(1, 3, -7);
    signals.put_sample(4, 2);
    signals.notify(0, 9);
    signals.notify(0, 4);
    signals.notify(0, 6);
    signals.notify(2, 0);
    signals.set_step(0, 10);
    signals.set_step(2, 20);
    signals.set_step(2, 30);
    signals.answer(true);
    signals.answer(false);
    signals.mark_range_fault();
}

/// Everything is set back but the last sample.
fn clear(signals: &mut Signals)
    requires samples { length signals.old.samples ≡ 5 }
    requires assigned { length signals.old.assigned ≡ 2 }
    requires notified { length signals.old.notified ≡ 3 }
    requires steps { length signals.old.steps ≡ 3 }
    ensures assigned { length signals.new.assigned ≡ 2 }
    ensures notified { length signals.new.notified ≡ 3 }
    ensures steps { length signals.new.steps ≡ 3 }
{
    signals.clear_samples(0, 4);
    signals.clear_assigned();
    signals.clear_notified();
    signals.clear_steps();
    signals.clear_answers();
}

#[test]
fn signals(rt: HostRuntime) -> Result<(), Fail> {
    let mut signals = Signals::new(rt.alloc(), 5, 2, 3)?;
    ask(&mut signals);
    assert!(rt; has_samples(&signals) && has_times(&signals));
    assert!(rt; signals.accepts() == Some(false) && signals.out_of_range());
    clear(&mut signals);
    assert!(rt; is_clear(&signals));
    Ok(())
}
