//! How bodies run.

ghost use Rattle.std.specs.Prelude.{◌≡◌, ◌∷◌, [], slice_get};
ghost use Rattle.tdf_expr.specs.Compiled.{act_of};
ghost use Rattle.tdf_expr.specs.Frames.{KeepsRead};
ghost use Rattle.tdf_expr.specs.machine.Parts.{IsSafePart, part_done};
ghost use Rattle.tdf_expr.specs.Made.{AreMadeFor};
ghost use Rattle.tdf_expr.specs.Runs.{Ran};
ghost use Rattle.tdf_expr_state.specs.State.{state_of};

use crate::blocks::Acts;
use crate::bodies::Body;
use crate::checked::Checked;
use crate::frames::Frame;
use crate::samples::Ports;
use tdf_expr_machine::{Act, run};
use tdf_expr_state::{Cells, Signals};

/// Runs the process of a number, if there is one.
fn run_process(list: &Vec<Act>, number: u32, cells: &mut Cells, signals: &mut Signals)
    requires { IsSafePart (slice_get list.now.items number) (state_of cells.old signals.old) }
    ensures frame { cells.new ≡ (part_done (slice_get list.now.items number) (state_of cells.old signals.old)).frame }
    ensures ports { signals.new ≡ (part_done (slice_get list.now.items number) (state_of cells.old signals.old)).ports }
{
    if let Some(act) = list.get(number as usize) {
        run(act, &[], cells, signals);
    }
}

/// Runs a body.
pub(crate) fn run_part(acts: &Acts, body: Body, cells: &mut Cells, signals: &mut Signals)
    requires { IsSafePart (act_of acts.now body) (state_of cells.old signals.old) }
    ensures frame { cells.new ≡ (part_done (act_of acts.now body) (state_of cells.old signals.old)).frame }
    ensures ports { signals.new ≡ (part_done (act_of acts.now body) (state_of cells.old signals.old)).ports }
{
    match acts {
        Acts::Module(initialize, processing, change, reinitialize) => match body {
            Body::Initialize => run(initialize, &[], cells, signals),
            Body::Processing => run(processing, &[], cells, signals),
            Body::Change => run(change, &[], cells, signals),
            Body::Reinitialize => run(reinitialize, &[], cells, signals),
            Body::Process(_) => {}
        },
        Acts::Processes(list) => match body {
            Body::Process(number) => run_process(list, number, cells, signals),
            _ => {}
        },
    }
}

/// Runs a body of the block of a number, over an instance that was made for this block. A body that the block doesn't
/// have changes nothing, and none writes a sample of an `in` or `de_in` port. It takes no memory and is never refused.
pub fn run_body(checked: &Checked, number: u32, body: Body, frame: &mut Frame, ports: &mut Ports)
    requires made { AreMadeFor checked.now number frame.old ports.old }
    ensures after { Ran checked.now number body (state_of frame.old.state ports.old.state)
        (state_of frame.new.state ports.new.state) }
    ensures frame { AreMadeFor checked.now number frame.new ports.new }
    ensures inputs { KeepsRead ports.old ports.new }
{
    let block = &checked.blocks[number as usize];
    run_part(&block.acts, body, &mut frame.cells, &mut ports.signals);
}
