//! What the kernel of a run tells after its stop: the values of the event signals, and the next time.

ghost use Rattle.std.specs.Prelude.{◌≡◌, ◌<◌, ℕ, IfSome, false};
ghost use Rattle.tdf_base.specs.Limits.{time_end};
ghost use Rattle.tdf_sim.specs.Runs.{IsSomeAccepted};
ghost use Rattle.tdf_sim_notes.specs.declared.ending.End.TheVariants.{Reached};

use std::alloc::Global;
use std::test::Fail;
use tdf_events::Kernel;
use tdf_fixed::Raw;
use tdf_io::SureSink;
use tdf_sim::{Ran, Sim, elaborate};
use tdf_sim_notes::End;
use tdf_trace_rows::TraceKind;

/// A process that runs every microsecond: its signal is 0 from time 0, 1 from 1 us, 2 from 2 us.
const TICK: &str =
    "language 1\ntype w fixed 16 16\nde tick\nde_out q w\nevent e\nvar n w\nprocess\nsensitive e\n\
    q = n\nn = n + 1\nnotify e after 1us\nend\nend\ntop\nde_signal q w\ninstance t tick\n\
    bind t.q q\nend\ntrace q q\n";

/// The kernel that a run left, where it reached its stop.
fn kernel_of(ran: Ran) -> Option<Kernel>
    requires { (time turns : ℕ) → ran.end ≡ Reached time turns → ran.kernel.spent ≡ false }
    ensures going { IfSome result (λ kernel. kernel.spent ≡ false) }
{
    let Ran {
        end,
        clusters,
        kernel,
    } = ran;
    drop(clusters);
    match end {
        End::Reached { .. } => Some(kernel),
        other => {
            drop(other);
            drop(kernel);
            None
        }
    }
}

/// The kernel that a run of this model leaves, where the run reaches its stop in picoseconds.
fn run_to(alloc: Global, sim: Sim, stop: u64) -> Option<Kernel>
    requires accepted { IsSomeAccepted sim }
    requires stop { stop < time_end }
    ensures going { IfSome result (λ kernel. kernel.spent ≡ false) }
{
    let mut out = SureSink::new(alloc);
    let mut notes = SureSink::new(alloc);
    let ran = sim.run(alloc, stop, 1_000, TraceKind::Table, &mut out, &mut notes);
    drop(out);
    drop(notes);
    match ran {
        Ok(ran) => kernel_of(ran),
        Err(error) => {
            drop(error);
            None
        }
    }
}

/// The same of the model above.
fn left(alloc: Global, stop: u64) -> Option<Kernel>
    requires { stop < time_end }
    ensures going { IfSome result (λ kernel. kernel.spent ≡ false) }
{
    match elaborate(alloc, TICK.as_bytes()) {
        Ok(sim) => run_to(alloc, sim, stop),
        Err(refused) => {
            drop(refused);
            None
        }
    }
}

/// What a kernel tells: the value of its first signal, and its next time.
fn told_by(kernel: &Kernel) -> Option<(Raw, u64)>
    requires { kernel.now.spent ≡ false }
{
    let value = *kernel.values().get(0)?;
    Some((value, kernel.next_time()?))
}

/// What it tells at a stop in picoseconds.
fn told(alloc: Global, stop: u64) -> Option<(Raw, u64)>
    requires { stop < time_end }
{
    match left(alloc, stop) {
        Some(kernel) => {
            let told = told_by(&kernel);
            drop(kernel);
            told
        }
        None => None,
    }
}

#[test]
fn a_kernel_goes_on_where_its_run_ended(rt: HostRuntime) -> Result<(), Fail> {
    let two = Raw { num: 2, frac: 0 };
    assert!(rt; told(rt.alloc(), 2_500_000) == Some((two, 3_000_000)));
    let three = Raw { num: 3, frac: 0 };
    assert!(rt; told(rt.alloc(), 4_000_000) == Some((three, 4_000_000)));
    Ok(())
}
