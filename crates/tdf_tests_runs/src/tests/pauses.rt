//! A run that waits at a stop: what it has written there, its snapshot, and what it writes where it goes on.

ghost use Rattle.std.specs.Prelude.{◌<◌, IfSome};
ghost use Rattle.tdf_base.specs.Limits.{time_end};
ghost use Rattle.tdf_sim.specs.Ends.{IsPaused};

use std::alloc::Global;
use std::test::Fail;
use tdf_io::SureSink;
use tdf_sim::{Part, Paused, elaborate};
use tdf_trace_rows::TraceKind;

/// A ramp: its signal is 0 at time 0, and one more each microsecond.
const RAMP: &str =
    "language 1\ntype w fixed 16 16\ntdf ramp\nout y w\nvar n w\nset_attributes\ntimestep 1us\nend\n\
    processing\ny = n\nn = n + 1\nend\nend\ntop\nsignal s w\ninstance u ramp\nbind u.y s\nend\n\
    trace s s\n";

/// What a run of it told and wrote.
#[derive(Drop)]
struct Told {
    /// The time at which it waited, and that of its snapshot.
    times: (u64, u64),
    /// The turns that the snapshot has, those that were used first.
    turns: (u64, u64),
    /// The trace and the notes up to there.
    part: (SureSink, SureSink),
    /// Those after it.
    rest: (SureSink, SureSink),
}

/// A run of it that waits at a stop in picoseconds.
fn waiting(alloc: Global, stop: u64, out: &mut SureSink, notes: &mut SureSink) -> Option<Paused>
    requires { stop < time_end }
    ensures paused { IfSome result IsPaused }
{
    let Ok(sim) = elaborate(alloc, RAMP.as_bytes()) else {
        return None;
    };
    match sim.run_part(alloc, stop, 1_000, TraceKind::Table, out, notes) {
        Ok(part) => match part {
            Part::Paused(paused) => Some(paused),
            Part::Ended(_) => None,
        },
        Err(_) => None,
    }
}

/// A run of it that waits at a first stop and goes on to a second one, both in picoseconds.
fn run_in_two(alloc: Global, first: u64, second: u64) -> Option<Told>
    requires first { first < time_end }
    requires second { second < time_end }
{
    let mut out = SureSink::new(alloc);
    let mut notes = SureSink::new(alloc);
    let paused = waiting(alloc, first, &mut out, &mut notes)?;
    let time = paused.time();
    if second < time {
        return None;
    }
    let saved = paused.snapshot(alloc).ok()?;
    let mut late = SureSink::new(alloc);
    let mut closing = SureSink::new(alloc);
    paused.resume(alloc, second, &mut late, &mut closing).ok()?;
    Some(Told {
        times: (time, saved.time),
        turns: (saved.used, saved.budget),
        part: (out, notes),
        rest: (late, closing),
    })
}

#[test]
fn a_run_waits_and_goes_on(rt: HostRuntime) -> Result<(), Fail> {
    let told = run_in_two(rt.alloc(), 2_000_000, 3_000_000).expect(&rt, "a run that waits");
    assert!(rt; told.times == (2_000_000, 2_000_000));
    assert!(rt; told.turns == (3, 1_000));
    assert_eq!(rt;
        told.part.0.bytes(),
        b"%time s\n0 0\n0.000001 1\n".as_slice()
    );
    assert_eq!(rt;
        told.part.1.bytes(),
        b"cluster 1 at 0 period 0.000001 firings 1\nactor u count 1 step 0.000001\n".as_slice()
    );
    assert_eq!(rt; told.rest.0.bytes(), b"0.000002 2\n".as_slice());
    assert_eq!(rt; told.rest.1.bytes(), b"end 0.000003 turns 5\n".as_slice());
    Ok(())
}
