//! How often a plan is made in a run, which rates are in force after it, and the unit of its times.

ghost use Rattle.std.specs.Prelude.{◌<◌, ◌^◌};

use std::alloc::Global;
use std::test::Fail;
use tdf_base::Resolution;
use tdf_io::SureSink;
use tdf_sim::{Ran, elaborate};
use tdf_trace_rows::TraceKind;

/// A module whose rate goes from one to four at the first boundary, and back to one at the second.
const TEXT: &str =
    "language 1\ntype w fixed 16 16\ntdf vary\nout y w\nvar n w\nvar k w\nrate r 1 4 1\n\
    set_attributes\nrate y r\ntimestep 4us\ndoes_attribute_changes\nend\nprocessing\nfor i 0 r\n\
    y[i] = n\nn = n + 1\nend\nend\nchange_attributes\nk = k + 1\nif k == 1\nrate r = 4\nelse\n\
    rate r = 1\nend\nend\nend\ntdf lag\nin x w\nout y w\nset_attributes\ndelay x 3\n\
    accept_attribute_changes\nend\nprocessing\ny = x\nend\nend\ntop\nsignal s w\nsignal t w\n\
    instance a vary\ninstance b lag\nbind a.y s\nbind b.x s\nbind b.y t\nend\ntrace s s\n";

/// What a run of it up to a time in picoseconds leaves.
fn ran(alloc: Global, stop: u64) -> Option<Ran>
    requires { stop < 10 ^ 18 }
{
    let sim = elaborate(alloc, TEXT.as_bytes()).ok()?;
    let mut out = SureSink::new(alloc);
    let mut notes = SureSink::new(alloc);
    sim.run(alloc, stop, 1_000, TraceKind::Table, &mut out, &mut notes)
        .ok()
}

/// How often a plan was made for its cluster.
fn plannings_of(ran: &Ran) -> Option<u64> {
    Some(ran.clusters.get(0)?.attrs().plannings())
}

/// The rate of its first module that is in force.
fn rate_of(ran: &Ran) -> Option<u32> {
    let row = ran.clusters.get(0)?.attrs().rows().get(0)?;
    Some(*row.rates.get(0)?)
}

/// How often a plan was made for its cluster up to a time.
fn plannings(alloc: Global, stop: u64) -> Option<u64>
    requires { stop < 10 ^ 18 }
{
    let ran = ran(alloc, stop)?;
    let made = plannings_of(&ran);
    drop(ran);
    made
}

/// The rate of its first module that is in force at a time.
fn rate(alloc: Global, stop: u64) -> Option<u32>
    requires { stop < 10 ^ 18 }
{
    let ran = ran(alloc, stop)?;
    let rate = rate_of(&ran);
    drop(ran);
    rate
}

/// What one count of its times stands for, as the accepted model tells it.
fn unit(alloc: Global) -> Option<Resolution> {
    let sim = elaborate(alloc, TEXT.as_bytes()).ok()?;
    Some(sim.resolution())
}

/// The same, as its flat model tells it.
fn flat_unit(alloc: Global) -> Option<Resolution> {
    let sim = elaborate(alloc, TEXT.as_bytes()).ok()?;
    Some(sim.flat.resolution())
}

/// How many clusters its flat model has.
fn clusters(alloc: Global) -> Option<u32> {
    let sim = elaborate(alloc, TEXT.as_bytes()).ok()?;
    Some(sim.flat.cluster_count())
}

#[test]
fn known_plans_are_not_made_again(rt: HostRuntime) -> Result<(), Fail> {
    assert!(rt; plannings(rt.alloc(), 4_000_000) == Some(1));
    assert!(rt; plannings(rt.alloc(), 8_000_000) == Some(2));
    assert!(rt; plannings(rt.alloc(), 12_000_000) == Some(2));
    Ok(())
}

#[test]
fn rates_in_force_are_told(rt: HostRuntime) -> Result<(), Fail> {
    assert!(rt; rate(rt.alloc(), 4_000_000) == Some(1));
    assert!(rt; rate(rt.alloc(), 8_000_000) == Some(4));
    Ok(())
}

#[test]
fn times_have_a_unit(rt: HostRuntime) -> Result<(), Fail> {
    assert!(rt; unit(rt.alloc()) == Some(Resolution::Ps));
    assert!(rt; flat_unit(rt.alloc()) == Some(Resolution::Ps));
    Ok(())
}

#[test]
fn clusters_are_counted(rt: HostRuntime) -> Result<(), Fail> {
    assert!(rt; clusters(rt.alloc()) == Some(1));
    Ok(())
}
