//! The text of a snapshot with a line of each kind, written by hand.

ghost use Rattle.std.specs.Prelude.{◌≡◌, IfOk, length};

use std::alloc::Global;
use std::test::Fail;
use tdf_base::Memory;
use tdf_save::{BlockMembers, ClusterMembers, Members, ModuleMembers, push_snapshot, text_start};
use tdf_save_reading::read_snapshot;
use tdf_saved::{ClusterState, ColumnState, KernelState, ModuleState, Pending, Snapshot, Stamp};

const TEXT: &str = "saved 1\n\
kind vcd\n\
run 2000000 9 50\n\
cluster 3 1000000\n\
module top.u 1\n\
rates 2 1\n\
steps 0 500000 1000000\n\
cells\n\
edge top.s -4 7\n\
value top.e 5\n\
block top.b -1 2\n\
pending top.b tick 2500000\n\
column e 5\n\
sample 1000000 -6\n\
sample 1500000 5\n\
later 8\n\
text 6\n\
model\n";

fn list(alloc: Global, item: &[u8]) -> Result<Vec<Vec<u8>>, Memory>
    ensures { IfOk result (λ list. length list.items ≡ 1) }
{
    let mut list = Vec::new(alloc);
    list.push(Vec::from_slice(alloc, item)?)?;
    Ok(list)
}

fn num_list(alloc: Global, item: &[i128]) -> Result<Vec<Vec<i128>>, Memory> {
    let mut list = Vec::new(alloc);
    list.push(Vec::from_slice(alloc, item)?)?;
    Ok(list)
}

fn clusters_of(alloc: Global) -> Result<Vec<ClusterMembers>, Memory> {
    let mut modules = Vec::new(alloc);
    modules.push(ModuleMembers {
        path: Vec::from_slice(alloc, b"top.u")?,
        rates: 2,
        steps: 3,
        cells: 0,
    })?;
    let mut clusters = Vec::new(alloc);
    clusters.push(ClusterMembers {
        number: 3,
        modules,
        edges: list(alloc, b"top.s")?,
    })?;
    Ok(clusters)
}

fn members(alloc: Global) -> Result<Members, Memory>
    ensures { IfOk result (λ members. length members.events ≡ 1) }
{
    let mut blocks = Vec::new(alloc);
    blocks.push(BlockMembers {
        path: Vec::from_slice(alloc, b"top.b")?,
        cells: 2,
    })?;
    Ok(Members {
        clusters: clusters_of(alloc)?,
        values: list(alloc, b"top.e")?,
        blocks,
        events: list(alloc, b"top.b tick")?,
        columns: list(alloc, b"e")?,
    })
}

fn cluster_states(alloc: Global) -> Result<Vec<ClusterState>, Memory> {
    let mut modules = Vec::new(alloc);
    modules.push(ModuleState {
        accept: true,
        rates: Vec::from_slice(alloc, &[2, 1])?,
        steps: Vec::from_slice(alloc, &[0, 500_000, 1_000_000])?,
        cells: Vec::new(alloc),
    })?;
    let mut clusters = Vec::new(alloc);
    clusters.push(ClusterState {
        start: 1_000_000,
        modules,
        edges: num_list(alloc, &[-4, 7])?,
    })?;
    Ok(clusters)
}

fn kernel_state(alloc: Global) -> Result<KernelState, Memory> {
    Ok(KernelState {
        values: Vec::from_slice(alloc, &[5])?,
        blocks: num_list(alloc, &[-1, 2])?,
        pending: Vec::from_slice(
            alloc,
            &[Pending {
                event: 0,
                time: 2_500_000,
            }],
        )?,
    })
}

fn column_states(alloc: Global) -> Result<Vec<ColumnState>, Memory> {
    let mut samples = Vec::new(alloc);
    samples.push(Stamp {
        time: 1_000_000,
        num: -6,
    })?;
    samples.push(Stamp {
        time: 1_500_000,
        num: 5,
    })?;
    let mut columns = Vec::new(alloc);
    columns.push(ColumnState {
        carry: Some(5),
        samples,
        later: Vec::from_slice(alloc, &[8])?,
    })?;
    Ok(columns)
}

fn snapshot(alloc: Global) -> Result<Snapshot, Memory> {
    Ok(Snapshot {
        vcd: true,
        time: 2_000_000,
        used: 9,
        budget: 50,
        clusters: cluster_states(alloc)?,
        kernel: kernel_state(alloc)?,
        columns: column_states(alloc)?,
    })
}

/// Whether the snapshot's text is this, with the model's text from this place on.
fn written(alloc: Global, wanted: &[u8], place: usize) -> Option<bool> {
    let members = members(alloc).ok()?;
    let snapshot = snapshot(alloc).ok()?;
    let mut out = Vec::new(alloc);
    push_snapshot(&mut out, &members, b"model\n", &snapshot).ok()?;
    Some(out.as_slice() == wanted && text_start(&out) == Some(place))
}

/// Whether the text is read, and what was read is written as the same text.
fn read_back(alloc: Global, text: &[u8]) -> Option<bool> {
    let Ok(members) = members(alloc) else {
        return None;
    };
    let snapshot = read_snapshot(alloc, &members, text).ok()?;
    let mut out = Vec::new(alloc);
    push_snapshot(&mut out, &members, b"model\n", &snapshot).ok()?;
    Some(snapshot.budget == 50 && out.as_slice() == text)
}

#[test]
fn snapshots_are_written_and_read(rt: HostRuntime) -> Result<(), Fail> {
    assert!(rt; written(rt.alloc(), TEXT.as_bytes(), 241) == Some(true));
    assert!(rt; read_back(rt.alloc(), TEXT.as_bytes()) == Some(true));
    Ok(())
}
