//! A snapshot, read from its text.

ghost use Rattle.std.specs.Prelude.{◌≡◌, ◌⊎◌, true, false, IfErr, IfOk, IsErrOf, Err, Ok};
ghost use Rattle.tdf_save.specs.Members.{AreNamesApart, IsSnapshotFor};
ghost use Rattle.tdf_save.specs.machine.Pieces.{IsNext};
ghost use Rattle.tdf_save_reading.specs.Reading.{IsSavedText};
ghost use Rattle.tdf_saved.specs.declared.err.StateErr.TheVariants.{Bad, Memory};
ghost use Rattle.tdf_save_reading.specs.machine.Heads.{IsModelPart, front_text};
ghost use Rattle.tdf_save_reading.specs.machine.Pieces.{IsPiece, IsStateRefusal, NoPiece};
ghost use Rattle.tdf_saved.specs.State.{SnapshotOf};

use crate::clusters::read_clusters;
use crate::columns::read_columns;
use crate::head::{Run, read_kind, read_run};
use crate::kernel::read_kernel;
use crate::numbers::{cut, last_count};
use std::alloc::Global;
use tdf_save::Members;
use tdf_saved::{ClusterState, ColumnState, KernelState, Snapshot, StateErr};

fn assembled(
    vcd: bool,
    head: Run,
    clusters: Vec<ClusterState>,
    kernel: KernelState,
    columns: Vec<ColumnState>,
) -> Snapshot
    ensures { result ≡ record {
      vcd = vcd;
      time = head.time;
      used = head.used;
      budget = head.budget;
      clusters = clusters.items;
      kernel = kernel;
      columns = columns.items;
    } }
{
    Snapshot {
        vcd,
        time: head.time,
        used: head.used,
        budget: head.budget,
        clusters,
        kernel,
        columns,
    }
}

/// A snapshot, and the rest of its text.
fn read_front<'t>(
    alloc: Global,
    members: &Members,
    bytes: &'t [u8],
) -> Result<(Snapshot, &'t [u8]), StateErr>
    requires apart { AreNamesApart members.now.events }
    ensures is { IfOk result (λ p.
        IsPiece (front_text members.now) (IsSnapshotFor members.now) IsNext bytes.entry.now p.0 p.1.now) }
    ensures refused { IfErr result (IsStateRefusal
        (NoPiece (front_text members.now) (IsSnapshotFor members.now) IsNext bytes.entry.now)) }
{
    let Some((vcd, after)) = read_kind(bytes) else {
        return Err(StateErr::Bad);
    };
    let Some((head, after)) = read_run(after) else {
        return Err(StateErr::Bad);
    };
    match read_clusters(alloc, &members.clusters, after) {
        Ok((clusters, after)) => match read_kernel(alloc, members, after) {
            Ok((kernel, after)) => match read_columns(alloc, &members.columns, after) {
                Ok((columns, rest)) => {
                    Ok((assembled(vcd, head, clusters, kernel, columns), rest))
                }
                Err(why) => {
                    drop(kernel);
                    drop(clusters);
                    Err(why)
                }
            },
            Err(why) => {
                drop(clusters);
                Err(why)
            }
        },
        Err(why) => Err(why),
    }
}

/// Whether a text is the line of a model's text, and the model's text.
fn is_model_part(text: &[u8]) -> bool
    ensures yes { result ≡ true → IsModelPart text.now }
    ensures no { result ≡ false → IsModelPart text.now → ⊥ }
{
    let Some(rest) = cut(text, b"text") else {
        return false;
    };
    match last_count(rest) {
        Some((size, model)) => size == model.len() as u64,
        None => false,
    }
}

/// The snapshot of a model with these members whose text the bytes are. The text of the model, with which they end, is not copied.
///
/// # Errors
/// `Bad` where they are the text of none, and out of memory.
pub fn read_snapshot(alloc: Global, members: &Members, bytes: &[u8]) -> Result<Snapshot, StateErr>
    requires apart { AreNamesApart members.now.events }
    ensures is { IfOk result (IsSavedText members.now bytes.now) }
    ensures fits { IfOk result (IsSnapshotFor members.now) }
    ensures bad { IsErrOf result Bad
        → (s : SnapshotOf) → IsSnapshotFor members.now s → IsSavedText members.now bytes.now s → ⊥ }
    ensures always { (s : SnapshotOf) → IsSnapshotFor members.now s
        → IsSavedText members.now bytes.now s → (result ≡ Ok s) ⊎ (result ≡ Err Memory) }
{
    match read_front(alloc, members, bytes) {
        Ok((snapshot, rest)) => {
            if is_model_part(rest) {
                return Ok(snapshot);
            }
            drop(snapshot);
            Err(StateErr::Bad)
        }
        Err(why) => Err(why),
    }
}
