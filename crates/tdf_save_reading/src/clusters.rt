//! Clusters of a saved text, read exactly.

ghost use Rattle.std.specs.List.{AllZip};
ghost use Rattle.std.specs.Prelude.{◌≡◌, ◌∷◌, [], IfErr, IfOk, IfSome, None, codes, decimal};
ghost use Rattle.tdf_save.specs.Members.{IsClusterFor, IsCount64};
ghost use Rattle.tdf_save.specs.Text.{saved_cluster, each_text, saved_line};
ghost use Rattle.tdf_save.specs.machine.Pieces.{Any};
ghost use Rattle.tdf_save_reading.specs.machine.Pieces.{IsPiece, IsStateRefusal, NoPiece};

use crate::lists::put;
use crate::modules::{read_edges, read_modules};
use crate::numbers::{cut_path, last_count};
use itoa::Buffer;
use std::alloc::Global;
use tdf_save::ClusterMembers;
use tdf_saved::{ClusterState, StateErr};

/// When the period of a cluster began.
fn read_start<'t>(number: u32, text: &'t [u8]) -> Option<(u64, &'t [u8])>
    ensures is { IfSome result (λ p.
        IsPiece (λ v. saved_line (codes "cluster") (decimal number ∷ (decimal v ∷ []))) IsCount64 Any
        text.entry.now p.0 p.1.now) }
    ensures none { result ≡ None
        → NoPiece (λ v. saved_line (codes "cluster") (decimal number ∷ (decimal v ∷ []))) IsCount64 Any text.entry.now }
{
    match cut_path(text, b"cluster", Buffer::new().format(number).as_bytes()) {
        Some(rest) => match last_count(rest) {
            Some((start, left)) => Some((start, left)),
            None => None,
        },
        None => None,
    }
}

/// The state of a cluster.
fn read_cluster<'t>(
    alloc: Global,
    member: &ClusterMembers,
    text: &'t [u8],
) -> Result<(ClusterState, &'t [u8]), StateErr>
    ensures is { IfOk result (λ p.
        IsPiece (saved_cluster member.now) (IsClusterFor member.now) Any text.entry.now p.0 p.1.now) }
    ensures refused { IfErr result (IsStateRefusal
        (NoPiece (saved_cluster member.now) (IsClusterFor member.now) Any text.entry.now)) }
{
    let Some((start, after)) = read_start(member.number, text) else {
        return Err(StateErr::Bad);
    };
    match read_modules(alloc, &member.modules, after) {
        Ok((modules, after)) => match read_edges(alloc, &member.edges, after) {
            Ok((edges, rest)) => Ok((
                ClusterState {
                    start,
                    modules,
                    edges,
                },
                rest,
            )),
            Err(why) => Err(why),
        },
        Err(why) => Err(why),
    }
}

/// The states of clusters.
pub(crate) fn read_clusters<'t>(
    alloc: Global,
    members: &[ClusterMembers],
    text: &'t [u8],
) -> Result<(Vec<ClusterState>, &'t [u8]), StateErr>
    ensures is { IfOk result (λ p. IsPiece (each_text saved_cluster members.now)
        (AllZip IsClusterFor members.now) Any text.entry.now p.0.items p.1.now) }
    ensures refused { IfErr result (IsStateRefusal
        (NoPiece (each_text saved_cluster members.now) (AllZip IsClusterFor members.now) Any text.entry.now)) }
{
    let mut list = Vec::new(alloc);
    let mut rest = text;
    for k in 0..members.len() {
        match read_cluster(alloc, &members[k], rest) {
            Ok((state, left)) => {
                put(&mut list, state)?;
                rest = left;
            }
            Err(why) => return Err(why),
        }
    }
    Ok((list, rest))
}
