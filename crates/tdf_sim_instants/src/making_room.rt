//! Room for what the entries of one offset of each cluster give.

ghost use Rattle.std.specs.Prelude.{◌≡◌, ◌+◌, [], IfOk, OnOk, length};
ghost use Rattle.tdf_sim_instants.specs.Engine.{AreRoomsBut};
ghost use Rattle.tdf_sim_instants.specs.machine.Making.{HasRoomSet, room_of, whole_room};

use std::alloc::Global;
use tdf_base::Memory;
use tdf_sim_refinement::{Cluster, Room};

/// A sum, if it has 32 bits.
fn sum(a: u32, b: u32) -> Result<u32, Memory>
    ensures { IfOk result (λ n. n ≡ a + b) }
{
    match a.checked_add(b) {
        Some(sum) => Ok(sum),
        None => Err(Memory),
    }
}

/// Both sums, if each has 32 bits.
fn both(a: Room, b: Room) -> Result<Room, Memory>
    ensures { IfOk result (λ room. room ≡ room_of (a.sent + b.sent) (a.traced + b.traced)) }
{
    let sent = sum(a.sent, b.sent)?;
    let traced = sum(a.traced, b.traced)?;
    Ok(Room { sent, traced })
}

/// How many samples come from one offset of each of these clusters, at most.
pub(crate) fn rooms_by(alloc: Global, clusters: &[Cluster]) -> Result<Vec<Room>, Memory>
    ensures { IfOk result (λ rooms. AreRoomsBut [] clusters.now rooms.items) }
{
    let mut rooms = Vec::new(alloc);
    for n in 0..clusters.len() {
        let room = clusters[n].room()?;
        rooms.push(room)?;
    }
    Ok(rooms)
}

/// The same anew for the cluster at a place, if there is one.
fn set_room(clusters: &[Cluster], n: usize, rooms: &mut Vec<Room>) -> Result<(), Memory>
    requires { length rooms.old.items ≡ length clusters.now }
    ensures { OnOk result (HasRoomSet n clusters.now rooms.old.items rooms.new.items) }
{
    if n >= clusters.len() {
        return Ok(());
    }
    let room = clusters[n].room()?;
    rooms[n] = room;
    Ok(())
}

/// The same anew for the clusters at these places, where it is known for all others.
pub(crate) fn set_rooms(
    clusters: &[Cluster],
    places: &[usize],
    rooms: &mut Vec<Room>,
) -> Result<(), Memory>
    requires { AreRoomsBut places.now clusters.now rooms.old.items }
    ensures { OnOk result (AreRoomsBut [] clusters.now rooms.new.items) }
{
    for k in 0..places.len() {
        set_room(clusters, places[k], rooms)?;
    }
    Ok(())
}

/// The sums of rooms.
pub(crate) fn whole_room(rooms: &[Room]) -> Result<Room, Memory>
    ensures { IfOk result (λ room. room ≡ whole_room rooms.now) }
{
    let mut room = Room { sent: 0, traced: 0 };
    for n in 0..rooms.len() {
        room = both(room, rooms[n])?;
    }
    Ok(room)
}
