//! The actors in parts that edges join, one edge after the other.

use smallvec::SmallVec;
use std::marker::Model;

/// The actors of a part: one alone takes no memory of its own.
type Members = SmallVec<u32, 1>;

/// Actors in parts. Each part has a label, a number below the count of actors; callers see the label of each actor.
#[derive(Drop)]
pub struct Parts {
    labels: Vec<u32>,
    members: Vec<Members>,
}

impl Model for Parts {
    ghost use Rattle.std.specs.Prelude.{List, ℕ};
    ghost use Rattle.tdf_graph.specs.Parts.{HasMembers};

    ghost Value = { List ℕ };

    ghost view = { λ a. a.labels.items };

    ghost invariant = { λ a. HasMembers a.labels.items a.members.items };
}

ghost use Rattle.std.specs.Prelude.{◌≡◌, ◌≢◌, ◌<◌, [], ◌∷◌, length, vec_len, IfOk, slice_index};
ghost use Rattle.tdf_graph.specs.Parts.{AreAlone, IsRenamed, ListsPart, Merges, MovesFewer};
ghost use Rattle.tdf_graph.specs.views.Rows.{AreRows, AreWithin, IsRelabelled};

use std::alloc::Global;
use std::mem;
use tdf_base::Memory;

/// The numbers below `count`.
fn own_labels(alloc: Global, count: u32) -> Result<Vec<u32>, Memory>
    ensures { IfOk result (λ labels. AreAlone count labels.items) }
{
    let mut labels = Vec::with_capacity(alloc, count as usize)?;
    for actor in 0..count {
        labels.push(actor)?;
    }
    Ok(labels)
}

/// For each number below `count` the list of it alone.
fn own_members(alloc: Global, count: u32) -> Result<Vec<Members>, Memory>
    ensures { IfOk result (λ members. AreRows count members.items) }
{
    let mut members = Vec::with_capacity(alloc, count as usize)?;
    for actor in 0..count {
        members.push(SmallVec::from_buf(alloc, [actor]))?;
    }
    Ok(members)
}

/// Gives the label `kept` to the actors of a list.
fn relabel(labels: &mut Vec<u32>, list: &[u32], kept: u32)
    requires { AreWithin (length labels.old.items) list.now }
    ensures { IsRelabelled kept list.now labels.old.items labels.new.items }
{
    for actor in list {
        labels[*actor as usize] = kept;
    }
}

impl Parts {
    /// Each of `count` actors alone.
    ///
    /// # Errors
    /// Out of memory.
    pub fn new(alloc: Global, count: u32) -> Result<Parts, Memory>
        ensures { IfOk result (λ parts. AreAlone count parts) }
    {
        let labels = own_labels(alloc, count)?;
        let members = own_members(alloc, count)?;
        Ok(Parts { labels, members })
    }

    /// The label of an actor's part.
    pub fn label(&self, actor: u32) -> u32
        requires { actor < length self.now }
        ensures value { result ≡ slice_index self.now actor }
        ensures within { result < length self.now }
    {
        self.labels[actor as usize]
    }

    /// The actors of the part with a label, in some order.
    pub fn members(&self, label: u32) -> &[u32]
        requires { label < length self.now }
        ensures { ListsPart self.now label result.now }
    {
        self.members[label as usize].as_slice()
    }

    /// Gives the label `kept` to the actors with the label `gone`.
    fn rename(self, alloc: Global, gone: u32, kept: u32) -> Result<Parts, Memory>
        requires gone { gone < length self }
        requires kept { kept < length self }
        requires apart { gone ≢ kept }
        ensures { IfOk result (IsRenamed gone kept self) }
    {
        let mut labels = self.labels;
        let mut members = self.members;
        let moved = mem::replace(&mut members[gone as usize], SmallVec::new(alloc));
        members[kept as usize].extend_from_slice(moved.as_slice())?;
        relabel(&mut labels, moved.as_slice(), kept);
        drop(moved);
        Ok(Parts { labels, members })
    }

    /// Makes one part of the parts with two labels: the label of the one with more actors stays, and that of the first of two
    /// with as many.
    ///
    /// # Errors
    /// Out of memory.
    pub fn merge(self, alloc: Global, first: u32, second: u32) -> Result<Parts, Memory>
        requires first { first < length self }
        requires second { second < length self }
        requires apart { first ≢ second }
        ensures merged { IfOk result (Merges first second self) }
        ensures fewer { IfOk result (MovesFewer first second self) }
    {
        if self.members(first).len() < self.members(second).len() {
            self.rename(alloc, first, second)
        } else {
            self.rename(alloc, second, first)
        }
    }
}
