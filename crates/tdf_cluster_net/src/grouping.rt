//! The numbers of the things of all clusters.

use std::marker::Model;

/// The numbers of some things, rising. Four of them take no memory of their own: few modules have more ports.
#[derive(Drop)]
struct Numbers {
    list: SmallVec<u32, 4>,
}

impl Model for Numbers {
    ghost use Rattle.std.specs.Prelude.{List, ℕ};

    ghost Value = { List ℕ };

    ghost view = { λ a. a.list.items };
}

/// For each cluster the numbers of the things that are in it.
#[derive(Drop)]
pub struct Groups {
    rows: Vec<Numbers>,
}

impl Model for Groups {
    ghost use Rattle.std.specs.Prelude.{List, ℕ};

    ghost Value = { List (List ℕ) };

    ghost view = { λ a. a.rows.items };
}

ghost use Rattle.std.specs.Prelude.{◌≡◌, ◌<◌, ◌≤◌, ◌++◌, ◌∷◌, ◌^◌, [], IfOk, OnOk, length, replicate, slice_index_or, slice_set};
ghost use Rattle.tdf_cluster_net.specs.Grouped.{AreGroups};
ghost use Rattle.tdf_cluster_net.specs.Numbers.{AllBelow};
ghost use Rattle.tdf_cluster_net.specs.views.Grouping.{AreGroupsUpTo};

use smallvec::SmallVec;
use std::alloc::Global;
use tdf_base::Memory;

impl Numbers {
    fn new(alloc: Global) -> Numbers
        ensures { result ≡ [] }
    {
        Numbers {
            list: SmallVec::new(alloc),
        }
    }

    fn put(&mut self, number: u32) -> Result<(), Memory>
        ensures { OnOk result (self.new ≡ self.old ++ number ∷ []) }
    {
        match self.list.push(number) {
            Ok(()) => Ok(()),
            Err(_) => Err(Memory),
        }
    }

    fn list(&self) -> &[u32]
        ensures { result.now ≡ self.now }
    {
        self.list.as_slice()
    }
}

/// No numbers for any of so many clusters.
fn no_rows(alloc: Global, count: usize) -> Result<Vec<Numbers>, Memory>
    ensures { IfOk result (λ rows. rows.items ≡ replicate count []) }
{
    let mut rows = Vec::with_capacity(alloc, count)?;
    for _ in 0..count {
        rows.push(Numbers::new(alloc))?;
    }
    Ok(rows)
}

/// A thing comes to its cluster.
fn put(rows: &mut Vec<Numbers>, cluster: u32, number: u32) -> Result<(), Memory>
    requires { cluster < length rows.old.items }
    ensures { OnOk result (rows.new.items ≡ slice_set rows.old.items cluster
        (slice_index_or rows.old.items cluster [] ++ number ∷ [])) }
{
    rows[cluster as usize].put(number)
}

impl Groups {
    /// The things by cluster: `of` has the cluster of each, below `count`.
    ///
    /// # Errors
    /// Out of memory.
    pub fn of(alloc: Global, count: usize, of: &[u32]) -> Result<Groups, Memory>
        requires few { length of.now < 2 ^ 32 }
        requires clusters { AllBelow count of.now }
        ensures { IfOk result (AreGroups count of.now) }
    {
        let mut rows = no_rows(alloc, count)?;
        for number in 0..of.len() as u32 {
            put(&mut rows, of[number as usize], number)?;
        }
        Ok(Groups { rows })
    }

    /// How many clusters there are.
    pub fn count(&self) -> usize
        ensures { result ≡ length self.now }
    {
        self.rows.len()
    }

    /// The numbers of the things in a cluster.
    pub fn group(&self, cluster: u32) -> &[u32]
        requires { cluster < length self.now }
        ensures { result.now ≡ slice_index_or self.now cluster [] }
    {
        self.rows[cluster as usize].list()
    }
}
