//! Lists of numbers, by actor.

use crate::key::Links;
use std::marker::Model;

/// A list of numbers for each actor.
#[derive(Drop)]
pub(crate) struct Lists {
    rows: Vec<Links>,
}

impl Model for Lists {
    ghost use Rattle.std.specs.Prelude.{List, ℕ};

    ghost Value = { List (List ℕ) };

    ghost view = { λ a. a.rows.items };
}

ghost use Rattle.std.specs.Prelude.{◌≡◌, ◌<◌, ◌++◌, ◌∷◌, [], length, replicate, slice_set, IfOk, OnOk};
ghost use Rattle.tdf_schedule.specs.views.Work.{links_at};

use std::alloc::Global;
use tdf_base::Memory;

/// Empty lists.
fn no_rows(alloc: Global, count: usize) -> Result<Vec<Links>, Memory>
    ensures { IfOk result (λ rows. rows.items ≡ replicate count []) }
{
    let mut rows = Vec::with_capacity(alloc, count)?;
    for _ in 0..count {
        rows.push(Links::new(alloc))?;
    }
    Ok(rows)
}

impl Lists {
    /// An empty list for each of `count` actors.
    pub(crate) fn new(alloc: Global, count: usize) -> Result<Lists, Memory>
        ensures { IfOk result (λ lists. lists ≡ replicate count []) }
    {
        Ok(Lists {
            rows: no_rows(alloc, count)?,
        })
    }

    /// The list of an actor.
    pub(crate) fn list(&self, actor: u32) -> &[u32]
        requires { actor < length self.now }
        ensures { result.now ≡ links_at self.now actor }
    {
        self.rows[actor as usize].list()
    }

    /// Adds a number to an actor's list.
    pub(crate) fn add(&mut self, actor: u32, number: u32) -> Result<(), Memory>
        requires { actor < length self.old }
        ensures { OnOk result (self.new ≡ slice_set self.old actor (links_at self.old actor ++ number ∷ [])) }
    {
        self.rows[actor as usize].push(number)
    }
}
