//! A list for each number.

use std::marker::Model;

/// One list.
#[derive(Drop)]
struct Row {
    list: Vec<u32>,
}

impl Model for Row {
    ghost use Rattle.std.specs.Prelude.{List, ℕ};

    ghost Value = { List ℕ };

    ghost view = { λ a. a.list.items };
}

/// A list of numbers for each number below a bound. Only [`Lists::new`] and [`Lists::add`] take memory.
#[derive(Drop)]
pub struct Lists {
    rows: Vec<Row>,
}

impl Model for Lists {
    ghost use Rattle.std.specs.Prelude.{List, ℕ};

    ghost Value = { List (List ℕ) };

    ghost view = { λ a. a.rows.items };
}

ghost use Rattle.std.specs.Prelude.{◌≡◌, ◌<◌, ◌++◌, ◌∷◌, [], IfOk, OnErr, OnOk, length, replicate, slice_set};
ghost use Rattle.tdf_events_queue.specs.Lists.{list_at};

use std::alloc::{AllocError, Global};

impl Row {
    fn new(alloc: Global) -> Row
        ensures { result ≡ [] }
    {
        Row {
            list: Vec::new(alloc),
        }
    }

    fn list(&self) -> &[u32]
        ensures { result.now ≡ self.now }
    {
        &self.list
    }

    fn add(&mut self, n: u32) -> Result<(), AllocError>
        ensures ok { OnOk result (self.new ≡ self.old ++ n ∷ []) }
        ensures err { OnErr result (self.new ≡ self.old) }
    {
        self.list.push(n)?;
        Ok(())
    }
}

/// Empty lists.
fn rows(alloc: Global, bound: u32) -> Result<Vec<Row>, AllocError>
    ensures { IfOk result (λ rows. rows.items ≡ replicate bound []) }
{
    let mut rows = Vec::new(alloc);
    for _ in 0..bound {
        rows.push(Row::new(alloc))?;
    }
    Ok(rows)
}

impl Lists {
    /// Empty lists for the numbers below a bound.
    ///
    /// # Errors
    /// Out of memory.
    pub fn new(alloc: Global, bound: u32) -> Result<Lists, AllocError>
        ensures { IfOk result (λ lists. lists ≡ replicate bound []) }
    {
        Ok(Lists {
            rows: rows(alloc, bound)?,
        })
    }

    /// The list of a number.
    pub fn at(&self, n: u32) -> &[u32]
        requires { n < length self.now }
        ensures { result.now ≡ list_at self.now n }
    {
        self.rows[n as usize].list()
    }

    /// Appends to the list of a number.
    ///
    /// # Errors
    /// Out of memory; then nothing changes.
    pub fn add(&mut self, n: u32, item: u32) -> Result<(), AllocError>
        requires { n < length self.old }
        ensures ok { OnOk result (self.new
            ≡ slice_set self.old n (list_at self.old n ++ item ∷ [])) }
        ensures err { OnErr result (self.new ≡ self.old) }
    {
        self.rows[n as usize].add(item)
    }
}
