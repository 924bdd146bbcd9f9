//! From the end of a period to the next.

ghost use Rattle.std.specs.Prelude.{◌≡◌, ◌<◌, ℕ, All, IfOk, IsOk, None, Ok, OnErr, OnOk, Some, false, length, slice_get, true};
ghost use Rattle.tdf_cluster_plans.specs.Groups.{AreTableGroups};
ghost use Rattle.tdf_dynamic.specs.Next.{AnswersAsks, IsCarried};
ghost use Rattle.tdf_dynamic.specs.declared.next.Next.TheVariants.{Same};
ghost use Rattle.tdf_dynamic_plans.specs.Attributes.{AttrsOf};
ghost use Rattle.tdf_exec.specs.Cluster.{next_offset};
ghost use Rattle.tdf_exec.specs.Crossing.{CanInstall, CrossesFrom, HasBegunPeriod, HasCrossed, HasNoChanges, HoldHeads, StandsAfter, WhenItAsks, at_place};
ghost use Rattle.tdf_exec.specs.Made.{IsClusterOf};
ghost use Rattle.tdf_exec.specs.Starts.{IsSoundFlat};
ghost use Rattle.tdf_streams.specs.Places.{has_changes};

use crate::cluster::Cluster;
use crate::starting::law_laid;
use std::alloc::Global;
use tdf_base::Memory;
use tdf_bind::Flat;
use tdf_cluster_plans::TableGroups;
use tdf_dynamic::Next;
use tdf_dynamic_plans::{ChangeErr, ModuleAttrs};

/// Whether a module of a table has a body that changes attributes.
fn has_changes(flat: &Flat, rows: &[ModuleAttrs]) -> bool
    requires { All (λ a. a.number < length flat.now.tables.modules) rows.now }
    ensures none { result ≡ false → (i : ℕ) (a : AttrsOf) → slice_get rows.now i ≡ Some a
        → has_changes flat.now.tables.modules a.number ≡ false }
    ensures some { result ≡ true → (i : ℕ) × (a : AttrsOf) × (slice_get rows.now i ≡ Some a)
        × (has_changes flat.now.tables.modules a.number ≡ true) }
{
    for i in 0..rows.len() {
        let row = &rows[i];
        if flat.tables.modules[row.number as usize].changes {
            return true;
        }
    }
    false
}

impl Cluster {
    /// The end of a period: the change bodies of the modules run, in order, and what they ask for is judged. Where no module
    /// differs it takes no memory, and the next period has the same plan; the table has the flags that were said. The things of the
    /// model by cluster are given.
    ///
    /// # Errors
    /// The first fault of the new table, or out of memory. Then, too, the cluster has crossed.
    pub fn boundary(
        &mut self,
        alloc: Global,
        flat: &Flat,
        groups: &TableGroups,
    ) -> Result<Next, ChangeErr>
        requires sound { IsSoundFlat flat.now }
        requires groups { AreTableGroups flat.now.tables groups.now }
        requires of { IsClusterOf flat.now self.old }
        requires done { next_offset self.old ≡ None }
        requires open { self.old.crossed ≡ false }
        ensures answer { WhenItAsks flat.now self.old (λ asks. AnswersAsks flat.now
            self.old.number asks self.old.table self.new.table result) }
        ensures kept { OnErr result (self.new.table ≡ self.old.table) }
        ensures carried { IfOk result (IsCarried flat.now.tables self.old.number self.old.known
            self.new.known) }
        ensures heads { HoldHeads flat.now.tables self.old }
        ensures crossed { HasCrossed self.old self.new }
        ensures crosses { CrossesFrom flat.now self.old self.new }
        ensures of { IfOk result (CanInstall flat.now self.new) }
        ensures still { HasNoChanges flat.now.tables self.old.number → (result ≡ Ok Same)
            × (self.new ≡ at_place self.old self.old.place true) }
    {
        law_laid();
        self.crossed = true;
        if !has_changes(flat, self.attrs.rows()) {
            return Ok(Next::Same);
        }
        let number = self.number;
        let actors = &mut self.actors;
        self.spare
            .ask(alloc, flat, groups, number, &mut self.attrs, actors)
    }

    /// Begins the next period with the answer of the boundary. With the same plan it takes no memory. With a new one each edge
    /// keeps its samples and has room for its new bound, and the reinitialize bodies of the modules run, in order.
    ///
    /// # Errors
    /// Out of memory; then nothing changes.
    pub fn install(&mut self, alloc: Global, flat: &Flat, next: Next) -> Result<(), Memory>
        requires sound { IsSoundFlat flat.now }
        requires crossed { self.old.crossed ≡ true }
        requires can { CanInstall flat.now self.old next }
        ensures ok { next ≡ Same → IsOk result }
        ensures begun { OnOk result (HasBegunPeriod self.old next self.new) }
        ensures heads { OnOk result (HoldHeads flat.now.tables self.new) }
        ensures of { OnOk result (IsClusterOf flat.now self.new) }
        ensures stands { OnOk result (StandsAfter flat.now next self.old self.new) }
        ensures err { OnErr result (self.new ≡ self.old) }
    {
        law_laid();
        match next {
            Next::Same => {
                self.place = 0;
                self.crossed = false;
                Ok(())
            }
            Next::Changed(attrs, plan) => self.begin_new(alloc, flat, attrs, plan),
        }
    }
}
