//! The modules of a cluster say which changes of attributes they ask for.

use crate::moving::Kept;
use std::marker::Model;
use tdf_dynamic::Frames;

/// Room for the instances of the modules of a cluster, while they are asked; else it is empty.
#[derive(Drop)]
pub(crate) struct Spare {
    frames: Frames,
    rests: Vec<Kept>,
}

impl Model for Spare {
    ghost use Rattle.std.specs.Prelude.{◌≡◌, [], ℕ, min};
    ghost use Rattle.std.specs.Vec.{vec_capacity};

    ghost Value = { ℕ };

    ghost view = { λ a. min (vec_capacity a.frames.modules) (vec_capacity a.rests) };

    ghost invariant = { λ a. record {
      frames : a.frames.modules.items ≡ [];
      rests : a.rests.items ≡ [];
    } };
}

ghost use Rattle.std.specs.Prelude.{◌≡◌, ◌≤◌, ℕ, Contains, IfOk, length, Ok, OnErr};
ghost use Rattle.tdf_cluster_plans.specs.Groups.{AreTableGroups};
ghost use Rattle.tdf_dynamic.specs.Given.{IsOfText, IsPlanned};
ghost use Rattle.tdf_dynamic.specs.Next.{AnswersAsks, IsCarried};
ghost use Rattle.tdf_dynamic_plans.specs.Attributes.{clusters_of};
ghost use Rattle.tdf_dynamic_plans.specs.Known.{AreTrueFor};
ghost use Rattle.tdf_exec.specs.machine.Moving.{AreInstances, AreModules, HaveMoved, WhenTheyAsk, numbers_of};
ghost use Rattle.tdf_exec.specs.views.Actors.{with_runners};
ghost use Rattle.tdf_bind_invariants.specs.Limits.{AreWithinLimits};
ghost use Rattle.tdf_streams.specs.Periods.{AreAttributes};

use crate::actors::Actors;
use crate::moving::{put_back, take_out};
use std::alloc::Global;
use tdf_base::Memory;
use tdf_bind::Flat;
use tdf_cluster_plans::TableGroups;
use tdf_dynamic::{Next, next_plan};
use tdf_dynamic_plans::{Attrs, ChangeErr};

impl Spare {
    /// Room for so many modules.
    ///
    /// # Errors
    /// Out of memory.
    pub(crate) fn new(alloc: Global, count: usize) -> Result<Spare, Memory>
        ensures { IfOk result (λ spare. count ≤ spare) }
    {
        let modules = Vec::with_capacity(alloc, count)?;
        let rests = Vec::with_capacity(alloc, count)?;
        Ok(Spare {
            frames: Frames { modules },
            rests,
        })
    }

    /// The change bodies of the modules of a cluster run, and what they ask for is judged. The things of the model by cluster are given.
    ///
    /// # Errors
    /// The first fault, or out of memory.
    pub(crate) fn ask(
        &mut self,
        alloc: Global,
        flat: &Flat,
        groups: &TableGroups,
        cluster: u32,
        attrs: &mut Attrs,
        actors: &mut Actors,
    ) -> Result<Next, ChangeErr>
        requires limits { AreWithinLimits flat.now }
        requires text { IsOfText flat.now }
        requires groups { AreTableGroups flat.now.tables groups.now }
        requires has { Contains (clusters_of flat.now.tables) cluster }
        requires attributes { AreAttributes flat.now cluster attrs.old.rows }
        requires planned { IsPlanned flat.now.tables cluster attrs.old.rows }
        requires known { AreTrueFor flat.now.tables cluster attrs.old.known.plans }
        requires modules { AreModules (numbers_of attrs.old.rows) actors.old.runners }
        requires instances { AreInstances flat.now attrs.old.rows actors.old.runners }
        requires room { length attrs.old.rows ≤ self.old }
        ensures answer { WhenTheyAsk flat.now attrs.old.rows actors.old.runners (λ asks.
            AnswersAsks flat.now cluster asks attrs.old.rows attrs.new.rows result) }
        ensures kept { OnErr result (attrs.new.rows ≡ attrs.old.rows) }
        ensures carried { IfOk result (IsCarried flat.now.tables cluster attrs.old.known
            attrs.new.known) }
        ensures moved { WhenTheyAsk flat.now attrs.old.rows actors.old.runners (λ asks.
            HaveMoved flat.now asks attrs.old.rows actors.old.runners actors.new.runners) }
        ensures rest { actors.new ≡ with_runners actors.new.runners actors.old }
        ensures room { self.old ≤ self.new }
    {
        actors.places.law_apart();
        take_out(
            &attrs.rows,
            actors,
            &mut self.frames.modules,
            &mut self.rests,
        );
        let next = next_plan(alloc, flat, groups, cluster, attrs, &mut self.frames);
        put_back(
            &attrs.rows,
            actors,
            &mut self.frames.modules,
            &mut self.rests,
        );
        next
    }
}
