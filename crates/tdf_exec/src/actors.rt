//! What a cluster has for its own actors, by places of their own.

use crate::runners::{Runner, fire_runner};
use std::marker::Model;
use tdf_places::Places;

/// What each actor of a cluster needs to fire, and how often each has fired, by the places of the actors. It is seen by the numbers of
/// the model: nothing is kept for an actor of another cluster, which never fires.
#[derive(Drop)]
pub(crate) struct Actors {
    pub(crate) places: Places,
    pub(crate) runners: Vec<Runner>,
    pub(crate) positions: Vec<u64>,
}

impl Model for Actors {
    ghost use Rattle.std.specs.Prelude.{◌≡◌, length};
    ghost use Rattle.tdf_exec.specs.declared.runners.Runner.TheVariants.{Outside};
    ghost use Rattle.tdf_exec.specs.views.Actors.{ActorsOf};
    ghost use Rattle.tdf_places.specs.Spread.{spread};

    ghost Value = { ActorsOf };

    ghost view = { λ a. record {
      places = a.places;
      runners = spread Outside a.places a.runners.items;
      positions = spread 0 a.places a.positions.items;
    } };

    ghost invariant = { λ a. record {
      runners_long : length a.runners.items ≡ length a.places.numbers;
      positions_long : length a.positions.items ≡ length a.places.numbers;
    } };
}

ghost use Rattle.std.specs.Prelude.{◌≡◌, ◌+◌, ◌-◌, ◌^◌, IfOk, IfSome, None, Some, length, min, replicate, slice_get, slice_set};
ghost use Rattle.tdf_cluster_net.specs.Numbers.{IsAmong};
ghost use Rattle.tdf_exec.specs.declared.runners.Runner.TheVariants as kept;
ghost use Rattle.tdf_exec.specs.declared.runners.Runner.{Runner as RunnerOf};
ghost use Rattle.tdf_exec.specs.machine.Fired.{CanGive, CanRun};
ghost use Rattle.tdf_exec.specs.views.Actors.{HasFiredOnce, kept_at, with_runners};
ghost use Rattle.tdf_exec_firing.specs.Edges.{with_rings};
ghost use Rattle.tdf_places.specs.Spread.{spread};

use std::alloc::Global;
use std::mem;
use tdf_base::Memory;
use tdf_convert::{Inputs, Outputs};
use tdf_exec_firing::Edges;
use tdf_expr::Checked;

/// One activation more, where the number is not the greatest that there is.
fn count_one(position: &mut u64)
    ensures { position.new ≡ min (position.old + 1) (2 ^ 64 - 1) }
{
    *position = position.saturating_add(1);
}

impl Actors {
    /// The actors of a cluster, none of which has fired, with what is kept for each, by place.
    ///
    /// # Errors
    /// Out of memory.
    pub(crate) fn of(alloc: Global, places: Places, runners: Vec<Runner>) -> Result<Actors, Memory>
        requires { length runners.items ≡ length places.numbers }
        ensures runners { IfOk result (λ actors. actors.runners
            ≡ spread kept.Outside places runners.items) }
        ensures none_done { IfOk result (λ actors. actors.positions ≡ replicate places.count 0) }
    {
        places.law_apart();
        let positions = vec![in alloc; 0; places.numbers().len()]?;
        Ok(Actors {
            places,
            runners,
            positions,
        })
    }

    /// What is kept for an actor; none where it is of another cluster.
    pub(crate) fn runner(&self, actor: u32) -> Option<&Runner>
        ensures found { IfSome result (λ runner. slice_get self.now.runners actor ≡ Some runner.now) }
        ensures none { result ≡ None → kept_at self.now.runners actor ≡ kept.Outside }
    {
        self.places.law_apart();
        match self.places.place(actor) {
            Some(place) => Some(&self.runners[place]),
            None => None,
        }
    }

    /// Keeps something else for an actor of the cluster, and gives what was kept.
    pub(crate) fn replace(&mut self, actor: u32, runner: Runner) -> Runner
        requires { IsAmong self.old.places.numbers actor }
        ensures was { slice_get self.old.runners actor ≡ Some result }
        ensures now { self.new ≡ with_runners (slice_set self.old.runners actor runner) self.old }
    {
        self.places.law_apart();
        let place = self.places.at(actor);
        mem::replace(&mut self.runners[place], runner)
    }

    /// One firing of an actor of the cluster, which is counted.
    pub(crate) fn fire(
        &mut self,
        checked: &Checked,
        inputs: &Inputs,
        actor: u32,
        edges: &mut Edges,
        outputs: &mut Outputs,
    )
        requires own { (r : RunnerOf) × (slice_get self.old.runners actor ≡ Some r)
            × (r ≡ kept.Outside → ⊥) }
        requires can { (r : RunnerOf) → slice_get self.old.runners actor ≡ Some r
            → CanRun checked.now inputs.now edges.old.reads edges.old.writes edges.old.rings r }
        requires gives { (r : RunnerOf) → slice_get self.old.runners actor ≡ Some r
            → CanGive r outputs.old }
        ensures fired { HasFiredOnce checked.now inputs.now actor edges.old edges.new.rings
            self.old self.new outputs.old outputs.new }
        ensures rest { edges.new ≡ with_rings edges.new.rings edges.old }
    {
        self.places.law_apart();
        let place = self.places.at(actor);
        let runner = &mut self.runners[place];
        fire_runner(checked, inputs, actor, runner, edges, outputs);
        count_one(&mut self.positions[place]);
    }
}
