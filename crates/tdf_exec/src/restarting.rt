//! The next period with a new plan, and how the modules begin again.

ghost use Rattle.std.specs.Prelude.{◌≡◌, ◌<◌, ℕ, length, OnErr, OnOk, Some, slice_get, slice_index, true};
ghost use Rattle.tdf_dynamic_plans.specs.Attributes.{RowsStandOnce};
ghost use Rattle.tdf_dynamic_plans.specs.Rates.{AreRates, net_of};
ghost use Rattle.tdf_exec.specs.Crossing.{IsReadyFor};
ghost use Rattle.tdf_exec.specs.Starts.{IsSoundFlat};
ghost use Rattle.tdf_exec.specs.declared.runners.Runner.{Runner as RunnerOf};
ghost use Rattle.tdf_exec.specs.machine.Restarting.{AreRestarted, CanRestart, HasReplaced, HasRestarted, IsRestarted};
ghost use Rattle.tdf_exec.specs.machine.Tracing.{AreNumbered, with_rates};
ghost use Rattle.tdf_exec.specs.views.Actors.{with_runners};
ghost use Rattle.tdf_expr.specs.Made.{AreMadeFor};
ghost use Rattle.tdf_rings.specs.Carried.{ring_at};
ghost use Rattle.tdf_streams.specs.Periods.{read_rates, write_rates};

use crate::actors::Actors;
use crate::cluster::Cluster;
use crate::runners::{ModuleRunner, Runner};
use crate::starting::law_laid;
use crate::tracing::rate_ports;
use std::alloc::Global;
use std::mem;
use tdf_base::Memory;
use tdf_bind::Flat;
use tdf_bind_tables::FlatTables;
use tdf_cluster_plans::{set_firings, set_own_rates};
use tdf_dynamic::begin;
use tdf_dynamic_plans::Attrs;
use tdf_exec_firing::Edges;
use tdf_expr::{Body, Checked, run_body};
use tdf_schedule::Plan;

/// The ports of a module are set back, and its reinitialize body runs.
fn restart(checked: &Checked, runner: &mut ModuleRunner)
    requires { AreMadeFor checked.now runner.old.block runner.old.frame runner.old.ports }
    ensures { HasRestarted checked.now runner.old runner.new }
{
    let block = runner.rest.block;
    let instance = &mut *runner.instance;
    begin(&mut instance.ports);
    run_body(
        checked,
        block,
        Body::Reinitialize,
        &mut instance.frame,
        &mut instance.ports,
    );
}

/// The traced ports of a module get their rates under a table.
fn rate_module(tables: &FlatTables, attrs: &Attrs, runner: &mut ModuleRunner)
    requires rates { AreRates tables.now attrs.now.rows }
    requires once { RowsStandOnce attrs.now.rows }
    requires numbers { AreNumbered tables.now.ports runner.old.traced }
    ensures { runner.new ≡ with_rates tables.now attrs.now.rows runner.old }
{
    let rest = &mut *runner.rest;
    rate_ports(tables, attrs, &mut rest.traced);
}

/// An actor begins again under a table, if it is a module.
fn restart_runner(flat: &Flat, attrs: &Attrs, runner: &mut Runner)
    requires rates { AreRates flat.now.tables attrs.now.rows }
    requires once { RowsStandOnce attrs.now.rows }
    requires can { CanRestart flat.now runner.old }
    ensures { IsRestarted flat.now attrs.now.rows runner.old runner.new }
{
    match runner {
        Runner::Module(module) => {
            rate_module(&flat.tables, attrs, module);
            restart(&flat.checked, module);
        }
        Runner::Sampler(_) => {}
        Runner::Sink(_) => {}
        Runner::Outside => {}
    }
}

/// All actors begin again under a table, in order.
fn restart_all(flat: &Flat, attrs: &Attrs, runners: &mut Vec<Runner>)
    requires rates { AreRates flat.now.tables attrs.now.rows }
    requires once { RowsStandOnce attrs.now.rows }
    requires can { (m : ℕ) (r : RunnerOf) → slice_get runners.old.items m ≡ Some r
        → CanRestart flat.now r }
    ensures { AreRestarted flat.now attrs.now.rows runners.old.items runners.new.items }
{
    for i in 0..runners.len() {
        restart_runner(flat, attrs, &mut runners[i]);
    }
}

/// All actors of a cluster begin again under a table, in order.
fn restart_actors(flat: &Flat, attrs: &Attrs, actors: &mut Actors)
    requires rates { AreRates flat.now.tables attrs.now.rows }
    requires once { RowsStandOnce attrs.now.rows }
    requires can { (m : ℕ) (r : RunnerOf) → slice_get actors.old.runners m ≡ Some r
        → CanRestart flat.now r }
    ensures restarted { AreRestarted flat.now attrs.now.rows actors.old.runners actors.new.runners }
    ensures rest { actors.new ≡ with_runners actors.new.runners actors.old }
{
    actors.places.law_apart();
    restart_all(flat, attrs, &mut actors.runners);
}

/// The edges of a cluster get their rates under a table. Those that have no room have the rates 1 under it.
fn set_rates(flat: &Flat, attrs: &Attrs, edges: &mut Edges)
    requires rates { AreRates flat.now.tables attrs.now.rows }
    requires all { length edges.old.rings ≡ length flat.now.tables.edges }
    requires others { (e : ℕ) → e < length edges.old.rings
        → (ring_at edges.old.rings e).capacity ≡ 0
        → (slice_index (read_rates (net_of flat.now.tables attrs.now.rows)) e ≡ 1)
        × (slice_index (write_rates (net_of flat.now.tables attrs.now.rows)) e ≡ 1) }
    ensures { edges.new ≡ record {
      reads = read_rates (net_of flat.now.tables attrs.now.rows);
      writes = write_rates (net_of flat.now.tables attrs.now.rows);
      rings = edges.old.rings;
    } }
{
    edges.places.law_apart();
    set_own_rates(
        &flat.tables,
        attrs.rows(),
        edges.places.numbers(),
        &mut edges.reads,
        &mut edges.writes,
    );
}

impl Cluster {
    /// The next period begins with a new table and plan: the rings keep their samples, and the modules begin again in order.
    /// Things of other clusters aren't looked at.
    ///
    /// # Errors
    /// Out of memory; then nothing changes.
    pub(crate) fn begin_new(
        &mut self,
        alloc: Global,
        flat: &Flat,
        attrs: Attrs,
        plan: Plan,
    ) -> Result<(), Memory>
        requires sound { IsSoundFlat flat.now }
        requires crossed { self.old.crossed ≡ true }
        requires ready { IsReadyFor flat.now self.old attrs plan }
        ensures ok { OnOk result (HasReplaced flat.now self.old attrs plan self.new) }
        ensures err { OnErr result (self.new ≡ self.old) }
    {
        law_laid();
        if let Err(failed) = self.edges.carry(alloc, &plan.bounds) {
            drop(attrs);
            drop(plan);
            return Err(failed);
        }
        restart_actors(flat, &attrs, &mut self.actors);
        set_rates(flat, &attrs, &mut self.edges);
        set_firings(&self.counted, &plan.entries, &mut self.firings);
        let left = mem::replace(&mut self.attrs, attrs);
        self.attrs.recycle(left);
        self.plan = plan;
        self.place = 0;
        self.crossed = false;
        Ok(())
    }
}
