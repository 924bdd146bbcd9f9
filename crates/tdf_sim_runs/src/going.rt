//! From instant to instant.

use tdf_base::Fault;

/// Why a run goes no further.
#[derive(Drop)]
pub(crate) enum Ended {
    /// Nothing is due before the stop.
    Reached,
    /// The turns that are left are too few for the next instant.
    Spent,
    /// What the modules of a cluster ask for at a boundary has a fault.
    Stopped {
        /// The number of the cluster, from 1.
        cluster: u32,
        /// The first fault.
        fault: Fault,
    },
}

ghost use Rattle.std.specs.Global.{Box as BoxOf};
ghost use Rattle.std.specs.Prelude.{◌≡◌, ◌<◌, ◌≤◌, ◌+◌, ◌++◌, [], List, ℕ, false, None, Ok, IfOk, IfSome, OnErr, OnOk, Option, Some, length};
ghost use Rattle.tdf_base.specs.Limits.{time_end};
ghost use Rattle.tdf_sim_instants.specs.Engine.{HasBeenSpent, HasBeenStopped, HasHadInstant, IsEngineOf, IsReadyAt};
ghost use Rattle.tdf_sim_instants.specs.Times.{IsNextDue};
ghost use Rattle.tdf_sim_instants.specs.declared.crossing.Pass.{Pass as PassOf};
ghost use Rattle.tdf_sim_instants.specs.declared.crossing.Pass.TheVariants as pass;
ghost use Rattle.tdf_sim_runs.specs.News.{news_text};
ghost use Rattle.tdf_sim_runs.specs.declared.going.Ended.TheVariants as ended;
ghost use Rattle.tdf_base.specs.declared.faults.Fault.{Fault as FaultOf};
ghost use Rattle.tdf_bind_tables.specs.Ranges.{AreInRange};
ghost use Rattle.tdf_cluster_plans.specs.Groups.{AreTableGroups};
ghost use Rattle.tdf_sim_instants.specs.Below.{IsSoundFlat};
ghost use Rattle.tdf_events.specs.Kernel.{side_of};
ghost use Rattle.tdf_events.specs.Runnable.{IsRunnable};
ghost use Rattle.tdf_bind.specs.declared.model.Flat.{Flat as FlatModel};
ghost use Rattle.tdf_io.specs.Bytes.{AppendsFront};
ghost use Rattle.tdf_io.specs.Faults.{CountsSinkFaults, CountsTwoSinks};
ghost use Rattle.tdf_io.specs.declared.writing.SinkErr.TheVariants.{Failed};
ghost use Rattle.tdf_sim_runs.specs.Ending.{GoesToEnd, HandsPart, WritesPart};
ghost use Rattle.tdf_sim_runs.specs.Handing.{ComesHanding, ComesToStop, EndsHanding, HandsOn};
ghost use Rattle.tdf_sim_runs.specs.Running.{CanGoOn, RunGoesOn, IsDueNow, WritesFrontTo};
ghost use Rattle.tdf_sim_shown.specs.Below.{CanTake, ShowsInstant, clock_at};
ghost use Rattle.tdf_trace.specs.Stands.{IsStageAfter};
ghost use Rattle.tdf_trace.specs.Tracked.{AreSince};
ghost use Rattle.tdf_trace.specs.declared.stage.Stage.TheVariants.{Open};

use crate::laws::law_advancing;
use crate::news::push_news;
use crate::running::Running;
use crate::standing::law_standing;
use std::alloc::Global;
use tdf_base::Memory;
use tdf_bind::Flat;
use tdf_io::{Sink, SinkErr, put_all};
use tdf_sim_instants::{Engine, Pass, law_instant, law_one_answer};
use tdf_sim_shown::{Clock, Shown};

/// So many bytes of news are handed on at once.
const MANY_NEWS: usize = 65_536;

/// Shows what an instant gave.
#[inline(always)]
fn show(shown: &mut Shown, engine: &Engine, flat: &Flat, time: u64) -> Result<(), Memory>
    requires going { engine.now.kernel.spent ≡ false }
    requires take { CanTake flat.now (clock_at time engine.now.since.items engine.now.clusters.items)
        engine.now.outputs.traced engine.now.kernel.values shown.old }
    ensures shown { OnOk result (ShowsInstant flat.now
        (clock_at time engine.now.since.items engine.now.clusters.items)
        engine.now.outputs.traced engine.now.kernel.values shown.old shown.new) }
    ensures since { OnOk result (AreSince shown.old.trace.rows.upto shown.new.tracking.list) }
    ensures upto { shown.new.trace.rows.upto ≡ shown.old.trace.rows.upto }
    ensures stage { shown.new.trace.stage ≡ shown.old.trace.stage }
    ensures about { shown.new.trace.about ≡ shown.old.trace.about }
{
    let clock = Clock {
        time,
        since: &engine.since,
        clusters: &engine.clusters,
    };
    shown.take(flat, &clock, engine.traced(), engine.kernel.values())
}

impl Running {
    /// Goes on to the next time at which something is due, or to the stop.
    fn wait(&mut self, stop: u64)
        requires clocks { length self.old.engine.clusters.items ≤ length self.old.engine.since.items }
        requires going { self.old.engine.kernel.spent ≡ false }
        ensures rest { self.new ≡ record self.old { from = self.new.from } }
        ensures next { IsNextDue self.old.engine.clusters.items self.old.engine.since.items
            (side_of self.old.engine.kernel) stop self.new.from }
    {
        self.from = self.engine.next_time(stop);
    }

    /// The plans that the instant at its time brought are news.
    #[inline(always)]
    fn tell(&mut self, flat: &Flat) -> Result<(), Memory>
        requires range { AreInRange flat.now.tables }
        requires groups { AreTableGroups flat.now.tables self.old.engine.groups }
        ensures news { OnOk result (self.new.news.items ≡ self.old.news.items ++ news_text
            flat.now self.old.from self.old.engine.clusters.items self.old.engine.planned.items) }
        ensures rest { self.new ≡ record self.old { news = self.new.news } }
    {
        let engine = &self.engine;
        push_news(
            &mut self.news,
            flat,
            &engine.groups,
            self.from,
            &engine.clusters,
            &engine.planned,
        )
    }

    /// The instant at its time, and the plans that it brings.
    #[inline(always)]
    fn instant(&mut self, alloc: Global, flat: &Flat) -> Result<Pass, Memory>
        requires runnable { IsRunnable flat.now }
        requires sound { IsSoundFlat flat.now }
        requires engine { IsEngineOf flat.now self.old.engine }
        requires ready { IsReadyAt self.old.from self.old.engine }
        requires none { self.old.engine.outputs.traced ≡ [] }
        requires range { AreInRange flat.now.tables }
        requires early { self.old.from < time_end }
        ensures engine { result ≡ Ok pass.Done → IsEngineOf flat.now self.new.engine }
        ensures had { result ≡ Ok pass.Done → HasHadInstant flat.now self.old.from
            self.old.engine self.new.engine self.old.left self.new.left }
        ensures later { result ≡ Ok pass.Done → IsReadyAt (self.old.from + 1) self.new.engine }
        ensures spent { result ≡ Ok pass.Spent → HasBeenSpent flat.now self.old.from
            self.old.engine self.new.engine self.old.left }
        ensures stopped { (number : ℕ) (fault : BoxOf FaultOf)
            → result ≡ Ok (pass.Stopped number fault) → HasBeenStopped flat.now self.old.from number
            fault.value self.old.engine self.new.engine self.old.left }
        ensures news { IfOk result (λ pass. self.new.news.items ≡ self.old.news.items ++ news_text
            flat.now self.old.from self.new.engine.clusters.items self.new.engine.planned.items) }
        ensures rest { self.new ≡ record self.old {
          engine = self.new.engine;
          left = self.new.left;
          news = self.new.news;
        } }
    {
        let came = self.engine.instant(alloc, flat, self.from, &mut self.left);
        match came {
            Ok(Pass::Done) => match self.tell(flat) {
                Ok(()) => Ok(Pass::Done),
                Err(failed) => Err(failed),
            },
            Ok(ended) => match self.tell(flat) {
                Ok(()) => Ok(ended),
                Err(failed) => {
                    drop(ended);
                    Err(failed)
                }
            },
            Err(failed) => Err(failed),
        }
    }

    /// The instant at its time, and what its trace shows of it.
    #[inline(always)]
    fn step(&mut self, alloc: Global, flat: &Flat) -> Result<Pass, Memory>
        requires runnable { IsRunnable flat.now }
        requires can { CanGoOn flat.now self.old }
        requires due { IsDueNow self.old.engine self.old.from }
        requires early { self.old.from < time_end }
        ensures can { result ≡ Ok pass.Done → CanGoOn flat.now self.new }
        ensures goes { result ≡ Ok pass.Done → (taken : Option (List ℕ))
            → RunGoesOn flat.now self.old self.new [] taken taken }
        ensures after { result ≡ Ok pass.Done → self.new.from ≡ self.old.from + 1 }
        ensures stage { self.new.shown.trace.stage ≡ self.old.shown.trace.stage }
        ensures spent { result ≡ Ok pass.Spent → HasBeenSpent flat.now self.old.from
            self.old.engine self.new.engine self.old.left }
        ensures stopped { (number : ℕ) (fault : BoxOf FaultOf)
            → result ≡ Ok (pass.Stopped number fault) → HasBeenStopped flat.now self.old.from number
            fault.value self.old.engine self.new.engine self.old.left }
        ensures news { (ended : PassOf) → result ≡ Ok ended → (ended ≡ pass.Done → ⊥)
            → self.new.news.items ≡ self.old.news.items ++ news_text flat.now self.old.from
            self.new.engine.clusters.items self.new.engine.planned.items }
        ensures still { (ended : PassOf) → result ≡ Ok ended → (ended ≡ pass.Done → ⊥)
            → self.new ≡ record self.old {
              engine = self.new.engine;
              left = self.new.left;
              news = self.new.news;
            } }
    {
        law_advancing();
        law_instant();
        match self.instant(alloc, flat)? {
            Pass::Done => {}
            ended => return Ok(ended),
        }
        show(&mut self.shown, &self.engine, flat, self.from)?;
        self.engine.clear_traced();
        self.from += 1;
        Ok(Pass::Done)
    }

    /// Writes the rows that no later instant changes: those before the periods of all clusters.
    fn write<K: Sink>(&mut self, flat: &Flat, out: &mut K) -> Result<(), SinkErr>
        requires can { CanGoOn flat.now self.old }
        requires open { self.old.shown.trace.stage ≡ Open }
        ensures can { OnOk result (CanGoOn flat.now self.new) }
        ensures goes { OnOk result
            (RunGoesOn flat.now self.old self.new [] (K.taken out.old) (K.taken out.new)) }
        ensures part { OnErr result (WritesFrontTo flat.now self.old (K.taken out.old) (K.taken out.new)) }
        ensures same { self.new.from ≡ self.old.from }
        ensures stage { IsStageAfter result self.new.shown.trace.stage }
        ensures counted { CountsSinkFaults (K.faults out.old) (K.faults out.new) result }
    {
        law_standing();
        law_one_answer();
        let mark = self.engine.least_start(self.from);
        self.shown.trace.advance(mark, out)
    }

    /// Hands on its news, where there are many.
    fn hand_on<N: Sink>(&mut self, notes: &mut N) -> Result<(), SinkErr>
        ensures hands { OnOk result
            (HandsOn self.old self.new (N.taken notes.old) (N.taken notes.new)) }
        ensures part { OnErr result
            (AppendsFront (N.taken notes.old) (N.taken notes.new) self.old.news.items) }
        ensures counted { CountsSinkFaults (N.faults notes.old) (N.faults notes.new) result }
    {
        if self.news.len() < MANY_NEWS {
            return Ok(());
        }
        put_all(notes, &self.news)?;
        self.news.clear();
        Ok(())
    }

    /// The next instant before the stop, and the rows that no later one changes.
    fn turn<K: Sink>(
        &mut self,
        alloc: Global,
        flat: &Flat,
        stop: u64,
        out: &mut K,
    ) -> Result<Option<Ended>, SinkErr>
        requires runnable { IsRunnable flat.now }
        requires can { CanGoOn flat.now self.old }
        requires within { self.old.from ≤ stop }
        requires early { stop < time_end }
        requires open { self.old.shown.trace.stage ≡ Open }
        ensures can { result ≡ Ok None → CanGoOn flat.now self.new }
        ensures goes { result ≡ Ok None
            → RunGoesOn flat.now self.old self.new [] (K.taken out.old) (K.taken out.new) }
        ensures on { result ≡ Ok None → self.old.from < self.new.from }
        ensures within { result ≡ Ok None → self.new.from ≤ stop }
        ensures open { OnOk result (self.new.shown.trace.stage ≡ Open) }
        ensures ends { IfOk result (λ end. IfSome end
            (GoesToEnd flat.now stop self.old self.new [] (K.taken out.old) (K.taken out.new))) }
        ensures comes { result ≡ Ok (Some ended.Reached)
            → ComesToStop flat.now stop self.old self.new (K.taken out.old) (K.taken out.new) }
        ensures part { OnErr result (WritesPart flat.now stop self.old (K.taken out.old) (K.taken out.new)) }
        ensures counted { CountsSinkFaults (K.faults out.old) (K.faults out.new) result }
    {
        law_instant();
        law_one_answer();
        self.wait(stop);
        if self.from == stop {
            return Ok(Some(Ended::Reached));
        }
        match self.step(alloc, flat) {
            Ok(Pass::Done) => {}
            Ok(Pass::Spent) => return Ok(Some(Ended::Spent)),
            Ok(Pass::Stopped { cluster, fault }) => {
                let fault = Box::into_inner(fault);
                return Ok(Some(Ended::Stopped { cluster, fault }));
            }
            Err(_) => return Err(SinkErr::Memory),
        }
        self.write(flat, out)?;
        Ok(None)
    }

    /// Goes on to the stop, or as far as the turns that are left reach. It writes rows on `out`, and hands on news to `notes`; those
    /// that it holds at the end are few.
    pub(crate) fn go<K: Sink, N: Sink>(
        &mut self,
        alloc: Global,
        flat: &Flat,
        stop: u64,
        out: &mut K,
        notes: &mut N,
    ) -> Result<Ended, SinkErr>
        requires runnable { IsRunnable flat.now }
        requires can { CanGoOn flat.now self.old }
        requires within { self.old.from ≤ stop }
        requires early { stop < time_end }
        requires open { self.old.shown.trace.stage ≡ Open }
        ensures ends { IfOk result (EndsHanding flat.now stop self.old self.new
            (K.taken out.old) (K.taken out.new) (N.taken notes.old) (N.taken notes.new)) }
        ensures comes { result ≡ Ok ended.Reached → ComesHanding flat.now stop self.old self.new
            (K.taken out.old) (K.taken out.new) (N.taken notes.old) (N.taken notes.new) }
        ensures open { OnOk result (self.new.shown.trace.stage ≡ Open) }
        ensures part { OnErr result (WritesPart flat.now stop self.old (K.taken out.old) (K.taken out.new)) }
        ensures notes_part { OnErr result
            (HandsPart flat.now stop self.old (N.taken notes.old) (N.taken notes.new)) }
        ensures counts { CountsTwoSinks Failed (K.faults out.old) (K.faults out.new)
            (N.faults notes.old) (N.faults notes.new) result }
    {
        law_one_answer();
        loop {
            match self.turn(alloc, flat, stop, out) {
                Ok(None) => {}
                Ok(Some(ended)) => return Ok(ended),
                Err(error) => return Err(error),
            }
            if let Err(error) = self.hand_on(notes) {
                return Err(error);
            }
        }
    }
}
