//! The ports of one instance of a block: their samples, and what its bodies asked for.

use crate::spans::PortSpan;
use std::marker::Model;
use tdf_expr_state::Signals;

/// Where the samples of a port stand.
#[derive(Clone, Copy)]
pub(crate) struct Stretch {
    pub(crate) first: u32,
    pub(crate) count: u32,
}

/// Where the first sample of a port stands, and how many fraction bits its samples have.
#[derive(Clone, Copy)]
pub(crate) struct SamplePlace {
    pub(crate) first: u32,
    pub(crate) frac: u32,
}

/// The ports of an instance of a block, each with as many samples as its greatest rate, and what the bodies that ran
/// since `new` or `reset` asked for. Each sample is of its port's format.
#[derive(Drop)]
pub struct Ports {
    spans: Vec<PortSpan>,
    /// What a sample of a port needs of its span, by port.
    places: Vec<SamplePlace>,
    /// Where the samples stand that bodies write, port after port.
    written: Vec<Stretch>,
    pub(crate) signals: Signals,
}

impl Model for Ports {
    ghost use Rattle.std.specs.Prelude.{◌≡◌, map};
    ghost use Rattle.tdf_expr.specs.Frames.{PortsSeen, ArePortsFit};
    ghost use Rattle.tdf_expr.specs.machine.Zeroed.{sample_place, written_in};

    ghost Value = { PortsSeen };

    ghost view = { λ a. record { spans = a.spans.items; state = a.signals } };

    ghost invariant = { λ a. record {
      fit : ArePortsFit (record { spans = a.spans.items; state = a.signals });
      places : a.places.items ≡ map sample_place a.spans.items;
      written : a.written.items ≡ written_in a.spans.items;
    } };
}

ghost use Rattle.std.specs.Prelude.{◌≡◌, ℕ, ◌<◌, ◌≤◌, ◌+◌, is_some, length, map, replicate, slice_get, slice_set, slice_index_or, Some, None, true, false, pos, IfOk};
ghost use Rattle.tdf_events_queue.specs.Sets.{AreRisingFlags};
ghost use Rattle.tdf_expr.specs.Checked.{IsChecked};
ghost use Rattle.tdf_expr.specs.Frames.{ArePortsFit, IsOfFormat, is_written, reset_state};
ghost use Rattle.tdf_expr.specs.machine.Zeroed.{sample_place, written_in, zeroed, zeroed_one};
ghost use Rattle.tdf_expr.specs.Made.{block_count, port_spans_of, sample_count, event_count};
ghost use Rattle.tdf_expr.specs.declared.samples.Stretch.{Stretch as StretchOf};
ghost use Rattle.tdf_expr.specs.declared.spans.PortSpan.{PortSpan as PortSpanOf};
ghost use Rattle.tdf_fixed.specs.Cast.{fraction_of};
ghost use Rattle.tdf_expr_state.specs.State.{cell_at, standing};

use crate::checked::Checked;
use std::alloc::Global;
use tdf_base::Memory;
use tdf_fixed::Raw;
use tdf_lang_tree::PortKind;

/// Whether a body writes the samples of a port.
fn is_written(word: PortKind) -> bool
    ensures { result ≡ is_written word }
{
    match word {
        PortKind::Out => true,
        PortKind::DeOut => true,
        _ => false,
    }
}

/// What a sample of each port needs of its span.
///
/// # Errors
/// Out of memory.
#[tactic(auto, using(crate::proofs::Framed::place_laws))]
fn places_of(alloc: Global, spans: &[PortSpan]) -> Result<Vec<SamplePlace>, Memory>
    ensures { IfOk result (λ list. list.items ≡ map sample_place spans.now) }
{
    let mut list = Vec::new(alloc);
    for span in spans {
        let format = span.format;
        list.push(SamplePlace {
            first: span.first,
            frac: format.wl - format.iwl,
        })?;
    }
    Ok(list)
}

/// Where the samples stand that bodies write.
///
/// # Errors
/// Out of memory.
#[tactic(auto, using(crate::proofs::Framed::written_laws))]
fn written_in(alloc: Global, spans: &[PortSpan]) -> Result<Vec<Stretch>, Memory>
    ensures { IfOk result (λ list. list.items ≡ written_in spans.now) }
{
    let mut list = Vec::new(alloc);
    for span in spans {
        if is_written(span.word) {
            list.push(Stretch {
                first: span.first,
                count: span.count,
            })?;
        }
    }
    Ok(list)
}

/// Sets the samples of a stretch to 0.
#[inline(always)]
fn zero_one(signals: &mut Signals, stretch: Stretch)
    requires { stretch.first + stretch.count ≤ length signals.old.samples }
    ensures { signals.new ≡ zeroed_one stretch signals.old }
{
    signals.clear_samples(stretch.first as usize, stretch.count as usize);
}

/// Sets the samples of these stretches to 0.
#[inline(always)]
#[tactic(auto, using(crate::proofs::Framed::zero_laws))]
fn zero_all(signals: &mut Signals, stretches: &[Stretch])
    requires { (n : ℕ) (p : StretchOf) → slice_get stretches.now n ≡ Some p
        → p.first + p.count ≤ length signals.old.samples }
    ensures { signals.new ≡ zeroed stretches.now signals.old }
{
    for stretch in stretches {
        zero_one(signals, *stretch);
    }
}

impl Ports {
    /// The ports of the block of a number: all samples are 0, and nothing is asked for.
    ///
    /// # Errors
    /// Out of memory.
    pub fn new(alloc: Global, checked: &Checked, number: u32) -> Result<Ports, Memory>
        requires made { IsChecked checked.now }
        requires block { number < block_count checked.now }
        ensures spans { IfOk result (λ p. p.spans ≡ port_spans_of checked.now number) }
        ensures samples { IfOk result (λ p.
            p.state.samples ≡ replicate (sample_count checked.now number) (pos 0)) }
        ensures assigned { IfOk result (λ p. p.state.assigned ≡ replicate (length p.spans) false) }
        ensures notified { IfOk result (λ p.
            p.state.notified ≡ replicate (event_count checked.now number) None) }
        ensures steps { IfOk result (λ p. p.state.steps ≡ replicate (length p.spans + 1) None) }
        ensures accepts { IfOk result (λ p. p.state.accepts ≡ None) }
        ensures out_of_range { IfOk result (λ p. p.state.out_of_range ≡ false) }
    {
        let block = &checked.blocks[number as usize];
        let spans = Vec::from_slice(alloc, &block.ports.spans)?;
        let places = places_of(alloc, &spans)?;
        let written = written_in(alloc, &spans)?;
        let signals = Signals::new(alloc, block.ports.samples, spans.len() as u32, block.events)?;
        Ok(Ports {
            spans,
            places,
            written,
            signals,
        })
    }

    /// How many ports there are.
    pub fn ports(&self) -> usize
        ensures { result ≡ length self.now.spans }
    {
        self.spans.len()
    }

    /// At any time each port has its samples, and each sample is of its port's format. It does nothing: a caller calls it
    /// where a proof needs this. The invariant is known where a field is named.
    pub fn law_fit(&self)
        ensures { ArePortsFit self.now }
    {
        let _ = &self.spans;
    }

    /// A port: its word, its format, and how many samples it has.
    pub fn port(&self, port: u32) -> PortSpan
        requires { port < length self.now.spans }
        ensures { slice_get self.now.spans port ≡ Some result }
    {
        self.spans[port as usize]
    }

    /// Sample `i` of a port, at most its greatest rate.
    pub fn sample(&self, port: u32, i: u32) -> Raw
        requires port { port < length self.now.spans }
        requires sample { (p : PortSpanOf) → slice_get self.now.spans port ≡ Some p → i < p.count }
        ensures num { (p : PortSpanOf) → slice_get self.now.spans port ≡ Some p
            → result.num ≡ cell_at self.now.state.samples (p.first + i) }
        ensures frac { (p : PortSpanOf) → slice_get self.now.spans port ≡ Some p
            → result.frac ≡ fraction_of p.format }
    {
        let place = self.places[port as usize];
        Raw {
            num: self.signals.sample(place.first as usize + i as usize),
            frac: place.frac,
        }
    }

    /// Sets sample `i` of a port, from outside.
    pub fn set(&mut self, port: u32, i: u32, value: Raw)
        requires port { port < length self.old.spans }
        requires sample { (p : PortSpanOf) → slice_get self.old.spans port ≡ Some p → i < p.count }
        requires format { (p : PortSpanOf) → slice_get self.old.spans port ≡ Some p
            → IsOfFormat p.format value }
        ensures { (p : PortSpanOf) → slice_get self.old.spans port ≡ Some p
            → self.new ≡ record self.old {
              state = record self.old.state {
                samples = slice_set self.old.state.samples (p.first + i) value.num;
              };
            } }
    {
        let place = self.places[port as usize];
        self.signals
            .put_sample(place.first as usize + i as usize, value.num);
    }

    /// How an activation begins: the samples of `out` and `de_out` ports are 0, and nothing is asked for. It takes no memory.
    #[inline(always)]
    pub fn reset(&mut self)
        ensures { self.new ≡ record self.old { state = reset_state self.old.spans self.old.state } }
    {
        zero_all(&mut self.signals, &self.written);
        self.signals.clear_assigned();
        self.signals.clear_notified();
        self.signals.clear_steps();
        self.signals.clear_answers();
    }

    /// Whether a body assigned a sample of this port.
    pub fn assigned(&self, port: u32) -> bool
        requires { port < length self.now.spans }
        ensures { result ≡ slice_index_or self.now.state.assigned port false }
    {
        self.signals.is_assigned(port as usize)
    }

    /// The least time of the `notify` statements of an event that ran, 0 for a delta notification.
    pub fn notified(&self, event: u32) -> Option<u64>
        requires { event < length self.now.state.notified }
        ensures { result ≡ standing (slice_get self.now.state.notified event) }
    {
        self.signals.notified(event as usize)
    }

    /// The events that were notified, in rising order.
    pub fn notified_events(&self) -> &[u32]
        ensures { AreRisingFlags (map is_some self.now.state.notified) result.now }
    {
        self.signals.notified_events()
    }

    /// The last timestep that was given to the module (place 0) or to port `i` (place 1 + i).
    pub fn step(&self, place: u32) -> Option<u64>
        requires { place ≤ length self.now.spans }
        ensures { result ≡ standing (slice_get self.now.state.steps place) }
    {
        self.signals.step(place as usize)
    }

    /// The last accept (true) or reject (false).
    pub fn accepts(&self) -> Option<bool>
        ensures { result ≡ self.now.state.accepts }
    {
        self.signals.accepts()
    }

    /// Whether a `rate` statement gave a value that isn't allowed.
    pub fn out_of_range(&self) -> bool
        ensures { result ≡ self.now.state.out_of_range }
    {
        self.signals.out_of_range()
    }
}
