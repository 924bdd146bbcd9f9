//! The samplers that are due get the values of their signals.

ghost use Rattle.std.specs.Prelude.{◌≡◌, ℕ, ◌<◌, ◌≤◌, List, length, Some, slice_get, true};
ghost use Rattle.std.specs.List.{count_by};
ghost use Rattle.tdf_convert.specs.Links.{AreLinks, AreRising, HaveSignals};
ghost use Rattle.tdf_convert.specs.Sampled.{AreByOffset, AreSampled};
ghost use Rattle.tdf_convert.specs.machine.Sampling.{AreSampledUpTo, sampled_by};
ghost use Rattle.tdf_fixed.specs.declared.raw.Raw.{Raw as RawOf};
ghost use Rattle.tdf_schedule.specs.declared.entry.Entry.{Entry as EntryOf};

use crate::inputs::Inputs;
use crate::links::{Link, Links, link_of};
use crate::near::{first_after, first_from};
use tdf_fixed::Raw;
use tdf_schedule::{Entry, Plan};

/// The value of an actor's signal goes to its place, where the actor is a sampler.
fn sample_one(actor: u32, links: &[Link], values: &[Raw], inputs: &mut Inputs)
    requires links { AreLinks links.now (length inputs.old) }
    requires signals { HaveSignals links.now (length values.now) }
    ensures { inputs.new ≡ sampled_by links.now values.now actor inputs.old }
{
    if let Some(link) = link_of(links, actor) {
        if link.sampler {
            inputs.set(link.place, values[link.signal as usize]);
        }
    }
}

/// The samplers of the entries from `low` up to `high` get the values of their signals.
fn sample_all(
    entries: &[Entry],
    low: usize,
    high: usize,
    links: &[Link],
    values: &[Raw],
    inputs: &mut Inputs,
)
    requires order { low ≤ high }
    requires bound { high ≤ length entries.now }
    requires links { AreLinks links.now (length inputs.old) }
    requires signals { HaveSignals links.now (length values.now) }
    ensures { AreSampledUpTo entries.now low high links.now values.now inputs.old inputs.new }
{
    for i in low..high {
        sample_one(entries[i].actor, links, values, inputs);
    }
}

/// Whether these links have no sampler: then at no offset of any plan is anything sampled.
#[inline(always)]
pub fn sample_nothing(links: &Links) -> bool
    ensures { result ≡ true → (entries : List EntryOf) (offset : ℕ) (values inputs : List RawOf)
        → AreSampled entries offset links.now.list.items values inputs inputs }
{
    links.list.is_empty()
}

/// Sets each sampler with an entry of this offset to its signal's value; these entries are looked for at a place first. It takes
/// no memory and is never refused.
pub fn sample_due(
    plan: &Plan,
    place: usize,
    offset: u64,
    links: &Links,
    values: &[Raw],
    inputs: &mut Inputs,
)
    requires sorted { AreByOffset plan.now.entries.items }
    requires links { AreLinks links.now.list.items (length inputs.old) }
    requires signals { HaveSignals links.now.list.items (length values.now) }
    ensures { AreSampled plan.now.entries.items offset links.now.list.items values.now
        inputs.old inputs.new }
{
    if sample_nothing(links) {
        return;
    }
    let low = first_from(&plan.entries, place, offset);
    let high = first_after(&plan.entries, place, offset);
    if low < high {
        sample_all(&plan.entries, low, high, &links.list, values, inputs);
    }
}
