//! What sinks got goes to their signals.

ghost use Rattle.std.specs.Prelude.{◌≡◌, ◌+◌, ◌≤◌, ◌++◌, [], length, map};
ghost use Rattle.tdf_convert.specs.Links.{AreRising};
ghost use Rattle.tdf_convert.specs.Emitted.{write_of_sent};

use crate::links::{Link, Links, link_of};
use crate::outputs::{Outputs, Sent};
use crate::writes::{SignalWrite, Writes};

/// The value of a sink, for its signal.
fn write_of(item: Sent, links: &[Link]) -> SignalWrite
    requires rising { AreRising links.now }
    ensures { result ≡ write_of_sent links.now item }
{
    let signal = match link_of(links, item.actor) {
        Some(link) => link.signal,
        None => 0,
    };
    SignalWrite {
        signal,
        value: item.value,
    }
}

/// The values of sinks, for their signals, in their order.
fn emit_all(sent: &[Sent], links: &[Link], writes: &mut Writes)
    requires rising { AreRising links.now }
    requires room { length writes.old.list + length sent.now ≤ writes.old.room }
    ensures { writes.new ≡ record writes.old {
      list = writes.old.list ++ map (write_of_sent links.now) sent.now;
    } }
{
    for i in 0..sent.len() {
        writes.put(write_of(sent[i], links));
    }
}

/// Moves the samples of sinks into `writes`, under the numbers of their signals, in their order. It takes no memory and
/// is never refused.
pub fn emit_due(outputs: &mut Outputs, links: &Links, writes: &mut Writes)
    requires rising { AreRising links.now.list.items }
    requires room { length writes.old.list + length outputs.old.sent ≤ writes.old.room }
    ensures moved { writes.new ≡ record writes.old {
      list = writes.old.list ++ map (write_of_sent links.now.list.items) outputs.old.sent;
    } }
    ensures left { outputs.new ≡ record outputs.old { sent = [] } }
{
    emit_all(outputs.sent(), &links.list, writes);
    outputs.clear_sent();
}
