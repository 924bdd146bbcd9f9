//! The time from which rows are still to be written.

ghost use Rattle.std.specs.Prelude.{◌≡◌, IfSome, map};
ghost use Rattle.tdf_sim_resumed.specs.Starting.{least_within};
ghost use Rattle.tdf_sim_shown.specs.machine.Windows.{HasRoom, HaveRoom, first_missing};

use tdf_trace_states::Window;

/// The time of the first position in a window without a sample, where one lies below a time; else that time.
fn first_missing(window: Option<Window>, time: u64) -> u64
    requires room { IfSome window HasRoom }
    ensures { result ≡ first_missing time window }
{
    match window {
        None => time,
        Some(window) => {
            if window.known >= window.count {
                return time;
            }
            time.min(window.since + window.known * window.step)
        }
    }
}

/// The least of these times.
pub(crate) fn least_missing(windows: &[Option<Window>], time: u64) -> u64
    requires room { HaveRoom windows.now }
    ensures { result ≡ least_within time (map (first_missing time) windows.now) }
{
    let mut least = time;
    for k in 0..windows.len() {
        least = least.min(first_missing(windows[k], time));
    }
    least
}
