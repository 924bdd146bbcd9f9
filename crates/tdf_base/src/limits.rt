//! The limits of models and of runs, each once by its name; `specs/Limits.antt` has the same, for clauses.

ghost use Rattle.std.specs.Prelude.{◌≡◌};
ghost use Rattle.tdf_base.specs.Limits.{all_limits};

/// Bytes of a model text.
pub const LONGEST_TEXT: usize = 1_048_576;
/// Bytes of a line.
pub const LONGEST_LINE: usize = 1_024;
/// Bytes of a name.
pub const LONGEST_NAME: usize = 64;
/// How deep `if` and `for` may nest.
pub const DEEPEST_NESTING: usize = 8;
/// Digits on one side of a number's point.
pub const MOST_DIGITS: usize = 18;
/// The least count of time that is too large.
pub const TIME_END: u64 = 1_000_000_000_000_000_000;
/// Samples that a port takes or gives in one firing; also the values of an array and the limit of a `for`.
pub const GREATEST_RATE: u64 = 4_096;
/// Samples that a port holds back.
pub const GREATEST_DELAY: u64 = 65_536;
/// Columns of a table.
pub const MOST_TRACES: usize = 94;
/// The weight of a body.
pub const HEAVIEST_BODY: u64 = 65_536;
/// Instances of a bound model.
pub const MOST_INSTANCES: usize = 1_024;
/// Ports of a bound model.
pub const MOST_PORTS: usize = 8_192;
/// Signals of a bound model.
pub const MOST_SIGNALS: usize = 8_192;
/// State cells of a bound model.
pub const MOST_CELLS: usize = 1_048_576;
/// Processes of a bound model.
pub const MOST_PROCESSES: usize = 8_192;
/// Events of a bound model.
pub const MOST_EVENTS: usize = 8_192;
/// Clusters of a bound model.
pub const MOST_CLUSTERS: usize = 64;
/// Firings in one period of a cluster.
pub const MOST_FIRINGS: u64 = 262_144;
/// Samples in the buffers of a cluster.
pub const MOST_SAMPLES: u64 = 1_048_576;

/// All limits, in the order of the definitions: each constant is the limit of its name.
pub fn all_limits() -> [u64; 19]
    ensures { result ≡ all_limits }
{
    [
        LONGEST_TEXT as u64,
        LONGEST_LINE as u64,
        LONGEST_NAME as u64,
        DEEPEST_NESTING as u64,
        MOST_DIGITS as u64,
        TIME_END,
        GREATEST_RATE,
        GREATEST_DELAY,
        MOST_TRACES as u64,
        HEAVIEST_BODY,
        MOST_INSTANCES as u64,
        MOST_PORTS as u64,
        MOST_SIGNALS as u64,
        MOST_CELLS as u64,
        MOST_PROCESSES as u64,
        MOST_EVENTS as u64,
        MOST_CLUSTERS as u64,
        MOST_FIRINGS,
        MOST_SAMPLES,
    ]
}
