//! The times of the samples of a signal.
ghost use Rattle.std.specs.Prelude.{◌≡◌, ◌+◌, ◌<◌, ◌^◌, []};
ghost use Rattle.tdf_trace_rows.specs.Positions.{span_of};
ghost use Rattle.tdf_trace_rows.specs.Stamping.{GivesNext, StampingGoesOn, IsStamping, TakesSpan, stamps_after};

/// The positions of a signal that have no time yet, in the period that has begun last: a sample gets the step of the period that
/// its position lies in, which for a delayed signal isn't the period that made it.
#[derive(Clone, Copy, Debug, PartialEq, Eq)]
pub struct Stamps {
    /// The time of the next position.
    pub time: u64,
    /// The step from a position to the next.
    pub step: u64,
    /// How many positions are left.
    pub left: u64,
}

impl Stamps {
    /// No period has begun.
    pub fn new() -> Stamps
        ensures none { IsStamping [] 0 result }
        ensures left { result.left ≡ 0 }
    {
        Stamps {
            time: 0,
            step: 0,
            left: 0,
        }
    }

    /// The time of the next position, which then has it.
    pub fn next(&mut self) -> u64
        requires left { 0 < self.old.left }
        requires small { self.old.time + self.old.step < 2 ^ 64 }
        ensures time { GivesNext self.old result }
        ensures on { StampingGoesOn self.old self.new }
        ensures result { result ≡ self.old.time }
        ensures next { self.new ≡ stamps_after self.old }
    {
        let time = self.time;
        self.time = time + self.step;
        self.left -= 1;
        time
    }

    /// A period begins, in which the signal has `count` positions; all those of the last one have their times.
    pub fn begin(&mut self, start: u64, step: u64, count: u64)
        requires none { self.old.left ≡ 0 }
        ensures took { TakesSpan (span_of start step count) self.old self.new }
        ensures fields { self.new ≡ record { time = start; step = step; left = count } }
    {
        self.time = start;
        self.step = step;
        self.left = count;
    }
}
