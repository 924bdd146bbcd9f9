//! What may be wrong with a model, by a code and its printed word.

ghost use Rattle.std.specs.Prelude.{◌≡◌};
ghost use Rattle.tdf_base.specs.Fault.{word_of};

/// What is wrong with a model.
#[derive(Clone, Copy, Debug, PartialEq, Eq)]
pub enum Code {
    /// `BYTE`: a byte that no model text may have.
    Byte,
    /// `LONG_LINE`: a line that is too long.
    LongLine,
    /// `SYNTAX`: a line that has no form, or has it in the wrong place.
    Syntax,
    /// `DUPLICATE`: a name that its block has already.
    Duplicate,
    /// `UNKNOWN`: a name that is not declared.
    Unknown,
    /// `LIMIT`: a number outside its limits.
    Limit,
    /// `FORMAT`: word lengths that no format has.
    Format,
    /// `KIND`: a name of another kind than its place asks for.
    Kind,
    /// `INEXACT_LITERAL`: a number that is no binary fraction.
    InexactLiteral,
    /// `WIDE`: a value that needs too many bits.
    Wide,
    /// `WIDE_CAST`: a cast whose argument needs too many bits.
    WideCast,
    /// `INDEX`: an index that may lie outside its array or port.
    Index,
    /// `HEAVY`: a body that is too heavy.
    Heavy,
    /// `WRITERS`: a signal or cell with more than one writer.
    Writers,
    /// `UNKNOWN_PORT`: a port that the instance has not.
    UnknownPort,
    /// `TWICE_BOUND`: a port that is bound twice.
    TwiceBound,
    /// `MISMATCH`: a port and a signal of two formats.
    Mismatch,
    /// `UNBOUND`: a port that is not bound.
    Unbound,
    /// `TOO_MANY`: more parts than a bound model may have.
    TooMany,
    /// `NO_DRIVER`: a signal that nothing writes.
    NoDriver,
    /// `TWO_DRIVERS`: a signal that two ports write.
    TwoDrivers,
    /// `UNKNOWN_PATH`: a path that leads to no signal.
    UnknownPath,
    /// `CLUSTERS`: more clusters than a model may have.
    Clusters,
    /// `RATES`: rates that do not balance.
    Rates,
    /// `SIZE`: a period with too many firings or samples.
    Size,
    /// `NO_TIMESTEP`: a cluster without a timestep.
    NoTimestep,
    /// `DISAGREE`: two timesteps that disagree.
    Disagree,
    /// `TOO_LONG`: a period that is too long.
    TooLong,
    /// `INEXACT`: a timestep that is no whole count.
    Inexact,
    /// `BUFFERS`: buffers with too many samples.
    Buffers,
    /// `DEADLOCK`: a loop without enough delay.
    Deadlock,
    /// `NONCAUSAL`: a port that would be read before it is written.
    Noncausal,
    /// `RANGE`: a rate outside its range.
    Range,
    /// `REJECTED`: a change of attributes that a module rejects.
    Rejected,
}

impl Code {
    /// The printed word of this code, as `NO_TIMESTEP`.
    pub fn word(self) -> &'static [u8]
        ensures { result.now ≡ word_of self }
    {
        match self {
            Code::Byte => b"BYTE",
            Code::LongLine => b"LONG_LINE",
            Code::Syntax => b"SYNTAX",
            Code::Duplicate => b"DUPLICATE",
            Code::Unknown => b"UNKNOWN",
            Code::Limit => b"LIMIT",
            Code::Format => b"FORMAT",
            Code::Kind => b"KIND",
            Code::InexactLiteral => b"INEXACT_LITERAL",
            Code::Wide => b"WIDE",
            Code::WideCast => b"WIDE_CAST",
            Code::Index => b"INDEX",
            Code::Heavy => b"HEAVY",
            Code::Writers => b"WRITERS",
            Code::UnknownPort => b"UNKNOWN_PORT",
            Code::TwiceBound => b"TWICE_BOUND",
            Code::Mismatch => b"MISMATCH",
            Code::Unbound => b"UNBOUND",
            Code::TooMany => b"TOO_MANY",
            Code::NoDriver => b"NO_DRIVER",
            Code::TwoDrivers => b"TWO_DRIVERS",
            Code::UnknownPath => b"UNKNOWN_PATH",
            Code::Clusters => b"CLUSTERS",
            Code::Rates => b"RATES",
            Code::Size => b"SIZE",
            Code::NoTimestep => b"NO_TIMESTEP",
            Code::Disagree => b"DISAGREE",
            Code::TooLong => b"TOO_LONG",
            Code::Inexact => b"INEXACT",
            Code::Buffers => b"BUFFERS",
            Code::Deadlock => b"DEADLOCK",
            Code::Noncausal => b"NONCAUSAL",
            Code::Range => b"RANGE",
            Code::Rejected => b"REJECTED",
        }
    }
}
