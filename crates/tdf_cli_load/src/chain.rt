//! The numbers of a seed, the kinds of its modules, and the levels between them.

ghost use Rattle.std.specs.Prelude.{◌≡◌, ◌<◌};
ghost use Rattle.tdf_cli_load.specs.Chain.{kind_at, level_after, next, word_of_kind};

/// The kind of a module, by the samples that it writes for those that it reads.
#[derive(Clone, Copy, Debug, PartialEq, Eq)]
pub(crate) enum Kind {
    /// One for each.
    Keep,
    /// Two for each.
    Up,
    /// One for two.
    Down,
}

/// The level of a signal of the chain: `up` makes it high, and `down` low.
#[derive(Clone, Copy, Debug, PartialEq, Eq)]
pub(crate) enum Level {
    /// Level 0, as behind the source.
    Low,
    /// Level 1.
    High,
}

impl Kind {
    /// The kind of a module with this number, where the level before it is this one.
    pub(crate) fn at(number: u64, level: Level) -> Kind
        ensures { result ≡ kind_at number level }
    {
        if number % 3 == 0 {
            return Kind::Keep;
        }
        match level {
            Level::Low => Kind::Up,
            Level::High => Kind::Down,
        }
    }

    /// The name of its block.
    pub(crate) fn word(self) -> &'static [u8]
        ensures { result.now ≡ word_of_kind self }
    {
        match self {
            Kind::Keep => b"keep",
            Kind::Up => b"up",
            Kind::Down => b"down",
        }
    }
}

impl Level {
    /// The level after a module of this kind.
    pub(crate) fn after(self, kind: Kind) -> Level
        ensures { result ≡ level_after self kind }
    {
        match kind {
            Kind::Keep => self,
            Kind::Up => Level::High,
            Kind::Down => Level::Low,
        }
    }
}

/// The number after this one.
pub(crate) fn next_number(number: u64) -> u64
    requires { number < 65537 }
    ensures value { result ≡ next number }
    ensures below { result < 65537 }
{
    (75 * number + 74) % 65537
}
