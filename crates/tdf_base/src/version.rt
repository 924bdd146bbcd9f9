//! The version of the language.

ghost use Rattle.std.specs.Prelude.{◌≡◌};
ghost use Rattle.tdf_base.specs.Version.{has_multiples, has_resolution, number_of_version};

/// A version of the language, as the first line of a text says it.
#[derive(Clone, Copy, Debug, PartialEq, Eq)]
pub enum Version {
    /// Version 1.
    V1,
    /// Version 2.
    V2,
    /// Version 3.
    V3,
}

impl Version {
    /// Its number, as a text says it.
    pub fn number(self) -> u64
        ensures { result ≡ number_of_version self }
    {
        match self {
            Version::V1 => 1,
            Version::V2 => 2,
            Version::V3 => 3,
        }
    }

    /// Whether it has multiples of loop and rate variables.
    #[tactic(auto, unfolding(crate::specs::Version::has_multiples))]
    pub fn has_multiples(self) -> bool
        ensures { result ≡ has_multiples self }
    {
        match self {
            Version::V1 => false,
            Version::V2 => true,
            Version::V3 => true,
        }
    }

    /// Whether a text of it may say its resolution of time.
    pub fn has_resolution(self) -> bool
        ensures { result ≡ has_resolution self }
    {
        match self {
            Version::V1 => false,
            Version::V2 => false,
            Version::V3 => true,
        }
    }
}
