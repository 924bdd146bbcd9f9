//! What holds of the definitions: each function here only carries its clause.

ghost use Rattle.tdf_convert.specs.Sampled.{PlansGoByOffset};

/// The entries of a plan go by offset.
pub fn law_by_offset()
    ensures { PlansGoByOffset }
{}
