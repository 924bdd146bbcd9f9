//! What holds of the definitions.

ghost use Rattle.tdf_bind_names.specs.Laws.{BindsAll, CountsAll, RefersBack};

/// Each instance is of a block before the one that it is in.
pub fn law_earlier()
    ensures { RefersBack }
{}

/// Where no `bind` and no `instance` line is at fault, and `top` has no port, all ports are bound.
pub fn law_bound()
    ensures { BindsAll }
{}

/// A model that is not too large has no more signals and instances than there may be.
pub fn law_counts()
    ensures { CountsAll }
{}
