//! What holds along a plan.

ghost use Rattle.tdf_schedule.specs.Laws.{PlansArePresent, BoundsAreNarrow, PlansAreUnique, BoundsAreUnique};

/// What an entry needs stands before it, and no edge holds more than a period beyond what it holds at first.
pub fn law_present()
    ensures present { PlansArePresent }
    ensures narrow { BoundsAreNarrow }
{}

/// A cluster has one plan, and each edge one bound.
pub fn law_plans()
    ensures plans { PlansAreUnique }
    ensures bounds { BoundsAreUnique }
{}
