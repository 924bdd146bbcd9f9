//! What holds of the periods of a cluster: each function here only carries its clauses.

ghost use Rattle.tdf_sim_refinement.specs.Begun.{AllStartsAreAt, StartsAreAt};
ghost use Rattle.tdf_sim_refinement.specs.Boundary.{AnswersLead, BoundariesKeepAt, NewPeriodsAreWhole};

/// A cluster in progress that has just been made: it is what the history begins with.
pub fn law_start()
    ensures at { StartsAreAt }
    ensures all { AllStartsAreAt }
{}

/// A boundary of a cluster: what its modules ask for leads to what the answer tells, and the
/// cluster stays what the history says of it. Where there is a new plan, its record is that of a
/// whole period.
pub fn law_boundary()
    ensures leads { AnswersLead }
    ensures kept { BoundariesKeepAt }
    ensures new { NewPeriodsAreWhole }
{}
