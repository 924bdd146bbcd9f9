//! What holds of the definitions.

ghost use Rattle.tdf_balance.specs.Laws.{SolutionsAreMultiples, CountsAreUnique, AnswersExclude};

/// On a part, each solution of the balance equations is a multiple of the least one; a cluster has one list of counts; the
/// fault of an edge, too many firings and counts exclude each other.
pub fn law_counts()
    ensures multiples { SolutionsAreMultiples }
    ensures unique { CountsAreUnique }
    ensures apart { AnswersExclude }
{}
