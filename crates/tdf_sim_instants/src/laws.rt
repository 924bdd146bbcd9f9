//! What holds of the definitions: each function here only carries its clauses.

ghost use Rattle.tdf_sim_instants.specs.CrossingLaws.{CrossingEndsSpent, CrossingEndsStopped, CrossingGoesAlong};
ghost use Rattle.tdf_sim_instants.specs.InstantLaws.{InstantEndsSpent, InstantEndsStopped, InstantGoesAlong};

use tdf_convert::law_by_offset;

/// The boundaries of all clusters at a time, in order of number, are those of the history, which is
/// told what each leads to.
pub fn law_crossing()
    ensures along { CrossingGoesAlong }
    ensures spent { CrossingEndsSpent }
    ensures stopped { CrossingEndsStopped }
{}

/// An instant of all that runs is that of the history, which is told what its boundaries lead to;
/// where the turns are too few, the history is spent, and where one leads to a fault, it ends with it.
pub fn law_instant()
    ensures along { InstantGoesAlong }
    ensures spent { InstantEndsSpent }
    ensures stopped { InstantEndsStopped }
{
    law_by_offset();
}
