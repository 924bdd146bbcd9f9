//! What holds of the definitions.

ghost use Rattle.tdf_sim.specs.Laws.{AnswersRunAlike, EarlyFaultOrFlat, EarlyFaultsAreOne, EarlyTextFaultOrFlat, EarlyTextFaultsAreOne, FaultOrAccepted, FaultsAreOne, FaultsOfPlansAreOne, FaultsOfTreesAreOne, ModelsAreAlike, PlansFaultOrPlans, RunsAreAlike, TreeFaultOrAccepted};

use tdf_bind_invariants::law_limits;
use tdf_dynamic_first::{law_numbers, law_one_plan, law_plannable};
use tdf_sim_unique::{law_alike, law_answers};

/// A text has at most one first fault, and with one it is not accepted.
pub fn law_first_fault()
    ensures one { FaultsAreOne }
    ensures apart { FaultOrAccepted }
{
    law_one_plan();
    law_numbers();
    law_plannable();
}

/// A tree that keeps what a spelled tree keeps has at most one first fault before its clusters are planned, and with one no flat
/// model; the same holds of a text and of its tree.
pub fn law_early_fault()
    ensures one { EarlyFaultsAreOne }
    ensures apart { EarlyFaultOrFlat }
    ensures one_of_text { EarlyTextFaultsAreOne }
    ensures text_apart { EarlyTextFaultOrFlat }
{}

/// So has a tree that keeps what a spelled tree keeps.
pub fn law_tree_fault()
    ensures one { FaultsOfTreesAreOne }
    ensures apart { TreeFaultOrAccepted }
{
    law_one_plan();
    law_numbers();
    law_plannable();
}

/// The clusters of a flat model have at most one first fault, and with one not each has a plan.
pub fn law_plans_fault()
    ensures one { FaultsOfPlansAreOne }
    ensures apart { PlansFaultOrPlans }
{
    law_one_plan();
    law_numbers();
}

/// Two models of one tree have the same tables, and for each cluster the same attributes and the same plan.
pub fn law_one_model()
    ensures { ModelsAreAlike }
{
    law_one_plan();
    law_numbers();
    law_plannable();
}

/// A run of either of two models of one tree writes the same, and ends alike, whichever answers of its boundaries it is told.
pub fn law_one_run()
    ensures models { RunsAreAlike }
    ensures answers { AnswersRunAlike }
{
    law_one_model();
    law_alike();
    law_answers();
    law_limits();
    law_numbers();
    law_plannable();
}
