//! What holds of the definitions.

ghost use Rattle.tdf_cli.specs.Outcome.{HasOneOutcome};

use tdf_sim::{
    law_early_fault, law_first_fault, law_one_model, law_one_run, law_one_state, law_parts_alike,
    law_rests_alike, law_tree_fault,
};
use tdf_tables::law_tables;

/// What comes of the words and of reading has at most one outcome.
pub fn law_one_outcome()
    ensures { HasOneOutcome }
{
    law_first_fault();
    law_early_fault();
    law_tree_fault();
    law_one_model();
    law_one_run();
    law_one_state();
    law_parts_alike();
    law_rests_alike();
    law_tables();
}
