//! What holds of the texts of states, and of saving and going on by the models of one tree.

ghost use Rattle.tdf_sim.specs.StateLaws.{AnswersAreAlike, MembersAreAlike, PartsAreAlike, RestsAreAlike, SnapshotsAreOne, StateIsOne, ValidIsAlike};

use crate::laws::law_one_model;
use tdf_bind_invariants::law_limits;
use tdf_dynamic_first::{law_numbers, law_plannable};
use tdf_events_invariants::law_runnable;
use tdf_save::law_text;
use tdf_sim_unique::{law_alike_parts, law_members, law_one_part, law_one_rest};

/// Two runs of one tree's models that are told the answers of their boundaries have the same parts up to a stop, and one snapshot.
pub fn law_parts_alike()
    ensures parts { PartsAreAlike }
    ensures snapshots { SnapshotsAreOne }
{
    law_limits();
    law_numbers();
    law_one_model();
    law_one_part();
    law_plannable();
}

/// The models of one tree have the same members and the same valid snapshots; and two runs of them that go on from one snapshot write
/// the same and end alike, where they are told the answers of their boundaries.
pub fn law_rests_alike()
    ensures members { MembersAreAlike }
    ensures valid { ValidIsAlike }
    ensures rests { RestsAreAlike }
    ensures answers { AnswersAreAlike }
{
    law_alike_parts();
    law_limits();
    law_one_model();
    law_one_rest();
}

/// Bytes are the text of one snapshot at most, of the model of one tree.
pub fn law_one_state()
    ensures { StateIsOne }
{
    law_members();
    law_rests_alike();
    law_text();
}
