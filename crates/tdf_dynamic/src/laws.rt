//! What holds of the answers of a boundary, and of what modules ask for: each function here only carries its clause.

ghost use Rattle.tdf_dynamic.specs.Laws.{AttributesStay, BoundariesHaveOne};

use tdf_balance::law_counts;
use tdf_schedule::law_plans;

/// Of the answers of a boundary there is at most one.
pub fn law_one_answer()
    ensures { BoundariesHaveOne }
{
    law_counts();
    law_plans();
}

/// What the modules of a text ask for leads to attributes of their cluster, whatever their variables hold.
pub fn law_attributes()
    ensures { AttributesStay }
{}
