//! What holds of choices and of the least number.

ghost use Rattle.tdf_sampling.specs.Laws.{ChoosesAll, ChoosesTwice, FindsGreatest, FindsLeast, OrdersByValue};

/// Every row is all rows, and a choice of a choice is one choice.
pub fn law_choice()
    ensures once { ChoosesAll }
    ensures twice { ChoosesTwice }
{}

/// The order of numbers is that of their values; the least of some numbers is the one text among them that is at most each of
/// them, and the greatest likewise.
pub fn law_least()
    ensures order { OrdersByValue }
    ensures least { FindsLeast }
    ensures greatest { FindsGreatest }
{}
