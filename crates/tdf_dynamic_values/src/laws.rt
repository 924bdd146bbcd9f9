//! What holds of tables by values that are given: the function here only carries its clause.

ghost use Rattle.tdf_dynamic_values.specs.Laws.{ValuesAreOfOne};

/// Values that are given are those of one table of a cluster at most.
pub fn law_one_table()
    ensures { ValuesAreOfOne }
{}
