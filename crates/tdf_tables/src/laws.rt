//! What holds of tables and their texts.

ghost use Rattle.tdf_tables.specs.Laws.{LineIsOne, TableIsOne, TableOrFault};

/// A text is that of one table, or it has one line at fault.
pub fn law_tables()
    ensures one_table { TableIsOne }
    ensures one_fault { LineIsOne }
    ensures not_both { TableOrFault }
{}
