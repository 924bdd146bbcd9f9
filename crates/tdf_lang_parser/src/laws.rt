//! Laws of the definitions: each is the contract of a function that does nothing.

ghost use Rattle.std.specs.Prelude.{length, ◌+◌};
ghost use Rattle.tdf_lang_parser.specs.Examples.{smallest_text, smallest_tree, loose_text, loose_tree, net_text, net_tree, decls_text, decls_tree, attributes_text, attributes_tree, initialize_text, initialize_tree, nested_text, nested_tree, operators_text, operators_tree, change_text, change_tree, empty_text, empty_tree, de_text, de_tree, multiples_text, multiples_tree, femtoseconds_text, femtoseconds_tree, no_resolution_text, no_resolution_tree, version_text, else_text, deep_text, order_text, open_text, chain_text, early_text, second_text, late_text, unit_example};
ghost use Rattle.tdf_lang_parser.specs.Faults.{HasFault};
ghost use Rattle.tdf_lang_parser.specs.Laws.{NoFault, OneFault, OneTree, TreeOrFault};
ghost use Rattle.tdf_lang_parser.specs.SpellsTree.{SpellsTree};
ghost use Rattle.tdf_lang_lexer.specs.Rows.{rows_of};
ghost use Rattle.tdf_lang_lexer.specs.Text.{lines_of};

/// The rows of a text spell exactly one tree, or have exactly one first syntax fault.
pub fn law_spelled()
    ensures one_tree { OneTree }
    ensures no_fault { NoFault }
    ensures tree_or_fault { TreeOrFault }
    ensures one_fault { OneFault }
{}

/// Small texts written out spell the trees written beside them: each kind of block and line, and what may be absent.
pub fn law_examples()
    ensures smallest { SpellsTree (rows_of smallest_text) smallest_tree }
    ensures loose { SpellsTree (rows_of loose_text) loose_tree }
    ensures net { SpellsTree (rows_of net_text) net_tree }
    ensures decls { SpellsTree (rows_of decls_text) decls_tree }
    ensures attributes { SpellsTree (rows_of attributes_text) attributes_tree }
    ensures initialize { SpellsTree (rows_of initialize_text) initialize_tree }
    ensures nested { SpellsTree (rows_of nested_text) nested_tree }
    ensures operators { SpellsTree (rows_of operators_text) operators_tree }
    ensures change { SpellsTree (rows_of change_text) change_tree }
    ensures empty { SpellsTree (rows_of empty_text) empty_tree }
    ensures de { SpellsTree (rows_of de_text) de_tree }
    ensures multiples { SpellsTree (rows_of multiples_text) multiples_tree }
    ensures femtoseconds { SpellsTree (rows_of femtoseconds_text) femtoseconds_tree }
    ensures no_resolution { SpellsTree (rows_of no_resolution_text) no_resolution_tree }
{}

/// Small texts written out have their first syntax fault on the line written beside them.
pub fn law_fault_examples()
    ensures version_line { HasFault (rows_of version_text) (length (lines_of version_text) + 1) 1 }
    ensures else_line { HasFault (rows_of else_text) (length (lines_of else_text) + 1) 6 }
    ensures deep_line { HasFault (rows_of deep_text) (length (lines_of deep_text) + 1) 12 }
    ensures order_line { HasFault (rows_of order_text) (length (lines_of order_text) + 1) 5 }
    ensures open_line { HasFault (rows_of open_text) (length (lines_of open_text) + 1) 5 }
    ensures chain_line { HasFault (rows_of chain_text) (length (lines_of chain_text) + 1) 4 }
    ensures early_line { HasFault (rows_of early_text) (length (lines_of early_text) + 1) 4 }
    ensures second_line { HasFault (rows_of second_text) (length (lines_of second_text) + 1) 3 }
    ensures late_line { HasFault (rows_of late_text) (length (lines_of late_text) + 1) 3 }
    ensures unit_line { HasFault (rows_of unit_example) (length (lines_of unit_example) + 1) 4 }
{}
