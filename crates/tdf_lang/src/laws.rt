//! The laws of the language: each is the contract of a function that does nothing.

ghost use Rattle.tdf_lang_parser.specs.Laws.{NoFault, OneFault, OneTree, TreeOrFault};
ghost use Rattle.tdf_lang.specs.Laws.{AlikeHaveOneText, ExprsComeBack, NoBytesAtFault, TextsParseAgain, TextsTellAlike, TreesComeBack};

/// What holds of texts and trees, whatever they are, in every version of the language.
///
/// The rows of a text spell at most one tree; where they spell one they have no syntax fault, and
/// where they spell none they have exactly one first syntax fault.
///
/// The rows of a spelled tree's canonical text spell a tree alike it (one that differs in line
/// numbers alone), and two spelled trees are alike exactly where their canonical texts are equal.
/// No line length is counted there. Each byte of that text is allowed, and where no line of it has
/// more than 1,024 bytes, it has no fault of bytes and line lengths and spells a tree alike the
/// first, which `parse` then gives.
pub fn law_spelled()
    ensures one_tree { OneTree }
    ensures no_fault { NoFault }
    ensures tree_or_fault { TreeOrFault }
    ensures one_fault { OneFault }
    ensures comes_back { TreesComeBack }
    ensures one_text { AlikeHaveOneText }
    ensures exactly { TextsTellAlike }
    ensures no_bytes_at_fault { NoBytesAtFault }
    ensures parses_again { TextsParseAgain }
{
    tdf_lang_parser::law_spelled();
}

/// In every dialect the pieces of an expression's canonical text spell the expression again.
pub fn law_exprs()
    ensures { ExprsComeBack }
{}
