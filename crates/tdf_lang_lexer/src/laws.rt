//! Laws of the definitions: each is the contract of a function that does nothing.

ghost use Rattle.tdf_lang_lexer.specs.FirstFault.{FaultsAreFirst, NoFaultIsClean};
ghost use Rattle.tdf_lang_lexer.specs.Longest.{PiecesAreLongest};
ghost use Rattle.tdf_lang_lexer.specs.Text.{LinesAreText};
ghost use Rattle.tdf_lang_lexer.specs.Words.{SymbolsAreRead, WordsAreRead};

/// Each text has just one list of lines: each ends with LF, and what follows the last LF is a line
/// where it isn't empty.
pub fn law_lines()
    ensures { LinesAreText }
{}

/// Each line has just one list of pieces that are those of the longest match.
pub fn law_longest()
    ensures { PiecesAreLongest }
{}

/// The fault of a text is that of a line before which no line has one; and there is none exactly
/// where no line has one.
pub fn law_faults()
    ensures first { FaultsAreFirst }
    ensures none { NoFaultIsClean }
{}

/// A piece is a reserved word or a symbol exactly where it is written so.
pub fn law_words()
    ensures words { WordsAreRead }
    ensures symbols { SymbolsAreRead }
{}
