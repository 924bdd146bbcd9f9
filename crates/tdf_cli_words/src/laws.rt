//! What holds of the command.

ghost use Rattle.tdf_cli_words.specs.Worked.{AreRefused, AreShortRuns};

/// Five ways to say `run --stop 3us`, and six faults of words.
pub fn law_worked()
    ensures runs { AreShortRuns }
    ensures refused { AreRefused }
{}
