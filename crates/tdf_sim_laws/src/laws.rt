//! What holds of the history of a model: each function here only carries its clause.

ghost use Rattle.tdf_sim_laws.specs.Columns.{TextColumns};
ghost use Rattle.tdf_sim_laws.specs.Laws.{SamplesAreAt, TimesAreOne};
ghost use Rattle.tdf_sim_laws.specs.Splitting.{HistorySplits, QuietIsFromZero};

use tdf_sim_history::law_samples_there;

/// The times that are printed are those of the positions: a time has a position, by the spans of the periods, exactly where that
/// position has this time.
pub fn law_times()
    ensures { TimesAreOne }
{}

/// A cluster in progress that is what the history says of it, as it is after each boundary and install, has each sample whose
/// time lies below the start of its period.
pub fn law_samples_at()
    ensures { SamplesAreAt }
{
    law_samples_there();
}

/// A history is that up to a time and then that from there; and where nothing is due before the time at which it begins, it is
/// one from time 0 on.
pub fn law_splits()
    ensures splits { HistorySplits }
    ensures quiet { QuietIsFromZero }
{}

/// A column from the text's start on has the positions of its periods from the time 0 and the samples of its signal, and before
/// its first cell it shows the value that its event signal starts with, or nothing.
pub fn law_text_columns()
    ensures { TextColumns }
{}
