//! What holds of the texts of snapshots.

ghost use Rattle.tdf_save.specs.Laws.{FindsText, SavedIsOne, StartIsOne};

/// A text is that of one snapshot and one model, and the model's text begins after the first line that begins with `text `, of which there
/// is one.
pub fn law_text()
    ensures one { SavedIsOne }
    ensures start { StartIsOne }
    ensures found { FindsText }
{}
