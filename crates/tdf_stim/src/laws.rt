//! What holds of the definitions, whatever the tree: the function here only carries its clause.

ghost use Rattle.tdf_stim.specs.Laws.{NamesAreLeast};

/// The driver's name is not in use, and each name with a lesser number is.
pub fn law_driver_name()
    ensures { NamesAreLeast }
{}
