//! What holds of the driven tree: each function here only carries its clause.

ghost use Rattle.tdf_stim_binding.specs.Laws.{DrivenTreeIs, DriverHasRole, DriverIsLast};

/// The driven tree has the driver's block behind the other globals, and its instance with its `bind` lines behind the other members
/// of `top`.
pub fn law_tree()
    ensures { DrivenTreeIs }
{}

/// The role of the driver's block is that of one process, which runs at the start and is sensitive to all its events.
pub fn law_roles()
    ensures { DriverHasRole }
{}

/// The last instance of the driven tree is that of the driver, and its ports reach the event signals of the columns.
pub fn law_last()
    ensures { DriverIsLast }
{}
