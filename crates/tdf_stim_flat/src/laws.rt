//! What holds of the last instance in a flat model: each function here only carries its clause.

ghost use Rattle.tdf_stim_flat.specs.Laws.{LastGivesAlone, LastIsLast, MarksAreWritten};

/// Where the last instance of a model is one of a block with one process, it is the last of the instances of such blocks, its process
/// is the last one, and its events are the last ones.
pub fn law_last_block()
    ensures { LastIsLast }
{}

/// An event signal to which that instance gives values has them from no other port.
pub fn law_last_alone()
    ensures { LastGivesAlone }
{}

/// A process of a block of processes without faults marks no port but those that bodies write.
pub fn law_marks()
    ensures { MarksAreWritten }
{}
