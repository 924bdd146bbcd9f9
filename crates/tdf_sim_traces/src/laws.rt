//! What holds of what is shown: each function here only carries its clauses.

ghost use Rattle.tdf_sim_traces.specs.Laws.{AdvancedCanBeTaken, LaterIsShown, RowsMayBeWritten, SoundCanBeShown, SoundCanStart, ToldIsShown, WrittenIsShown};

use tdf_bind_invariants::law_formats;

/// The calls can be made for each sound model: its traces can be shown, its run can start, and what instants give can be taken.
pub fn law_can()
    ensures shown { SoundCanBeShown }
    ensures start { SoundCanStart }
    ensures taken { AdvancedCanBeTaken }
{
    law_formats();
}

/// Rows may be written before the periods of all clusters, and what is shown stays so then, as it does at later times where nothing
/// happens, and where more is told of the boundaries to come.
pub fn law_kept()
    ensures rows { RowsMayBeWritten }
    ensures written { WrittenIsShown }
    ensures later { LaterIsShown }
    ensures told { ToldIsShown }
{}
