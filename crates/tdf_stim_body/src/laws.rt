//! What holds of the body of a driver: each function here only carries its clause.

ghost use Rattle.tdf_stim_body.specs.Laws.{BodyDrives, DriverNamesStand, LinesChangeNothing};

/// Statements do the same whatever the numbers of their lines.
pub fn law_lines()
    ensures { LinesChangeNothing }
{}

/// Run m of the body of a driver, while there are rows, gives each port the element m of its array, cast to the port's format, and
/// counts; the first run notifies each event after its time.
pub fn law_body()
    ensures { BodyDrives }
{}

/// Where the block of a driver declares no name twice, its ports, its arrays, its count and its events stand at their places.
pub fn law_names()
    ensures { DriverNamesStand }
{}
