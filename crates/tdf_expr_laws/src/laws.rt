//! What holds of the meaning of bodies: each function here only carries its clauses.

ghost use Rattle.tdf_expr_laws.specs.Cells.{BodiesKeepCells, StartsFit};
ghost use Rattle.tdf_expr_laws.specs.Checked.{CheckedIsOfTree};
ghost use Rattle.tdf_expr_laws.specs.Indices.{LiesBelowRate};
ghost use Rattle.tdf_expr_laws.specs.Maps.{AreMarkMaps, AreNoticeMaps, AreRateMaps, AreStepMaps};
ghost use Rattle.tdf_expr_laws.specs.Processes.{ProcessesLeaveSoon};
ghost use Rattle.tdf_expr_laws.specs.Samples.{BodiesKeepSamples, PortsLieInOrder};

/// Each rate variable has its own value, the module and each port its own timestep, each event its own notice, and each port its
/// own mark: setting one changes that one and no other.
pub fn law_other_maps()
    ensures rates { AreRateMaps }
    ensures steps { AreStepMaps }
    ensures notices { AreNoticeMaps }
    ensures marks { AreMarkMaps }
{}

/// An index without a fault lies below the size of its array, or below the rate of its port that is in force.
pub fn law_indices_in_force()
    ensures inside { LiesBelowRate }
{}

/// What definitions read off the checked bodies of a model is what its tree says: formats and starting values of cells, rate
/// variables, ports, samples and events of each block.
pub fn law_checked()
    ensures { CheckedIsOfTree }
{}

/// A process of a model without a fault of types sets no rate variable, and notifications that it asks for come in less than 10^18
/// counts.
pub fn law_processes()
    ensures { ProcessesLeaveSoon }
{}

/// Each body of a model without a fault leaves values of the formats of their variables, and they start with such values.
pub fn law_cells()
    ensures keep { BodiesKeepCells }
    ensures start { StartsFit }
{}

/// Each body of a model without a fault leaves samples of the formats of the ports that it writes; the samples of each port of a block
/// come after those of the port before.
pub fn law_samples()
    ensures keep { BodiesKeepSamples }
    ensures placed { PortsLieInOrder }
{}
