//! For which cells the rows of a run's trace stand.

ghost use Rattle.tdf_sim_runs.specs.Ending.{ShownStandsBelow};

/// Below a mark that no period with positions left began before, the trace of a run stands for the cells of the run.
pub fn law_standing()
    ensures { ShownStandsBelow }
{}
