//! What holds of the tables of runs: each function here only carries its clauses.

ghost use Rattle.tdf_tables_of_runs.specs.Laws.{AnswersSample, AnswersStats, HasLabelsOfTraces, IsReadAsItsTable, IsTableOfTrace, MeasuresItsTable, SamplesItsTable, ShowsShortValues, WritesItsTable};

use tdf_bind_invariants::law_formats;
use tdf_events_invariants::law_starts;
use tdf_fixed::law_texts;
use tdf_tables::law_tables;
use tdf_trace_rows::law_row_times;

/// What a run writes as a table is the text of its table: the labels of its traces, and a row for each row of its trace.
pub fn law_run_table()
    ensures text { WritesItsTable }
    ensures labels { HasLabelsOfTraces }
{
    law_row_times();
}

/// What a run writes is read as its own table, where it is read as a table.
pub fn law_read_table()
    ensures rows { IsReadAsItsTable }
{
    law_run_table();
}

/// What a run of an accepted model with a trace writes is a table, where it ends after its start, and each value in it has at most
/// 64 bits.
pub fn law_whole_table()
    ensures form { IsTableOfTrace }
    ensures values { ShowsShortValues }
{
    law_formats();
    law_run_table();
    law_starts();
    law_texts();
}

/// Where the jobs `sample` and `stats` answer 0 to the output of a run, they write the choice from the run's table, and its
/// statistics. To such a table `stats` always does, and `sample` where the last row isn't too many steps away.
pub fn law_used_table()
    ensures sampled { SamplesItsTable }
    ensures measured { MeasuresItsTable }
    ensures sample { AnswersSample }
    ensures stats { AnswersStats }
{
    law_read_table();
    law_whole_table();
    law_tables();
}
