//! Whether the parts of a state are such as the text and a plan have them.

ghost use Rattle.std.specs.Prelude.{◌≡◌, ◌<◌, ◌↔◌, All, length, map, true};
ghost use Rattle.tdf_base.specs.Limits.{time_end};
ghost use Rattle.tdf_dynamic_plans.specs.Attributes.{AttrsOf};
ghost use Rattle.tdf_exec_parts.specs.States.{AreStatesOfRows, IsInPeriod, IsStateOfRow, due_before};
ghost use Rattle.tdf_expr.specs.Frames.{limits_of_rate};
ghost use Rattle.tdf_expr.specs.Made.{block_count, rate_spans_of};
ghost use Rattle.tdf_expr_semantics.specs.Fits.{RatesFit};

use tdf_base::TIME_END;
use tdf_bind::Flat;
use tdf_dynamic_plans::ModuleAttrs;
use tdf_expr::Checked;
use tdf_saved::ModuleState;
use tdf_schedule::Entry;

/// Whether there is a rate for each rate variable of a block, within its limits.
fn are_rates(checked: &Checked, block: u32, rates: &[u32]) -> bool
    requires { block < block_count checked.now }
    ensures { (result ≡ true)
        ↔ RatesFit (map limits_of_rate (rate_spans_of checked.now block)) rates.now }
{
    let count = checked.rates(block);
    if rates.len() != count as usize {
        return false;
    }
    for i in 0..count {
        let (least, greatest) = checked.limits(block, i);
        let rate = rates[i as usize];
        if rate < least {
            return false;
        }
        if greatest < rate {
            return false;
        }
    }
    true
}

/// Whether there are so many timesteps, each below the end of time.
fn are_steps(count: usize, steps: &[u64]) -> bool
    ensures { (result ≡ true)
        ↔ ((length steps.now ≡ count) × All (λ step. step < time_end) steps.now) }
{
    if steps.len() != count {
        return false;
    }
    for i in 0..steps.len() {
        let step = steps[i];
        if step >= TIME_END {
            return false;
        }
    }
    true
}

/// Whether a state is one of the module of a row.
fn is_state_of_row(flat: &Flat, row: &ModuleAttrs, module: &ModuleState) -> bool
    requires inside { row.now.number < length flat.now.tables.modules }
    requires blocks { All (λ row. row.block < block_count flat.now.checked)
        flat.now.tables.modules }
    ensures { (result ≡ true) ↔ IsStateOfRow flat.now row.now module.now }
{
    let block = flat.tables.modules[row.number as usize].block;
    if !are_rates(&flat.checked, block, &module.rates) {
        return false;
    }
    if !are_steps(row.steps.len(), &module.steps) {
        return false;
    }
    flat.checked.holds(block, &module.cells)
}

/// Whether there is a state for each row, in order.
pub(crate) fn are_states_of(flat: &Flat, table: &[ModuleAttrs], modules: &[ModuleState]) -> bool
    requires inside { All (λ (row : AttrsOf). row.number < length flat.now.tables.modules)
        table.now }
    requires blocks { All (λ row. row.block < block_count flat.now.checked)
        flat.now.tables.modules }
    ensures { (result ≡ true) ↔ AreStatesOfRows flat.now table.now modules.now }
{
    if modules.len() != table.len() {
        return false;
    }
    for i in 0..table.len() {
        if !is_state_of_row(flat, &table[i], &modules[i]) {
            return false;
        }
    }
    true
}

/// How many entries are due before a time, where the period began at `start`.
pub(crate) fn due_before(entries: &[Entry], start: u64, time: u64) -> usize
    ensures { result ≡ due_before start time entries.now }
{
    entries
        .iter()
        .filter(|entry| (start as u128) + (entry.offset as u128) < (time as u128))
        .count()
}

/// Whether a time lies inside the period that began at `start`.
pub(crate) fn is_in_period(start: u64, time: u64, period: u64) -> bool
    ensures { (result ≡ true) ↔ IsInPeriod start time period }
{
    if start == 0 && time == 0 {
        return true;
    }
    start < time && time - start <= period
}
