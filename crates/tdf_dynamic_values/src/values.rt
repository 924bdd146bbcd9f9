//! The table of attributes by given flags, rates and timesteps.

ghost use Rattle.std.specs.List.{sum_by};
ghost use Rattle.std.specs.Prelude.{◌≡◌, ◌≤◌, Contains, IfOk, length};
ghost use Rattle.tdf_streams.specs.Below.{AreWithinLimits};
ghost use Rattle.tdf_cluster_plans.specs.Groups.{AreTableGroups};
ghost use Rattle.tdf_dynamic_first.specs.Text.{none_known};
ghost use Rattle.tdf_dynamic_plans.specs.Attributes.{clusters_of};
ghost use Rattle.tdf_dynamic_values.specs.Values.{AreValuesFor, HoldsValues};
ghost use Rattle.tdf_dynamic_values.specs.machine.Rows.{row_by, rows_by};
ghost use Rattle.tdf_streams.specs.Periods.{AreAttributes};

use std::alloc::Global;
use tdf_base::Memory;
use tdf_bind::Flat;
use tdf_cluster_plans::TableGroups;
use tdf_dynamic_first::first_table;
use tdf_dynamic_plans::{Attrs, ModuleAttrs};

/// The module of a row with this flag, and with as many of these rates and timesteps as the row has.
fn row_by(
    alloc: Global,
    row: &ModuleAttrs,
    accepts: bool,
    rates: &[u32],
    steps: &[u64],
) -> Result<ModuleAttrs, Memory>
    requires rates { length row.now.rates ≤ length rates.now }
    requires steps { length row.now.steps ≤ length steps.now }
    ensures { IfOk result (λ new. new ≡ row_by row.now accepts rates.now steps.now) }
{
    let ports = Vec::from_slice(alloc, &row.ports)?;
    let rates = Vec::from_slice(alloc, &rates[..row.rates.len()])?;
    let steps = Vec::from_slice(alloc, &steps[..row.steps.len()])?;
    Ok(ModuleAttrs {
        number: row.number,
        ports,
        accepts,
        rates,
        steps,
    })
}

/// The modules of these rows with the values that are given, row after row.
fn rows_by(
    alloc: Global,
    rows: &[ModuleAttrs],
    accepts: &[bool],
    rates: &[u32],
    steps: &[u64],
) -> Result<Vec<ModuleAttrs>, Memory>
    requires accepts { length accepts.now ≡ length rows.now }
    requires rates { length rates.now ≡ sum_by (λ row. length row.rates) rows.now }
    requires steps { length steps.now ≡ sum_by (λ row. length row.steps) rows.now }
    ensures { IfOk result (λ new. new.items ≡ rows_by rows.now accepts.now rates.now steps.now) }
{
    let mut new = Vec::new(alloc);
    let mut rate = 0;
    let mut step = 0;
    for i in 0..rows.len() {
        let row = &rows[i];
        new.push(row_by(alloc, row, accepts[i], &rates[rate..], &steps[step..])?)?;
        rate += row.rates.len();
        step += row.steps.len();
    }
    Ok(new)
}

/// The table of a cluster by values that are given: the flag of each of its modules, and one after the other the values of
/// their rate variables, and the timesteps that are assigned to each of them and to its ports, 0 where none is. No plan is
/// known yet. The things of the model by cluster are given.
///
/// # Errors
/// Out of memory.
pub fn from_values(
    alloc: Global,
    flat: &Flat,
    groups: &TableGroups,
    cluster: u32,
    accepts: Vec<bool>,
    rates: Vec<u32>,
    steps: Vec<u64>,
) -> Result<Attrs, Memory>
    requires limits { AreWithinLimits flat.now }
    requires groups { AreTableGroups flat.now.tables groups.now }
    requires has { Contains (clusters_of flat.now.tables) cluster }
    requires values { AreValuesFor flat.now cluster accepts.items rates.items steps.items }
    ensures values { IfOk result (λ attrs.
        HoldsValues flat.now cluster accepts.items rates.items steps.items attrs.rows) }
    ensures attributes { IfOk result (λ attrs. AreAttributes flat.now cluster attrs.rows) }
    ensures known { IfOk result (λ attrs. attrs.known ≡ none_known flat.now.tables attrs.rows) }
{
    let text = first_table(alloc, flat, groups, cluster)?;
    match rows_by(alloc, &text.rows, &accepts, &rates, &steps) {
        Ok(rows) => Ok(Attrs::new(rows, text.known)),
        Err(refused) => {
            drop(text);
            Err(refused)
        }
    }
}
