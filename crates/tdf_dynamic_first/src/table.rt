//! The table of attributes as the text says it.

ghost use Rattle.std.specs.List.{cons_option};
ghost use Rattle.std.specs.Prelude.{◌≡◌, ◌<◌, ◌++◌, ◌∷◌, [], All, Contains, IfOk, OnOk, length, map};
ghost use Rattle.tdf_cluster_plans.specs.Groups.{AreTableGroups};
ghost use Rattle.tdf_dynamic_first.specs.First.{IsPlannable};
ghost use Rattle.tdf_dynamic_plans.specs.Attributes.{clusters_of, ports_of_module};
ghost use Rattle.tdf_dynamic_first.specs.Text.{port_step, first_attrs, can_change, changes_at, first_table, none_known};
ghost use Rattle.tdf_dynamic_first.specs.machine.Placed.{ArePortsByModule, attrs_of, own_rows};
ghost use Rattle.tdf_expr.specs.Checked.{IsChecked};
ghost use Rattle.tdf_expr.specs.Made.{block_count, start_rates};

use std::alloc::Global;
use tdf_base::Memory;
use tdf_bind::Flat;
use tdf_bind_connections::{ModuleRow, PortRow};
use tdf_bind_tables::FlatTables;
use tdf_cluster_net::Groups;
use tdf_cluster_plans::TableGroups;
use tdf_dynamic_plans::{Attrs, KnownPlans, ModuleAttrs};
use tdf_expr::{Checked, Frame};

/// The values of the rate variables of a frame.
fn rates_of(alloc: Global, frame: &Frame, count: u32) -> Result<Vec<u32>, Memory>
    requires spans { count ≡ length frame.now.rates }
    requires values { count ≡ length frame.now.state.rates }
    ensures { IfOk result (λ rates. rates.items ≡ frame.now.state.rates) }
{
    let mut rates = Vec::with_capacity(alloc, count as usize)?;
    for i in 0..count {
        rates.push(frame.rate(i))?;
    }
    Ok(rates)
}

/// The values that the rate variables of a block start with. Where it has none, no frame is made.
#[tactic(auto, using(crate::proofs::Starts::no_starts))]
fn start_rates(alloc: Global, checked: &Checked, block: u32) -> Result<Vec<u32>, Memory>
    requires made { IsChecked checked.now }
    requires block { block < block_count checked.now }
    ensures { IfOk result (λ rates. rates.items ≡ start_rates checked.now block) }
{
    let count = checked.rates(block);
    if count == 0 {
        return Ok(Vec::new(alloc));
    }
    let frame = Frame::new(alloc, checked, block)?;
    let rates = rates_of(alloc, &frame, count);
    drop(frame);
    rates
}

fn port_step(ports: &[PortRow], number: u32) -> u64
    ensures { result ≡ port_step ports.now number }
{
    let place = number as usize;
    if place < ports.len() {
        return ports[place].step;
    }
    0
}

/// The timesteps of a module and of its ports.
fn steps_of(alloc: Global, own: u64, ports: &[PortRow], numbers: &[u32]) -> Result<Vec<u64>, Memory>
    ensures { IfOk result (λ steps. steps.items ≡ own ∷ map (port_step ports.now) numbers.now) }
{
    let mut steps = Vec::with_capacity(alloc, numbers.len().saturating_add(1))?;
    steps.push(own)?;
    for i in 0..numbers.len() {
        steps.push(port_step(ports, numbers[i]))?;
    }
    Ok(steps)
}

/// The attributes of a module with these ports.
fn first_attrs(
    alloc: Global,
    flat: &Flat,
    number: u32,
    row: &ModuleRow,
    own: &[u32],
) -> Result<ModuleAttrs, Memory>
    requires checked { IsChecked flat.now.checked }
    requires block { row.now.block < block_count flat.now.checked }
    requires own { own.now ≡ ports_of_module flat.now.tables.ports number }
    ensures { IfOk result (λ attrs. attrs ≡ first_attrs flat.now number row.now) }
{
    let ports = Vec::from_slice(alloc, own)?;
    let steps = steps_of(alloc, row.step, &flat.tables.ports, &ports)?;
    let rates = start_rates(alloc, &flat.checked, row.block)?;
    Ok(ModuleAttrs {
        number,
        ports,
        accepts: row.accepts,
        rates,
        steps,
    })
}

/// The attributes of an actor, if it is a module.
fn attrs_of(
    alloc: Global,
    flat: &Flat,
    number: u32,
    ports: &Groups,
) -> Result<Option<ModuleAttrs>, Memory>
    requires checked { IsChecked flat.now.checked }
    requires blocks { All (λ row. row.block < block_count flat.now.checked)
        flat.now.tables.modules }
    requires ports { ArePortsByModule flat.now.tables.ports (length flat.now.tables.modules)
        ports.now }
    ensures { IfOk result (λ attrs. attrs ≡ attrs_of flat.now number) }
{
    let place = number as usize;
    if flat.tables.modules.len() <= place {
        return Ok(None);
    }
    let row = &flat.tables.modules[place];
    Ok(Some(first_attrs(alloc, flat, number, row, ports.group(number))?))
}

fn put_attrs(rows: &mut Vec<ModuleAttrs>, attrs: Option<ModuleAttrs>) -> Result<(), Memory>
    ensures { OnOk result (rows.new.items ≡ rows.old.items ++ cons_option attrs []) }
{
    match attrs {
        None => Ok(()),
        Some(attrs) => {
            rows.push(attrs)?;
            Ok(())
        }
    }
}

/// The attributes of the modules among some actors.
fn table_rows(
    alloc: Global,
    flat: &Flat,
    actors: &[u32],
    ports: &Groups,
) -> Result<Vec<ModuleAttrs>, Memory>
    requires checked { IsChecked flat.now.checked }
    requires blocks { All (λ row. row.block < block_count flat.now.checked)
        flat.now.tables.modules }
    requires ports { ArePortsByModule flat.now.tables.ports (length flat.now.tables.modules)
        ports.now }
    ensures { IfOk result (λ rows. rows.items ≡ own_rows flat.now actors.now) }
{
    let mut rows = Vec::with_capacity(alloc, actors.len())?;
    for i in 0..actors.len() {
        let attrs = attrs_of(alloc, flat, actors[i], ports)?;
        put_attrs(&mut rows, attrs)?;
    }
    Ok(rows)
}

fn changes_at(tables: &FlatTables, number: u32) -> bool
    ensures { result ≡ changes_at tables.now number }
{
    let place = number as usize;
    place < tables.modules.len() && tables.modules[place].changes
}

/// Whether a module of a table has a body that changes attributes.
fn has_changes(tables: &FlatTables, rows: &[ModuleAttrs]) -> bool
    ensures { result ≡ can_change tables.now rows.now }
{
    rows.iter().any(|attrs| changes_at(tables, attrs.number))
}

/// The table of a cluster. Plans are kept where the table can change. The things of the model by cluster are given: its actors
/// and their ports alone are looked at.
///
/// # Errors
/// Out of memory.
pub fn first_table(
    alloc: Global,
    flat: &Flat,
    groups: &TableGroups,
    cluster: u32,
) -> Result<Attrs, Memory>
    requires plannable { IsPlannable flat.now }
    requires groups { AreTableGroups flat.now.tables groups.now }
    requires has { Contains (clusters_of flat.now.tables) cluster }
    ensures rows { IfOk result (λ attrs. attrs.rows ≡ first_table flat.now cluster) }
    ensures known { IfOk result (λ attrs. attrs.known ≡ none_known flat.now.tables attrs.rows) }
{
    let rows = table_rows(alloc, flat, groups.actors(cluster), groups.ports_by_actor())?;
    let changes = has_changes(&flat.tables, &rows);
    Ok(Attrs::new(rows, KnownPlans::new(alloc, changes)))
}
