//! The clusters of the actors.

ghost use Rattle.std.specs.Prelude.{◌≡◌, IfOk};
ghost use Rattle.tdf_dynamic_plans.specs.Attributes.{clusters_of};

use std::alloc::Global;
use tdf_base::Memory;
use tdf_bind_tables::FlatTables;

/// The numbers of the clusters of the actors.
///
/// # Errors
/// Out of memory.
pub fn clusters_of(alloc: Global, tables: &FlatTables) -> Result<Vec<u32>, Memory>
    ensures numbers { IfOk result (λ numbers. numbers.items ≡ clusters_of tables.now) }
{
    let mut numbers = vec![in alloc; 0; tables.actors.len()]?;
    for i in 0..tables.actors.len() {
        numbers[i] = tables.actors[i].cluster;
    }
    Ok(numbers)
}
