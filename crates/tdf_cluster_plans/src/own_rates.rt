//! The rates of a cluster's own edges under a table, by place.

ghost use Rattle.std.specs.Prelude.{◌≡◌, length, map, slice_index};
ghost use Rattle.tdf_cluster_net.specs.Numbers.{AllBelow};
ghost use Rattle.tdf_dynamic_plans.specs.Rates.{AreRates, net_of};

use tdf_bind_tables::FlatTables;
use tdf_dynamic_plans::{ModuleAttrs, are_rising, edge_under};

/// Sets the rates of some edges under a table, by place: place `i` gets those of the edge with number `numbers[i]`. It takes no memory.
pub fn set_own_rates(
    tables: &FlatTables,
    table: &[ModuleAttrs],
    numbers: &[u32],
    reads: &mut Vec<u32>,
    writes: &mut Vec<u32>,
)
    requires rates { AreRates tables.now table.now }
    requires inside { AllBelow (length tables.now.edges) numbers.now }
    requires reads { length reads.old.items ≡ length numbers.now }
    requires writes { length writes.old.items ≡ length numbers.now }
    ensures reads { reads.new.items
        ≡ map (slice_index (map (λ edge. edge.read_rate) (net_of tables.now table.now).edges))
        numbers.now }
    ensures writes { writes.new.items
        ≡ map (slice_index (map (λ edge. edge.write_rate) (net_of tables.now table.now).edges))
        numbers.now }
{
    let once = are_rising(table);
    for i in 0..numbers.len() {
        let row = &tables.edges[numbers[i] as usize];
        let edge = edge_under(tables, table, once, row);
        reads[i] = edge.read_rate;
        writes[i] = edge.write_rate;
    }
}
