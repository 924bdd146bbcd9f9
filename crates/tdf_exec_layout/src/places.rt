//! The place of each port in its block.

ghost use Rattle.std.specs.Prelude.{◌<◌, IfOk, All};
ghost use Rattle.tdf_exec_layout.specs.Ports.{ArePortPlaces};

use std::alloc::Global;
use tdf_base::Memory;
use tdf_bind_connections::PortRow;

/// The place of each port in its block: how many ports of its module come before it. There are `modules` modules.
///
/// # Errors
/// Out of memory.
pub fn port_places(alloc: Global, modules: usize, ports: &[PortRow]) -> Result<Vec<u32>, Memory>
    requires { All (λ port. port.«module» < modules) ports.now }
    ensures { IfOk result (λ places. ArePortPlaces ports.now places.items) }
{
    // More ports than these have no numbers.
    if ports.len() > 4_294_967_295 {
        return Err(Memory);
    }
    let mut counts: Vec<u32> = vec![in alloc; 0; modules]?;
    let mut places: Vec<u32> = vec![in alloc; 0; ports.len()]?;
    for number in 0..ports.len() {
        let module = ports[number].module as usize;
        let count = counts[module];
        let next = count + 1;
        places[number] = count;
        counts[module] = next;
    }
    Ok(places)
}
