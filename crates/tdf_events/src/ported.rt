//! The ports of an instance, with those that its processes read.

use std::marker::Model;
use tdf_expr::Ports;

/// The ports of an instance of a block of processes, with the numbers of those that processes read. None of its calls but
/// [`ProcessPorts::new`] takes memory.
#[derive(Drop)]
pub(crate) struct ProcessPorts {
    pub(crate) ports: Ports,
    pub(crate) reads: Vec<u32>,
}

impl Model for ProcessPorts {
    ghost use Rattle.std.specs.Prelude.{◌≡◌};
    ghost use Rattle.tdf_events.specs.machine.Reading.{read_from};
    ghost use Rattle.tdf_expr.specs.Frames.{PortsSeen};

    ghost Value = { PortsSeen };

    ghost view = { λ a. a.ports };

    ghost invariant = { λ a. a.reads.items ≡ read_from 0 a.ports.spans };
}

ghost use Rattle.std.specs.Prelude.{◌≡◌, ◌<◌, ◌++◌, ◌∷◌, [], if◌then◌else◌, IfOk, OnOk};
ghost use Rattle.tdf_events.specs.machine.Making.{AreFirstPorts};
ghost use Rattle.tdf_events.specs.machine.Reading.{read_from};
ghost use Rattle.tdf_expr.specs.Checked.{IsChecked};
ghost use Rattle.tdf_expr.specs.Frames.{is_written};
ghost use Rattle.tdf_expr.specs.Made.{block_count};

use std::alloc::Global;
use tdf_base::{Memory, row_number};
use tdf_expr::Checked;
use tdf_lang_tree::PortKind;

/// Whether processes write a port.
fn is_written(word: PortKind) -> bool
    ensures { result ≡ is_written word }
{
    match word {
        PortKind::Out => true,
        PortKind::DeOut => true,
        _ => false,
    }
}

/// Appends the number of a port, where processes read it.
#[tactic(auto, using(crate::proofs::Reading::read_adds))]
fn add_read(list: &mut Vec<u32>, number: u32, word: PortKind) -> Result<(), Memory>
    ensures { OnOk result (list.new.items ≡ list.old.items ++ (if is_written word then [] else number ∷ [])) }
{
    if is_written(word) {
        return Ok(());
    }
    list.push(number)?;
    Ok(())
}

/// The numbers of the ports that processes read.
fn reads_of(alloc: Global, ports: &Ports) -> Result<Vec<u32>, Memory>
    ensures { IfOk result (λ list. list.items ≡ read_from 0 ports.now.spans) }
{
    let mut list = Vec::new(alloc);
    for place in 0..ports.ports() {
        let number = row_number(place)?;
        let port = ports.port(number);
        add_read(&mut list, number, port.word)?;
    }
    Ok(list)
}

impl ProcessPorts {
    /// The ports of an instance of the block of a number.
    ///
    /// # Errors
    /// Out of memory.
    pub(crate) fn new(alloc: Global, checked: &Checked, number: u32) -> Result<ProcessPorts, Memory>
        requires made { IsChecked checked.now }
        requires block { number < block_count checked.now }
        ensures { IfOk result (AreFirstPorts checked.now number) }
    {
        let ports = Ports::new(alloc, checked, number)?;
        let reads = reads_of(alloc, &ports)?;
        Ok(ProcessPorts { ports, reads })
    }

    /// The ports alone.
    pub(crate) fn ports(&self) -> &Ports
        ensures { result.now ≡ self.now }
    {
        &self.ports
    }
}
