//! The drivers of signals, and the signals that have none or several.

ghost use Rattle.std.specs.List.{enumerate_from};
ghost use Rattle.std.specs.Prelude.{◌≡◌, ◌++◌, [], ◌∷◌, Some, None, IfOk, OnOk, IfErr, filter_map, map, slice_get, length, All};
ghost use Rattle.tdf_bind_hierarchy.specs.Laws.{IsInRange};
ghost use Rattle.tdf_bind_connections.specs.Drivers.{with_writer, driver_fault, signal_row, module_port, AreSignals, AreDrivers, writers_in, misdriven, IsDriverRefusal};
ghost use Rattle.tdf_bind_connections.specs.machine.DriverSteps.{driver_in, driver_by, noted, fault_by, row_by, signals_by, AreAllDrivers};

use crate::modules::PortRow;
use crate::roles::Role;
use crate::writers::{Writer, writers_to};
use std::alloc::{AllocError, AllocFailed, Global};
use std::marker::Model;
use tdf_base::{Code, Memory};
use tdf_bind_hierarchy::{SharedPath, Signal, SignalNumber, Tables};
use tdf_lang_tree::{Format, Raw};
use thiserror::Error;

/// What writes a signal.
#[derive(Clone, Copy, Debug)]
pub enum Driver {
    /// No port.
    Missing,
    /// One port, with its number where it is one of a module.
    One(Option<u32>),
    /// Several ports.
    Several,
}

/// A signal with its driver.
#[derive(Drop)]
pub struct SignalRow {
    /// Its path.
    pub path: SharedPath,
    /// The format of its values.
    pub format: Format,
    /// Its first value; 0 for a signal of samples.
    pub start: Raw,
    /// The number of the port that writes it, where that is one of a module.
    pub driver: Option<u32>,
}

/// The signals of a model with their drivers.
#[derive(Drop)]
pub struct Signals {
    /// The signals of samples, in preorder.
    pub signals: Vec<SignalRow>,
    /// The event signals, in preorder.
    pub de_signals: Vec<SignalRow>,
}

impl Model for Signals {
    ghost use Rattle.tdf_bind_connections.specs.Drivers.{SignalsOf};

    ghost Value = { SignalsOf };

    ghost view = { λ a. record { signals = a.signals.items; de_signals = a.de_signals.items } };
}

/// A signal without a driver, or with several.
#[derive(Clone, Copy, Debug)]
pub struct DriverFault {
    /// `NO_DRIVER` or `TWO_DRIVERS`.
    pub code: Code,
    /// The signal.
    pub signal: SignalNumber,
}

/// Why signals have no table.
#[derive(Debug, Drop, Error)]
pub enum DriverErr {
    /// A signal has no driver, or several.
    #[error("a signal without one driver")]
    Refused(DriverFault),
    /// Out of memory.
    #[error("out of memory")]
    Memory,
}

impl From<Memory> for DriverErr {
    ghost use Rattle.tdf_bind_connections.specs.declared.drivers.DriverErr.TheVariants as why;

    ghost from_gives = { λ _ e. e ≡ why.Memory };

    fn from(_refused: Memory) -> DriverErr {
        DriverErr::Memory
    }
}

fn with_writer(driver: Driver, port: Option<u32>) -> Driver
    ensures { result ≡ with_writer port driver }
{
    match driver {
        Driver::Missing => Driver::One(port),
        Driver::One(_) => Driver::Several,
        Driver::Several => Driver::Several,
    }
}

fn driver_in(drivers: &[Driver], signal: usize) -> Driver
    ensures { result ≡ driver_in drivers.now signal }
{
    if signal < drivers.len() {
        return drivers[signal];
    }
    Driver::Missing
}

fn missing(alloc: Global, count: usize) -> Result<Vec<Driver>, Memory>
    ensures { IfOk result (λ drivers. AreDrivers count [] drivers.items) }
{
    let mut drivers = Vec::new(alloc);
    for _ in 0..count {
        drivers.push(Driver::Missing)?;
    }
    Ok(drivers)
}

fn note(drivers: &mut Vec<Driver>, writer: Writer)
    ensures { drivers.new.items ≡ noted writer drivers.old.items }
{
    let signal = writer.signal as usize;
    if signal < drivers.len() {
        drivers[signal] = with_writer(drivers[signal], writer.port);
    }
}

fn drivers_of(alloc: Global, count: usize, writers: &[Writer]) -> Result<Vec<Driver>, Memory>
    ensures { IfOk result (λ drivers. AreDrivers count writers.now drivers.items) }
{
    let mut drivers = missing(alloc, count)?;
    for i in 0..writers.len() {
        note(&mut drivers, writers[i]);
    }
    Ok(drivers)
}

fn driver_fault(event: bool, driver: Driver) -> Option<Code>
    ensures { result ≡ driver_fault event driver }
{
    match driver {
        Driver::Missing => {
            if event {
                return None;
            }
            Some(Code::NoDriver)
        }
        Driver::One(_) => None,
        Driver::Several => Some(Code::TwoDrivers),
    }
}

fn driver_by(signals: &[Driver], events: &[Driver], number: SignalNumber) -> Driver
    ensures { result ≡ driver_by signals.now events.now number }
{
    if number.event {
        return driver_in(events, number.number);
    }
    driver_in(signals, number.number)
}

fn fault_by(signals: &[Driver], events: &[Driver], number: SignalNumber) -> Option<DriverFault>
    ensures { result ≡ fault_by signals.now events.now number }
{
    match driver_fault(number.event, driver_by(signals, events, number)) {
        None => None,
        Some(code) => Some(DriverFault {
            code,
            signal: number,
        }),
    }
}

fn first_fault(signals: &[Driver], events: &[Driver], order: &[SignalNumber]) -> Option<DriverFault>
    ensures { result ≡ slice_get (filter_map (fault_by signals.now events.now) order.now) 0 }
{
    for i in 0..order.len() {
        let fault = fault_by(signals, events, order[i]);
        if fault.is_some() {
            return fault;
        }
    }
    None
}

fn module_port(driver: Driver) -> Option<u32>
    ensures { result ≡ module_port driver }
{
    match driver {
        Driver::One(port) => port,
        Driver::Missing => None,
        Driver::Several => None,
    }
}

fn row_by(drivers: &[Driver], number: usize, signal: &Signal) -> Result<SignalRow, Memory>
    ensures { IfOk result (λ row. row ≡ row_by drivers.now number signal.now) }
{
    Ok(SignalRow {
        path: signal.path.shared()?,
        format: signal.format,
        start: signal.start,
        driver: module_port(driver_in(drivers, number)),
    })
}

fn rows_by(alloc: Global, drivers: &[Driver], signals: &[Signal]) -> Result<Vec<SignalRow>, Memory>
    ensures { IfOk result (λ rows. rows.items ≡ map (λ s. row_by drivers.now s.0 s.1) (enumerate_from 0 signals.now)) }
{
    let mut rows = Vec::new(alloc);
    for number in 0..signals.len() {
        let row = row_by(drivers, number, &signals[number])?;
        rows.push(row)?;
    }
    Ok(rows)
}

/// The drivers of the signals of both kinds.
#[derive(Drop)]
struct Drivers {
    signals: Vec<Driver>,
    events: Vec<Driver>,
}

fn drivers_in(
    alloc: Global,
    roles: &[Role],
    tables: &Tables,
    ports: &[PortRow],
) -> Result<Drivers, Memory>
    ensures { IfOk result (λ all. AreAllDrivers (writers_in roles.now tables.now ports.now) tables.now all.signals.items all.events.items) }
{
    let writers = writers_to(alloc, false, roles, &tables.instances, ports)?;
    let event_writers = writers_to(alloc, true, roles, &tables.instances, ports)?;
    Ok(Drivers {
        signals: drivers_of(alloc, tables.signals.len(), &writers)?,
        events: drivers_of(alloc, tables.event_signals.len(), &event_writers)?,
    })
}

fn fault_in(all: &Drivers, tables: &Tables) -> Option<DriverFault>
    ensures { result ≡ slice_get (filter_map (fault_by all.now.signals.items all.now.events.items) tables.now.order) 0 }
{
    first_fault(&all.signals, &all.events, &tables.order)
}

fn signals_in(alloc: Global, all: &Drivers, tables: &Tables) -> Result<Signals, Memory>
    ensures { IfOk result (λ signals. signals ≡ signals_by all.now.signals.items all.now.events.items tables.now) }
{
    Ok(Signals {
        signals: rows_by(alloc, &all.signals, &tables.signals)?,
        de_signals: rows_by(alloc, &all.events, &tables.event_signals)?,
    })
}

/// The signals of a model, each with the port of a module that drives it.
///
/// # Errors
/// The first signal in preorder that has no driver where it needs one, or several; or out of memory.
pub fn connect(
    alloc: Global,
    roles: &[Role],
    tables: &Tables,
    ports: &[PortRow],
) -> Result<Signals, DriverErr>
    requires in_range { All (IsInRange tables.now) tables.now.order }
    ensures signals { IfOk result (AreSignals (writers_in roles.now tables.now ports.now)
        tables.now.signals tables.now.event_signals) }
    ensures fine { OnOk result (misdriven roles.now tables.now ports.now ≡ []) }
    ensures refused { IfErr result (IsDriverRefusal (misdriven roles.now tables.now ports.now)) }
{
    let all = drivers_in(alloc, roles, tables, ports)?;
    if let Some(fault) = fault_in(&all, tables) {
        return Err(DriverErr::Refused(fault));
    }
    Ok(signals_in(alloc, &all, tables)?)
}
