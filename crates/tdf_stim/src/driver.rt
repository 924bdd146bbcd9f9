//! The block of the driver, its instance and its `bind` lines.

ghost use Rattle.std.specs.Prelude.{◌≡◌, ◌<◌, ◌^◌, ◌∷◌, [], ◌++◌, IfOk, OnOk, length, map};
ghost use Rattle.tdf_lang_tree.specs.Views.{pure_de, pure_de_line, pure_process};
ghost use Rattle.tdf_lang_tree.specs.declared.blocks.Member.TheVariants as member;
ghost use Rattle.tdf_stim.specs.Driver.{bind_line, bind_lines, columns_lines, count_line, driver_block, driver_members, driver_process, event_line, event_numbers, event_sense};
ghost use Rattle.tdf_stim.specs.Signals.{columns_from};
ghost use Rattle.tdf_stim.specs.machine.Cells.{number_after};
ghost use Rattle.tdf_stim.specs.machine.Counted.{added_binds, labels_in};
ghost use Rattle.tdf_stim.specs.machine.Maps.{seen};
ghost use Rattle.tdf_tables.specs.Rows.{row_of};

use crate::checks::count_driving;
use crate::columns::push_columns;
use crate::names::name_with;
use crate::signals::Source;
use crate::statements::driver_body;
use crate::types::count_shape;
use std::alloc::Global;
use tdf_base::{Digits, Memory, Name};
use tdf_lang_tree::{DeDecl, DeLine, FormatRef, Lit, Member, Process, Sense, Stmts, Store};
use tdf_tables::Row;

/// `var k fixed 16 16`
fn count_line(alloc: Global) -> Result<DeLine, Memory>
    ensures { IfOk result (λ line. pure_de_line line ≡ count_line) }
{
    let name = Name::copied(alloc, b"k")?;
    let digits = Digits::copied(alloc, b"0")?;
    Ok(DeLine::Store(Store::Var {
        line: 0,
        name,
        format: FormatRef::Own(count_shape()),
        value: Lit {
            minus: false,
            digits,
        },
    }))
}

/// The events, one for each row but the first.
fn push_events(alloc: Global, lines: &mut Vec<DeLine>, rows: usize) -> Result<(), Memory>
    requires { 0 < rows }
    ensures { OnOk result (map pure_de_line lines.new.items
        ≡ map pure_de_line lines.old.items ++ map event_line (event_numbers rows)) }
{
    for number in 1..rows {
        lines.push(DeLine::Event {
            line: 0,
            name: name_with(alloc, b"e", number)?,
        })?;
    }
    Ok(())
}

/// The `sensitive` lines, one for each event.
fn senses(alloc: Global, rows: usize) -> Result<Vec<Sense>, Memory>
    requires { 0 < rows }
    ensures { IfOk result (λ list. list.items ≡ map event_sense (event_numbers rows)) }
{
    let mut list = Vec::new(alloc);
    for number in 1..rows {
        list.push(Sense {
            line: 0,
            name: name_with(alloc, b"e", number)?,
        })?;
    }
    Ok(list)
}

/// The process, which is sensitive to all events.
fn driver_process(alloc: Global, columns: usize, times: &[u64]) -> Result<Process, Memory>
    requires { 0 < length times.now }
    ensures { IfOk result (λ p. pure_process p ≡ driver_process columns times.now) }
{
    let sensitive = senses(alloc, times.len())?;
    let list = driver_body(alloc, columns, times)?;
    Ok(Process {
        line: 0,
        sensitive,
        starts: true,
        body: Stmts { list, end: 0 },
    })
}

/// The lines before the process.
fn driver_lines(
    alloc: Global,
    sources: &[Option<Source>],
    rows: &[Row],
) -> Result<Vec<DeLine>, Memory>
    requires { 0 < length rows.now }
    ensures { IfOk result (λ lines. map pure_de_line lines.items
        ≡ columns_lines 0 (columns_from (map row_of rows.now) 0 (map seen sources.now))
        ++ (count_line ∷ map event_line (event_numbers (length rows.now)))) }
{
    let mut lines = Vec::new(alloc);
    push_columns(alloc, &mut lines, sources, rows)?;
    lines.push(count_line(alloc)?)?;
    push_events(alloc, &mut lines, rows.len())?;
    Ok(lines)
}

/// The block.
fn driver_block(
    alloc: Global,
    name: Name,
    lines: Vec<DeLine>,
    process: Process,
) -> Result<DeDecl, Memory>
    ensures { IfOk result (λ block. pure_de block ≡ record {
      line = 0;
      name = name;
      decls = map pure_de_line lines.items;
      processes = pure_process process ∷ [];
    }) }
{
    let mut processes = Vec::new(alloc);
    match processes.push(process) {
        Ok(()) => Ok(DeDecl {
            line: 0,
            name,
            decls: lines,
            processes,
        }),
        Err(refused) => {
            drop(name);
            drop(lines);
            drop(processes);
            Err(Memory::from(refused))
        }
    }
}

/// `bind NAME.qJ LABEL`
fn bind_line(alloc: Global, name: &Name, number: usize, label: &[u8]) -> Result<Member, Memory>
    ensures { IfOk result (λ member. member ≡ bind_line name.now number label.now) }
{
    let instance = Name::copied(alloc, name.as_bytes())?;
    let port = name_with(alloc, b"q", number)?;
    let target = Name::copied(alloc, label)?;
    Ok(Member::Bind {
        line: 0,
        instance,
        port,
        target,
    })
}

/// The instance of the block.
fn instance_line(alloc: Global, name: &Name) -> Result<Member, Memory>
    ensures { IfOk result (λ line. line ≡ member.Instance 0 name.now name.now) }
{
    let instance = Name::copied(alloc, name.as_bytes())?;
    let block = Name::copied(alloc, name.as_bytes())?;
    Ok(Member::Instance {
        line: 0,
        name: instance,
        block,
    })
}

/// The `bind` line of a column, where it drives. Says the number of the next column that does.
fn add_bind(
    alloc: Global,
    lines: &mut Vec<Member>,
    name: &Name,
    number: usize,
    source: &Option<Source>,
) -> Result<usize, Memory>
    requires { number < 2 ^ 62 }
    ensures lines { OnOk result (lines.new.items ≡ lines.old.items ++ added_binds name.now number (seen source.now)) }
    ensures number { IfOk result (λ next. next ≡ number_after number (seen source.now)) }
{
    match source {
        None => Ok(number),
        Some(source) => {
            lines.push(bind_line(alloc, name, number, source.label)?)?;
            Ok(number + 1)
        }
    }
}

/// The `bind` lines of all columns that drive.
fn push_binds(
    alloc: Global,
    lines: &mut Vec<Member>,
    name: &Name,
    sources: &[Option<Source>],
) -> Result<(), Memory>
    ensures { OnOk result (lines.new.items ≡ lines.old.items ++ bind_lines name.now 0 (labels_in (map seen sources.now))) }
{
    let mut number = 0;
    for source in sources {
        number = add_bind(alloc, lines, name, number, source)?;
    }
    Ok(())
}

/// The instance of the block, and its `bind` lines.
fn driver_members(
    alloc: Global,
    name: &Name,
    sources: &[Option<Source>],
) -> Result<Vec<Member>, Memory>
    ensures { IfOk result (λ lines. lines.items
        ≡ member.Instance 0 name.now name.now ∷ bind_lines name.now 0 (labels_in (map seen sources.now))) }
{
    let mut lines = Vec::new(alloc);
    lines.push(instance_line(alloc, name)?)?;
    push_binds(alloc, &mut lines, name, sources)?;
    Ok(lines)
}

/// What drives a model: a block, and lines at the end of `top`.
#[derive(Drop)]
pub(crate) struct Driver {
    pub(crate) block: DeDecl,
    pub(crate) members: Vec<Member>,
}

/// The driver for these columns, rows and times.
///
/// # Errors
/// Out of memory.
pub(crate) fn make_driver(
    alloc: Global,
    name: Name,
    sources: &[Option<Source>],
    rows: &[Row],
    times: &[u64],
) -> Result<Driver, Memory>
    requires some { 0 < length rows.now }
    requires same { length times.now ≡ length rows.now }
    ensures block { IfOk result (λ d. pure_de d.block
        ≡ driver_block name (columns_from (map row_of rows.now) 0 (map seen sources.now)) times.now) }
    ensures members { IfOk result (λ d. d.members.items
        ≡ driver_members name (columns_from (map row_of rows.now) 0 (map seen sources.now))) }
{
    let members = driver_members(alloc, &name, sources)?;
    let lines = driver_lines(alloc, sources, rows)?;
    let process = driver_process(alloc, count_driving(sources), times)?;
    let block = driver_block(alloc, name, lines, process)?;
    Ok(Driver { block, members })
}
