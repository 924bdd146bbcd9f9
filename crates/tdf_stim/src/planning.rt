//! The driven tree.

ghost use Rattle.std.specs.Prelude.{◌≡◌, ◌<◌, IfErr, IfOk, OnOk, Some, None, length, map};
ghost use Rattle.tdf_lang_parser.specs.Formed.{IsFormed};
ghost use Rattle.tdf_lang_tree.specs.Kept.{IsKept};
ghost use Rattle.tdf_lang_tree.specs.Views.{pure_de, pure_tree};
ghost use Rattle.tdf_stim.specs.Drivable.{IsDrivable, IsStimRefusal, first_row_line, is_off};
ghost use Rattle.tdf_stim.specs.Driven.{driven_tree, with_parts};
ghost use Rattle.tdf_stim.specs.Driver.{counts};
ghost use Rattle.tdf_stim.specs.Signals.{columns_from, ignored_labels, sources_of};
ghost use Rattle.tdf_stim.specs.machine.Counted.{count_driving};
ghost use Rattle.tdf_stim.specs.machine.Maps.{seen};
ghost use Rattle.tdf_stim.specs.machine.Planned.{AreFine, HasParts, IsDriver, IsRefusal, finished_tree};
ghost use Rattle.tdf_stim.specs.machine.Refused.{IsMemory, IsTime};
ghost use Rattle.tdf_stim_lines.specs.Numbered.{numbered};
ghost use Rattle.tdf_tables.specs.Rows.{row_of};
ghost use Rattle.tdf_tables.specs.Tables.{IsTableForm};

use crate::checks::{check_digits, count_driving, is_too_large, times};
use crate::driver::{Driver, make_driver};
use crate::err::StimErr;
use crate::names::driver_name;
use crate::signals::{Columns, Source};
use std::alloc::Global;
use tdf_base::{Memory, Name};
use tdf_lang_tree::{Global1, Tree};
use tdf_stim_lines::number_lines;
use tdf_tables::{Row, Table};

/// A tree whose event signals a table drives.
#[derive(Drop)]
pub struct Driven {
    /// The tree with the driver.
    pub tree: Tree,
    /// The labels of the columns that are ignored, in order.
    pub ignored: Vec<Name>,
}

/// What is made of a tree and a table, before the tree is changed.
#[derive(Drop)]
struct Plan {
    ignored: Vec<Name>,
    driver: Option<Driver>,
}

/// The driver for these columns, of which some drive.
fn made(
    alloc: Global,
    tree: &Tree,
    sources: &[Option<Source>],
    rows: &[Row],
    times: &[u64],
) -> Result<Driver, Memory>
    requires some { 0 < length rows.now }
    requires same { length times.now ≡ length rows.now }
    requires driven { 0 < count_driving (map seen sources.now) }
    ensures { IfOk result (λ d. HasParts (pure_tree tree.now)
        (columns_from (map row_of rows.now) 0 (map seen sources.now)) times.now d) }
{
    let name = driver_name(alloc, tree)?;
    make_driver(alloc, name, sources, rows, times)
}

/// The driver for these columns, where one of them drives.
fn plan_parts(
    alloc: Global,
    tree: &Tree,
    sources: &[Option<Source>],
    rows: &[Row],
    times: &[u64],
) -> Result<Option<Driver>, Memory>
    requires some { 0 < length rows.now }
    requires times { times.now ≡ map (λ row. counts tree.now.resolution row.time) (map row_of rows.now) }
    ensures { IfOk result (λ driver. IsDriver (pure_tree tree.now) (map seen sources.now) (map row_of rows.now) driver) }
{
    if count_driving(sources) == 0 {
        return Ok(None);
    }
    match made(alloc, tree, sources, rows, times) {
        Ok(driver) => Ok(Some(driver)),
        Err(refused) => Err(refused),
    }
}

/// The same, where the times are counts.
fn plan_times(
    alloc: Global,
    tree: &Tree,
    sources: &[Option<Source>],
    rows: &[Row],
) -> Result<Option<Driver>, StimErr>
    requires { 0 < length rows.now }
    ensures planned { IfOk result (λ driver. IsDriver (pure_tree tree.now) (map seen sources.now) (map row_of rows.now) driver) }
    ensures on { OnOk result (first_row_line (λ row. is_off tree.now.resolution row.time) (map row_of rows.now) ≡ None) }
    ensures refused { IfErr result (IsTime (first_row_line (λ row. is_off tree.now.resolution row.time) (map row_of rows.now))) }
{
    match times(alloc, tree.resolution, rows) {
        Ok(times) => match plan_parts(alloc, tree, sources, rows, times.as_slice()) {
            Ok(driver) => Ok(driver),
            Err(_) => Err(StimErr::Memory),
        },
        Err(why) => Err(why),
    }
}

/// The driver for these columns, where one of them drives, or why they can't.
fn plan_driver(
    alloc: Global,
    tree: &Tree,
    sources: &[Option<Source>],
    rows: &[Row],
) -> Result<Option<Driver>, StimErr>
    requires { 0 < length rows.now }
    ensures planned { IfOk result (λ driver. IsDriver (pure_tree tree.now) (map seen sources.now) (map row_of rows.now) driver) }
    ensures fine { OnOk result (AreFine (pure_tree tree.now) (map seen sources.now) (map row_of rows.now)) }
    ensures refused { IfErr result (IsRefusal (pure_tree tree.now) (map seen sources.now) (map row_of rows.now)) }
{
    if is_too_large(rows.len(), count_driving(sources)) {
        return Err(StimErr::TooMany);
    }
    match check_digits(sources, rows) {
        Ok(()) => plan_times(alloc, tree, sources, rows),
        Err(why) => Err(why),
    }
}

/// What is made of a tree and a table, or why they don't go together.
fn plan_tree(alloc: Global, tree: &Tree, table: &Table) -> Result<Plan, StimErr>
    requires { IsTableForm table.now }
    ensures ignored { IfOk result (λ plan. plan.ignored.items ≡ ignored_labels (pure_tree tree.now) table.now) }
    ensures planned { IfOk result (λ plan. IsDriver (pure_tree tree.now) (sources_of (pure_tree tree.now) table.now) table.now.rows plan.driver) }
    ensures fine { OnOk result (IsDrivable (pure_tree tree.now) table.now) }
    ensures refused { IfErr result (IsStimRefusal (pure_tree tree.now) table.now) }
{
    match Columns::of(alloc, tree, table.labels()) {
        Ok(columns) => {
            let Columns { sources, ignored } = columns;
            match plan_driver(alloc, tree, sources.as_slice(), table.rows()) {
                Ok(driver) => Ok(Plan { ignored, driver }),
                Err(why) => {
                    drop(ignored);
                    Err(why)
                }
            }
        }
        Err(_) => Err(StimErr::Memory),
    }
}

/// The tree with a block after the last global and with lines at the end of `top`, numbered.
fn add_driver(tree: &mut Tree, driver: Driver) -> Result<(), Memory>
    ensures { OnOk result (pure_tree tree.new
        ≡ numbered (with_parts (pure_tree tree.old) (pure_de driver.block) driver.members.items)) }
{
    let Driver { block, mut members } = driver;
    match tree.top.members.append(&mut members) {
        Ok(()) => drop(members),
        Err(refused) => {
            drop(members);
            drop(block);
            return Err(Memory::from(refused));
        }
    }
    tree.globals.push(Global1::De(block))?;
    number_lines(tree)
}

/// The tree with its driver, where there is one.
fn finished(tree: Tree, ignored: Vec<Name>, driver: Option<Driver>) -> Result<Driven, StimErr>
    ensures tree { IfOk result (λ d. pure_tree d.tree ≡ finished_tree (pure_tree tree) driver) }
    ensures ignored { IfOk result (λ d. d.ignored.items ≡ ignored.items) }
    ensures memory { IfErr result (λ e. IsMemory e) }
{
    match driver {
        None => Ok(Driven { tree, ignored }),
        Some(driver) => {
            let mut tree = tree;
            match add_driver(&mut tree, driver) {
                Ok(()) => Ok(Driven { tree, ignored }),
                Err(_) => {
                    drop(tree);
                    drop(ignored);
                    Err(StimErr::Memory)
                }
            }
        }
    }
}

/// The tree of a model whose event signals a table drives: a column drives the event signal of `top` whose name its label is. A
/// block is added after the last global, and its instance with its `bind` lines at the end of `top`; lines are numbered as in
/// the canonical text. Where no column drives, the tree stays as it is.
///
/// # Errors
/// The first of these: `TooMany` exactly where a column drives and there are more than 4,096 rows, or the driver would be
/// heavier than a body may be; `Digits` exactly with the first line that has a driving cell of more than 18 digits on one side
/// of its point; `Time` exactly with the first line whose time is no whole count of the tree's resolution below 10^18. Else
/// `Memory`: out of memory.
pub fn drive(alloc: Global, tree: Tree, table: &Table) -> Result<Driven, StimErr>
    requires kept { IsKept (pure_tree tree) }
    requires formed { IsFormed (pure_tree tree) }
    requires table { IsTableForm table.now }
    ensures driven { IfOk result (λ d. pure_tree d.tree ≡ driven_tree (pure_tree tree) table.now) }
    ensures ignored { IfOk result (λ d.
        d.ignored.items ≡ ignored_labels (pure_tree tree) table.now) }
    ensures kept { IfOk result (λ d. IsKept (pure_tree d.tree)) }
    ensures formed { IfOk result (λ d. IsFormed (pure_tree d.tree)) }
    ensures refused { IfErr result (IsStimRefusal (pure_tree tree) table.now) }
    ensures always { OnOk result (IsDrivable (pure_tree tree) table.now) }
{
    match plan_tree(alloc, &tree, table) {
        Ok(plan) => {
            let Plan { ignored, driver } = plan;
            finished(tree, ignored, driver)
        }
        Err(why) => {
            drop(tree);
            Err(why)
        }
    }
}
