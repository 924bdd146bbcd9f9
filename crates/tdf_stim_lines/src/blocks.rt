//! Blocks and their parts.

ghost use Rattle.std.specs.Prelude.{◌≡◌, ◌≤◌, ◌<◌, ◌+◌, ◌==◌, ◌&&◌, length, map};
ghost use Rattle.tdf_lang_printer.specs.Canon.{global_lines, process_lines};
ghost use Rattle.tdf_lang_tree.specs.Views.{pure_body, pure_composite, pure_de, pure_global, pure_process, pure_tdf};
ghost use Rattle.tdf_stim_lines.specs.Numbered.{composite_at, de_at, global_at, parts_at, process_at, tdf_at};
ghost use Rattle.tdf_stim_lines.specs.machine.Walk.{Walks, attributes_at, attributes_size, beginning_at, beginning_size, composite_size, de_size, dont_size, global_size, globals_size, last_number, part_at, part_size, process_size, processes_size, tdf_size};

use crate::lines::{
    number_attrs, number_de_lines, number_initials, number_members, number_senses, number_tdf_lines,
};
use crate::stmts::number_body;
use tdf_lang_tree::{Attr, Composite, DeDecl, Global1, Initial, Process, Stmt, Stmts, TdfDecl};

/// Numbers `set_attributes`, which has no line where it is empty.
fn number_attributes(list: &mut Vec<Attr>, at: u32) -> u32
    ensures { Walks attributes_size attributes_at at result list.old.items list.new.items }
{
    if list.is_empty() {
        return at;
    }
    let end = number_attrs(list, at.saturating_add(1));
    end.saturating_add(1)
}

/// Whether `initialize` is empty: without initial samples and without statements.
fn is_unbegun(initials: &Vec<Initial>, list: &Vec<Stmt>) -> bool
    ensures { result ≡ ((length initials.now.items == 0) && (length list.now.items == 0)) }
{
    initials.is_empty() && list.is_empty()
}

/// Numbers `initialize`, which has no line where it is empty.
fn number_initialize(initials: &mut Vec<Initial>, body: &mut Stmts, at: u32) -> u32
    ensures { Walks beginning_size beginning_at at result
        (record { initials = initials.old.items; body = pure_body body.old })
        (record { initials = initials.new.items; body = pure_body body.new }) }
{
    if is_unbegun(initials, &body.list) {
        body.end = 0;
        return at;
    }
    let first = number_initials(initials, at.saturating_add(1));
    let end = number_body(body, first);
    end.saturating_add(1)
}

/// Numbers a part of a `tdf` block, which has no line where it is empty.
fn number_part(body: &mut Stmts, at: u32) -> u32
    ensures { Walks part_size part_at at result (pure_body body.old) (pure_body body.new) }
{
    if body.list.is_empty() {
        body.end = 0;
        return at;
    }
    let end = number_body(body, at.saturating_add(1));
    end.saturating_add(1)
}

fn number_tdf(block: &mut TdfDecl, at: u32) -> u32
    ensures { Walks tdf_size tdf_at at result (pure_tdf block.old) (pure_tdf block.new) }
{
    block.line = at;
    let attributes = number_tdf_lines(&mut block.decls, at.saturating_add(1));
    let initialize = number_attributes(&mut block.attrs, attributes);
    let processing = number_initialize(&mut block.initials, &mut block.initialize, initialize);
    let change = number_part(&mut block.processing, processing);
    let reinitialize = number_part(&mut block.change, change);
    let end = number_part(&mut block.reinitialize, reinitialize);
    end.saturating_add(1)
}

/// The line after `dont_initialize`, which is there where a process doesn't run at the start.
fn after_dont(starts: bool, at: u32) -> u32
    ensures later { at ≤ result }
    ensures next { result < last_number → result ≡ at + dont_size starts }
{
    if starts {
        return at;
    }
    at.saturating_add(1)
}

fn number_process(process: &mut Process, at: u32) -> u32
    ensures { Walks process_size process_at at result (pure_process process.old) (pure_process process.new) }
{
    process.line = at;
    let dont = number_senses(&mut process.sensitive, at.saturating_add(1));
    let first = after_dont(process.starts, dont);
    let end = number_body(&mut process.body, first);
    end.saturating_add(1)
}

fn number_processes(list: &mut Vec<Process>, at: u32) -> u32
    ensures { Walks processes_size (parts_at process_lines process_at) at result (map pure_process list.old.items) (map pure_process list.new.items) }
{
    let mut next = at;
    for i in 0..list.len() {
        next = number_process(&mut list[i], next);
    }
    next
}

fn number_de(block: &mut DeDecl, at: u32) -> u32
    ensures { Walks de_size de_at at result (pure_de block.old) (pure_de block.new) }
{
    block.line = at;
    let processes = number_de_lines(&mut block.decls, at.saturating_add(1));
    let end = number_processes(&mut block.processes, processes);
    end.saturating_add(1)
}

/// Numbers a `composite` block, or `top`.
pub(crate) fn number_composite(block: &mut Composite, at: u32) -> u32
    ensures { Walks composite_size composite_at at result (pure_composite block.old) (pure_composite block.new) }
{
    block.line = at;
    let end = number_members(&mut block.members, at.saturating_add(1));
    end.saturating_add(1)
}

fn number_global(global: &mut Global1, at: u32) -> u32
    ensures { Walks global_size global_at at result (pure_global global.old) (pure_global global.new) }
{
    match global {
        Global1::Shape(shape) => {
            shape.line = at;
            at.saturating_add(1)
        }
        Global1::Tdf(block) => number_tdf(block, at),
        Global1::De(block) => number_de(block, at),
        Global1::Net(block) => number_composite(block, at),
    }
}

/// Numbers the declarations before `top`.
pub(crate) fn number_globals(list: &mut Vec<Global1>, at: u32) -> u32
    ensures { Walks globals_size (parts_at global_lines global_at) at result (map pure_global list.old.items) (map pure_global list.new.items) }
{
    let mut next = at;
    for i in 0..list.len() {
        next = number_global(&mut list[i], next);
    }
    next
}
