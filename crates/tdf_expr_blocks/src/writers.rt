//! Event ports that two processes of a block assign.

ghost use Rattle.std.specs.Option.{option_map};
ghost use Rattle.std.specs.Prelude.{◌≡◌, ◌&&◌, [], map, OnOk};
ghost use Rattle.tdf_expr_blocks.specs.Writers.{assigned, assigned_all, is_output, writer_faults};
ghost use Rattle.tdf_expr_blocks.specs.machine.Written.{agains, has, later, with_all, with_one};
ghost use Rattle.tdf_base.specs.First.{least_with};
ghost use Rattle.tdf_expr_symbols.specs.Names.{thing_of};
ghost use Rattle.tdf_expr_symbols.specs.Seen.{seen};
ghost use Rattle.tdf_lang_tree.specs.Views.{pure_process, pure_stmt, pure_stmts};

use indexmap::IndexSet;
use std::alloc::Global;
use std::marker::Model;
use tdf_base::{Code, LineFault, Memory, noted};
use tdf_expr_symbols::{Scope, Thing};
use tdf_lang_tree::{PortKind, Process, Stmt};

/// The names that processes assign.
#[derive(Drop)]
struct Written<'t> {
    set: IndexSet<&'t [u8]>,
}

impl<'t> Model for Written<'t> {
    ghost use Rattle.std.specs.Prelude.{List, ℕ, map};

    ghost Value = { List (List ℕ) };

    ghost view = { λ a. map (λ k. k.now) a.set.keys };
}

impl<'t> Written<'t> {
    fn new(alloc: Global) -> Written<'t>
        ensures { result ≡ [] }
    {
        Written {
            set: IndexSet::new(alloc),
        }
    }

    fn has(&self, name: &[u8]) -> bool
        ensures { result ≡ has self.now name.now }
    {
        self.set.contains(name)
    }

    fn add(&mut self, name: &'t [u8]) -> Result<(), Memory>
        ensures { OnOk result (self.new ≡ with_one self.old name.entry.now) }
    {
        self.set.insert_full(name)?;
        Ok(())
    }
}

/// Whether what a name stands for is a `de_out` port.
fn is_output(thing: Option<Thing>) -> bool
    ensures { result ≡ is_output (option_map seen thing.entry) }
{
    match thing {
        Some(Thing::Port(PortKind::DeOut, _, _, _)) => true,
        _ => false,
    }
}

/// Whether an assignment is of an event port that is written already.
fn is_again(scope: &Scope, written: &Written, name: &[u8]) -> bool
    ensures { result ≡ (is_output (thing_of scope.now.own name.now) && has written.now name.now) }
{
    is_output(scope.own(name)) && written.has(name)
}

/// Notes where statements assign an event port that is written already.
#[cycle(note)]
#[tactic(auto, using(crate::proofs::Writing::note_laws))]
fn note_stmt(first: &mut Option<LineFault>, scope: &Scope, written: &Written, s: &Stmt)
    ensures { first.new ≡ least_with first.old
        (agains scope.now.own written.now (assigned (pure_stmt s.now))) }
{
    match s {
        Stmt::Assign { line, name, .. } => {
            let again = is_again(scope, written, name.as_bytes());
            *first = noted(*first, again, Code::Writers, *line);
        }
        Stmt::If { yes, no, .. } => {
            note_stmts(first, scope, written, yes);
            note_stmts(first, scope, written, no);
        }
        Stmt::For { body, .. } => note_stmts(first, scope, written, body),
        Stmt::Notify { .. } => {}
        Stmt::SetRate { .. } => {}
        Stmt::SetStep { .. } => {}
        Stmt::Accept { .. } => {}
        Stmt::Reject { .. } => {}
    }
}

#[cycle(note)]
#[tactic(auto, using(crate::proofs::Writing::note_laws))]
fn note_stmts(first: &mut Option<LineFault>, scope: &Scope, written: &Written, list: &Vec<Stmt>)
    ensures { first.new ≡ least_with first.old
        (agains scope.now.own written.now (assigned_all (pure_stmts list.now.items))) }
{
    for stmt in list {
        note_stmt(first, scope, written, stmt);
    }
}

/// Adds the names that statements assign.
#[cycle(gather)]
#[tactic(auto, using(crate::proofs::Writing::gather_laws))]
fn gather_stmt<'t>(written: &mut Written<'t>, s: &'t Stmt) -> Result<(), Memory>
    ensures { OnOk result (written.new ≡ with_all written.old (assigned (pure_stmt s.entry.now))) }
{
    match s {
        Stmt::Assign { name, .. } => written.add(name.as_bytes()),
        Stmt::If { yes, no, .. } => {
            gather_stmts(written, yes)?;
            gather_stmts(written, no)
        }
        Stmt::For { body, .. } => gather_stmts(written, body),
        Stmt::Notify { .. } => Ok(()),
        Stmt::SetRate { .. } => Ok(()),
        Stmt::SetStep { .. } => Ok(()),
        Stmt::Accept { .. } => Ok(()),
        Stmt::Reject { .. } => Ok(()),
    }
}

#[cycle(gather)]
#[tactic(auto, using(crate::proofs::Writing::gather_laws))]
fn gather_stmts<'t>(written: &mut Written<'t>, list: &'t Vec<Stmt>) -> Result<(), Memory>
    ensures { OnOk result (written.new ≡ with_all written.old (assigned_all (pure_stmts list.entry.now.items))) }
{
    for stmt in list {
        gather_stmt(written, stmt)?;
    }
    Ok(())
}

#[tactic(auto, using(crate::proofs::Writing::process_laws))]
fn note_processes<'t>(
    first: &mut Option<LineFault>,
    scope: &Scope,
    written: &mut Written<'t>,
    processes: &'t Vec<Process>,
) -> Result<(), Memory>
    ensures { OnOk result (first.new ≡ least_with first.old
        (later scope.now.own written.old (map pure_process processes.entry.now.items))) }
{
    for process in processes {
        note_stmts(first, scope, written, &process.body.list);
        gather_stmts(written, &process.body.list)?;
    }
    Ok(())
}

/// Notes where a process assigns an event port that an earlier one of the same block assigns.
///
/// # Errors
/// Out of memory.
#[tactic(auto, using(crate::proofs::WritersOf::none_written))]
pub fn note_writers(
    alloc: Global,
    first: &mut Option<LineFault>,
    scope: &Scope,
    processes: &Vec<Process>,
) -> Result<(), Memory>
    ensures { OnOk result (first.new ≡ least_with first.old
        (writer_faults scope.now.own [] (map pure_process processes.now.items))) }
{
    let mut written = Written::new(alloc);
    note_processes(first, scope, &mut written, processes)
}
