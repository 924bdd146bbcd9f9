//! A line in a body.

ghost use Rattle.std.specs.Option.{option_map};
ghost use Rattle.std.specs.Prelude.{IfOk, List, OnOk, Some, [], length, map, nat_lt, ℕ, ◌++◌, ◌∷◌, ◌≡◌};
ghost use Rattle.tdf_lang_parser.specs.Faults.{kind_of_body};
ghost use Rattle.tdf_lang_lines.specs.FormViews.{pure_form};
ghost use Rattle.tdf_lang_parser.specs.Items.{stmt_of};
ghost use Rattle.tdf_lang_parser.specs.views.PlaceViews.{body_turn, shown_frame, shown_frames};
ghost use Rattle.tdf_lang_parser.specs.views.Kinds.{pure_kind};
ghost use Rattle.tdf_lang_parser.specs.machine.Places.{Owner, PBody, else_body, end_body, goes_body, head_body, more_body, part_of};
ghost use Rattle.tdf_lang_parser.specs.machine.Places as machine;
ghost use Rattle.tdf_lang_parser.specs.SpellsTree.{body_with, deepest};
ghost use Rattle.tdf_lang_tree.specs.Pure.{SIf};
ghost use Rattle.tdf_lang_tree.specs.Views.{pure_body, pure_expr, pure_stmt, sts};

use crate::items::{change_stmt, plain_stmt, process_stmt};
use crate::places::{Frame, Turn};
use std::alloc::Global;
use std::mem;
use tdf_base::{DEEPEST_NESTING, Memory};
use tdf_lang_lines::LineForm;
use tdf_lang_tree::{Expr, Stmt, Stmts};

/// Which statements a body may have beside those of each body.
#[derive(Clone, Copy, PartialEq, Eq)]
pub(crate) enum BodyKind {
    Plain,
    Change,
    Process,
}

/// A whole body, with the line of its `end`.
pub(crate) fn body_of(list: Vec<Stmt>, line: u32) -> Stmts
    ensures { pure_body result ≡ body_with (map pure_stmt list.items) line }
{
    if list.is_empty() {
        return Stmts { list, end: 0 };
    }
    Stmts { list, end: line }
}

/// One statement more.
fn push(list: &mut Vec<Stmt>, stmt: Stmt) -> Result<(), Memory>
    ensures { OnOk result (map pure_stmt list.new.items ≡ map pure_stmt list.old.items ++ pure_stmt stmt ∷ []) }
{
    match list.push(stmt) {
        Ok(()) => Ok(()),
        Err(failed) => Err(Memory::from(failed)),
    }
}

#[tactic(auto, using(crate::proofs::StmtLaws::stmt_laws))]
fn choice(line: u32, test: Expr, yes: Vec<Stmt>, no: Vec<Stmt>) -> Stmt
    ensures { pure_stmt result ≡ SIf line (pure_expr test) (sts (map pure_stmt yes.items)) (sts (map pure_stmt no.items)) }
{
    Stmt::If {
        line,
        test,
        yes,
        no,
    }
}

/// A block that ends, as a statement after those before it.
#[tactic(auto, using(crate::proofs::StmtLaws::stmt_laws))]
fn close(alloc: Global, frame: Frame, list: &mut Vec<Stmt>) -> Result<(), Memory>
    ensures { (o : Owner) (n : ℕ) (fs : List machine.Frame) → OnOk result (PBody o fs (map pure_stmt list.new.items)
        ≡ end_body o n (shown_frame frame ∷ fs) (map pure_stmt list.old.items)) }
{
    match frame {
        Frame::If(head, test, before) => {
            let yes = mem::replace(list, before);
            push(list, choice(head, test, yes, Vec::new(alloc)))
        }
        Frame::Else(head, test, yes, before) => {
            let no = mem::replace(list, before);
            push(list, choice(head, test, yes, no))
        }
        Frame::For(head, var, from, limit, before) => {
            let body = mem::replace(list, before);
            push(
                list,
                Stmt::For {
                    line: head,
                    var,
                    from,
                    limit,
                    body,
                },
            )
        }
    }
}

#[tactic(auto, using(crate::proofs::StmtLaws::frame_laws))]
fn end_body(alloc: Global, frames: &mut Vec<Frame>, list: &mut Vec<Stmt>) -> Result<Turn, Memory>
    ensures { (o : Owner) (n : ℕ) → IfOk result (λ t. body_turn t o n (shown_frames frames.new.items) (map pure_stmt list.new.items)
        ≡ end_body o n (shown_frames frames.old.items) (map pure_stmt list.old.items)) }
{
    match frames.pop() {
        None => Ok(Turn::Ends),
        Some(frame) => match close(alloc, frame, list) {
            Ok(()) => Ok(Turn::Stays),
            Err(refused) => Err(refused),
        },
    }
}

/// Whether one more `if` or `for` may come inside.
#[tactic(auto, using(crate::proofs::StmtLaws::frames_length))]
fn has_room(frames: &Vec<Frame>) -> bool
    ensures { result ≡ nat_lt (length (shown_frames frames.now.items)) deepest }
{
    frames.len() < DEEPEST_NESTING
}

/// An `if` or `for` more is open.
#[tactic(auto, using(crate::proofs::StmtLaws::frames_push))]
fn open(frames: &mut Vec<Frame>, frame: Frame) -> Result<Turn, Memory>
    ensures { (o : Owner) (n : ℕ) → IfOk result (λ t. body_turn t o n (shown_frames frames.new.items) []
        ≡ PBody o (shown_frame frame ∷ shown_frames frames.old.items) []) }
{
    match frames.push(frame) {
        Ok(()) => Ok(Turn::Stays),
        Err(failed) => Err(Memory::from(failed)),
    }
}

#[tactic(auto, using(crate::proofs::StmtLaws::frame_laws))]
fn else_body(alloc: Global, frames: &mut Vec<Frame>, list: &mut Vec<Stmt>) -> Result<Turn, Memory>
    ensures { (o : Owner) (n : ℕ) → IfOk result (λ t. body_turn t o n (shown_frames frames.new.items) (map pure_stmt list.new.items)
        ≡ else_body o (shown_frames frames.old.items) (map pure_stmt list.old.items)) }
{
    match frames.pop() {
        Some(Frame::If(head, test, before)) => {
            let yes = mem::replace(list, Vec::new(alloc));
            open(frames, Frame::Else(head, test, yes, before))
        }
        Some(other) => {
            drop(other);
            Ok(Turn::Lost)
        }
        None => Ok(Turn::Lost),
    }
}

fn head_body(frames: &mut Vec<Frame>, frame: Frame) -> Result<Turn, Memory>
    ensures { (o : Owner) (n : ℕ) → IfOk result (λ t. body_turn t o n (shown_frames frames.new.items) []
        ≡ head_body o (shown_frame frame) (shown_frames frames.old.items)) }
{
    if !has_room(frames) {
        drop(frame);
        return Ok(Turn::Lost);
    }
    open(frames, frame)
}

fn single(kind: BodyKind, line: u32, form: LineForm) -> Option<Stmt>
    ensures { option_map pure_stmt result ≡ stmt_of (pure_kind kind) line (pure_form form) }
{
    match kind {
        BodyKind::Change => change_stmt(line, form),
        BodyKind::Process => process_stmt(line, form),
        BodyKind::Plain => plain_stmt(line, form),
    }
}

fn more_body(
    kind: BodyKind,
    list: &mut Vec<Stmt>,
    line: u32,
    form: LineForm,
) -> Result<Turn, Memory>
    ensures { (o : Owner) (n : ℕ) (fs : List machine.Frame) → IfOk result (λ t. body_turn t o n fs (map pure_stmt list.new.items)
        ≡ more_body o fs (map pure_stmt list.old.items) (stmt_of (pure_kind kind) line (pure_form form))) }
{
    match single(kind, line, form) {
        Some(stmt) => match push(list, stmt) {
            Ok(()) => Ok(Turn::Stays),
            Err(refused) => Err(refused),
        },
        None => Ok(Turn::Lost),
    }
}

/// What comes of a line in a body. At the body's `end`, the list has its statements.
pub(crate) fn goes_body(
    alloc: Global,
    kind: BodyKind,
    frames: &mut Vec<Frame>,
    list: &mut Vec<Stmt>,
    line: u32,
    form: LineForm,
) -> Result<Turn, Memory>
    ensures { (o : Owner) → kind_of_body (part_of o) ≡ pure_kind kind
        → IfOk result (λ t. body_turn t o line (shown_frames frames.new.items) (map pure_stmt list.new.items)
        ≡ goes_body o (shown_frames frames.old.items) (map pure_stmt list.old.items) line (pure_form form)) }
{
    match form {
        LineForm::If(test) => {
            let before = mem::replace(list, Vec::new(alloc));
            head_body(frames, Frame::If(line, test, before))
        }
        LineForm::For(var, from, limit) => {
            let before = mem::replace(list, Vec::new(alloc));
            head_body(frames, Frame::For(line, var, from, limit, before))
        }
        LineForm::Else => else_body(alloc, frames, list),
        LineForm::End => end_body(alloc, frames, list),
        form => more_body(kind, list, line, form),
    }
}
