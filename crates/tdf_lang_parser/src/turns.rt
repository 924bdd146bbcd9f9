//! Where a line leads from its place.

ghost use Rattle.std.specs.Prelude.{IfOk, OnOk, [], codes, cond, false, map, true, ◌≡◌};
ghost use Rattle.tdf_lang_lines.specs.FormViews.{pure_form};
ghost use Rattle.tdf_lang_parser.specs.Faults.{kind_of_body};
ghost use Rattle.tdf_lang_parser.specs.declared.places.InTdf.TheVariants as tdf;
ghost use Rattle.tdf_lang_parser.specs.declared.places.BodyPart.TheVariants as part;
ghost use Rattle.tdf_lang_parser.specs.declared.places.InDe.TheVariants as de;
ghost use Rattle.tdf_lang_parser.specs.views.Kinds.{pure_kind};
ghost use Rattle.tdf_lang_parser.specs.views.PlaceViews.{begun_de, closed_place, de_turn, ended_de, net_turn, opened_place, part_after, part_turn, place_turn, shown_frames, shown_outer, shown_place, shown_tdf, shown_de, tdf_owner, tdf_turn, top_turn, traces_turn};
ghost use Rattle.tdf_lang_parser.specs.machine.Places.{OwnInitialize, OwnProcess, PBody, PDe, PGlobals, PLost, PProcess, PTdf, PTop, PTraces, closed_top, finished, goes, goes_attributes, goes_body, goes_de, goes_globals, goes_initialize, goes_net, goes_process, goes_tdf, goes_top, more_attributes, more_de, more_net, more_tdf, more_top, more_traces, new_de, new_net, new_tdf, part_of, with_global, with_sense, with_trace};
ghost use Rattle.tdf_lang_parser.specs.machine.Places as machine;
ghost use Rattle.tdf_lang_parser.specs.Items.{attr_of, de_line_of, tdf_line_of, trace_item};
ghost use Rattle.tdf_lang_parser.specs.SpellsTree.{no_body};
ghost use Rattle.tdf_lang_tree.specs.Pure.{PureDe, PureTdf};
ghost use Rattle.tdf_lang_tree.specs.Views.{pure_body, pure_composite, pure_de, pure_global, pure_process, pure_stmt, pure_tdf, pure_trace, pure_tree};

use crate::bodies::{BodyKind, body_of, goes_body};
use crate::items::{attr, de_line, member, net_line, tdf_line, trace};
use crate::places::{BodyPart, Frame, InDe, InTdf, Outer, Place, Turn};
use std::alloc::Global;
use std::mem;
use tdf_base::Memory;
use tdf_lang_lines::LineForm;
use tdf_lang_tree::{
    Composite, DeDecl, Global1, Initial, Member, Name, Process, Sense, Stmt, Stmts, TdfDecl,
    Trace1, Tree, TypeDecl,
};

fn nothing(alloc: Global) -> Stmts
    ensures { pure_body result ≡ no_body }
{
    Stmts {
        list: Vec::new(alloc),
        end: 0,
    }
}

fn with_global(outer: Outer, global: Global1) -> Result<Place, Memory>
    ensures { IfOk result (λ p. shown_place p ≡ PGlobals (with_global (shown_outer outer) (pure_global global))) }
{
    let mut outer = outer;
    match outer.globals.push(global) {
        Ok(()) => Ok(Place::Globals(outer)),
        Err(failed) => {
            drop(outer);
            Err(Memory::from(failed))
        }
    }
}

fn new_tdf(alloc: Global, line: u32, name: Name) -> TdfDecl
    ensures { pure_tdf result ≡ new_tdf line name }
{
    TdfDecl {
        line,
        name,
        decls: Vec::new(alloc),
        attrs: Vec::new(alloc),
        initials: Vec::new(alloc),
        initialize: nothing(alloc),
        processing: nothing(alloc),
        change: nothing(alloc),
        reinitialize: nothing(alloc),
    }
}

fn new_de(alloc: Global, line: u32, name: Name) -> DeDecl
    ensures { pure_de result ≡ new_de line name }
{
    DeDecl {
        line,
        name,
        decls: Vec::new(alloc),
        processes: Vec::new(alloc),
    }
}

fn new_net(alloc: Global, line: u32, name: Name) -> Composite
    ensures { pure_composite result ≡ new_net line name }
{
    Composite {
        line,
        name,
        members: Vec::new(alloc),
    }
}

fn opens_top(alloc: Global, outer: Outer, line: u32) -> Result<Place, Memory>
    ensures { IfOk result (λ p. shown_place p ≡ PTop (shown_outer outer) (new_net line (codes "top"))) }
{
    match Name::copied(alloc, b"top") {
        Ok(name) => Ok(Place::Top(outer, new_net(alloc, line, name))),
        Err(refused) => {
            drop(outer);
            Err(refused)
        }
    }
}

fn goes_globals(alloc: Global, outer: Outer, line: u32, form: LineForm) -> Result<Place, Memory>
    ensures { IfOk result (λ p. shown_place p ≡ goes_globals (shown_outer outer) line (pure_form form)) }
{
    match form {
        LineForm::Type(name, shape) => with_global(
            outer,
            Global1::Shape(TypeDecl { line, name, shape }),
        ),
        LineForm::Tdf(name) => Ok(Place::Tdf(outer, new_tdf(alloc, line, name), InTdf::Lines(0))),
        LineForm::De(name) => Ok(Place::De(outer, new_de(alloc, line, name), InDe::Lines(true))),
        LineForm::Composite(name) => Ok(Place::Net(outer, new_net(alloc, line, name))),
        LineForm::Top => opens_top(alloc, outer, line),
        form => {
            drop(outer);
            drop(form);
            Ok(Place::Lost)
        }
    }
}

/// A part of a `tdf` block, where it may still come.
fn begin(may: bool, within: &mut InTdf, next: InTdf) -> Turn
    ensures { (o : machine.Outer) (t : PureTdf) → tdf_turn result o t within.new ≡ cond may (shown_tdf o t next) PLost }
{
    if may {
        drop(mem::replace(within, next));
        return Turn::Stays;
    }
    drop(next);
    Turn::Lost
}

/// A part with a body, where it may still come.
#[tactic(auto, using(crate::proofs::StmtLaws::frames_none))]
fn begin_body(alloc: Global, may: bool, within: &mut InTdf, part: BodyPart) -> Turn
    ensures { (o : machine.Outer) (t : PureTdf) → tdf_turn result o t within.new ≡ cond may (PBody (tdf_owner part o t) [] []) PLost }
{
    begin(
        may,
        within,
        InTdf::Body(part, Vec::new(alloc), Vec::new(alloc)),
    )
}

/// One line more of a `tdf` block before its parts.
fn more_tdf(block: &mut TdfDecl, line: u32, form: LineForm) -> Result<Turn, Memory>
    ensures { (o : machine.Outer) → IfOk result (λ t. tdf_turn t o (pure_tdf block.new) (tdf.Lines 0)
        ≡ more_tdf o (pure_tdf block.old) (tdf_line_of line (pure_form form))) }
{
    match tdf_line(line, form) {
        Some(item) => match block.decls.push(item) {
            Ok(()) => Ok(Turn::Stays),
            Err(failed) => Err(Memory::from(failed)),
        },
        None => Ok(Turn::Lost),
    }
}

/// A line of a `tdf` block outside its parts.
fn tdf_lines(
    alloc: Global,
    parts: u32,
    block: &mut TdfDecl,
    within: &mut InTdf,
    line: u32,
    form: LineForm,
) -> Result<Turn, Memory>
    requires { within.old ≡ tdf.Lines parts }
    ensures { (o : machine.Outer) → IfOk result (λ t. tdf_turn t o (pure_tdf block.new) within.new
        ≡ goes_tdf o parts (pure_tdf block.old) line (pure_form form)) }
{
    match form {
        LineForm::SetAttributes => Ok(begin(parts < 1, within, InTdf::Attributes)),
        LineForm::Initialize => Ok(begin(parts <= 1, within, InTdf::Initialize)),
        LineForm::Processing => Ok(begin_body(alloc, parts <= 2, within, BodyPart::Processing)),
        LineForm::ChangeAttributes => Ok(begin_body(alloc, parts <= 3, within, BodyPart::Change)),
        LineForm::Reinitialize => Ok(begin_body(alloc, parts <= 4, within, BodyPart::Reinitialize)),
        LineForm::End => Ok(Turn::Ends),
        form => {
            if parts > 0 {
                drop(form);
                return Ok(Turn::Lost);
            }
            more_tdf(block, line, form)
        }
    }
}

fn more_attributes(block: &mut TdfDecl, line: u32, form: LineForm) -> Result<Turn, Memory>
    ensures { (o : machine.Outer) → IfOk result (λ t. tdf_turn t o (pure_tdf block.new) tdf.Attributes
        ≡ more_attributes o (pure_tdf block.old) (attr_of line (pure_form form))) }
{
    match attr(line, form) {
        Some(item) => match block.attrs.push(item) {
            Ok(()) => Ok(Turn::Stays),
            Err(failed) => Err(Memory::from(failed)),
        },
        None => Ok(Turn::Lost),
    }
}

fn goes_attributes(
    block: &mut TdfDecl,
    within: &mut InTdf,
    line: u32,
    form: LineForm,
) -> Result<Turn, Memory>
    requires { within.old ≡ tdf.Attributes }
    ensures { (o : machine.Outer) → IfOk result (λ t. tdf_turn t o (pure_tdf block.new) within.new
        ≡ goes_attributes o (pure_tdf block.old) line (pure_form form)) }
{
    match form {
        LineForm::End => {
            drop(mem::replace(within, InTdf::Lines(1)));
            Ok(Turn::Stays)
        }
        form => more_attributes(block, line, form),
    }
}

fn kind_of(part: BodyPart) -> BodyKind
    ensures { (o : machine.Outer) (t : PureTdf) → kind_of_body (part_of (tdf_owner part o t)) ≡ pure_kind result }
{
    match part {
        BodyPart::Change => BodyKind::Change,
        BodyPart::Initialize => BodyKind::Plain,
        BodyPart::Processing => BodyKind::Plain,
        BodyPart::Reinitialize => BodyKind::Plain,
    }
}

fn part_after(part: BodyPart) -> u32
    ensures { result ≡ part_after part }
{
    match part {
        BodyPart::Initialize => 2,
        BodyPart::Processing => 3,
        BodyPart::Change => 4,
        BodyPart::Reinitialize => 5,
    }
}

/// The block's part has its body.
fn set_body(block: &mut TdfDecl, part: BodyPart, body: Stmts)
    ensures { (o : machine.Outer) → finished (tdf_owner part o (pure_tdf block.old)) (pure_body body) ≡ PTdf o (part_after part) (pure_tdf block.new) }
{
    let before = match part {
        BodyPart::Initialize => mem::replace(&mut block.initialize, body),
        BodyPart::Processing => mem::replace(&mut block.processing, body),
        BodyPart::Change => mem::replace(&mut block.change, body),
        BodyPart::Reinitialize => mem::replace(&mut block.reinitialize, body),
    };
    drop(before);
}

/// A line in a body of a `tdf` block, which has the body at its `end`.
fn part_body(
    alloc: Global,
    block: &mut TdfDecl,
    part: BodyPart,
    frames: &mut Vec<Frame>,
    list: &mut Vec<Stmt>,
    line: u32,
    form: LineForm,
) -> Result<Turn, Memory>
    ensures { (o : machine.Outer) → IfOk result (λ t. part_turn t part o (pure_tdf block.new) (shown_frames frames.new.items) (map pure_stmt list.new.items)
        ≡ goes_body (tdf_owner part o (pure_tdf block.old)) (shown_frames frames.old.items) (map pure_stmt list.old.items) line (pure_form form)) }
{
    match goes_body(alloc, kind_of(part), frames, list, line, form) {
        Ok(Turn::Ends) => {
            set_body(
                block,
                part,
                body_of(mem::replace(list, Vec::new(alloc)), line),
            );
            Ok(Turn::Ends)
        }
        Ok(Turn::Stays) => Ok(Turn::Stays),
        Ok(Turn::Lost) => Ok(Turn::Lost),
        Err(refused) => Err(refused),
    }
}

/// Where a block is after the first line of the body of `initialize`.
fn after_first(turn: Turn, within: &mut InTdf, frames: Vec<Frame>, list: Vec<Stmt>) -> Turn
    ensures { (o : machine.Outer) (t : PureTdf) → tdf_turn result o t within.new
        ≡ part_turn turn part.Initialize o t (shown_frames frames.items) (map pure_stmt list.items) }
{
    match turn {
        Turn::Stays => {
            drop(mem::replace(within, InTdf::Body(BodyPart::Initialize, frames, list)));
            Turn::Stays
        }
        Turn::Ends => {
            drop(frames);
            drop(list);
            drop(mem::replace(within, InTdf::Lines(2)));
            Turn::Stays
        }
        Turn::Lost => {
            drop(frames);
            drop(list);
            Turn::Lost
        }
    }
}

/// The first line of the body of `initialize`.
#[tactic(auto, using(crate::proofs::StmtLaws::frames_none))]
fn first_initialize(
    alloc: Global,
    block: &mut TdfDecl,
    within: &mut InTdf,
    line: u32,
    form: LineForm,
) -> Result<Turn, Memory>
    ensures { (o : machine.Outer) → IfOk result (λ t. tdf_turn t o (pure_tdf block.new) within.new
        ≡ goes_body (OwnInitialize o (pure_tdf block.old)) [] [] line (pure_form form)) }
{
    let mut frames = Vec::new(alloc);
    let mut list = Vec::new(alloc);
    match part_body(
        alloc,
        block,
        BodyPart::Initialize,
        &mut frames,
        &mut list,
        line,
        form,
    ) {
        Ok(turn) => Ok(after_first(turn, within, frames, list)),
        Err(refused) => {
            drop(frames);
            drop(list);
            Err(refused)
        }
    }
}

fn goes_initialize(
    alloc: Global,
    block: &mut TdfDecl,
    within: &mut InTdf,
    line: u32,
    form: LineForm,
) -> Result<Turn, Memory>
    requires { within.old ≡ tdf.Initialize }
    ensures { (o : machine.Outer) → IfOk result (λ t. tdf_turn t o (pure_tdf block.new) within.new
        ≡ goes_initialize o (pure_tdf block.old) line (pure_form form)) }
{
    match form {
        LineForm::Initial(port, place, value) => match block.initials.push(Initial {
            line,
            port,
            place,
            value,
        }) {
            Ok(()) => Ok(Turn::Stays),
            Err(failed) => Err(Memory::from(failed)),
        },
        form => first_initialize(alloc, block, within, line, form),
    }
}

/// What comes of a line in a `tdf` block.
fn goes_tdf(
    alloc: Global,
    block: &mut TdfDecl,
    within: &mut InTdf,
    line: u32,
    form: LineForm,
) -> Result<Turn, Memory>
    ensures { (o : machine.Outer) → IfOk result (λ t. tdf_turn t o (pure_tdf block.new) within.new
        ≡ goes (shown_tdf o (pure_tdf block.old) within.old) line (pure_form form)) }
{
    match within {
        InTdf::Lines(parts) => {
            let parts = *parts;
            tdf_lines(alloc, parts, block, within, line, form)
        }
        InTdf::Attributes => goes_attributes(block, within, line, form),
        InTdf::Initialize => goes_initialize(alloc, block, within, line, form),
        InTdf::Body(part, frames, list) => {
            let part = *part;
            match part_body(alloc, block, part, frames, list, line, form) {
                Ok(Turn::Ends) => {
                    drop(mem::replace(within, InTdf::Lines(part_after(part))));
                    Ok(Turn::Stays)
                }
                Ok(Turn::Stays) => Ok(Turn::Stays),
                Ok(Turn::Lost) => Ok(Turn::Lost),
                Err(refused) => Err(refused),
            }
        }
    }
}

/// One line more of a `de` block before its processes.
fn more_de(block: &mut DeDecl, line: u32, form: LineForm) -> Result<Turn, Memory>
    ensures { (o : machine.Outer) → IfOk result (λ t. de_turn t o (pure_de block.new) (de.Lines true)
        ≡ more_de o (pure_de block.old) (de_line_of line (pure_form form))) }
{
    match de_line(line, form) {
        Some(item) => match block.decls.push(item) {
            Ok(()) => Ok(Turn::Stays),
            Err(failed) => Err(Memory::from(failed)),
        },
        None => Ok(Turn::Lost),
    }
}

/// A line of a `de` block outside its processes.
fn de_lines(
    alloc: Global,
    declares: bool,
    block: &mut DeDecl,
    within: &mut InDe,
    line: u32,
    form: LineForm,
) -> Result<Turn, Memory>
    requires { within.old ≡ de.Lines declares }
    ensures { (o : machine.Outer) → IfOk result (λ t. de_turn t o (pure_de block.new) within.new
        ≡ goes_de o declares (pure_de block.old) line (pure_form form)) }
{
    match form {
        LineForm::Process => {
            drop(mem::replace(
                within,
                InDe::Process(Process {
                    line,
                    sensitive: Vec::new(alloc),
                    starts: true,
                    body: nothing(alloc),
                }),
            ));
            Ok(Turn::Stays)
        }
        LineForm::End => Ok(Turn::Ends),
        form => {
            if !declares {
                drop(form);
                return Ok(Turn::Lost);
            }
            more_de(block, line, form)
        }
    }
}

/// The block has one process more, whose body is whole.
fn add_process(block: &mut DeDecl, process: Process, body: Stmts) -> Result<(), Memory>
    ensures { (o : machine.Outer) → OnOk result (finished (OwnProcess o (pure_de block.old) (pure_process process)) (pure_body body)
        ≡ PDe o false (pure_de block.new)) }
{
    let mut process = process;
    process.body = body;
    match block.processes.push(process) {
        Ok(()) => Ok(()),
        Err(failed) => Err(Memory::from(failed)),
    }
}

/// The `end` of a process's body.
fn end_process(block: &mut DeDecl, within: &mut InDe, line: u32) -> Result<Turn, Memory>
    ensures { (o : machine.Outer) → IfOk result (λ t. de_turn t o (pure_de block.new) within.new
        ≡ ended_de o (pure_de block.old) line within.old) }
{
    match mem::replace(within, InDe::Lines(false)) {
        InDe::Body(process, frames, list) => {
            drop(frames);
            match add_process(block, process, body_of(list, line)) {
                Ok(()) => Ok(Turn::Stays),
                Err(refused) => Err(refused),
            }
        }
        InDe::Process(process) => {
            drop(process);
            Ok(Turn::Lost)
        }
        InDe::Lines(_) => Ok(Turn::Lost),
    }
}

/// The first line of a process's body.
#[tactic(auto, using(crate::proofs::StmtLaws::frames_none))]
fn first_line(
    alloc: Global,
    block: &mut DeDecl,
    process: Process,
    within: &mut InDe,
    line: u32,
    form: LineForm,
) -> Result<Turn, Memory>
    ensures { (o : machine.Outer) → IfOk result (λ t. de_turn t o (pure_de block.new) within.new
        ≡ goes_body (OwnProcess o (pure_de block.old) (pure_process process)) [] [] line (pure_form form)) }
{
    let mut frames = Vec::new(alloc);
    let mut list = Vec::new(alloc);
    match goes_body(alloc, BodyKind::Process, &mut frames, &mut list, line, form) {
        Ok(Turn::Stays) => {
            drop(mem::replace(within, InDe::Body(process, frames, list)));
            Ok(Turn::Stays)
        }
        Ok(Turn::Ends) => {
            drop(mem::replace(within, InDe::Body(process, frames, list)));
            end_process(block, within, line)
        }
        Ok(Turn::Lost) => {
            drop(process);
            drop(frames);
            drop(list);
            Ok(Turn::Lost)
        }
        Err(refused) => {
            drop(process);
            drop(frames);
            drop(list);
            Err(refused)
        }
    }
}

/// A process that doesn't start at time 0.
fn dont_start(alloc: Global, process: Process) -> InDe
    ensures { (o : machine.Outer) (d : PureDe) → shown_de o d result
        ≡ PBody (OwnProcess o d (record (pure_process process) { starts = false })) (shown_frames []) [] }
{
    let mut process = process;
    process.starts = false;
    InDe::Body(process, Vec::new(alloc), Vec::new(alloc))
}

/// A line of a process before its statements, which is no `sensitive` line.
#[tactic(auto, using(crate::proofs::StmtLaws::frames_none))]
fn begin_process(
    alloc: Global,
    block: &mut DeDecl,
    within: &mut InDe,
    line: u32,
    form: LineForm,
) -> Result<Turn, Memory>
    ensures { (o : machine.Outer) → IfOk result (λ t. de_turn t o (pure_de block.new) within.new
        ≡ begun_de o (pure_de block.old) within.old line (pure_form form)) }
{
    match mem::replace(within, InDe::Lines(false)) {
        InDe::Process(process) => match form {
            LineForm::DontInitialize => {
                drop(mem::replace(within, dont_start(alloc, process)));
                Ok(Turn::Stays)
            }
            form => first_line(alloc, block, process, within, line, form),
        },
        InDe::Body(process, frames, list) => {
            drop(process);
            drop(frames);
            drop(list);
            drop(form);
            Ok(Turn::Lost)
        }
        InDe::Lines(_) => {
            drop(form);
            Ok(Turn::Lost)
        }
    }
}

fn with_sense(process: &mut Process, item: Sense) -> Result<Turn, Memory>
    ensures { (o : machine.Outer) (d : PureDe) → IfOk result (λ t. de_turn t o d (de.Process process.new)
        ≡ PProcess o d (with_sense (pure_process process.old) item)) }
{
    match process.sensitive.push(item) {
        Ok(()) => Ok(Turn::Stays),
        Err(failed) => Err(Memory::from(failed)),
    }
}

/// What comes of a line in a `de` block.
fn goes_de(
    alloc: Global,
    block: &mut DeDecl,
    within: &mut InDe,
    line: u32,
    form: LineForm,
) -> Result<Turn, Memory>
    ensures { (o : machine.Outer) → IfOk result (λ t. de_turn t o (pure_de block.new) within.new
        ≡ goes (shown_de o (pure_de block.old) within.old) line (pure_form form)) }
{
    match within {
        InDe::Lines(declares) => {
            let declares = *declares;
            de_lines(alloc, declares, block, within, line, form)
        }
        InDe::Process(process) => match form {
            LineForm::Sensitive(name) => with_sense(process, Sense { line, name }),
            form => begin_process(alloc, block, within, line, form),
        },
        InDe::Body(_, frames, list) => match goes_body(
            alloc,
            BodyKind::Process,
            frames,
            list,
            line,
            form,
        ) {
            Ok(Turn::Ends) => end_process(block, within, line),
            Ok(Turn::Stays) => Ok(Turn::Stays),
            Ok(Turn::Lost) => Ok(Turn::Lost),
            Err(refused) => Err(refused),
        },
    }
}

/// One line more in a `composite` block or in `top`.
fn more_net(block: &mut Composite, item: Option<Member>) -> Result<Turn, Memory>
    ensures net { (o : machine.Outer) → IfOk result (λ t. net_turn t o (pure_composite block.new) ≡ more_net o (pure_composite block.old) item) }
    ensures top { (o : machine.Outer) → IfOk result (λ t. top_turn t o (pure_composite block.new) ≡ more_top o (pure_composite block.old) item) }
{
    match item {
        Some(item) => match block.members.push(item) {
            Ok(()) => Ok(Turn::Stays),
            Err(failed) => Err(Memory::from(failed)),
        },
        None => Ok(Turn::Lost),
    }
}

fn goes_net(block: &mut Composite, line: u32, form: LineForm) -> Result<Turn, Memory>
    ensures { (o : machine.Outer) → IfOk result (λ t. net_turn t o (pure_composite block.new) ≡ goes_net o (pure_composite block.old) line (pure_form form)) }
{
    match form {
        LineForm::End => Ok(Turn::Ends),
        form => more_net(block, net_line(line, form)),
    }
}

fn goes_top(block: &mut Composite, line: u32, form: LineForm) -> Result<Turn, Memory>
    ensures { (o : machine.Outer) → IfOk result (λ t. top_turn t o (pure_composite block.new) ≡ goes_top o (pure_composite block.old) line (pure_form form)) }
{
    match form {
        LineForm::End => Ok(Turn::Ends),
        form => more_net(block, member(line, form)),
    }
}

/// After the `end` of `top`.
fn closes_top(alloc: Global, outer: Outer, top: Composite) -> Place
    ensures { shown_place result ≡ PTraces (closed_top (shown_outer outer) (pure_composite top)) }
{
    let Outer { dialect, globals } = outer;
    Place::Traces(Tree {
        version: dialect.version,
        resolution: dialect.resolution,
        globals,
        top,
        traces: Vec::new(alloc),
    })
}

fn more_traces(tree: &mut Tree, line: u32, form: LineForm) -> Result<Turn, Memory>
    ensures { IfOk result (λ t. traces_turn t (pure_tree tree.new) ≡ more_traces (pure_tree tree.old) (trace_item line (pure_form form))) }
{
    match trace(line, form) {
        Some(item) => with_trace(tree, item),
        None => Ok(Turn::Lost),
    }
}

fn with_trace(tree: &mut Tree, item: Trace1) -> Result<Turn, Memory>
    ensures { IfOk result (λ t. traces_turn t (pure_tree tree.new) ≡ PTraces (with_trace (pure_tree tree.old) (pure_trace item))) }
{
    match tree.traces.push(item) {
        Ok(()) => Ok(Turn::Stays),
        Err(failed) => Err(Memory::from(failed)),
    }
}

/// The place after the `end` of a block.
fn closed(alloc: Global, at: Place) -> Result<Place, Memory>
    ensures { IfOk result (λ p. shown_place p ≡ closed_place at) }
{
    match at {
        Place::Tdf(outer, block, within) => {
            drop(within);
            with_global(outer, Global1::Tdf(block))
        }
        Place::De(outer, block, within) => {
            drop(within);
            with_global(outer, Global1::De(block))
        }
        Place::Net(outer, block) => with_global(outer, Global1::Net(block)),
        Place::Top(outer, block) => Ok(closes_top(alloc, outer, block)),
        other => {
            drop(other);
            Ok(Place::Lost)
        }
    }
}

/// The place after a line outside the blocks.
fn after_global(alloc: Global, at: Place, line: u32, form: LineForm) -> Result<Place, Memory>
    ensures { IfOk result (λ p. shown_place p ≡ opened_place at line (pure_form form)) }
{
    match at {
        Place::Globals(outer) => goes_globals(alloc, outer, line, form),
        other => {
            drop(other);
            drop(form);
            Ok(Place::Lost)
        }
    }
}

/// After a line outside the blocks. It isn't inlined, since room for the places that it moves would be cleared at each line.
#[inline(never)]
fn leads_on(alloc: Global, at: &mut Place, line: u32, form: LineForm) -> Result<Turn, Memory>
    ensures { IfOk result (λ t. place_turn t at.new ≡ opened_place at.old line (pure_form form)) }
{
    let from = mem::replace(at, Place::Lost);
    drop(mem::replace(at, after_global(alloc, from, line, form)?));
    Ok(Turn::Stays)
}

/// After the `end` of a block. It isn't inlined either.
#[inline(never)]
fn ends(alloc: Global, at: &mut Place) -> Result<(), Memory>
    ensures { OnOk result (shown_place at.new ≡ closed_place at.old) }
{
    let from = mem::replace(at, Place::Lost);
    drop(mem::replace(at, closed(alloc, from)?));
    Ok(())
}

/// After a line that its place doesn't allow. It isn't inlined either.
#[inline(never)]
pub(crate) fn lose(at: &mut Place)
    ensures { shown_place at.new ≡ PLost }
{
    drop(mem::replace(at, Place::Lost));
}

/// What comes of a line in the block of a place; a line outside the blocks leads on from there.
fn turns(alloc: Global, at: &mut Place, line: u32, form: LineForm) -> Result<Turn, Memory>
    ensures { IfOk result (λ t. place_turn t at.new ≡ goes (shown_place at.old) line (pure_form form)) }
{
    match at {
        Place::Tdf(_, block, within) => goes_tdf(alloc, block, within, line, form),
        Place::De(_, block, within) => goes_de(alloc, block, within, line, form),
        Place::Net(_, block) => goes_net(block, line, form),
        Place::Top(_, block) => goes_top(block, line, form),
        Place::Traces(tree) => more_traces(tree, line, form),
        Place::Globals(_) => leads_on(alloc, at, line, form),
        Place::Lost => {
            drop(form);
            Ok(Turn::Lost)
        }
    }
}

/// Where a line leads.
pub(crate) fn goes(alloc: Global, at: &mut Place, line: u32, form: LineForm) -> Result<(), Memory>
    ensures { OnOk result (shown_place at.new ≡ goes (shown_place at.old) line (pure_form form)) }
{
    match turns(alloc, at, line, form) {
        Ok(Turn::Stays) => Ok(()),
        Ok(Turn::Ends) => ends(alloc, at),
        Ok(Turn::Lost) => {
            lose(at);
            Ok(())
        }
        Err(refused) => Err(refused),
    }
}
