//! What a line form is in its place.

ghost use Rattle.std.specs.Option.{option_map};
ghost use Rattle.std.specs.Prelude.{IfOk, None, ◌≡◌};
ghost use Rattle.tdf_lang_lines.specs.FormViews.{pure_form};
ghost use Rattle.tdf_lang_parser.specs.Items.{attr_of, change_statement, de_line_of, de_port_of, member_of, net_line_of, plain_of, process_of, tdf_line_of, trace_item};
ghost use Rattle.tdf_lang_tree.specs.Views.{pure_de_line, pure_stmt, pure_tdf_line, pure_trace};

use tdf_lang_lines::LineForm;
use tdf_lang_tree::{
    Attr, DeLine, FormatRef, Member, Name, PortKind, PortLine, Stmt, Store, TdfLine, Trace1,
};

fn port(line: u32, kind: PortKind, name: Name, format: FormatRef) -> PortLine
    ensures { result ≡ record { line = line; kind = kind; name = name; format = format } }
{
    PortLine {
        line,
        kind,
        name,
        format,
    }
}

pub(crate) fn tdf_line(line: u32, form: LineForm) -> Option<TdfLine>
    ensures { option_map pure_tdf_line result ≡ tdf_line_of line (pure_form form) }
{
    match form {
        LineForm::Port(kind, name, format) => return Some(TdfLine::Port(port(
            line, kind, name, format,
        ))),
        LineForm::Const(name, format, value) => return Some(TdfLine::Store(Store::Const {
            line,
            name,
            format,
            value,
        })),
        LineForm::Var(name, format, value) => return Some(TdfLine::Store(Store::Var {
            line,
            name,
            format,
            value,
        })),
        LineForm::Array(name, format, length, values) => return Some(TdfLine::Store(
            Store::Array {
                line,
                name,
                format,
                length,
                values,
            },
        )),
        LineForm::RateVar(name, least, greatest, start) => return Some(TdfLine::Rate {
            line,
            name,
            least,
            greatest,
            start,
        }),
        form => {
            drop(form);
            None
        }
    }
}

pub(crate) fn attr(line: u32, form: LineForm) -> Option<Attr>
    ensures { result ≡ attr_of line (pure_form form) }
{
    match form {
        LineForm::Step(port, step) => return Some(Attr::Step { line, port, step }),
        LineForm::Rate(port, rate) => return Some(Attr::Rate { line, port, rate }),
        LineForm::Delay(port, count) => return Some(Attr::Delay { line, port, count }),
        LineForm::Does => return Some(Attr::Does { line }),
        LineForm::Accept => return Some(Attr::Accept { line }),
        LineForm::Reject => return Some(Attr::Reject { line }),
        form => {
            drop(form);
            None
        }
    }
}

/// A port of a `de` block is a `de_in` or a `de_out`.
fn de_port(line: u32, kind: PortKind, name: Name, format: FormatRef) -> Option<DeLine>
    ensures { option_map pure_de_line result ≡ de_port_of line kind name format }
{
    match kind {
        PortKind::DeIn => Some(DeLine::Port(port(line, kind, name, format))),
        PortKind::DeOut => Some(DeLine::Port(port(line, kind, name, format))),
        _ => None,
    }
}

pub(crate) fn de_line(line: u32, form: LineForm) -> Option<DeLine>
    ensures { option_map pure_de_line result ≡ de_line_of line (pure_form form) }
{
    match form {
        LineForm::Port(kind, name, format) => return de_port(line, kind, name, format),
        LineForm::Const(name, format, value) => return Some(DeLine::Store(Store::Const {
            line,
            name,
            format,
            value,
        })),
        LineForm::Var(name, format, value) => return Some(DeLine::Store(Store::Var {
            line,
            name,
            format,
            value,
        })),
        LineForm::Array(name, format, length, values) => return Some(DeLine::Store(Store::Array {
            line,
            name,
            format,
            length,
            values,
        })),
        LineForm::Event(name) => return Some(DeLine::Event { line, name }),
        form => {
            drop(form);
            None
        }
    }
}

pub(crate) fn member(line: u32, form: LineForm) -> Option<Member>
    ensures { result ≡ member_of line (pure_form form) }
{
    match form {
        LineForm::Instance(name, block) => return Some(Member::Instance { line, name, block }),
        LineForm::Signal(name, format) => return Some(Member::Signal { line, name, format }),
        LineForm::DeSignal(name, format, start) => return Some(Member::DeSignal {
            line,
            name,
            format,
            start,
        }),
        LineForm::Bind(instance, port, target) => return Some(Member::Bind {
            line,
            instance,
            port,
            target,
        }),
        form => {
            drop(form);
            None
        }
    }
}

pub(crate) fn net_line(line: u32, form: LineForm) -> Option<Member>
    ensures { result ≡ net_line_of line (pure_form form) }
{
    match form {
        LineForm::Port(kind, name, format) => Some(Member::Port(port(line, kind, name, format))),
        form => member(line, form),
    }
}

pub(crate) fn trace(line: u32, form: LineForm) -> Option<Trace1>
    ensures { option_map pure_trace result ≡ trace_item line (pure_form form) }
{
    match form {
        LineForm::Trace(path, label) => Some(Trace1 { line, path, label }),
        form => {
            drop(form);
            None
        }
    }
}

#[tactic(auto, using(crate::proofs::StmtLaws::stmt_laws))]
pub(crate) fn plain_stmt(line: u32, form: LineForm) -> Option<Stmt>
    ensures { option_map pure_stmt result ≡ plain_of line (pure_form form) }
{
    match form {
        LineForm::Assign(name, index, value) => return Some(Stmt::Assign {
            line,
            name,
            index,
            value,
        }),
        form => {
            drop(form);
            None
        }
    }
}

#[tactic(auto, using(crate::proofs::StmtLaws::stmt_laws))]
pub(crate) fn change_stmt(line: u32, form: LineForm) -> Option<Stmt>
    ensures { option_map pure_stmt result ≡ change_statement line (pure_form form) }
{
    match form {
        LineForm::SetRate(name, value) => Some(Stmt::SetRate { line, name, value }),
        LineForm::Step(port, step) => Some(Stmt::SetStep { line, port, step }),
        LineForm::Accept => Some(Stmt::Accept { line }),
        LineForm::Reject => Some(Stmt::Reject { line }),
        form => plain_stmt(line, form),
    }
}

#[tactic(auto, using(crate::proofs::StmtLaws::stmt_laws))]
pub(crate) fn process_stmt(line: u32, form: LineForm) -> Option<Stmt>
    ensures { option_map pure_stmt result ≡ process_of line (pure_form form) }
{
    match form {
        LineForm::Notify(event, after) => Some(Stmt::Notify { line, event, after }),
        form => plain_stmt(line, form),
    }
}
