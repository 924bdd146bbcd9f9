//! The first fault of names of whole texts.

use super::{At, OK, fault_at, tree_of};
use std::alloc::Global;
use std::test::Fail;
use tdf_base::{Code, Memory};
use tdf_expr_names::{check_names, law_fault_lines, law_names_once};

/// Whole texts, each with its first fault.
const TEXTS: &[(&str, At)] = &[
    (
        "language 1\ntype w fixed 8 8\ntdf m\nout w w\nvar n w\nprocessing\nfor i 0 2\n\
        n = n + i\nend\nw = n\nend\nend\ntop\nsignal s w\ninstance u m\nbind u.w s\nend\n\
        trace s s",
        OK,
    ),
    (
        "language 1\ntype w fixed 8 8\ntdf m\nvar n w\nvar n w\nend\ntop\nend",
        Some((Code::Duplicate, 5)),
    ),
    (
        "language 1\ntop\nsignal s nope\nend",
        Some((Code::Unknown, 3)),
    ),
    (
        "language 1\ntdf m\nend\ntdf m\nend\ntop\nend",
        Some((Code::Duplicate, 4)),
    ),
    (
        "language 1\ntdf m\nprocessing\nfor i 0 i\nend\nend\nend\ntop\nend",
        Some((Code::Unknown, 4)),
    ),
    (
        "language 1\ntdf m\nvar n fixed 8 8\nprocessing\nfor n 0 2\nend\nend\nend\ntop\nend",
        Some((Code::Duplicate, 5)),
    ),
    (
        "language 1\ntdf m\nprocessing\nfor i 0 2\nfor i 0 2\nend\nend\nend\nend\ntop\nend",
        Some((Code::Duplicate, 5)),
    ),
    (
        "language 1\ntdf m\nprocessing\nfor i 0 2\nend\nfor i 0 2\nend\nend\nend\ntop\nend",
        OK,
    ),
    (
        "language 1\ntdf m\nvar n fixed 8 8\nprocessing\nfor i 0 2\nn = i\nend\nn = i\nend\n\
        end\ntop\nend",
        Some((Code::Unknown, 8)),
    ),
    (
        "language 1\ncomposite c\ninstance u c\nend\ntop\nend",
        Some((Code::Unknown, 3)),
    ),
    (
        "language 1\ntdf m\nin x w\nend\ntype w fixed 8 8\ntop\nend",
        Some((Code::Unknown, 3)),
    ),
    (
        "language 1\ntdf m\nvar n fixed 8 8\nprocessing\nn = n(n)\nend\nend\ntop\nend",
        Some((Code::Unknown, 5)),
    ),
    (
        "language 1\ntop\nend\ntrace s a\ntrace s a",
        Some((Code::Duplicate, 5)),
    ),
    (
        "language 1\ntop\nsignal s nope\nsignal s nope\nend",
        Some((Code::Unknown, 3)),
    ),
    (
        "language 1\ntype w fixed 8 8\ntop\nsignal s w\nsignal s nope\nend",
        Some((Code::Duplicate, 5)),
    ),
    (
        "language 1\nde d\nprocess\nsensitive e\nend\nend\ntop\nend",
        Some((Code::Unknown, 4)),
    ),
];

/// The first text with another fault of its names, or nothing.
fn wrong_text(alloc: Global) -> Result<&'static str, Memory> {
    for &(text, fault) in TEXTS {
        let tree = tree_of(alloc, text.as_bytes())?;
        if fault_at(check_names(alloc, &tree))? != fault {
            return Ok(text);
        }
    }
    Ok("")
}

#[test]
fn faults_of_names(rt: HostRuntime) -> Result<(), Fail> {
    law_names_once();
    law_fault_lines();
    assert_eq!(rt; wrong_text(rt.alloc())?, "");
    Ok(())
}
