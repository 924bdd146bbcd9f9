//! The first fault of the `bind` and `instance` lines of whole texts.

use super::tree_of;
use std::alloc::Global;
use std::test::Fail;
use tdf_base::{Memory, push_fault};
use tdf_bind_ports::{law_link_faults, link_fault};

/// Whole texts, each with its first fault as it is printed, or nothing.
const TEXTS: &[(&str, &str)] = &[
    (
        "language 1\ntype w fixed 8 8\ntdf m\nin x w\nout y w\nend\ntop\nsignal s w\n\
        instance u m\nbind u.x s\nbind u.y s\nend",
        "",
    ),
    (
        "language 1\ntype w fixed 8 8\ntdf m\nin x w\nout y w\nend\ntop\nsignal s fixed 8 8\n\
        instance u m\nbind u.x s\nbind u.y s\nend",
        "",
    ),
    (
        "language 1\ntype w fixed 8 8\ntdf m\nin x w\nout y w\nend\ntop\nsignal s w\n\
        instance u m\nbind u.x s\nend",
        "UNBOUND line 9 port y",
    ),
    (
        "language 1\ntype w fixed 8 8\ntdf m\nin x w\nout y w\nend\ntop\nsignal s w\n\
        instance u m\nend",
        "UNBOUND line 9 port x",
    ),
    (
        "language 1\ntype w fixed 8 8\ntdf m\nin x w\nout y w\nend\ntop\nsignal s w\n\
        instance u m\nbind u.x s\nbind u.z s\nend",
        "UNBOUND line 9 port y",
    ),
    (
        "language 1\ntype w fixed 8 8\ntdf m\nin x w\nvar v w\nend\ntop\nsignal s w\n\
        instance u m\nbind u.x s\nbind u.v s\nend",
        "UNKNOWN_PORT line 11",
    ),
    (
        "language 1\ntype w fixed 8 8\ntdf m\nin x w\nout y w\nend\ntop\nsignal s w\n\
        instance u m\nbind u.x s\nbind u.x s\nbind u.y s\nend",
        "TWICE_BOUND line 11",
    ),
    (
        "language 1\ntype w fixed 8 8\ntdf m\nin x w\nend\ntop\nsignal s w\ninstance u m\n\
        instance v m\nbind u.x s\nbind v.x s\nend",
        "",
    ),
    (
        "language 1\ntype w fixed 8 8\ntdf m\nin x w\nend\ntop\nsignal s fixed 8 8 trn sat\n\
        instance u m\nbind u.x s\nend",
        "MISMATCH line 9",
    ),
    (
        "language 1\ntype w fixed 8 8\ntdf m\nin x w\nend\ntop\nde_signal s w\n\
        instance u m\nbind u.x s\nend",
        "MISMATCH line 9",
    ),
    (
        "language 1\ntype w fixed 8 8\nde d\nde_in x w\nend\ntop\nde_signal s w\n\
        instance u d\nbind u.x s\nend",
        "",
    ),
    (
        "language 1\ntype w fixed 8 8\ntdf m\nout y w\nend\ncomposite c\nin a w\n\
        instance u m\nbind u.y a\nend\ntop\nend",
        "MISMATCH line 9",
    ),
    (
        "language 1\ntype w fixed 8 8\ntdf m\nout y w\nend\ncomposite c\nout a w\n\
        instance u m\nbind u.y a\nend\ntop\nsignal s w\ninstance k c\nend",
        "UNBOUND line 13 port a",
    ),
];

/// The first fault of a text as it is printed.
fn fault_text(alloc: Global, text: &str) -> Result<Vec<u8>, Memory> {
    let tree = tree_of(alloc, text.as_bytes())?;
    let mut out = Vec::new(alloc);
    if let Some(fault) = link_fault(alloc, &tree)? {
        push_fault(&mut out, &fault)?;
    }
    Ok(out)
}

/// The first text with another fault, or nothing.
fn wrong_text(alloc: Global) -> Result<&'static str, Memory> {
    for &(text, fault) in TEXTS {
        if fault_text(alloc, text)?.as_slice() != fault.as_bytes() {
            return Ok(text);
        }
    }
    Ok("")
}

#[test]
fn faults_of_links(rt: HostRuntime) -> Result<(), Fail> {
    law_link_faults();
    assert_eq!(rt; wrong_text(rt.alloc())?, "");
    Ok(())
}
