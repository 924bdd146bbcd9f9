//! The first fault of types, widths and bodies of whole texts.

use super::{At, OK, fault_at, tree_of};
use std::alloc::Global;
use std::test::Fail;
use tdf_base::{Code, LineFault, Memory};
use tdf_expr_blocks::check_types;
use tdf_expr_symbols::{Part, globals_of, tdf_scope};
use tdf_expr_types::check_body;
use tdf_lang_tree::Global1;

/// Whole texts, each with its first fault.
const TEXTS: &[(&str, At)] = &[
    (
        "language 1\ntdf m\nout y fixed 8 8\nset_attributes\nrate y 5000\nend\nend\ntop\nend",
        Some((Code::Limit, 5)),
    ),
    (
        "language 1\ntdf m\nout y fixed 8 8\nset_attributes\nrate y 4097\nrate y 2\nend\n\
        end\ntop\nend",
        Some((Code::Limit, 5)),
    ),
    (
        "language 1\ntdf m\nout y fixed 8 8\nset_attributes\nrate y 4096\ndelay y 65536\n\
        end\nend\ntop\nend",
        OK,
    ),
    (
        "language 1\ntdf m\nout y fixed 8 8\nset_attributes\ndelay y 65537\nend\nend\ntop\n\
        end",
        Some((Code::Limit, 5)),
    ),
    (
        "language 1\ntdf m\nout y fixed 8 8\nset_attributes\ntimestep 0s\nend\nend\ntop\nend",
        Some((Code::Limit, 5)),
    ),
    (
        "language 1\ntdf m\nrate r 1 2 3\nend\ntop\nend",
        Some((Code::Limit, 3)),
    ),
    (
        "language 1\ntdf m\nrate r 0 2 1\nend\ntop\nend",
        Some((Code::Limit, 3)),
    ),
    ("language 1\ntdf m\nrate r 1 4096 4096\nend\ntop\nend", OK),
    (
        "language 2\ntdf m\nout y fixed 8 8\nrate r 1 2049 1\nset_attributes\nrate y 2 * r\n\
        end\nend\ntop\nend",
        Some((Code::Limit, 6)),
    ),
    (
        "language 2\ntdf m\nout y fixed 8 8\nrate r 1 2048 1\nset_attributes\nrate y 2 * r\n\
        end\nend\ntop\nend",
        OK,
    ),
    (
        "language 2\ntdf m\nout y fixed 8 8\nvar n fixed 8 8\nset_attributes\n\
        rate y 5000 * n\nend\nend\ntop\nend",
        Some((Code::Limit, 6)),
    ),
    (
        "language 2\ntdf m\nout y fixed 8 8\nvar n fixed 8 8\nset_attributes\nrate y 2 * n\n\
        end\nend\ntop\nend",
        Some((Code::Kind, 6)),
    ),
    (
        "language 1\ntdf m\narray a fixed 8 8 0\nend\ntop\nend",
        Some((Code::Limit, 3)),
    ),
    (
        "language 1\ntdf m\narray a fixed 8 8 4097\nend\ntop\nend",
        Some((Code::Limit, 3)),
    ),
    (
        "language 1\ntdf m\nvar n fixed 8 8\nprocessing\nn = n << 64\nend\nend\ntop\nend",
        Some((Code::Limit, 5)),
    ),
    (
        "language 1\ntdf m\nvar n fixed 8 8\nprocessing\nn = n << 63\nfor i 0 4096\nend\n\
        end\nend\ntop\nend",
        OK,
    ),
    (
        "language 1\ntdf m\nvar n fixed 8 8\nprocessing\nfor i 0 4097\nend\nend\nend\ntop\n\
        end",
        Some((Code::Limit, 5)),
    ),
    (
        "language 1\ntype w fixed 65 8\ntop\nend",
        Some((Code::Format, 2)),
    ),
    (
        "language 1\ntype w fixed 64 0\ntop\nend",
        Some((Code::Format, 2)),
    ),
    (
        "language 1\ntype w fixed 64 1\ntype u ufixed 1 0\ntop\nend",
        OK,
    ),
    (
        "language 1\ntop\nsignal s fixed 8 9\nend",
        Some((Code::Format, 3)),
    ),
    (
        "language 1\ntdf m\nout y fixed 8 8\nvar n fixed 8 8\nprocessing\nn = y\nend\nend\n\
        top\nend",
        Some((Code::Kind, 6)),
    ),
    (
        "language 1\ntdf m\nvar n fixed 8 8\nprocessing\nfor i 0 2\ni = 1\nend\nend\nend\n\
        top\nend",
        Some((Code::Kind, 6)),
    ),
    (
        "language 1\ntdf m\nout y fixed 8 8\ninitialize\ny = 1\nend\nend\ntop\nend",
        Some((Code::Kind, 5)),
    ),
    (
        "language 1\ntdf m\nrate r 1 2 1\nchange_attributes\nrate r = 2\nend\nend\ntop\nend",
        Some((Code::Kind, 5)),
    ),
    (
        "language 1\ntdf m\nrate r 1 2 1\nset_attributes\ndoes_attribute_changes\nend\n\
        change_attributes\nrate r = 2\nend\nend\ntop\nend",
        OK,
    ),
    (
        "language 1\ntype w fixed 8 8\ntop\ninstance u w\nend",
        Some((Code::Kind, 4)),
    ),
    (
        "language 1\ntdf k\nend\ntdf m\nin x fixed 8 8\nvar n fixed 8 8\nprocessing\n\
        n = x + k(n)\nend\nend\ntop\nend",
        Some((Code::Kind, 8)),
    ),
    (
        "language 1\ntdf m\nvar n fixed 8 8\nprocessing\nn = n + 0.1\nend\nend\ntop\nend",
        Some((Code::InexactLiteral, 5)),
    ),
    (
        "language 1\ntdf m\nvar n fixed 8 4 0.1\nprocessing\nn = n + 0.125\nend\nend\ntop\n\
        end",
        OK,
    ),
    (
        "language 1\ntdf m\nvar n fixed 64 64\nprocessing\nn = n << 57\nend\nend\ntop\nend",
        Some((Code::Wide, 5)),
    ),
    (
        "language 1\ntdf m\nvar n fixed 64 64\nprocessing\nn = n << 56\nend\nend\ntop\nend",
        OK,
    ),
    (
        "language 1\ntdf m\nvar n fixed 64 64\nvar f fixed 64 1\nprocessing\nif n << 55 > 0\n\
        end\nn = (n << 55) > f\nend\nend\ntop\nend",
        Some((Code::Wide, 8)),
    ),
    (
        "language 1\ntdf m\nvar n fixed 64 64\nvar f fixed 64 1\nprocessing\nf = n << 40\n\
        end\nend\ntop\nend",
        Some((Code::WideCast, 6)),
    ),
    (
        "language 1\ntdf m\nvar n fixed 58 58\nvar f fixed 64 1\nprocessing\nf = n\nend\n\
        end\ntop\nend",
        Some((Code::WideCast, 6)),
    ),
    (
        "language 1\ntdf m\nvar n fixed 57 57\nvar f fixed 64 1\nprocessing\nf = n\nend\n\
        end\ntop\nend",
        OK,
    ),
    (
        "language 1\ntdf m\nin x fixed 8 8\nvar n fixed 8 8\nset_attributes\nrate x 2\nend\n\
        processing\nn = x[1]\nn = x[2]\nend\nend\ntop\nend",
        Some((Code::Index, 10)),
    ),
    (
        "language 1\ntdf m\nin x fixed 8 8\nvar n fixed 8 8\nrate r 1 4 1\nset_attributes\n\
        rate x r\nend\nprocessing\nn = x[0]\nn = x[1]\nend\nend\ntop\nend",
        Some((Code::Index, 11)),
    ),
    (
        "language 1\ntdf m\nin x fixed 8 8\nvar n fixed 8 8\nrate r 1 4 1\nset_attributes\n\
        rate x r\nend\nprocessing\nfor i 0 r\nn = x[i]\nn = x[i + 0]\nend\nend\nend\ntop\n\
        end",
        Some((Code::Index, 12)),
    ),
    (
        "language 1\ntdf m\nin x fixed 8 8\nvar n fixed 8 8\nrate r 1 4 1\nset_attributes\n\
        rate x r\nend\nprocessing\nfor i 0 r\nn = x[i - 1]\nend\nend\nend\ntop\nend",
        Some((Code::Index, 11)),
    ),
    (
        "language 2\ntdf m\nout y fixed 8 8\nrate r 1 2 1\nset_attributes\nrate y 2 * r\n\
        end\nprocessing\nfor i 0 r\ny[2 * i + 1] = i\ny[2 * i + 2] = i\nend\nend\nend\ntop\n\
        end",
        Some((Code::Index, 11)),
    ),
    (
        "language 1\ntdf m\narray a fixed 8 8 4\nprocessing\nfor i 0 4\na[3 - i] = i\nend\n\
        for i 0 5\na[3 - i] = i\nend\nend\nend\ntop\nend",
        Some((Code::Index, 9)),
    ),
    (
        "language 1\ntdf m\narray a fixed 8 8 2 1 2 3\nend\ntop\nend",
        Some((Code::Index, 3)),
    ),
    (
        "language 1\ntdf m\nout y fixed 8 8\nset_attributes\ndelay y 1\nend\ninitialize\n\
        initial y 0 1\ninitial y 1 1\nend\nend\ntop\nend",
        Some((Code::Index, 9)),
    ),
    (
        "language 1\ntdf m\nrate r 1 2 1\nprocessing\nfor i 0 r\nend\nfor i 1 r\nend\nend\n\
        end\ntop\nend",
        Some((Code::Index, 7)),
    ),
    (
        "language 1\ntdf m\nvar n fixed 8 8\nprocessing\nfor i 0 64\nfor j 0 64\nfor k 0 64\n\
        n = 1\nend\nend\nend\nend\nend\ntop\nend",
        Some((Code::Heavy, 12)),
    ),
    (
        "language 1\ntdf m\nvar n fixed 8 8\nprocessing\nfor i 0 255\nfor j 0 255\nn = 1\n\
        end\nend\nfor i 0 254\nn = 1\nend\nend\nend\ntop\nend",
        OK,
    ),
    (
        "language 1\ntdf m\nvar n fixed 8 8\nprocessing\nfor i 0 255\nfor j 0 255\nn = 1\n\
        end\nend\nfor i 0 255\nn = 1\nend\nend\nend\ntop\nend",
        Some((Code::Heavy, 13)),
    ),
    (
        "language 1\nde d\nde_out q fixed 8 8\nprocess\nq = 1\nq = 2\nend\nprocess\nif 1\n\
        q = 2\nend\nend\nend\ntop\nend",
        Some((Code::Writers, 10)),
    ),
    (
        "language 1\nde d\nde_out q fixed 8 8\nde_out p fixed 8 8\nprocess\nq = 1\nq = 2\n\
        end\nprocess\np = 2\nend\nend\ntop\nend",
        OK,
    ),
    (
        "language 1\ntdf m\nout y fixed 8 8\nvar n fixed 8 8\nprocessing\nn = y\n\
        n = n << 64\nend\nend\ntop\nend",
        Some((Code::Kind, 6)),
    ),
    (
        "language 1\ntdf m\nout y fixed 8 8\nvar n fixed 8 8\nprocessing\nn = y << 64\nend\n\
        end\ntop\nend",
        Some((Code::Limit, 6)),
    ),
    (
        "language 1\ntdf m\nout y fixed 8 8\nvar n fixed 8 8\nprocessing\nn = y + 0.1\nend\n\
        end\ntop\nend",
        Some((Code::Kind, 6)),
    ),
];

/// The fault of the types of a text.
///
/// # Errors
/// Out of memory.
fn types_fault(alloc: Global, text: &[u8]) -> Result<At, Memory> {
    let tree = tree_of(alloc, text)?;
    fault_at(check_types(alloc, &tree))
}

/// The first text with another fault of its types, or nothing.
fn wrong_text(alloc: Global) -> Result<&'static str, Memory> {
    for &(text, fault) in TEXTS {
        if types_fault(alloc, text.as_bytes())? != fault {
            return Ok(text);
        }
    }
    Ok("")
}

/// The fault of a text with so many traces.
///
/// # Errors
/// Out of memory.
fn traces_fault(alloc: Global, count: u8) -> Result<At, Memory> {
    let mut text = Vec::new(alloc);
    text.extend_from_slice(b"language 1\ntop\nend\n")?;
    for _ in 0..count {
        text.extend_from_slice(b"trace s l\n")?;
    }
    types_fault(alloc, &text)
}

#[test]
fn faults_of_types(rt: HostRuntime) -> Result<(), Fail> {
    assert_eq!(rt; wrong_text(rt.alloc())?, "");
    assert!(rt; traces_fault(rt.alloc(), 94)? == OK);
    assert!(rt; traces_fault(rt.alloc(), 95)? == Some((Code::Limit, 98)));
    Ok(())
}

/// A block whose body has WIDE on line 6, and INDEX on line 7.
const BODY: &[u8] =
    b"language 1\ntdf m\nvar n fixed 64 64\narray a fixed 8 8 2\nprocessing\nn = n << 57\nn = a[2]\n\
    end\nend\ntop\nend";

/// The first fault of BODY's body and of one that is there before.
///
/// # Errors
/// Out of memory.
fn body_fault(alloc: Global, before: Option<LineFault>) -> Result<Option<LineFault>, Memory> {
    let tree = tree_of(alloc, BODY)?;
    let globals = globals_of(alloc, &tree.globals)?;
    let mut first = before;
    for global in &tree.globals {
        if let Global1::Tdf(block) = global {
            let scope = tdf_scope(alloc, &globals, block)?;
            check_body(
                alloc,
                &mut first,
                &scope,
                Part::Processing,
                &block.processing,
            )?;
        }
    }
    Ok(first)
}

#[test]
fn faults_of_a_body(rt: HostRuntime) -> Result<(), Fail> {
    let wide = LineFault {
        line: 6,
        code: Code::Wide,
    };
    let before = LineFault {
        line: 6,
        code: Code::Kind,
    };
    let behind = LineFault {
        line: 6,
        code: Code::Index,
    };
    assert!(rt; body_fault(rt.alloc(), None)? == Some(wide));
    assert!(rt; body_fault(rt.alloc(), Some(before))? == Some(before));
    assert!(rt; body_fault(rt.alloc(), Some(behind))? == Some(wide));
    Ok(())
}
