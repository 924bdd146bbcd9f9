//! The faults of texts, and their trees, in each version of the language.

use super::joined;
use std::alloc::Global;
use std::test::Fail;
use tdf_base::Memory;
use tdf_lang::{Global1, LangErr, Resolution, Tree, Version, law_exprs, law_spelled, parse};

/// Why a text is refused, or none where it has a tree. No text here has more than 10,000 bytes.
fn refusal(alloc: Global, text: &[u8]) -> Result<Option<LangErr>, Memory> {
    if 10_000 < text.len() {
        return Err(Memory);
    }
    match parse(alloc, text) {
        Ok(tree) => {
            drop(tree);
            Ok(None)
        }
        Err(LangErr::Memory) => Err(Memory),
        Err(why) => Ok(Some(why)),
    }
}

/// A text that has a tree.
const OK: Option<u32> = None;

fn syntax(line: u32) -> LangErr {
    LangErr::Syntax { line }
}

/// Whole texts: the text, and the line that is a syntax fault.
const TEXTS: &[(&str, Option<u32>)] = &[
    (
        "language 1\ntdf m\nrate r 1 2 3\nset_attributes\nrate x 2\nrate y 2 * r\nend\nend\ntop\nend",
        Some(6),
    ),
    ("", Some(1)),
    ("language 1\n\n top", Some(4)),
    ("language 0\ntop\nend", Some(1)),
    ("language 4\ntop\nend", Some(1)),
    ("language 01\ntop\nend", Some(1)),
    ("# c\n\tlanguage  2\ntop\nend", OK),
    ("language 1\nlanguage 1\ntop\nend", Some(2)),
    ("language 1\ntop\nend\nend\n", Some(4)),
    ("language 1\ntop\nsignal s w x\nend", Some(3)),
    (
        "language 1\ntdf m\nset_attributes\ntimestep 1.5ps\n",
        Some(4),
    ),
    ("language 1\nde d\nin x w\n", Some(3)),
    ("language 1\ntdf m\nprocessing\nx[2 * i] = 1\n", Some(4)),
    ("language 1\ntdf m\nprocessing\ny = x[2 * i]\n", Some(4)),
    ("language 1\ntdf m\nprocessing\nfor i 0 2 * r\n", Some(4)),
    ("language 1\ntdf m\nset_attributes\nrate y 2 * r\n", Some(4)),
    ("language 2\ntdf m\nset_attributes\nrate y 1 2 3\n", Some(4)),
    ("language 2\ntdf m\nrate y 2 * r\n", Some(3)),
    ("language 2\ntdf m\nprocessing\nrate y = 2\n", Some(4)),
    ("language 1\ntop\nsignal resolution w\nend", OK),
    ("language 2\ntop\nsignal resolution w\nend", OK),
    ("language 3\ntop\nsignal resolution w\nend", Some(3)),
    ("language 2\ntop\nend\ntrace s resolution", OK),
    ("language 3\ntop\nend\ntrace s resolution", Some(4)),
    ("language 1\nresolution 1ps\ntop\nend", Some(2)),
    ("language 2\nresolution 1ps\ntop\nend", Some(2)),
    ("language 3\nresolution 1ps\ntop\nend", OK),
    ("language 3\n\nresolution\t1fs # c\ntop\nend", OK),
    ("language 3\nresolution 01ps\ntop\nend", Some(2)),
    ("language 3\nresolution 1000fs\ntop\nend", Some(2)),
    ("language 3\nresolution 1us\ntop\nend", Some(2)),
    ("language 3\nresolution\ntop\nend", Some(2)),
    ("language 3\nresolution 1ps 1ps\ntop\nend", Some(2)),
    (
        "language 3\nresolution 1ps\nresolution 1ps\ntop\nend",
        Some(3),
    ),
    (
        "language 3\ntype w fixed 8 8\nresolution 1fs\ntop\nend",
        Some(3),
    ),
    ("language 3\ntop\nend\nresolution 1fs", Some(4)),
    ("resolution 1fs\nlanguage 3\ntop\nend", Some(1)),
    (
        "language 2\ntdf m\nset_attributes\ntimestep 1000fs\n",
        Some(4),
    ),
    ("language 3\ntdf m\nset_attributes\ntimestep 1fs\n", Some(4)),
    (
        "language 3\ntdf m\nset_attributes\ntimestep 1000fs\n",
        Some(5),
    ),
    (
        "language 3\nresolution 1fs\ntdf m\nset_attributes\ntimestep 1000s\n",
        Some(5),
    ),
    (
        "language 3\nresolution 1fs\ntdf m\nset_attributes\ntimestep 999s\n",
        Some(6),
    ),
    (
        "language 1\ntype w fixed 16 16\n\
        tdf r234567890123456789012345678901234567890123456789012345678901234\nout y w\n\
        var n w\nset_attributes\ntimestep 1us\nend\nprocessing\nn = n + 1\nend\nend\n\
        top\nend",
        OK,
    ),
    (
        "language 1\ntype w fixed 16 16\n\
        tdf r2345678901234567890123456789012345678901234567890123456789012345\nout y w\n\
        var n w\nset_attributes\ntimestep 1us\nend\nprocessing\nn = n + 1\nend\nend\n\
        top\nend",
        Some(3),
    ),
    (
        "language 1\ntype w fixed 16 16\ntdf r\nout y w\nvar n w\nset_attributes\n\
        timestep 1us\nend\nprocessing\nif n\nif n\nif n\nfor i 0 2\nif n\nif n\nif n\n\
        if n\nend\nend\nend\nend\nend\nend\nend\nend\nn = n + 1\nend\nend\ntop\nend",
        OK,
    ),
    (
        "language 1\ntype w fixed 16 16\ntdf r\nout y w\nvar n w\nset_attributes\n\
        timestep 1us\nend\nprocessing\nif n\nif n\nif n\nfor i 0 2\nif n\nif n\nif n\n\
        if n\nif n\nend\nend\nend\nend\nend\nend\nend\nend\nend\nn = n + 1\nend\nend\n\
        top\nend",
        Some(18),
    ),
];

/// Whether a line of 1,024 bytes is allowed, one of 1,025 isn't, and a byte after it at fault is not the first fault.
fn has_long_line(alloc: Global) -> Result<bool, Memory> {
    let mut text = joined(alloc, &["language 1\n#"])?;
    for _ in 1..1024 {
        text.push(b'x')?;
    }
    let fits = refusal(alloc, &text)? == Some(syntax(3));
    text.extend_from_slice(b"x\n\x01")?;
    Ok(fits && refusal(alloc, &text)? == Some(LangErr::LongLine { line: 2 }))
}

/// The first text with another fault, or nothing.
fn wrong_fault(alloc: Global) -> Result<&'static str, Memory> {
    for &(text, line) in TEXTS {
        if refusal(alloc, text.as_bytes())? != line.map(syntax) {
            return Ok(text);
        }
    }
    if refusal(alloc, b"x\n\x01")? != Some(LangErr::Byte { line: 2 }) {
        return Ok("a byte");
    }
    Ok(if has_long_line(alloc)? {
        ""
    } else {
        "a long line"
    })
}

/// What is before a line of a text, after its first line, and the number of that line.
type Place = (&'static str, u32);

const GLOBALS: Place = ("", 2);

const BLOCK: Place = ("tdf m\n", 3);

const ATTRIBUTES: Place = ("tdf m\nset_attributes\n", 4);

const PROCESSING: Place = ("tdf m\nprocessing\n", 4);

const EXPR: Place = ("tdf m\nprocessing\ny = ", 4);

const CHANGE: Place = ("tdf m\nchange_attributes\n", 4);

const PROCESS: Place = ("de d\nprocess\n", 4);

const TOP: Place = ("top\n", 3);

/// Lines: where it is, the line, whether it is allowed there in version 1, and in versions 2 and 3.
const LINES: &[(Place, &str, bool, bool)] = &[
    (EXPR, "a + b * c << 02", true, true),
    (EXPR, "a < b < c", false, false),
    (EXPR, "a < not b", false, false),
    (EXPR, "not a < b", true, true),
    (EXPR, "not not a and b", true, true),
    (EXPR, "- not a", false, false),
    (EXPR, "--a * -b", true, true),
    (EXPR, "a or b and c", true, true),
    (EXPR, "(a < b) < c", true, true),
    (EXPR, "a << b", false, false),
    (EXPR, "a << 1.5", false, false),
    (EXPR, "a << 1 << 2 * 3", true, true),
    (
        EXPR,
        "x[i + 1] + x[i - 2] + x[3 - i] + x[i] + x[4]",
        true,
        true,
    ),
    (EXPR, "x[1 + i]", false, false),
    (EXPR, "x[i * 2]", false, false),
    (EXPR, "x[(i)]", false, false),
    (EXPR, "x[]", false, false),
    (EXPR, "t(a + b)", true, true),
    (EXPR, "t()", false, false),
    (EXPR, "t(a, b)", false, false),
    (EXPR, "select(a < b, a, -b)", true, true),
    (EXPR, "select(a, b)", false, false),
    (EXPR, "select (a, b, c) + (1.50)", true, true),
    (EXPR, "(a", false, false),
    (EXPR, "x[2 * i]", false, true),
    (EXPR, "x[2 * i + 1] - a", false, true),
    (EXPR, "x[2 * i - 1]", false, false),
    (EXPR, "x[2 * 3]", false, false),
    (EXPR, "x[2.5 * i]", false, false),
    (EXPR, "x[2 * i + j]", false, false),
    (EXPR, "x[04]", true, true),
    (EXPR, "x[i]", true, true),
    (EXPR, "x[i + 1]", true, true),
    (EXPR, "x[i - 2]", true, true),
    (EXPR, "x[3 - i]", true, true),
    (EXPR, "x[2 * i]", false, true),
    (EXPR, "x[02 * i + 01]", false, true),
    (EXPR, "x[i * 2]", false, false),
    (EXPR, "x[2 * i +]", false, false),
    (GLOBALS, "language 1", false, false),
    (PROCESSING, "end", true, true),
    (PROCESSING, "end x", false, false),
    (GLOBALS, "type w fixed 8 4 rnd", true, true),
    (BLOCK, "const k w", false, false),
    (BLOCK, "var v w", true, true),
    (BLOCK, "array h w 2 - 5 0.5", true, true),
    (BLOCK, "rate r 1 2 3", true, true),
    (BLOCK, "rate r 1 4", false, false),
    (BLOCK, "rate r 1 2 3 4", false, false),
    (ATTRIBUTES, "rate y 2", true, true),
    (ATTRIBUTES, "rate y r", true, true),
    (ATTRIBUTES, "rate y 2 * r", false, true),
    (ATTRIBUTES, "rate y 2 * 3", false, false),
    (ATTRIBUTES, "rate y r * 2", false, false),
    (ATTRIBUTES, "rate y 2 * r + 1", false, false),
    (CHANGE, "rate r = 2 * r", true, true),
    (CHANGE, "rate r =", false, false),
    (ATTRIBUTES, "timestep 2.5us", true, true),
    (ATTRIBUTES, "timestep 2.5", false, false),
    (PROCESS, "notify e after 0s", true, true),
    (PROCESS, "notify e after", false, false),
    (PROCESSING, "for i 0 2", true, true),
    (PROCESSING, "for i 0 r", true, true),
    (PROCESSING, "for i 0 2 * r", false, true),
    (PROCESSING, "for i 2 * r 4", false, false),
    (PROCESSING, "for i r 4", false, false),
    (PROCESSING, "x[i - 1] = a", true, true),
    (PROCESSING, "x[i - 1] a", false, false),
    (PROCESSING, "x[2 * i] = a", false, true),
    (PROCESSING, "x[0] = y[2 * i + 1]", false, true),
    (TOP, "bind u . x s # a comment", true, true),
    (GLOBALS, "1", false, false),
    (ATTRIBUTES, "rate y 1 2 3", false, false),
    (BLOCK, "rate y 2", false, false),
    (BLOCK, "rate y 2 * r", false, false),
    (PROCESSING, "rate r = 2", false, false),
    (EXPR, "a<-1", true, true),
    (EXPR, "a<<=b", false, false),
    (EXPR, "a<=b", true, true),
    (EXPR, "a==!=c", false, false),
    (EXPR, "a>b>>2", true, true),
    (EXPR, "iff + in_x + _x", true, true),
    (EXPR, "if", false, false),
    (EXPR, "12abc", false, false),
    (EXPR, "7_", false, false),
    (EXPR, "1us", false, false),
    (EXPR, "12.", false, false),
    (EXPR, "1.2.3", false, false),
    (EXPR, "123456789012345678.123456789012345678", true, true),
    (EXPR, "1234567890123456789", false, false),
    (EXPR, "0.1234567890123456789", false, false),
    (ATTRIBUTES, "timestep 999999s", true, true),
    (ATTRIBUTES, "timestep 1000000s", false, false),
    (ATTRIBUTES, "timestep 0.000001us", true, true),
    (ATTRIBUTES, "timestep 0.0000001us", false, false),
    (ATTRIBUTES, "timestep 1.5us2", false, false),
    (PROCESS, "notify e", true, true),
    (TOP, "de_signal p w - 0.5", true, true),
    (TOP, "de_signal p w -", false, false),
    (BLOCK, "in x ufixed 8 4 rnd", true, true),
    (BLOCK, "in x ufixed 8", false, false),
];

/// The first line that is allowed and should not be, or the other way round; or nothing. After a line that is allowed the
/// text ends too early.
fn wrong_line(alloc: Global) -> Result<&'static str, Memory> {
    for &((before, number), line, first, later) in LINES {
        for (word, allowed) in [("1", first), ("2", later), ("3", later)] {
            let text = joined(alloc, &["language ", word, "\n", before, line])?;
            let fault = if allowed {
                number.saturating_add(1)
            } else {
                number
            };
            if refusal(alloc, &text)? != Some(syntax(fault)) {
                return Ok(line);
            }
        }
    }
    Ok("")
}

#[test]
fn faults(rt: HostRuntime) -> Result<(), Fail> {
    assert_eq!(rt; wrong_fault(rt.alloc())?, "");
    assert_eq!(rt; wrong_line(rt.alloc())?, "");
    Ok(())
}

/// A text: rates, limits and indices that are multiples.
const MULTIPLES: &str =
    "language 3\ntype w fixed 08 4 # c\n\ntdf m\nin x w\nout y w\nrate r 1 2 3\n\
    set_attributes\nrate x 2\nrate y 2 * r\nend\nprocessing\nfor i 0 2 * r\n\
    y[2 * i] = x[2 * i + 1]\nend\nend\nend\ntop\nsignal s w\ninstance u m\nbind u.y s\nend\n\
    trace s l";

/// Whether a tree has the lines and the parts of MULTIPLES, but for what its blocks hold.
fn is_multiples(tree: &Tree) -> bool {
    match tree.globals.as_slice() {
        [Global1::Shape(shape), Global1::Tdf(module)] => tree.version == Version::V3
            && tree.resolution == Resolution::Ps
            && shape.line == 2
            && module.line == 4
            && module.processing.end == 16
            && tree.top.line == 18
            && tree.top.members.len() == 3
            && tree.traces.len() == 1,
        _ => false,
    }
}

#[test]
fn a_tree(rt: HostRuntime) -> Result<(), Fail> {
    law_spelled();
    law_exprs();
    assert!(rt; MULTIPLES.len() < 1000);
    assert!(rt; is_multiples(&parse(rt.alloc(), MULTIPLES.as_bytes())?));
    Ok(())
}
