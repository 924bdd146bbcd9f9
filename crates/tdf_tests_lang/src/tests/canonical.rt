//! Canonical texts: those of worked models, which others printed, and those of small blocks, by the rules of canonical text.

use super::joined;
use std::alloc::Global;
use std::test::Fail;
use tdf_base::Memory;
use tdf_lang::{LangErr, parse, push_tree};

/// Whether `want` is the canonical text of a text.
fn is_canonical(alloc: Global, text: &[u8], want: &[u8]) -> Result<bool, Memory> {
    if 10_000 < text.len() {
        return Ok(false);
    }
    match parse(alloc, text) {
        Ok(tree) => {
            let mut out = Vec::new(alloc);
            push_tree(&mut out, &tree)?;
            Ok(out.as_slice() == want)
        }
        Err(LangErr::Memory) => Err(Memory),
        Err(_) => Ok(false),
    }
}

/// Whether `want` is the canonical text of a text, and of itself.
fn prints(alloc: Global, text: &[u8], want: &[u8]) -> Result<bool, Memory> {
    Ok(is_canonical(alloc, text, want)? && is_canonical(alloc, want, want)?)
}

/// The ramp, with its timestep in us.
const RAMP: &[(&str, &str)] = &[(
    "type w fixed 16 16\ntdf ramp\nout y w\nvar n w\nset_attributes\n\
    timestep 1us\nend\nprocessing\ny = n\nn = n + 1\nend\nend\n",
    "type w fixed 16 16 trn wrap\ntdf ramp\nout y w\nvar n w 0\nset_attributes\n\
    timestep 1000000ps\nend\nprocessing\ny = n\nn = n + 1\nend\nend\n",
)];

/// The ramp with a timestep that is 1 ps.
const FAST: &[(&str, &str)] = &[(
    "type w fixed 16 16\ntdf ramp\nout y w\nvar n w\nset_attributes\n\
    timestep 1000fs\nend\nprocessing\ny = n\nn = n + 1\nend\nend\n",
    "type w fixed 16 16 trn wrap\ntdf ramp\nout y w\nvar n w 0\nset_attributes\n\
    timestep 1ps\nend\nprocessing\ny = n\nn = n + 1\nend\nend\n",
)];

/// The ramp with a timestep below 1 ps, at 1 fs.
const FASTEST: &[(&str, &str)] = &[(
    "type w fixed 16 16\ntdf ramp\nout y w\nvar n w\nset_attributes\n\
    timestep 250fs\nend\nprocessing\ny = n\nn = n + 1\nend\nend\n",
    "type w fixed 16 16 trn wrap\ntdf ramp\nout y w\nvar n w 0\nset_attributes\n\
    timestep 250fs\nend\nprocessing\ny = n\nn = n + 1\nend\nend\n",
)];

/// The top of a model of the ramp; it is its own canonical text.
const RAMP_TOP: &str = "top\nsignal s w\ninstance u ramp\nbind u.y s\nend\ntrace s s\n";

/// A module that repeats its samples, and a top; they are their own canonical text.
const REPEATS: &str =
    "tdf rep\nin x w\nout y w\nrate r 1 2 1\nset_attributes\nrate x r\nrate y 2 * r\n\
    does_attribute_changes\nend\nprocessing\nfor i 0 r\ny[2 * i] = x[i]\ny[2 * i + 1] = -x[i]\nend\n\
    end\nchange_attributes\nrate r = 2\nend\nend\ntop\nsignal s w\nsignal t w\ninstance a ramp\n\
    instance b rep\nbind a.y s\nbind b.x s\nbind b.y t\nend\ntrace t t\n";

/// A text of version 2.
const SECOND: &str = "language 2\ntype t0 fixed 16 5\ntype t1 fixed 12 9 rnd_inf wrap\n\
    type t2 fixed 24 12 rnd_conv sat\ntype t3 fixed 20 13\ntdf m3\nvar v4 t0\n\
    out y1 t3\nconst c5 t1 3.25\nset_attributes\naccept_attribute_changes\n\
    timestep y1 25000ps\nend\nprocessing\ny1[0] = v4 * c5\ny1[0] = t3(4 + v4)\n\
    for i0 0 2\nv4 = v4 - i0\nfor i1 2 4\ny1 = v4\nend\nend\ny1 = ((1 * v4) >> 5) << 9\n\
    end\nchange_attributes\nv4 = c5\nend\nend\ncomposite h7\nsignal s2 t3\n\
    instance u6 m3\nbind u6.y1 s2\nend\ncomposite h9\ninstance v8 h7\nend\n\
    composite h11\ninstance v10 h9\nend\ntop\ninstance v12 h11\nend\n\
    trace v12.v10.v8.s2 z0\n";

/// Its canonical text.
const SECOND_TEXT: &str =
    "language 2\ntype t0 fixed 16 5 trn wrap\ntype t1 fixed 12 9 rnd_inf wrap\n\
    type t2 fixed 24 12 rnd_conv sat\ntype t3 fixed 20 13 trn wrap\ntdf m3\n\
    var v4 t0 0\nout y1 t3\nconst c5 t1 3.25\nset_attributes\naccept_attribute_changes\n\
    timestep y1 25000ps\nend\nprocessing\ny1[0] = v4 * c5\ny1[0] = t3(4 + v4)\n\
    for i0 0 2\nv4 = v4 - i0\nfor i1 2 4\ny1 = v4\nend\nend\ny1 = ((1 * v4) >> 5) << 9\n\
    end\nchange_attributes\nv4 = c5\nend\nend\ncomposite h7\nsignal s2 t3\n\
    instance u6 m3\nbind u6.y1 s2\nend\ncomposite h9\ninstance v8 h7\nend\n\
    composite h11\ninstance v10 h9\nend\ntop\ninstance v12 h11\nend\n\
    trace v12.v10.v8.s2 z0\n";

/// A text of version 3 at 1 fs.
const THIRD: &str = "language 3\nresolution 1fs\ntype t0 fixed 1 0 rnd\ntype t1 fixed 32 31\n\
    type t2 ufixed 8 8 trn sat_zero\ntype t3 fixed 12 4\ntdf m10\nde_out o8 t3\n\
    in x3 t1\nconst c11 t1 0\n  out y4 t3\nde_in c6 t1\nset_attributes\n\
    timestep x3 600ps\ndelay c6 2\n\tdelay o8 2\nrate c6 3\ndelay  x3 1\nrate o8 2\n\
    end\ninitialize\ninitial c6 0 3.25\ninitial o8 0 -127\ninitial x3 0 -2\nend\n\
    processing\no8 = t1(x3) * (c11 << 2)\n\
    y4 = (c6 - (-c6[1])) + ((c11 + c6[1]) * (c6 * x3))\n  for j 0 2\n\
    o8[j] = c6[j - 0] * c6\nend\nend\nend\ntdf m13\n  \t \nout y2 t1\nset_attributes\n\
    \x20 accept_attribute_changes\n# a comment\nend\n  processing\nfor i0 2 6\n\
    y2 = -t2(0)\ny2  = (select(5.5, 2, 1) + (5 * 3)) - t1(6)\nend\n\
    y2[0] = t3(select(3, 3, 7) * (not 8))\ny2 = -((5.25 - 0) - (4 + 0.75))\n\
    y2 = 4.75 << 9\nend\nend\nde e15\nvar v22 t3\nevent g24\nconst c21 t0 0.1\n\
    # a comment\nde_in a16 t1\nevent g25\nde_out q19 fixed 1 0 rnd\nde_out q17 t3\n\
    var v23 fixed 1 0 rnd\n  process\nsensitive g24\n\
    q17 = t3(9 >> 1) * (8 + (a16 != c21))\nq17 = t3(v22)\nv22 = not v22\nq17 = -v22\n\
    notify g25 after 200000fs\nend\nprocess\nsensitive g24\nsensitive g25\n\n\
    \tq19 = (t1(v22) * 2.5) - v22\nq19 = v23 * (v23 >> 3)\n\
    if select(1, t3(c21), not c21)\nnotify g24 after 5000000.0fs\nv23 = a16\nelse\n\
    v23 = t3(v23) << 2\nend\nq19 = 9\nnotify g25 after 5000fs\nend\nend\ncomposite h27\n\
    de_in p29 fixed 32 31\nin p30 t1\nsignal s5 t3\nde_signal d9 t3\ninstance u12 m10\n\
    bind u12.y4 s5\nbind u12.c6 p29\nbind u12.o8 d9\nbind u12.x3 p30\nend\ntop\n\
    signal s1 t1\nde_signal d7 t1\nde_signal d18 t3\nde_signal d20 fixed 1 0 rnd\n\
    instance  v28 h27\n  instance u14 m13\ninstance k26 e15\nbind v28.p29 d7\n\
    bind v28.p30 s1\nbind u14.y2 s1\nbind k26.a16 d7 # end\n\nbind k26.q17 d18\n\
    \x20 bind k26.q19 d20\nend\ntrace  v28.s5 z0\ntrace v28.s5 z1\n";

/// Its canonical text.
const THIRD_TEXT: &str = "language 3\nresolution 1fs\ntype t0 fixed 1 0 rnd wrap\n\
    type t1 fixed 32 31 trn wrap\ntype t2 ufixed 8 8 trn sat_zero\n\
    type t3 fixed 12 4 trn wrap\ntdf m10\nde_out o8 t3\nin x3 t1\nconst c11 t1 0\n\
    out y4 t3\nde_in c6 t1\nset_attributes\ntimestep x3 600000fs\ndelay c6 2\n\
    delay o8 2\nrate c6 3\ndelay x3 1\nrate o8 2\nend\ninitialize\ninitial c6 0 3.25\n\
    initial o8 0 -127\ninitial x3 0 -2\nend\nprocessing\no8 = t1(x3) * (c11 << 2)\n\
    y4 = (c6 - (-c6[1])) + ((c11 + c6[1]) * (c6 * x3))\nfor j 0 2\n\
    o8[j] = c6[j - 0] * c6\nend\nend\nend\ntdf m13\nout y2 t1\nset_attributes\n\
    accept_attribute_changes\nend\nprocessing\nfor i0 2 6\ny2 = -t2(0)\n\
    y2 = (select(5.5, 2, 1) + (5 * 3)) - t1(6)\nend\n\
    y2[0] = t3(select(3, 3, 7) * (not 8))\ny2 = -((5.25 - 0) - (4 + 0.75))\n\
    y2 = 4.75 << 9\nend\nend\nde e15\nvar v22 t3 0\nevent g24\nconst c21 t0 0.1\n\
    de_in a16 t1\nevent g25\nde_out q19 fixed 1 0 rnd wrap\nde_out q17 t3\n\
    var v23 fixed 1 0 rnd wrap 0\nprocess\nsensitive g24\n\
    q17 = t3(9 >> 1) * (8 + (a16 != c21))\nq17 = t3(v22)\nv22 = not v22\nq17 = -v22\n\
    notify g25 after 200000fs\nend\nprocess\nsensitive g24\nsensitive g25\n\
    q19 = (t1(v22) * 2.5) - v22\nq19 = v23 * (v23 >> 3)\n\
    if select(1, t3(c21), not c21)\nnotify g24 after 5000000fs\nv23 = a16\nelse\n\
    v23 = t3(v23) << 2\nend\nq19 = 9\nnotify g25 after 5000fs\nend\nend\ncomposite h27\n\
    de_in p29 fixed 32 31 trn wrap\nin p30 t1\nsignal s5 t3\nde_signal d9 t3 0\n\
    instance u12 m10\nbind u12.y4 s5\nbind u12.c6 p29\nbind u12.o8 d9\nbind u12.x3 p30\n\
    end\ntop\nsignal s1 t1\nde_signal d7 t1 0\nde_signal d18 t3 0\n\
    de_signal d20 fixed 1 0 rnd wrap 0\ninstance v28 h27\ninstance u14 m13\n\
    instance k26 e15\nbind v28.p29 d7\nbind v28.p30 s1\nbind u14.y2 s1\n\
    bind k26.a16 d7\nbind k26.q17 d18\nbind k26.q19 d20\nend\ntrace v28.s5 z0\n\
    trace v28.s5 z1\n";

/// Small blocks, and their canonical text in versions 1 and 2.
const BLOCKS: &[(&str, &str)] = &[
    ("", ""),
    (
        "type w fixed 016 4 # a word\n\n",
        "type w fixed 16 4 trn wrap\n",
    ),
    (
        "type w ufixed 8 2 rnd_conv sat\n",
        "type w ufixed 8 2 rnd_conv sat\n",
    ),
    (
        "tdf a\nset_attributes\nend\ninitialize\nend\nprocessing\nend\nend\n",
        "tdf a\nend\n",
    ),
    (
        "tdf a\nout\ty w\nvar v w -0\narray h w 4 0.50 - 1\nconst c fixed 4 4 00\nrate r 1 4 01\nend\n",
        "tdf a\nout y w\nvar v w 0\narray h w 4 0.5 -1\nconst c fixed 4 4 trn wrap 0\nrate r 1 4 1\nend\n",
    ),
    (
        "tdf a\nset_attributes\ntimestep 1.5us\ntimestep y 1ms\nrate y r\ndelay y 03\ndoes_attribute_changes\nend\nend\n",
        "tdf a\nset_attributes\ntimestep 1500000ps\ntimestep y 1000000000ps\nrate y r\ndelay y 3\ndoes_attribute_changes\nend\nend\n",
    ),
    (
        "tdf a\nprocessing\ny=3*(-v)\ny = -(-v)\ny = not(a<b)\ny = a+b-c\ny = a+(b-c)\nend\nend\n",
        "tdf a\nprocessing\ny = 3 * (-v)\ny = -(-v)\ny = not (a < b)\ny = (a + b) - c\ny = a + (b - c)\nend\nend\n",
    ),
    (
        "tdf a\nprocessing\ny[i+01] = x[3-i]<<02\ny = select(w(a)<b,((c)),-0.50)\nend\nend\n",
        "tdf a\nprocessing\ny[i + 1] = x[3 - i] << 2\ny = select(w(a) < b, c, -0.5)\nend\nend\n",
    ),
    (
        "tdf a\nprocessing\nfor i 0 r\nif a and b or c\ny = 1\nelse\nend\nend\nend\nend\n",
        "tdf a\nprocessing\nfor i 0 r\nif (a and b) or c\ny = 1\nend\nend\nend\nend\n",
    ),
    (
        "tdf a\nchange_attributes\nif k == 1\nrate r = 4\nelse\ntimestep 2ns\nend\naccept_attribute_changes\nend\nend\n",
        "tdf a\nchange_attributes\nif k == 1\nrate r = 4\nelse\ntimestep 2000ps\nend\naccept_attribute_changes\nend\nend\n",
    ),
    (
        "de g\nde_out q w\nevent e\nprocess\nend\nprocess\nsensitive e\ndont_initialize\nnotify e\nnotify e after 0.5ns\nend\nend\n",
        "de g\nde_out q w\nevent e\nprocess\nend\nprocess\nsensitive e\ndont_initialize\nnotify e after 0ps\nnotify e after 500ps\nend\nend\n",
    ),
    (
        "composite c\nin x w\nde_signal g w\nsignal s w\ninstance u a\nbind u . y s\nend\n",
        "composite c\nin x w\nde_signal g w 0\nsignal s w\ninstance u a\nbind u.y s\nend\n",
    ),
    (
        "composite c\nend\nde d\nend\n",
        "composite c\nend\nde d\nend\n",
    ),
    (
        "de d\nprocess\nnotify e after 2s\nnotify\te\nend\nend\n",
        "de d\nprocess\nnotify e after 2000000000000ps\nnotify e after 0ps\nend\nend\n",
    ),
];

/// Small blocks, and their canonical text in version 3 at 1 fs.
const FEMTO: &[(&str, &str)] = &[
    (
        "de g\nevent e\nprocess\nnotify e\nnotify e after 0.5ps\nnotify e after 2ns\nend\nend\n",
        "de g\nevent e\nprocess\nnotify e after 0fs\nnotify e after 500fs\nnotify e after 2000000fs\nend\nend\n",
    ),
    (
        "tdf a\nset_attributes\ntimestep 1us\ntimestep y 00.50ps\nrate y 02*r\nend\nend\n",
        "tdf a\nset_attributes\ntimestep 1000000000fs\ntimestep y 500fs\nrate y 2 * r\nend\nend\n",
    ),
    (
        "tdf a\nprocessing\nfor i 00 02 *r\ny[2*i]=x[ 3 * i+04 ]\nend\nend\nend\n",
        "tdf a\nprocessing\nfor i 0 2 * r\ny[2 * i] = x[3 * i + 4]\nend\nend\nend\n",
    ),
    (
        "tdf a\nchange_attributes\ntimestep 1fs\nrate r=2*r\nreject_attribute_changes\nend\nend\n",
        "tdf a\nchange_attributes\ntimestep 1fs\nrate r = 2 * r\nreject_attribute_changes\nend\nend\n",
    ),
];

/// Generated models, and their canonical texts.
const MODELS: &[(&str, &str)] = &[(SECOND, SECOND_TEXT), (THIRD, THIRD_TEXT)];

/// The first lines, how they are printed, the texts after them, and the last lines, which are their own canonical text.
const TEXTS: &[(&str, &str, &[(&str, &str)], &str)] = &[
    ("language 1\n", "language 1\n", RAMP, RAMP_TOP),
    ("language 2\n", "language 2\n", RAMP, REPEATS),
    (
        "language 3\n",
        "language 3\nresolution 1ps\n",
        RAMP,
        REPEATS,
    ),
    (
        "language 3\n",
        "language 3\nresolution 1ps\n",
        FAST,
        RAMP_TOP,
    ),
    (
        "language 3\n\nresolution 1ps # c\n",
        "language 3\nresolution 1ps\n",
        FAST,
        RAMP_TOP,
    ),
    (
        "language 3\nresolution 1fs\n",
        "language 3\nresolution 1fs\n",
        FASTEST,
        RAMP_TOP,
    ),
    ("", "", MODELS, ""),
    (
        "language 1\n",
        "language 1\n",
        BLOCKS,
        "top\nend\ntrace a.b l\n",
    ),
    (
        "language 2\n",
        "language 2\n",
        BLOCKS,
        "top\nend\ntrace a.b l\n",
    ),
    (
        "language 3\nresolution 1fs\n",
        "language 3\nresolution 1fs\n",
        FEMTO,
        "top\nend\n",
    ),
];

/// The first text with another canonical text, or `none`.
fn wrong_text(alloc: Global) -> Result<&'static str, Memory> {
    for &(first, printed, texts, last) in TEXTS {
        for &(text, wanted) in texts {
            let given = joined(alloc, &[first, text, last])?;
            let want = joined(alloc, &[printed, wanted, last])?;
            if !prints(alloc, &given, &want)? {
                return Ok(text);
            }
        }
    }
    Ok("none")
}

#[test]
fn canonical_texts(rt: HostRuntime) -> Result<(), Fail> {
    assert_eq!(rt; wrong_text(rt.alloc())?, "none");
    Ok(())
}
