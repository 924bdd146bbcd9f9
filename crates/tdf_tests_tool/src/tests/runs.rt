//! The command over sources and sinks in memory that never fail: worked runs, and refusals by name.

use std::alloc::Global;
use std::test::Fail;
use tdf_base::Memory;
use tdf_cli::{NO_MEMORY, USAGE, tool};
use tdf_io::{SureSink, SureSource};

/// The bytes of some texts, one after another.
fn joined(alloc: Global, parts: &[&str]) -> Result<Vec<u8>, Memory> {
    let mut out = Vec::new(alloc);
    for part in parts {
        out.extend_from_slice(part.as_bytes())?;
    }
    Ok(out)
}

/// The ramp: its first lines, the bits of its word, its timestep, and what each sample adds.
#[derive(Clone, Copy)]
struct Ramp<'a> {
    first: &'a str,
    bits: &'a str,
    step: &'a str,
    add: &'a str,
}

impl<'a> Ramp<'a> {
    fn text(self, alloc: Global) -> Result<Vec<u8>, Memory> {
        joined(
            alloc,
            &[
                self.first,
                "\ntype w fixed ",
                self.bits,
                " ",
                self.bits,
                "\ntdf ramp\nout y w\nvar n w\nset_attributes\ntimestep ",
                self.step,
                "\nend\nprocessing\ny = n\nn = n + ",
                self.add,
                "\nend\nend\ntop\nsignal s w\ninstance u ramp\nbind u.y s\nend\ntrace s s\n",
            ],
        )
    }
}

/// The ramp of 16 bits, one sample a microsecond.
const RAMP: Ramp<'static> = Ramp {
    first: "language 1",
    bits: "16",
    step: "1us",
    add: "1",
};

fn words_of(alloc: Global, words: &[&str]) -> Result<Vec<String>, Memory> {
    let mut list = Vec::new(alloc);
    for word in words {
        list.push(String::from_str(alloc, word)?)?;
    }
    Ok(list)
}

/// Whether the command, over devices that never fail, answers this status, this output and these notes.
fn answers(
    alloc: Global,
    words: &[&str],
    text: &[u8],
    wanted: (u8, &[u8], &[u8]),
) -> Result<bool, Memory> {
    let words = words_of(alloc, words)?;
    let mut model = SureSource::new(Vec::from_slice(alloc, text)?);
    let mut out = SureSink::new(alloc);
    let mut notes = SureSink::new(alloc);
    let status = tool(alloc, &words, &mut model, &mut out, &mut notes);
    if status == NO_MEMORY {
        return Err(Memory);
    }
    Ok(status == wanted.0 && out.bytes() == wanted.1 && notes.bytes() == wanted.2)
}

/// Runs of the ramp: bits, timestep, what is added, the stop, then the table, the period and the closing note.
const RUNS: &[(&str, &str, &str, &str, &str, &str, &str)] = &[
    (
        "16",
        "1us",
        "1",
        "3us",
        "%time s\n0 0\n0.000001 1\n0.000002 2\n",
        "0.000001",
        "end 0.000003 turns 5\n",
    ),
    (
        "16",
        "1us",
        "1",
        "0s",
        "%time s\n",
        "0.000001",
        "end 0 turns 0\n",
    ),
    (
        "16",
        "1us",
        "1",
        "1us",
        "%time s\n0 0\n",
        "0.000001",
        "end 0.000001 turns 1\n",
    ),
    (
        "16",
        "1us",
        "1",
        "1000001ps",
        "%time s\n0 0\n0.000001 1\n",
        "0.000001",
        "end 0.000001000001 turns 3\n",
    ),
    (
        "1",
        "0.5ms",
        "1",
        "2ms",
        "%time s\n0 0\n0.0005 -1\n0.001 0\n0.0015 -1\n",
        "0.0005",
        "end 0.002 turns 7\n",
    ),
    (
        "8",
        "1s",
        "100",
        "4s",
        "%time s\n0 0\n1 100\n2 -56\n3 44\n",
        "1",
        "end 4 turns 7\n",
    ),
    (
        "64",
        "2ps",
        "999999999999999999",
        "5ps",
        "%time s\n0 0\n0.000000000002 999999999999999999\n0.000000000004 1999999999999999998\n",
        "0.000000000002",
        "end 0.000000000005 turns 5\n",
    ),
    (
        "8",
        "1ps",
        "000",
        "2ps",
        "%time s\n0 0\n0.000000000001 0\n",
        "0.000000000001",
        "end 0.000000000002 turns 3\n",
    ),
];

/// The stop of the first run with another answer, or nothing.
fn wrong_run(alloc: Global) -> Result<&'static str, Memory> {
    for &(bits, step, add, stop, table, period, closing) in RUNS {
        let ramp = Ramp {
            first: "language 1",
            bits,
            step,
            add,
        };
        let notes = joined(
            alloc,
            &[
                "cluster 1 at 0 period ",
                period,
                " firings 1\nactor u count 1 step ",
                period,
                "\n",
                closing,
            ],
        )?;
        let text = ramp.text(alloc)?;
        if !answers(
            alloc,
            &["run", "--stop", stop],
            &text,
            (0, table.as_bytes(), &notes),
        )? {
            return Ok(stop);
        }
    }
    Ok("")
}

const RUN: &[&str] = &["run", "--stop", "3us"];

/// Ramps that do not run: the first lines, bits, timestep, the words, the status and the note.
const RAMPS: &[(&str, &str, &str, &[&str], u8, &str)] = &[
    ("language 1", "16", "1us", &["run"], USAGE, "usage\n"),
    (
        "language 1",
        "16",
        "1us",
        &["run", "--stop", "1000000s"],
        USAGE,
        "usage\n",
    ),
    (
        "language 1",
        "16",
        "1us",
        &["run", "--stop", "1000fs"],
        USAGE,
        "usage\n",
    ),
    (
        "language 1",
        "16",
        "1us",
        &["run", "--stop", "3us", "now"],
        USAGE,
        "usage\n",
    ),
    ("language 1", "65", "1us", RUN, 1, "refused FORMAT line 2\n"),
    ("language 1", "16", "0s", RUN, 1, "refused LIMIT line 7\n"),
    (
        "language 1",
        "16",
        "250fs",
        RUN,
        1,
        "refused SYNTAX line 7\n",
    ),
    (
        "language 3\nresolution 1ps",
        "16",
        "250fs",
        RUN,
        1,
        "refused SYNTAX line 8\n",
    ),
    (
        "language 3\nresolution 1fs",
        "16",
        "250fs",
        &["run", "--stop", "1000s"],
        9,
        "stop too long\n",
    ),
];

/// Other texts, and the note.
const TEXTS: &[(&str, &str)] = &[
    ("", "refused SYNTAX line 1\n"),
    ("language 1\n", "refused SYNTAX line 2\n"),
    ("language 1\n#\r\nend\n", "refused BYTE line 2\n"),
    (
        "language 2\nresolution 1ps\ntop\nend\n",
        "refused SYNTAX line 2\n",
    ),
];

/// The note of the first ramp or text with another answer, or nothing.
fn wrong_refusal(alloc: Global) -> Result<&'static str, Memory> {
    for &(first, bits, step, words, status, note) in RAMPS {
        let ramp = Ramp {
            first,
            bits,
            step,
            add: "1",
        };
        let text = ramp.text(alloc)?;
        if !answers(alloc, words, &text, (status, b"", note.as_bytes()))? {
            return Ok(note);
        }
    }
    for &(text, note) in TEXTS {
        if !answers(alloc, RUN, text.as_bytes(), (1, b"", note.as_bytes()))? {
            return Ok(note);
        }
    }
    Ok("")
}

/// Runs of the ramp of 16 bits, one sample a microsecond: the words, the status, the output, and the closing note.
const OTHERS: &[(&[&str], u8, &str, &str)] = &[
    (
        &["run", "--stop", "3us", "--format", "vcd"],
        0,
        "$timescale 1 ps $end\n$scope module top $end\n$var wire 16 ! s $end\n$upscope $end\n$enddefinitions $end\n#0\n$dumpvars\nb0000000000000000 !\n$end\n#1000000\nb0000000000000001 !\n#2000000\nb0000000000000010 !\n#3000000\n",
        "end 0.000003 turns 5\n",
    ),
    (
        &["run", "--turns", "4", "--stop", "3us"],
        6,
        "%time s\n0 0\n0.000001 1\n",
        "spent 0.000002 turns 4\n",
    ),
];

/// The closing note of the first of the other runs with another answer, or nothing.
fn wrong_other(alloc: Global) -> Result<&'static str, Memory> {
    let text = RAMP.text(alloc)?;
    for &(words, status, output, closing) in OTHERS {
        let notes = joined(
            alloc,
            &[
                "cluster 1 at 0 period 0.000001 firings 1\nactor u count 1 step 0.000001\n",
                closing,
            ],
        )?;
        if !answers(alloc, words, &text, (status, output.as_bytes(), &notes))? {
            return Ok(closing);
        }
    }
    Ok("")
}

/// Runs of models whose modules change their attributes: the words, the text, the status, the output, and the notes.
const CHANGES: &[(&[&str], &str, u8, &str, &str)] = &[
    // A rate that leaves a loop without enough delay: the fault ends the run at the boundary.
    (
        &[
            "run", "--stop", "40us", "--format", "vcd", "--turns", "20000",
        ],
        "language 2\ntype t0 ufixed 8 7 rnd_inf wrap\ntype t1 fixed 16 8 rnd_zero sat_zero\ntype zw fixed 16 16\ntdf zz\nin x zw\nout y zw\nrate r 1 2 1\nset_attributes\nrate x r\nrate y r\ndelay x 1\ntimestep 2us\ndoes_attribute_changes\nend\nchange_attributes\nrate r = 2\nend\nend\ntop\nsignal zs zw\ninstance zi zz\nbind zi.x zs\nbind zi.y zs\nend\n",
        5,
        "$timescale 1 ps $end\n$scope module top $end\n$upscope $end\n$enddefinitions $end\n#0\n$dumpvars\n$end\n#2000000\n",
        "cluster 1 at 0 period 0.000002 firings 1\nactor zi count 1 step 0.000002\nedge zi.x delay 1 bound 1\nstopped 0.000002 cluster 1 DEADLOCK path zi\n",
    ),
    // A module that asks for nothing at its first boundary, and at the second one for a new plan.
    (
        &[
            "run", "--stop", "40us", "--format", "vcd", "--turns", "20000",
        ],
        "language 1\ntype t0 fixed 16 4 rnd\ntype t1 ufixed 12 8\ntype t2 fixed 8 3\ntype t3 fixed 8 6 rnd_conv sat\ntdf m5\nvar v6 fixed 16 4 rnd -2\nout y1 t2\nde_out o3 t2\nset_attributes\nreject_attribute_changes\ntimestep 25ns\ndelay o3 1\nend\ninitialize\nv6 = v6\nv6 = t2(-7.1875)\nend\nprocessing\ny1 = v6\ny1[0] = v6 - v6\ny1 = t1((1.5 * 2) > (v6 >= v6))\no3 = v6\nend\nend\ncomposite h8\nsignal s2 fixed 8 3\nde_signal d4 t2\ninstance u7 m5\nbind u7.y1 s2\nbind u7.o3 d4\nend\ncomposite h10\ninstance v9 h8\nend\ntype zw fixed 16 16\ntdf zz\nout y zw\nvar k zw\nset_attributes\ntimestep 2us\ndoes_attribute_changes\nend\nchange_attributes\nk = k + 1\nif k == 2\ntimestep y 2us\naccept_attribute_changes\nend\nend\nend\ntdf zr\nin x zw\nset_attributes\naccept_attribute_changes\nend\nend\ntop\ninstance v11 h10\nsignal zs zw\ninstance zi zz\nbind zi.y zs\ninstance zj zr\nbind zj.x zs\nend\ntrace v11.v9.s2 z0\ntrace v11.v9.d4 z1\ntrace v11.v9.s2 z2\n",
        0,
        "$timescale 1 ps $end\n$scope module top $end\n$var wire 8 ! z0 $end\n$var wire 8 \" z1 $end\n$var wire 8 # z2 $end\n$upscope $end\n$enddefinitions $end\n#0\n$dumpvars\nb00100000 !\nb00000000 \"\nb00100000 #\n$end\n#25000\nb00011010 \"\n#40000000\n",
        "cluster 1 at 0 period 0.000000025 firings 2\nactor v11.v9.u7 count 1 step 0.000000025\nactor v11.v9.u7.o3 count 1 step 0.000000025\nedge v11.v9.u7.o3 delay 1 bound 2\ncluster 2 at 0 period 0.000002 firings 2\nactor zi count 1 step 0.000002\nactor zj count 1 step 0.000002\nedge zj.x delay 0 bound 1\ncluster 2 at 0.000004 period 0.000002 firings 2\nactor zi count 1 step 0.000002\nactor zj count 1 step 0.000002\nedge zj.x delay 0 bound 1\nend 0.00004 turns 6458\n",
    ),
    // Change bodies that ask for nothing new: the first plan stays.
    (
        &[
            "run",
            "--stop",
            "7654321ps",
            "--format",
            "table",
            "--turns",
            "500",
        ],
        "language 1\ntype t0 fixed 24 15\ntype t1 fixed 6 1\ntype t2 fixed 20 10 rnd_zero\ntype t3 fixed 4 2 rnd_zero wrap\ntype t4 fixed 8 6 trn sat_zero\ntdf m3\nvar v5 t3 -0.1\nconst c6 t1 3.25\nvar v4 t0 1\nout y1 fixed 4 2 rnd_zero wrap\nset_attributes\ntimestep 250000ps\naccept_attribute_changes\ndoes_attribute_changes\nend\ninitialize\nend\nprocessing\ny1 = ((not c6) + (7 * c6)) * v5\n  end\nchange_attributes\nv4 = v4\nv4 = t3((v5 >> 9) - (3.5 * 3.75))\nv5 = -c6\n  end\n\tend\nde e8 # end\nevent g14\nde_out q9 t3\nevent g13\nconst c12 t2 100\nconst c11 t2 12.375\nprocess\nsensitive g13\nsensitive g14#x\nif (c12 * c11) * (c12 + c12)\nelse\nq9 = c11\nend\nnotify g14 after 2500000ps\nq9 = not t0(0.25 - c12)\nend\nend\ntop\nde_signal d10 t3\nsignal s2 t3\n\tinstance u7 m3\n  instance k15 e8\nbind u7.y1 s2\nbind k15.q9 d10\nend\n# a comment\ntrace s2 z0\ntrace s2 z1\n  trace d10 z2\ntrace s2 z3\ntrace s2 z4\n",
        0,
        "%time z0 z1 z2 z3 z4\n0 0 0 0 0 0\n0.00000025 0 0 0 0 0\n0.0000005 0 0 0 0 0\n0.00000075 0 0 0 0 0\n0.000001 0 0 0 0 0\n0.00000125 0 0 0 0 0\n0.0000015 0 0 0 0 0\n0.00000175 0 0 0 0 0\n0.000002 0 0 0 0 0\n0.00000225 0 0 0 0 0\n0.0000025 0 0 0 0 0\n0.00000275 0 0 0 0 0\n0.000003 0 0 0 0 0\n0.00000325 0 0 0 0 0\n0.0000035 0 0 0 0 0\n0.00000375 0 0 0 0 0\n0.000004 0 0 0 0 0\n0.00000425 0 0 0 0 0\n0.0000045 0 0 0 0 0\n0.00000475 0 0 0 0 0\n0.000005 0 0 0 0 0\n0.00000525 0 0 0 0 0\n0.0000055 0 0 0 0 0\n0.00000575 0 0 0 0 0\n0.000006 0 0 0 0 0\n0.00000625 0 0 0 0 0\n0.0000065 0 0 0 0 0\n0.00000675 0 0 0 0 0\n0.000007 0 0 0 0 0\n0.00000725 0 0 0 0 0\n0.0000075 0 0 0 0 0\n",
        "cluster 1 at 0 period 0.00000025 firings 1\nactor u7 count 1 step 0.00000025\nend 0.000007654321 turns 69\n",
    ),
];

/// Words of `load`, the status, the output and the notes. Seed 1 makes modules `up`, `down` and `up`: four firings a microsecond and a
/// boundary between two, and two samples a microsecond of the last signal.
const LOADS: &[(&[&str], u8, &str, &str)] = &[
    (
        &["load", "--seed", "1", "--size", "3"],
        0,
        "load size 3 turns 499 rows 200 bytes 2587\n",
        "",
    ),
    (
        &["load", "--seed", "65537", "--size", "3"],
        2,
        "",
        "usage\n",
    ),
    (&["load", "--seed", "1", "--size", "0"], 2, "", "usage\n"),
    (&["load", "--size", "3"], 2, "", "usage\n"),
];

/// Whether each of these words of `load` has its answer, whatever there is to read.
fn loads(alloc: Global) -> Result<bool, Memory> {
    for &(words, status, output, notes) in LOADS {
        let wanted = (status, output.as_bytes(), notes.as_bytes());
        if !answers(alloc, words, b"not read", wanted)? {
            return Ok(false);
        }
    }
    Ok(true)
}

/// The notes of the first run with changes that has another answer, or nothing.
fn wrong_change(alloc: Global) -> Result<&'static str, Memory> {
    for &(words, text, status, output, notes) in CHANGES {
        let wanted = (status, output.as_bytes(), notes.as_bytes());
        if !answers(alloc, words, text.as_bytes(), wanted)? {
            return Ok(notes);
        }
    }
    Ok("")
}

/// A text of 1,048,577 spaces is too long, and one of 1,048,576 is not.
fn stops_at_a_long_text(alloc: Global) -> Result<bool, Memory> {
    let mut spaces = Vec::new(alloc);
    for _ in 0..1_048_576u64 {
        spaces.push(b' ')?;
    }
    let fits = answers(alloc, RUN, &spaces, (1, b"", b"refused LONG_LINE line 1\n"))?;
    spaces.push(b' ')?;
    Ok(fits && answers(alloc, RUN, &spaces, (8, b"", b"too long\n"))?)
}

#[test]
fn runs_and_refuses_by_name(rt: HostRuntime) -> Result<(), Fail> {
    assert_eq!(rt; wrong_run(rt.alloc())?, "");
    assert_eq!(rt; wrong_other(rt.alloc())?, "");
    assert_eq!(rt; wrong_change(rt.alloc())?, "");
    assert_eq!(rt; wrong_refusal(rt.alloc())?, "");
    Ok(())
}

#[test]
fn makes_models_and_measures_them(rt: HostRuntime) -> Result<(), Fail> {
    assert!(rt; loads(rt.alloc())?);
    Ok(())
}

#[test]
fn a_text_is_too_long(rt: HostRuntime) -> Result<(), Fail> {
    assert!(rt; stops_at_a_long_text(rt.alloc())?);
    Ok(())
}
