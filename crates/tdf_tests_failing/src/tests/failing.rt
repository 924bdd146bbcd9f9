//! Devices that fail under the command: each read, each write of output and each note in turn.

ghost use Rattle.std.specs.Prelude.{◌<◌};

use std::alloc::Global;
use std::test::Fail;
use tdf_base::Memory;
use tdf_cli::{NO_MEMORY, USAGE, WRITE_FAULT, tool};
use tdf_io::{MemSink, MemSource};

/// The ramp of 16 bits, one sample a microsecond.
pub(crate) const RAMP: &[u8] = b"language 1\ntype w fixed 16 16\ntdf ramp\nout y w\nvar n w\n\
    set_attributes\ntimestep 1us\nend\nprocessing\ny = n\nn = n + 1\nend\nend\ntop\nsignal s w\n\
    instance u ramp\nbind u.y s\nend\ntrace s s\n";

/// The words of its run to 3 microseconds.
const RUN: &[&str] = &["run", "--stop", "3us"];

/// The words of a job and its text, and the output and the notes that it writes where nothing fails.
#[derive(Clone, Copy)]
pub(crate) struct Run<'a> {
    pub(crate) words: &'a [&'a str],
    pub(crate) text: &'a [u8],
    pub(crate) table: &'a [u8],
    pub(crate) notes: &'a [u8],
}

/// The signal chain: a gain that an event halves, a modulator, a decimator that goes from 64 samples to 32, and a filter whose
/// output is also an event signal.
const CHAIN_TEXT: &[u8] =
    b"language 1\ntype gain ufixed 8 2\ntype sig fixed 16 4\ntype sum fixed 8 8\n\
    type lev fixed 12 8\ntdf src\nde_in g gain\nout y sig\nset_attributes\ntimestep 1us\nend\n\
    processing\ny = g * 0.5\nend\nend\ntdf mod\nin x sig\nout y sum\nvar v sig\nprocessing\n\
    if v >= 0\ny = 1\nv = v + x - 1\nelse\ny = -1\nv = v + x + 1\nend\nend\nend\ntdf dec\n\
    in x sum\nout y sum\nvar a sum\nrate r 32 64 64\nset_attributes\nrate x r\n\
    does_attribute_changes\nend\nprocessing\na = 0\nfor i 0 r\na = a + x[i]\nend\ny = a\nend\n\
    change_attributes\nrate r = 32\nend\nend\ntdf fir\nin x sum\nout y lev\nde_out o lev\n\
    array h lev 4 0.25 0.25 0.25 0.25\narray z sum 4\nvar a lev\nset_attributes\ndelay o 1\n\
    accept_attribute_changes\nend\nprocessing\nz[3] = z[2]\nz[2] = z[1]\nz[1] = z[0]\nz[0] = x\n\
    a = 0\nfor i 0 4\na = a + h[i] * z[i]\nend\ny = a\no = a\nend\nend\nde gen\nde_out q gain\n\
    event go\nprocess\nnotify go after 63500ns\nend\nprocess\nsensitive go\ndont_initialize\n\
    q = 0.5\nend\nend\ntop\nde_signal g gain 1\nsignal u sig\nsignal b sum\nsignal d sum\n\
    signal f lev\nde_signal lvl lev\ninstance src src\ninstance mod mod\ninstance dec dec\n\
    instance fir fir\ninstance gen gen\nbind src.g g\nbind src.y u\nbind mod.x u\nbind mod.y b\n\
    bind dec.x b\nbind dec.y d\nbind fir.x d\nbind fir.y f\nbind fir.o lvl\nbind gen.q g\nend\n\
    trace g g\ntrace d d\ntrace f f\ntrace lvl lvl\n";

/// The table of the signal chain to 100 microseconds.
const CHAIN_TABLE: &[u8] =
    b"%time g d f lvl\n0 1 32 8 0\n0.0000635 0.5 32 8 0\n0.000064 0.5 8 10 8\n0.000096 0.5 * * 10\n";

/// The notes of that run.
const CHAIN_NOTES: &[u8] =
    b"cluster 1 at 0 period 0.000064 firings 195\nactor src count 64 step 0.000001\n\
    actor mod count 64 step 0.000001\nactor dec count 1 step 0.000064\n\
    actor fir count 1 step 0.000064\nactor src.g count 64 step 0.000001\n\
    actor fir.o count 1 step 0.000064\nedge src.g delay 0 bound 1\nedge mod.x delay 0 bound 1\n\
    edge dec.x delay 0 bound 64\nedge fir.x delay 0 bound 1\nedge fir.o delay 1 bound 1\n\
    cluster 1 at 0.000064 period 0.000032 firings 99\nactor src count 32 step 0.000001\n\
    actor mod count 32 step 0.000001\nactor dec count 1 step 0.000032\n\
    actor fir count 1 step 0.000032\nactor src.g count 32 step 0.000001\n\
    actor fir.o count 1 step 0.000032\nedge src.g delay 0 bound 1\nedge mod.x delay 0 bound 1\n\
    edge dec.x delay 0 bound 32\nedge fir.x delay 0 bound 1\nedge fir.o delay 1 bound 1\n\
    end 0.0001 turns 315\n";

const CHAIN: Run<'static> = Run {
    words: &["run", "--stop", "100us"],
    text: CHAIN_TEXT,
    table: CHAIN_TABLE,
    notes: CHAIN_NOTES,
};

/// The table of the ramp to 3 microseconds.
const RAMP_TABLE: &[u8] = b"%time s\n0 0\n0.000001 1\n0.000002 2\n";

/// The notes of that run.
const RAMP_NOTES: &[u8] =
    b"cluster 1 at 0 period 0.000001 firings 1\nactor u count 1 step 0.000001\nend 0.000003 turns 5\n";

/// That run.
const RAMP_RUN: Run<'static> = Run {
    words: RUN,
    text: RAMP,
    table: RAMP_TABLE,
    notes: RAMP_NOTES,
};

/// A table, as `sample` and `stats` read it.
const ROWS: &[u8] = b"%time a b\n0 1 *\n0.000001 2 0.5\n0.000002 -3 0.5\n";

/// Every second row of it.
const SAMPLED: Run<'static> = Run {
    words: &["sample", "--nth", "2"],
    text: ROWS,
    table: b"%time a b\n0 1 *\n0.000002 -3 0.5\n",
    notes: b"",
};

/// What its columns have.
const MEASURED: Run<'static> = Run {
    words: &["stats"],
    text: ROWS,
    table: b"a cells 3 unknown 0 min -3 max 2 changes 2\n\
    b cells 3 unknown 1 min 0.5 max 0.5 changes 1\n",
    notes: b"",
};

/// A signal that it drives.
const DRIVEN: Run<'static> = Run {
    words: &["drive", "--stop", "3us"],
    text: b"language 1\ntype w fixed 16 16\ntop\nde_signal a w 5\nend\ntrace a a\nstimulus\n\
    %time a b\n0 1 *\n0.000001 2 0.5\n0.000002 -3 0.5\n",
    table: b"%time a\n0 1\n0.000001 2\n0.000002 -3\n",
    notes: b"ignored b\nend 0.000003 turns 6\n",
};

/// The calls that fail: of the source, of the sink of output, of the sink of notes.
type Fails<'a> = (&'a [u64], &'a [u64], &'a [u64]);

const NO_CALLS: &[u64] = &[];

fn words_of(alloc: Global, words: &[&str]) -> Result<Vec<String>, Memory> {
    let mut list = Vec::new(alloc);
    for word in words {
        list.push(String::from_str(alloc, word)?)?;
    }
    Ok(list)
}

/// What the command answers to these words for a text, its output and its notes, where these calls fail, and no other one gives
/// or takes more than `most` bytes.
fn failing(
    alloc: Global,
    words: &[&str],
    text: &[u8],
    most: usize,
    fails: Fails<'_>,
) -> Result<(u8, MemSink, MemSink), Memory>
    requires { 0 < most }
{
    let words = words_of(alloc, words)?;
    let reads = Vec::from_slice(alloc, fails.0)?;
    let mut model = MemSource::new(Vec::from_slice(alloc, text)?, reads, most);
    let mut out = MemSink::new(alloc, Vec::from_slice(alloc, fails.1)?, most);
    let mut notes = MemSink::new(alloc, Vec::from_slice(alloc, fails.2)?, most);
    let status = tool(alloc, &words, &mut model, &mut out, &mut notes);
    if status == NO_MEMORY {
        return Err(Memory);
    }
    Ok((status, out, notes))
}

/// The status of a run where these calls fail, if it writes front parts of its table and its notes, and all of both where it is
/// done. Devices give and take at most `most` bytes a call.
fn right_status(
    alloc: Global,
    run: Run<'_>,
    most: usize,
    fails: Fails<'_>,
) -> Result<Option<u8>, Memory>
    requires { 0 < most }
{
    let (status, out, notes) = failing(alloc, run.words, run.text, most, fails)?;
    let are_fronts = run.table.starts_with(out.bytes()) && run.notes.starts_with(notes.bytes());
    let are_whole = out.bytes().len() == run.table.len() && notes.bytes().len() == run.notes.len();
    Ok(if are_fronts && (are_whole || status != 0) {
        Some(status)
    } else {
        None
    })
}

/// Whether these words, over devices of a byte a call, have this status, no output and this note where this read fails.
fn only_notes(
    alloc: Global,
    words: &[&str],
    text: &[u8],
    read: u64,
    wanted: (u8, &[u8]),
) -> Result<bool, Memory> {
    let (status, out, notes) = failing(alloc, words, text, 1, (&[read], NO_CALLS, NO_CALLS))?;
    Ok(status == wanted.0 && out.bytes().is_empty() && notes.bytes() == wanted.1)
}

/// The first read whose failure has another answer, or none. There is a read for each byte and one for the end.
pub(crate) fn first_wrong_read(alloc: Global, run: Run<'_>) -> Result<Option<u64>, Memory> {
    let end = run.text.len() as u64;
    for read in 0..=end {
        if !only_notes(alloc, run.words, run.text, read, (3, b"read fault\n"))? {
            return Ok(Some(read));
        }
    }
    let after = end + 1;
    let status = right_status(alloc, run, 1, (&[after], NO_CALLS, NO_CALLS))?;
    Ok(if status == Some(0) { None } else { Some(after) })
}

/// How many writes of notes or of output there are, if the failure of each in turn has the right answer.
pub(crate) fn failing_writes(
    alloc: Global,
    run: Run<'_>,
    most: usize,
    are_notes: bool,
) -> Result<Option<u64>, Memory>
    requires { 0 < most }
{
    for write in 0..100u64 {
        let one: &[u64] = &[write];
        let fails = if are_notes {
            (NO_CALLS, NO_CALLS, one)
        } else {
            (NO_CALLS, one, NO_CALLS)
        };
        match right_status(alloc, run, most, fails)? {
            Some(WRITE_FAULT) => {}
            Some(0) => return Ok(Some(write)),
            _ => return Ok(None),
        }
    }
    Ok(None)
}

/// A write of output that fails after four bytes.
fn stops_at_a_write(alloc: Global) -> Result<bool, Memory> {
    let (status, out, notes) = failing(alloc, RUN, RAMP, 4, (NO_CALLS, &[1], NO_CALLS))?;
    Ok(
        status == WRITE_FAULT
            && out.bytes() == b"%tim".as_slice()
            && RAMP_NOTES.starts_with(notes.bytes()),
    )
}

/// A read that fails, and words that are not accepted, which leave the source unread.
fn stops_before_the_text(alloc: Global) -> Result<bool, Memory> {
    Ok(
        only_notes(alloc, RUN, RAMP, 0, (3, b"read fault\n"))?
            && only_notes(alloc, &["run"], RAMP, 0, (USAGE, b"usage\n"))?,
    )
}

#[test]
fn survives_reads_that_fail(rt: HostRuntime) -> Result<(), Fail> {
    assert_eq!(rt; RAMP.len(), 178);
    assert_eq!(rt; first_wrong_read(rt.alloc(), RAMP_RUN)?, None);
    Ok(())
}

// The counts of writes: each row of a table is a piece of its own; the notes of plans are, and the closing one.
#[test]
fn survives_writes_that_fail(rt: HostRuntime) -> Result<(), Fail> {
    assert_eq!(rt; failing_writes(rt.alloc(), RAMP_RUN, 4, false)?, Some(9));
    assert_eq!(rt; failing_writes(rt.alloc(), RAMP_RUN, 4, true)?, Some(24));
    assert_eq!(rt; failing_writes(rt.alloc(), CHAIN, 16, false)?, Some(8));
    assert_eq!(rt; failing_writes(rt.alloc(), CHAIN, 16, true)?, Some(50));
    Ok(())
}

#[test]
fn tables_survive_reads_that_fail(rt: HostRuntime) -> Result<(), Fail> {
    assert_eq!(rt; first_wrong_read(rt.alloc(), SAMPLED)?, None);
    assert_eq!(rt; first_wrong_read(rt.alloc(), MEASURED)?, None);
    assert_eq!(rt; first_wrong_read(rt.alloc(), DRIVEN)?, None);
    Ok(())
}

// Rows and lines are pieces of their own here, too; the lines on ignored columns are one.
#[test]
fn tables_survive_writes_that_fail(rt: HostRuntime) -> Result<(), Fail> {
    assert_eq!(rt; failing_writes(rt.alloc(), SAMPLED, 4, false)?, Some(9));
    assert_eq!(rt; failing_writes(rt.alloc(), MEASURED, 4, false)?, Some(23));
    assert_eq!(rt; failing_writes(rt.alloc(), DRIVEN, 4, false)?, Some(9));
    assert_eq!(rt; failing_writes(rt.alloc(), DRIVEN, 4, true)?, Some(9));
    Ok(())
}

#[test]
fn the_outside(rt: HostRuntime) -> Result<(), Fail> {
    assert!(rt; stops_at_a_write(rt.alloc())?);
    assert!(rt; stops_before_the_text(rt.alloc())?);
    Ok(())
}
