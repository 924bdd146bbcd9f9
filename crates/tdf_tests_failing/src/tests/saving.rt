//! Devices that fail under `save` and `resume`: each read, each write of output and each note in turn.

use super::failing::{RAMP, Run, failing_writes, first_wrong_read};
use std::test::Fail;

/// The state of the ramp at 2 microseconds.
const STATE: &[u8] =
    b"saved 1\nkind table\nrun 2000000 3 100000000\ncluster 1 1000000\nmodule u 0\nrates\n\
    steps 1000000 0\ncells 2\ncolumn s 1\ntext 178\nlanguage 1\ntype w fixed 16 16\ntdf ramp\n\
    out y w\nvar n w\nset_attributes\ntimestep 1us\nend\nprocessing\ny = n\nn = n + 1\nend\nend\n\
    top\nsignal s w\ninstance u ramp\nbind u.y s\nend\ntrace s s\n";

/// Its trace up to there.
const SAVED_TRACE: Run<'static> = Run {
    words: &["save", "--stop", "2us", "--part", "trace"],
    text: RAMP,
    table: b"%time s\n0 0\n0.000001 1\n",
    notes: b"cluster 1 at 0 period 0.000001 firings 1\nactor u count 1 step 0.000001\n",
};

/// That state.
const SAVED_STATE: Run<'static> = Run {
    words: &["save", "--stop", "2us", "--part", "state"],
    text: RAMP,
    table: STATE,
    notes: b"",
};

/// What goes on from it, to 3 microseconds.
const RESUMED: Run<'static> = Run {
    words: &["resume", "--stop", "3us"],
    text: STATE,
    table: b"0.000002 2\n",
    notes: b"end 0.000003 turns 5\n",
};

#[test]
fn states_survive_reads_that_fail(rt: HostRuntime) -> Result<(), Fail> {
    assert_eq!(rt; first_wrong_read(rt.alloc(), SAVED_TRACE)?, None);
    assert_eq!(rt; first_wrong_read(rt.alloc(), SAVED_STATE)?, None);
    assert_eq!(rt; first_wrong_read(rt.alloc(), RESUMED)?, None);
    Ok(())
}

// Rows and lines of notes are pieces of their own; the text of a state is one.
#[test]
fn states_survive_writes_that_fail(rt: HostRuntime) -> Result<(), Fail> {
    assert_eq!(rt; failing_writes(rt.alloc(), SAVED_TRACE, 4, false)?, Some(6));
    assert_eq!(rt; failing_writes(rt.alloc(), SAVED_TRACE, 4, true)?, Some(18));
    assert_eq!(rt;
        failing_writes(rt.alloc(), SAVED_STATE, 16, false)?,
        Some(19)
    );
    assert_eq!(rt; failing_writes(rt.alloc(), RESUMED, 4, false)?, Some(3));
    assert_eq!(rt; failing_writes(rt.alloc(), RESUMED, 4, true)?, Some(6));
    Ok(())
}
