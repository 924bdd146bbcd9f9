//! A table, read, written, thinned out and measured: each public call once, with values worked by hand.

ghost use Rattle.std.specs.Prelude.{◌≤◌, length};
ghost use Rattle.tdf_sampling.specs.Choice.{choice_number};
ghost use Rattle.tdf_tables.specs.Tables.{longest_table};

use std::alloc::Global;
use std::test::Fail;
use tdf_io::SureSink;
use tdf_sampling::{Choice, choose, push_stats, write_stats};
use tdf_tables::{cut_word, push_table, read_table, word_at, write_table};

const TEXT: &str = "%time level code\n\
0 0.25 *\n\
0.000001 1.5 1\n\
0.000002 2.75 2\n\
0.000003 2.5 2\n\
0.000005 -0.5 -1\n";

const SECOND: &str = "%time level code\n\
0 0.25 *\n\
0.000002 2.75 2\n\
0.000005 -0.5 -1\n";

const EVERY: &str = "%time level code\n\
0 0.25 *\n\
0.000002 2.75 2\n\
0.000004 2.5 2\n";

const STATS: &str = "level cells 5 unknown 0 min -0.5 max 2.75 changes 4\n\
code cells 5 unknown 1 min -1 max 2 changes 3\n";

const WINDOWS: &str = "window 0\n\
level cells 2 unknown 0 min 0.25 max 1.5 changes 1\n\
code cells 2 unknown 1 min 1 max 1 changes 1\n\
window 0.000002\n\
level cells 2 unknown 0 min 2.5 max 2.75 changes 1\n\
code cells 2 unknown 0 min 2 max 2 changes 0\n\
window 0.000004\n\
level cells 1 unknown 0 min -0.5 max -0.5 changes 0\n\
code cells 1 unknown 0 min -1 max -1 changes 0\n";

/// Whether the table of a choice of rows has this text, in a list and at a sink.
fn chosen(alloc: Global, text: &[u8], choice: Choice, wanted: &[u8]) -> Option<bool>
    requires text { length text.now ≤ longest_table }
    requires number { 1 ≤ choice_number choice }
{
    let table = read_table(alloc, text).ok()?;
    let chosen = choose(alloc, &table, choice).ok()?;
    let mut out = Vec::new(alloc);
    push_table(&mut out, &chosen).ok()?;
    let mut sink = SureSink::new(alloc);
    write_table(alloc, &chosen, &mut sink).ok()?;
    Some(out.as_slice() == wanted && sink.bytes() == wanted)
}

/// Whether the statistics of all rows are these.
fn measured(alloc: Global, text: &[u8], wanted: &[u8]) -> Option<bool>
    requires text { length text.now ≤ longest_table }
{
    let table = read_table(alloc, text).ok()?;
    let mut out = Vec::new(alloc);
    push_stats(&mut out, &table, None).ok()?;
    Some(out.as_slice() == wanted)
}

/// Whether those of windows of 2 us are these.
fn measured_by_windows(alloc: Global, text: &[u8], wanted: &[u8]) -> Option<bool>
    requires text { length text.now ≤ longest_table }
{
    let table = read_table(alloc, text).ok()?;
    let mut sink = SureSink::new(alloc);
    write_stats(alloc, &table, Some(2_000_000), &mut sink).ok()?;
    Some(sink.bytes() == wanted)
}

/// Whether the first label and the second cell of the first row are these.
fn named(alloc: Global, text: &[u8], label: &[u8], cell: &[u8]) -> Option<bool>
    requires text { length text.now ≤ longest_table }
{
    let table = read_table(alloc, text).ok()?;
    let (first, _) = cut_word(table.labels())?;
    let second = word_at(table.rows().get(0)?.cells, 1)?;
    Some(first == label && second == cell)
}

#[test]
fn rows_are_chosen(rt: HostRuntime) -> Result<(), Fail> {
    assert!(rt;
        chosen(
            rt.alloc(),
            TEXT.as_bytes(),
            Choice::Nth(2),
            SECOND.as_bytes()
        ) == Some(true)
    );
    assert!(rt;
        chosen(
            rt.alloc(),
            TEXT.as_bytes(),
            Choice::Every(2_000_000),
            EVERY.as_bytes()
        ) == Some(true)
    );
    Ok(())
}

#[test]
fn columns_are_measured(rt: HostRuntime) -> Result<(), Fail> {
    assert!(rt; measured(rt.alloc(), TEXT.as_bytes(), STATS.as_bytes()) == Some(true));
    assert!(rt; measured_by_windows(rt.alloc(), TEXT.as_bytes(), WINDOWS.as_bytes()) == Some(true));
    Ok(())
}

#[test]
fn words_are_found(rt: HostRuntime) -> Result<(), Fail> {
    assert!(rt; named(rt.alloc(), TEXT.as_bytes(), b"level", b"*") == Some(true));
    Ok(())
}
