//! Sources and sinks: what no clause says, that each call succeeds with ample memory over devices that give and take little.

ghost use Rattle.std.specs.Prelude.{◌≡◌, ◌<◌, ◌≤◌, Some, IsOk};
ghost use Rattle.std.specs.Io.{WritesAtMost};
ghost use Rattle.std.specs.Io.KnownBytes.{Keeps, WriteAppends};

use std::io::{self, Error, ErrorKind, Write};
use std::test::Fail;
use tdf_io::{
    LoadErr, MemSink, MemSource, Sink, SinkErr, StdSink, StdSource, SureSink, SureSource, put_all,
    read_all,
};

const TEXT: &[u8] = b"0 0\n0.000001 1\n";

/// Reads TEXT from a source that fails at call `fail` and gives at most `most` bytes.
fn read(rt: &HostRuntime, fail: u64, most: usize, limit: usize) -> Result<Vec<u8>, LoadErr>
    requires { 0 < most }
{
    let mut fails = Vec::new(rt.alloc());
    if fails.push(fail).is_err() {
        return Err(LoadErr::Memory);
    }
    let mut source = MemSource::new(Vec::from_slice(rt.alloc(), TEXT)?, fails, most);
    read_all(rt.alloc(), &mut source, limit)
}

#[test]
fn reads_to_the_end(rt: HostRuntime) -> Result<(), Fail> {
    for most in [1, 4, 100] {
        assert_eq!(rt;
            read(&rt, 99, most, 15)?.as_slice(),
            TEXT,
            "at most {most} bytes a call"
        );
    }
    assert_eq!(rt; read(&rt, 99, 1, 14).err(), Some(LoadErr::TooLong));
    assert_eq!(rt; read(&rt, 15, 1, 15).err(), Some(LoadErr::ReadFault));
    assert_eq!(rt; read(&rt, 16, 1, 15)?.len(), 15);
    let mut sure = SureSource::new(Vec::from_slice(rt.alloc(), TEXT)?);
    assert_eq!(rt; read_all(rt.alloc(), &mut sure, 15)?.as_slice(), TEXT);
    Ok(())
}

#[test]
fn writes_to_the_end(rt: HostRuntime) -> Result<(), Fail> {
    for (most, fail, done) in [
        (1, 99, 15),
        (4, 99, 15),
        (100, 99, 15),
        (4, 0, 0),
        (4, 2, 8),
    ] {
        let mut fails = Vec::new(rt.alloc());
        fails.push(fail)?;
        let mut sink = MemSink::new(rt.alloc(), fails, most);
        let answer = put_all(&mut sink, TEXT);
        assert_eq!(rt;
            sink.bytes(),
            &TEXT[..done],
            "at most {most} bytes a call, call {fail} fails"
        );
        assert_eq!(rt;
            answer.err(),
            if done < 15 {
                Some(SinkErr::Failed)
            } else {
                None
            }
        );
    }
    let mut sure = SureSink::new(rt.alloc());
    put_all(&mut sure, TEXT)?;
    assert_eq!(rt; sure.bytes(), TEXT);
    Ok(())
}

#[test]
fn adapts_readers_and_writers(rt: HostRuntime) -> Result<(), Fail> {
    let mut source = StdSource::new(TEXT);
    assert_eq!(rt; read_all(rt.alloc(), &mut source, 15)?.as_slice(), TEXT);
    let mut sink = StdSink::new(Vec::new(rt.alloc()));
    put_all(&mut sink, TEXT)?;
    sink.flush()?;
    Ok(())
}

/// A writer that takes 1 to 7 bytes a call, and fails at one call.
#[derive(Drop)]
struct Meagre {
    taken: Vec<u8>,
    calls: u64,
    fail: u64,
}

impl Write for Meagre {
    ghost contents = { λ w. Some w.taken.items };

    fn write(&mut self, piece: &[u8]) -> io::Result<usize> {
        let number = self.calls;
        self.calls = self.calls.saturating_add(1);
        if number == self.fail {
            return Err(Error::from(ErrorKind::Other));
        }
        let count = ((number % 7) as usize + 1).min(piece.len());
        self.taken.extend_from_slice(&piece[..count])?;
        Ok(count)
    }

    fn flush(&mut self) -> io::Result<()> {
        Ok(())
    }
}

/// Byte `i` of a text in which no two neighbours of 8,192 bytes are alike.
fn byte_at(i: u64) -> u8 {
    (i % 65_536 * 31 / 7 % 251) as u8
}

#[test]
fn loses_nothing_over_a_meagre_writer(rt: HostRuntime) -> Result<(), Fail> {
    let mut text = Vec::new(rt.alloc());
    for i in 0..30_000u64 {
        text.push(byte_at(i))?;
    }
    for fail in [0u64, 5, 2_047, 5_000, 1_000_000] {
        let mut writer = Meagre {
            taken: Vec::new(rt.alloc()),
            calls: 0,
            fail,
        };
        let mut failures = 0;
        let mut sink = StdSink::new(&mut writer);
        let mut done = 0usize;
        for _ in 0..30_002u64 {
            if done < text.len() {
                match sink.write(&text.as_slice()[done..]) {
                    Ok(count) => done = text.len().min(done.saturating_add(count)),
                    Err(_) => failures = 1,
                }
            }
        }
        if sink.flush().is_err() {
            failures = 1;
            sink.flush()?;
        }
        drop(sink);
        assert_eq!(rt; failures, if fail < 1_000_000 { 1 } else { 0 });
        assert!(rt;
            writer.taken.as_slice() == text.as_slice(),
            "fails at call {fail}"
        );
    }
    Ok(())
}
