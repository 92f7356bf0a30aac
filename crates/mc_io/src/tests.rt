//! What no clause says: that the calls can succeed, and how std's readers and writers are used.

ghost use Rattle.std.specs.Prelude.{◌≢◌, ◌<◌, Err, IsOk};

use crate::{
    Failed, HonestSink, HonestSource, MemSink, MemSource, ReadEnd, Sink, Source, StdSink,
    StdSource, read_all, write_all,
};
use std::alloc::Global;
use std::io;
use std::io::{ErrorKind, Read, Write};
use std::test::Fail;

/// A text of 51 bytes, the first ten of them its first line.
const TEXT: &[u8] = b"pattern 1\nin a\nn q1\ne a q1\nm a 7\nx q1 a\nout q1\nend\n";

/// A reader whose first call is interrupted, and which then gives one byte.
#[derive(Drop)]
struct SlowReader {
    calls: u8,
}

impl Read for SlowReader {
    fn read(&mut self, buf: &mut [u8]) -> io::Result<usize> {
        let call = self.calls;
        self.calls = call.saturating_add(1);
        match (call, buf) {
            (0, _) => Err(ErrorKind::Interrupted.into()),
            (1, [first, ..]) => {
                *first = b'a';
                Ok(1)
            }
            _ => Ok(0),
        }
    }
}

/// A writer whose first call is interrupted, whose second takes nothing, and which then takes all.
#[derive(Drop)]
struct SlowWriter {
    calls: u8,
}

impl Write for SlowWriter {
    fn write(&mut self, buf: &[u8]) -> io::Result<usize> {
        let call = self.calls;
        self.calls = call.saturating_add(1);
        match call {
            0 => Err(ErrorKind::Interrupted.into()),
            1 => Ok(0),
            _ => Ok(buf.len()),
        }
    }

    fn flush(&mut self) -> io::Result<()> {
        Ok(())
    }
}

#[test]
fn std_calls_that_give_nothing_fail(rt: HostRuntime) {
    let mut source = StdSource::new(SlowReader { calls: 0 });
    assert_eq!(rt; source.read(&mut [0; 4]), Err(Failed));
    assert_eq!(rt;
        read_all(rt.alloc(), &mut source, 9).map(|bytes| bytes.len()),
        Ok(1)
    );

    let mut sink = StdSink::new(SlowWriter { calls: 0 });
    assert_eq!(rt; write_all(&mut sink, b"ab"), Err(Failed));
    assert_eq!(rt; sink.write(b"ab"), Err(Failed), "nothing was taken");
    assert_eq!(rt; write_all(&mut sink, b"ab"), Ok(()));
}

/// A read of all over a source that never fails never ends in a fault.
fn read_honest(alloc: Global, source: &mut HonestSource, limit: usize) -> Result<Vec<u8>, ReadEnd>
    requires { limit < usize.MAX }
    ensures { result ≢ Err ReadEnd.Fault }
{
    read_all(alloc, source, limit)
}

/// A write of all over a sink that never fails ends well.
fn write_honest(sink: &mut HonestSink, text: &[u8]) -> Result<(), Failed>
    ensures { IsOk result }
{
    write_all(sink, text)
}

/// How many bytes of the text a source that never fails gives.
fn honest_read(alloc: Global, limit: usize) -> Result<Result<usize, ReadEnd>, Fail>
    requires { limit < usize.MAX }
{
    let mut source = HonestSource::new(TEXT.to_vec(alloc)?);
    Ok(read_honest(alloc, &mut source, limit).map(|bytes| bytes.len()))
}

/// How many bytes of the text a sink that never fails keeps.
fn honest_write(alloc: Global, room: usize) -> Result<usize, Fail> {
    let mut sink = HonestSink::new(alloc, room)?;
    let _ = write_honest(&mut sink, TEXT);
    Ok(sink.bytes().len())
}

#[test]
fn honest_ends(rt: HostRuntime) -> Result<(), Fail> {
    assert_eq!(rt; honest_read(rt.alloc(), 51)?, Ok(51));
    assert_eq!(rt; honest_read(rt.alloc(), 50)?, Err(ReadEnd::TooLong));
    assert_eq!(rt; honest_write(rt.alloc(), 60)?, 51);
    assert_eq!(rt; honest_write(rt.alloc(), 9)?, 9);
    Ok(())
}

/// How many bytes of the text a source gives in pieces of seven, where one call fails.
fn read(alloc: Global, failing: u32) -> Result<Result<usize, ReadEnd>, Fail> {
    let mut source = MemSource::new(TEXT.to_vec(alloc)?, 7, [failing].to_vec(alloc)?);
    Ok(read_all(alloc, &mut source, 51).map(|bytes| bytes.len()))
}

/// How a write of the text ends in pieces of ten, where one call fails, and how much was written.
fn written(alloc: Global, room: usize, failing: u32) -> Result<(bool, usize), Fail> {
    let mut sink = MemSink::new(alloc, room, 10, [failing].to_vec(alloc)?)?;
    let end = write_all(&mut sink, TEXT);
    Ok((end.is_ok(), sink.bytes().len()))
}

#[test]
fn failing_ends(rt: HostRuntime) -> Result<(), Fail> {
    assert_eq!(rt; read(rt.alloc(), 9)?, Ok(51));
    assert_eq!(rt;
        read(rt.alloc(), 8)?,
        Err(ReadEnd::Fault),
        "at the end of input"
    );
    assert_eq!(rt; written(rt.alloc(), 51, 9)?, (true, 51));
    assert_eq!(rt; written(rt.alloc(), 51, 1)?, (false, 10));
    assert_eq!(rt; written(rt.alloc(), 50, 9)?, (false, 50));
    Ok(())
}
