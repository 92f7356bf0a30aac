//! Sources and sinks over std's readers and writers: the edge where nothing is known of the bytes.

ghost use Rattle.std.specs.Prelude.{◌≡◌, ℕ, ◌-◌, ◌^◌, min, None};
ghost use Rattle.std.proofs.Common.{arith};
ghost use Rattle.std.specs.Io.KnownBytes.{ReadConsumes, WriteAppends};
ghost use Rattle.mc_io.specs.Faults.{faults_after};

use crate::end::Failed;
use crate::source_sink::{Sink, Source};
use std::io::{Read, Write};
use std::marker::Model;

/// A source over a reader, which tells no bytes. An interrupted read counts as a fault, as every error
/// does. A contract sees the reader and the count of faults, which stops at `u64::MAX`.
#[derive(Drop)]
pub struct StdSource<R> {
    reader: R,
    faults: u64,
}

impl<R> Model for StdSource<R> {
    ghost Value = { R × ℕ };

    ghost view = { λ s. (s.reader, s.faults) };
}

impl<R> StdSource<R> {
    /// A source over this reader, without faults so far.
    pub fn new(reader: R) -> StdSource<R>
        ensures { result ≡ (reader, 0) }
    {
        StdSource { reader, faults: 0 }
    }
}

impl<R: Read> Source for StdSource<R> {
    ghost left = { λ _. None };

    ghost faults = { λ s. min s.1 (2 ^ 64 - 1) };

    // What the reader itself gave, where it knows its bytes, and the count.
    ghost reads = { λ old buf result new.
        ReadConsumes (R.remaining old.0) (R.remaining new.0) result buf
        × (new.1 ≡ faults_after old.1 result) };

    ghost fits = { λ s. Prim.omega arith };

    fn read(&mut self, buf: &mut [u8]) -> Result<usize, Failed> {
        let faults = self.faults;
        match self.reader.read(buf) {
            Ok(count) => Ok(count),
            Err(_) => {
                self.faults = faults.saturating_add(1);
                Err(Failed)
            }
        }
    }
}

/// A sink over a writer, which tells no bytes. An interrupted write counts as a fault, as every error
/// does and as a write that takes nothing of a part that is not empty. A contract sees the writer and
/// the count of faults, which stops at `u64::MAX`.
#[derive(Drop)]
pub struct StdSink<W> {
    writer: W,
    faults: u64,
}

impl<W> Model for StdSink<W> {
    ghost Value = { W × ℕ };

    ghost view = { λ s. (s.writer, s.faults) };
}

impl<W> StdSink<W> {
    /// A sink over this writer, without faults so far.
    pub fn new(writer: W) -> StdSink<W>
        ensures { result ≡ (writer, 0) }
    {
        StdSink { writer, faults: 0 }
    }
}

impl<W: Write> Sink for StdSink<W> {
    ghost written = { λ _. None };

    ghost faults = { λ s. min s.1 (2 ^ 64 - 1) };

    // What the writer itself took, where it knows its bytes, and the count.
    ghost writes = { λ old part result new.
        WriteAppends (W.contents old.0) (W.contents new.0) result part
        × (new.1 ≡ faults_after old.1 result) };

    ghost fits = { λ s. Prim.omega arith };

    fn write(&mut self, part: &[u8]) -> Result<usize, Failed> {
        let faults = self.faults;
        match self.writer.write(part) {
            Ok(count) if count > 0 || part.is_empty() => Ok(count),
            _ => {
                self.faults = faults.saturating_add(1);
                Err(Failed)
            }
        }
    }
}
