//! All bytes of a source, and a whole text into a sink.

ghost use Rattle.std.specs.Prelude.{◌≡◌, ◌+◌, ◌<◌, ◌≤◌, IfOk, OnOk, OnErr, IfSome};
ghost use Rattle.std.specs.Prelude.{vec_len, Err};
ghost use Rattle.std.specs.Io.KnownBytes.{IsAtEnd};
ghost use Rattle.mc_io.specs.Faults.{Rose, HasCause};
ghost use Rattle.mc_io.specs.Told.{TellsAsBefore, Takes, TakesAtMost, AppendsWhereTold};
ghost use Rattle.mc_io.specs.Told.{AppendsPrefix};
ghost use Rattle.mc_io.specs.Whole.{MakesReads, MakesWrites};

use crate::end::{Failed, ReadEnd};
use crate::source_sink::{Sink, Source};
use std::alloc::Global;

// Bytes that a read is asked for.
const CHUNK: usize = 16_384;

/// All bytes that are left, read to the end of input.
///
/// `Fault`: a read failed. `TooLong`: more than `limit` bytes were left and no read failed before;
/// `limit + 1` of them were taken. `Memory`: want of memory. The bytes that were read are gone from the
/// source, whatever the answer.
pub fn read_all<S: Source>(alloc: Global, source: &mut S, limit: usize) -> Result<Vec<u8>, ReadEnd>
    requires { limit < usize.MAX }

    // Told bytes decide between `Ok` and `TooLong`.
    ensures all { IfOk result (λ bytes. IfSome (S.left source.old) (λ left. bytes.items ≡ left)) }
    ensures end { OnOk result (IsAtEnd (S.left source.new)) }
    ensures short { IfOk result (λ bytes. vec_len bytes ≤ limit) }
    ensures too_long { result ≡ Err ReadEnd.TooLong →
        Takes (S.left source.old) (S.left source.new) (limit + 1) }

    // Whatever the answer.
    ensures taken { TakesAtMost (S.left source.old) (S.left source.new) (limit + 1) }
    ensures tells { TellsAsBefore (S.left source.old) (S.left source.new) }
    ensures later { S.faults source.old ≤ S.faults source.new }

    ensures fault { result ≡ Err ReadEnd.Fault → Rose (S.faults source.old) (S.faults source.new) }
    ensures calls { MakesReads S.reads source.old result source.new }
{
    let mut bytes = Vec::new(alloc);
    let mut chunk = [0u8; CHUNK];
    while bytes.len() <= limit {
        let most = CHUNK.min(limit + 1 - bytes.len());
        let Ok(count) = source.read(&mut chunk[..most]) else {
            return Err(ReadEnd::Fault);
        };
        if count == 0 {
            return Ok(bytes);
        }
        let Ok(()) = bytes.extend_from_slice(&chunk[..count]) else {
            return Err(ReadEnd::Memory);
        };
    }
    Err(ReadEnd::TooLong)
}

/// Writes the whole text. `Failed`: a write failed, and a prefix of the text was written.
pub fn write_all<K: Sink>(sink: &mut K, text: &[u8]) -> Result<(), Failed>
    ensures ok { OnOk result (AppendsWhereTold (K.written sink.old) (K.written sink.new) text.now) }
    ensures failed { OnErr result
        (AppendsPrefix (K.written sink.old) (K.written sink.new) text.now) }
    ensures cause { HasCause (K.faults sink.old) (K.faults sink.new) result }
    ensures calls { MakesWrites K.writes text.now sink.old result sink.new }
{
    let mut done = 0;
    while done < text.len() {
        done += sink.write(&text[done..])?;
    }
    Ok(())
}
