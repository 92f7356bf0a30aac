//! What sources and sinks mean.

ghost use Rattle.std.specs.Prelude.{ℕ, ◌-◌, ◌^◌, ◌≤◌, List, Option, Result, ⊤};
ghost use Rattle.std.specs.Io.{ReadsAtMost};
ghost use Rattle.std.specs.Io.KnownBytes.{ReadConsumes};
ghost use Rattle.mc_io.specs.declared.end.Failed.{Failed};
ghost use Rattle.mc_io.specs.Faults.{HasCause};
ghost use Rattle.mc_io.specs.Told.{TellsAsBefore, WritesPart, CountsPart};

use crate::end::Failed;

/// A source of bytes, by the bytes that are left, where it tells them, and by its count of faults,
/// which never falls and is at most `u64::MAX`.
///
/// That the count rose means that it is higher than before the call, or stands at `u64::MAX`.
pub trait Source {
    ghost left: { Self → Option (List ℕ) };

    ghost faults: { Self → ℕ };

    // What else is known of a read: the source before, the buffer as it left it, the answer, the
    // source after.
    ghost reads: { Self → List ℕ → Result ℕ Failed → Self → Type 0 } = { λ _ _ _ _. ⊤ };

    /// Puts the next bytes at the front of the buffer and gives their number, which is 0 into a buffer
    /// that is not empty only at the end of input. A read that failed took no byte.
    fn read(&mut self, buf: &mut [u8]) -> Result<usize, Failed>
        ensures bound { ReadsAtMost result buf.new }
        ensures bytes { ReadConsumes (left self.old) (left self.new) result buf.new }
        ensures tells { TellsAsBefore (left self.old) (left self.new) }
        ensures cause { HasCause (faults self.old) (faults self.new) result }
        ensures call { reads self.old buf.new result self.new };

    ghost fits: { (s : Self) → faults s ≤ 2 ^ 64 - 1 };
}

/// A sink of bytes, by the bytes that were written, where it tells them, and by its count of faults,
/// which never falls and is at most `u64::MAX`. A sink that tells its bytes after a call told them
/// before it.
pub trait Sink {
    ghost written: { Self → Option (List ℕ) };

    ghost faults: { Self → ℕ };

    // What else is known of a write: the sink before, the part, the answer, the sink after.
    ghost writes: { Self → List ℕ → Result ℕ Failed → Self → Type 0 } = { λ _ _ _ _. ⊤ };

    /// Appends the first bytes of the part and gives their number, which is at least 1 where the part
    /// is not empty. A write that failed appended nothing.
    fn write(&mut self, part: &[u8]) -> Result<usize, Failed>
        ensures count { CountsPart result part.now }
        ensures bytes { WritesPart (written self.old) (written self.new) result part.now }
        ensures cause { HasCause (faults self.old) (faults self.new) result }
        ensures call { writes self.old part.now result self.new };

    ghost fits: { (s : Self) → faults s ≤ 2 ^ 64 - 1 };
}
