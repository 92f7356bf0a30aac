//! A source and a sink in memory that never fail.

ghost use Rattle.std.specs.Prelude.{◌≡◌, ℕ, [], List, false, IfOk, Some};
ghost use Rattle.std.proofs.Common.{arith};
ghost use Rattle.mc_io.specs.Honest.{Kept, told, HonestReads, HonestWrites};

use crate::end::Failed;
use crate::source_sink::{Sink, Source};
use crate::store::Store;
use crate::unread::Unread;
use mc_model::Memory;
use std::alloc::Global;
use std::marker::Model;

/// A source over bytes in memory, which tells what is left. It never fails: its count of faults is the
/// constant 0.
#[derive(Drop)]
pub struct HonestSource {
    unread: Unread,
}

impl Model for HonestSource {
    ghost Value = { List ℕ };

    ghost view = { λ s. s.unread };
}

impl HonestSource {
    /// A source with these bytes left.
    pub fn new(bytes: Vec<u8>) -> HonestSource
        ensures { result ≡ bytes.items }
    {
        HonestSource {
            unread: Unread::new(bytes),
        }
    }
}

impl Source for HonestSource {
    ghost left = { λ s. Some s };

    ghost faults = { λ _. 0 };

    ghost reads = { HonestReads };

    ghost fits = { λ _. Prim.omega arith };

    fn read(&mut self, buf: &mut [u8]) -> Result<usize, Failed> {
        Ok(self.unread.give(buf.len(), buf))
    }
}

/// A sink in memory that keeps the first bytes that it is given, as many as it has room for, and drops
/// the rest. It tells what was written as long as nothing was dropped. It never fails: its count of
/// faults is the constant 0.
#[derive(Drop)]
pub struct HonestSink {
    store: Store,
    dropped: bool,
}

impl Model for HonestSink {
    ghost Value = { Kept };

    ghost view = { λ s. record { kept = s.store.0; room = s.store.1; dropped = s.dropped } };
}

impl HonestSink {
    /// An empty sink, which takes its room at once. The error is want of memory.
    pub fn new(alloc: Global, room: usize) -> Result<HonestSink, Memory>
        ensures { IfOk result (λ s. s ≡ record { kept = []; room = room; dropped = false }) }
    {
        let store = Store::new(alloc, room)?;
        Ok(HonestSink {
            store,
            dropped: false,
        })
    }

    /// What is kept.
    pub fn bytes(&self) -> &[u8]
        ensures { result.now ≡ self.now.kept }
    {
        self.store.bytes()
    }
}

impl Sink for HonestSink {
    ghost written = { told };

    ghost faults = { λ _. 0 };

    ghost writes = { HonestWrites };

    ghost fits = { λ _. Prim.omega arith };

    fn write(&mut self, part: &[u8]) -> Result<usize, Failed> {
        let kept = self.store.keep(part.len(), part);
        if kept < part.len() {
            self.dropped = true;
        }
        Ok(part.len())
    }
}
