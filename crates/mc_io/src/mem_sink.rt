//! A sink in memory whose calls fail by their numbers, and where no room is left.

ghost use Rattle.std.specs.Prelude.{◌≡◌, ◌↔◌, ◌⊎◌, ◌-◌, ◌^◌, ◌≤◌, [], min, Some, IfOk, IsTrue};
ghost use Rattle.std.proofs.Common.{arith};
ghost use Rattle.mc_io.specs.Plan.{plan_of, IsDueToFail};
ghost use Rattle.mc_io.specs.Memory.{SinkState, MemWrites, IsWithoutRoom};

use crate::end::Failed;
use crate::plan::CallPlan;
use crate::source_sink::Sink;
use crate::store::Store;
use mc_model::Memory;
use std::alloc::Global;
use std::marker::Model;

/// A sink in memory, which tells what was written. A write takes at most `piece` bytes.
///
/// The writes are numbered from 0, and those whose number is in `failing` fail, as does one of a part
/// that is not empty when no room is left. The number stops at `u32::MAX`, and no write is in
/// `failing` from there on.
#[derive(Drop)]
pub struct MemSink {
    store: Store,
    piece: usize,
    plan: CallPlan,
}

impl Model for MemSink {
    ghost Value = { SinkState };

    ghost view = { λ s.
        record { kept = s.store.0; room = s.store.1; piece = s.piece; plan = s.plan } };

    ghost invariant = { λ s. 1 ≤ s.piece };
}

impl MemSink {
    /// An empty sink before its first write, which takes its room at once.
    /// The error is want of memory.
    pub fn new(
        alloc: Global,
        room: usize,
        piece: usize,
        failing: Vec<u32>,
    ) -> Result<MemSink, Memory>
        requires { 1 ≤ piece }
        ensures { IfOk result (λ s.
            s ≡ record { kept = []; room = room; piece = piece; plan = plan_of failing.items }) }
    {
        let store = Store::new(alloc, room)?;
        Ok(MemSink {
            store,
            piece,
            plan: CallPlan::new(failing),
        })
    }

    /// What was written.
    pub fn bytes(&self) -> &[u8]
        ensures { result.now ≡ self.now.kept }
    {
        self.store.bytes()
    }

    /// Whether a write of this part fails.
    fn refuses(&self, part: &[u8]) -> bool
        ensures { IsTrue result ↔ (IsDueToFail self.now.plan ⊎ IsWithoutRoom self.now part.now) }
    {
        self.plan.is_due_to_fail() || (!part.is_empty() && self.store.is_full())
    }
}

impl Sink for MemSink {
    ghost written = { λ s. Some s.kept };

    ghost faults = { λ s. min s.plan.faults (2 ^ 64 - 1) };

    ghost writes = { MemWrites };

    ghost fits = { λ s. Prim.omega arith };

    fn write(&mut self, part: &[u8]) -> Result<usize, Failed> {
        if self.refuses(part) {
            return self.plan.counted(Err(Failed));
        }
        let count = self.store.keep(self.piece, part);
        self.plan.counted(Ok(count))
    }
}
