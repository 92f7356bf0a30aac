//! A source in memory whose calls fail by their numbers.

ghost use Rattle.std.specs.Prelude.{◌≡◌, ◌-◌, ◌^◌, ◌≤◌, min, Some};
ghost use Rattle.std.proofs.Common.{arith};
ghost use Rattle.mc_io.specs.Plan.{plan_of};
ghost use Rattle.mc_io.specs.Memory.{SourceState, MemReads};

use crate::end::Failed;
use crate::plan::CallPlan;
use crate::source_sink::Source;
use crate::unread::Unread;
use std::marker::Model;

/// A source over bytes in memory, which tells what is left. A read gives at most `piece` bytes.
///
/// The reads are numbered from 0, and those whose number is in `failing` fail. The number stops at
/// `u32::MAX`, and no read fails from there on.
#[derive(Drop)]
pub struct MemSource {
    unread: Unread,
    piece: usize,
    plan: CallPlan,
}

impl Model for MemSource {
    ghost Value = { SourceState };

    ghost view = { λ s. record { left = s.unread; piece = s.piece; plan = s.plan } };

    ghost invariant = { λ s. 1 ≤ s.piece };
}

impl MemSource {
    /// A source with these bytes left, before its first read.
    pub fn new(bytes: Vec<u8>, piece: usize, failing: Vec<u32>) -> MemSource
        requires { 1 ≤ piece }
        ensures { result ≡
            record { left = bytes.items; piece = piece; plan = plan_of failing.items } }
    {
        MemSource {
            unread: Unread::new(bytes),
            piece,
            plan: CallPlan::new(failing),
        }
    }
}

impl Source for MemSource {
    ghost left = { λ s. Some s.left };

    ghost faults = { λ s. min s.plan.faults (2 ^ 64 - 1) };

    ghost reads = { MemReads };

    ghost fits = { λ s. Prim.omega arith };

    fn read(&mut self, buf: &mut [u8]) -> Result<usize, Failed> {
        if self.plan.is_due_to_fail() {
            return self.plan.counted(Err(Failed));
        }
        let count = self.unread.give(self.piece, buf);
        self.plan.counted(Ok(count))
    }
}
