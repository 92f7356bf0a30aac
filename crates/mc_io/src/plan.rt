//! Which calls fail, by their numbers.

ghost use Rattle.std.specs.Prelude.{◌≡◌, ◌↔◌, ◌-◌, IsTrue};
ghost use Rattle.mc_io.specs.Plan.{Plan, plan_of, plan_after, IsDueToFail};

use crate::end::Failed;
use std::marker::Model;

/// The numbers of the calls that fail, the number of the next call, and how many calls failed.
#[derive(Drop)]
pub(crate) struct CallPlan {
    failing: Vec<u32>,
    call: u32,
    faults: u64,
}

impl Model for CallPlan {
    ghost Value = { Plan };

    ghost view = { λ s. record { failing = s.failing.items; call = s.call; faults = s.faults } };
}

impl CallPlan {
    pub(crate) fn new(failing: Vec<u32>) -> CallPlan
        ensures { result ≡ plan_of failing.items }
    {
        CallPlan {
            failing,
            call: 0,
            faults: 0,
        }
    }

    /// Whether the next call is one of those that fail. None is from `u32::MAX` on, where the number
    /// stops.
    pub(crate) fn is_due_to_fail(&self) -> bool
        ensures { IsTrue result ↔ IsDueToFail self.now }
    {
        self.call < u32::MAX && self.failing.contains(&self.call)
    }

    /// Counts a call with this answer, and hands the answer on.
    pub(crate) fn counted(&mut self, answer: Result<usize, Failed>) -> Result<usize, Failed>
        ensures answer { result ≡ answer }
        ensures plan { self.new ≡ plan_after self.old answer }
    {
        self.call = self.call.saturating_add(1);
        if answer.is_err() {
            self.faults = self.faults.saturating_add(1);
        }
        answer
    }
}
