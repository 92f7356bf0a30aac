//! Signals.

ghost use Rattle.std.specs.Prelude.{◌≡◌, ◌<◌, ℕ, All, IfOk, OnErr, OnOk, false, not, length};
ghost use Rattle.std.specs.Prelude.{if◌then◌else◌};
ghost use Rattle.mc_model.specs.Numbers.{is_member};
ghost use Rattle.mc_model.specs.Bits.{◌⊻◌, Bits, parity, replaced, bits_of};
ghost use Rattle.mc_model.specs.Signals.{Signal as PlainSignal, IsRising, no_signal, one_signal};
ghost use Rattle.mc_model.specs.Signals.{signal_of, signal_sum, is_empty, value};

use crate::outcomes::Outcomes;
use crate::set::QSet;
use mc_model::Memory;
use std::alloc::Global;
use std::marker::Model;

/// A set of measured qubits and a constant, whose value is the constant plus the sum of the outcomes.
#[derive(Drop)]
pub struct Signal {
    members: QSet,
    constant: bool,
}

impl Model for Signal {
    ghost use Rattle.mc_model.specs.Signals.{Signal as PlainSignal};

    ghost Value = { PlainSignal };

    ghost view = { λ s. record { members = s.members; constant = s.constant } };
}

/// The sum of the members' outcomes.
fn parity_of(members: &[u8], outcomes: &Outcomes) -> bool
    requires { All (λ q. q < length outcomes.now) members.now }
    ensures { result ≡ parity members.now (bits_of outcomes.now) }
{
    let mut sum = false;
    'members: for member in members {
        sum ^= outcomes.get(*member as u16);
    }
    sum
}

impl Signal {
    /// The signal without members and constant, which is always 0 and takes no memory.
    pub fn empty(alloc: Global) -> Signal
        ensures { result ≡ no_signal }
    {
        Signal {
            members: QSet::new(alloc),
            constant: false,
        }
    }

    /// The constant alone, which is always 1 and takes no memory.
    pub fn one(alloc: Global) -> Signal
        ensures { result ≡ one_signal }
    {
        Signal {
            members: QSet::new(alloc),
            constant: true,
        }
    }

    /// The signal with these members and no constant.
    pub fn of(members: QSet) -> Signal
        ensures { result ≡ record { members = members; constant = false } }
    {
        Signal {
            members,
            constant: false,
        }
    }

    /// The members.
    pub fn members(&self) -> &QSet
        ensures members { result.now ≡ self.now.members }
        ensures rising { IsRising self.now.members }
    {
        let _rising = self.members.len();
        &self.members
    }

    /// Whether the signal has the constant.
    pub fn constant(&self) -> bool
        ensures { result ≡ self.now.constant }
    {
        self.constant
    }

    /// Whether the signal has neither members nor the constant, and so is always 0.
    pub fn is_empty(&self) -> bool
        ensures { result ≡ is_empty self.now }
    {
        self.members.is_empty() && !self.constant
    }

    /// Whether a qubit is a member.
    pub fn has(&self, q: u16) -> bool
        ensures { result ≡ is_member self.now.members q }
    {
        self.members.has(q)
    }

    /// Adds the constant.
    pub fn flip(&mut self)
        ensures signal { self.new ≡ signal_sum one_signal self.old }
        ensures constant { self.new.constant ≡ not self.old.constant }
    {
        self.constant = !self.constant;
    }

    /// Adds the outcome of a qubit, which takes the qubit out where it is a member.
    pub fn toggle(&mut self, q: u16) -> Result<(), Memory>
        requires { q < 256 }
        ensures ok { OnOk result (self.new ≡ signal_sum (signal_of q) self.old) }
        ensures err { OnErr result (self.new ≡ self.old) }
    {
        self.members.toggle(q)?;
        Ok(())
    }

    /// Adds a signal: the members are then those of just one of the two, and the constants are added.
    pub fn add(&mut self, other: &Signal) -> Result<(), Memory>
        ensures ok { OnOk result (self.new ≡ signal_sum self.old other.now) }
        ensures members { OnOk result ((q : ℕ) →
            is_member self.new.members q ≡
            (is_member self.old.members q ⊻ is_member other.now.members q)) }
        ensures err { OnErr result (self.new ≡ self.old) }
    {
        self.members = self.members.sum(&other.members)?;
        self.constant ^= other.constant;
        Ok(())
    }

    /// Puts a signal in the place of a qubit: where the qubit is a member, it is taken out and the
    /// signal is added, else nothing changes.
    pub fn replace(&mut self, q: u16, by: &Signal) -> Result<(), Memory>
        ensures ok { OnOk result (self.new ≡
            (if is_member self.old.members q
            then signal_sum (signal_sum (signal_of q) self.old) by.now
            else self.old)) }
        // its value is that of the signal before, with the other's value as the qubit's outcome
        ensures value { OnOk result ((o : Bits) →
            value self.new o ≡ value self.old (replaced o q (value by.now o))) }
        ensures err { OnErr result (self.new ≡ self.old) }
    {
        if !self.members.has(q) {
            return Ok(());
        }
        self.members = self.members.replaced(q, &by.members)?;
        self.constant ^= by.constant;
        Ok(())
    }

    /// Hands the signal out and leaves the empty one, without memory.
    pub fn take(&mut self) -> Signal
        ensures taken { result ≡ self.old }
        ensures left { self.new ≡ no_signal }
    {
        let taken = Signal {
            members: self.members.take(),
            constant: self.constant,
        };
        self.constant = false;
        taken
    }

    /// The constant plus the sum of the members' outcomes.
    pub fn value(&self, outcomes: &Outcomes) -> bool
        requires { All (λ q. q < length outcomes.now) self.now.members }
        ensures { result ≡ value self.now (bits_of outcomes.now) }
    {
        self.constant ^ parity_of(self.members.as_slice(), outcomes)
    }

    /// The same signal.
    pub fn copy(&self) -> Result<Signal, Memory>
        ensures { IfOk result (λ signal. signal ≡ self.now) }
    {
        match self.members.copy() {
            Ok(members) => Ok(Signal {
                members,
                constant: self.constant,
            }),
            Err(_) => Err(Memory),
        }
    }
}
