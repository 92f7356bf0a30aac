//! Sums of signals.

ghost use Rattle.std.specs.Prelude.{◌≡◌, ℕ, ◌<◌, All, IfOk, nat_eq};
ghost use Rattle.mc_model.specs.Numbers.{is_member};
ghost use Rattle.mc_model.specs.Bits.{◌⊻◌};
ghost use Rattle.mc_model.specs.Signals.{IsRising, no_signal, signal_sum};
ghost use Rattle.mc_bits.specs.Words.{word_bit};
ghost use Rattle.mc_standard.specs.Sums.{HasBelow};

use crate::bits::next_one;
use mc_model::Memory;
use mc_signal::{QSet, Signal};
use std::alloc::Global;
use std::marker::Model;

/// A bit for each of 256 qubits.
type Words = [u64; 4];

/// Changes one bit.
fn flip(words: &mut Words, q: u16)
    requires { q < 256 }
    ensures { (k : ℕ) → word_bit words.new k ≡ (word_bit words.old k ⊻ nat_eq k q) }
{
    words[q as usize / 64] ^= 1 << (q % 64);
}

/// Changes the bit of each member.
fn flip_all(words: &mut Words, set: &QSet)
    ensures bits { (k : ℕ) → word_bit words.new k ≡ (word_bit words.old k ⊻ is_member set.now k) }
    ensures small { All (λ q. q < 256) set.now }
{
    'members: for i in 0..set.len() {
        flip(words, set.get(i));
    }
}

/// Adds bits to bits.
fn add_words(from: &Words, to: &mut Words)
    ensures { (k : ℕ) → k < 256 →
        word_bit to.new k ≡ (word_bit to.old k ⊻ word_bit from.now k) }
{
    'words: for i in 0..4 {
        to[i] ^= from[i];
    }
}

/// The numbers whose bits are 1.
fn members_of(alloc: Global, words: &Words) -> Result<QSet, Memory>
    ensures { IfOk result (HasBelow words.now 256) }
{
    let mut set = QSet::new(alloc);
    let mut q = next_one(words, 0, 256);
    'members: while q < 256 {
        set.toggle(q as u16)?;
        q = next_one(words, q + 1, 256);
    }
    Ok(set)
}

/// The signal with these members, and the constant if told to.
fn signal_with(members: QSet, constant: bool) -> Signal
    ensures signal { result ≡ record { members = members; constant = constant } }
    ensures rising { IsRising members }
{
    let _rising = members.len();
    let mut signal = Signal::of(members);
    if constant {
        signal.flip();
    }
    signal
}

/// A sum of signals: a bit for each member, and the constant. Adding to it takes no memory.
#[derive(Drop)]
pub struct Sum {
    words: Words,
    constant: bool,
}

impl Model for Sum {
    ghost use Rattle.mc_model.specs.Signals.{Signal as PlainSignal};
    ghost use Rattle.mc_standard.specs.Sums.{summed};

    ghost Value = { PlainSignal };

    ghost view = { λ s. summed s.words s.constant };
}

impl Sum {
    /// The sum of no signals.
    pub fn new() -> Sum
        ensures { result ≡ no_signal }
    {
        Sum {
            words: [0; 4],
            constant: false,
        }
    }

    /// The sum of one signal.
    pub fn of(s: &Signal) -> Sum
        ensures sum { result ≡ s.now }
        ensures rising { IsRising s.now.members }
    {
        let mut sum = Sum::new();
        sum.add(s);
        sum
    }

    /// Adds a signal.
    pub fn add(&mut self, s: &Signal)
        ensures sum { self.new ≡ signal_sum self.old s.now }
        ensures rising { IsRising s.now.members }
    {
        flip_all(&mut self.words, s.members());
        self.constant ^= s.constant();
    }

    /// Adds a sum.
    pub fn add_sum(&mut self, other: &Sum)
        ensures sum { self.new ≡ signal_sum self.old other.now }
        ensures rising { IsRising self.new.members }
    {
        add_words(&other.words, &mut self.words);
        self.constant ^= other.constant;
    }

    /// The signal that it comes to.
    pub fn signal(&self, alloc: Global) -> Result<Signal, Memory>
        ensures { IfOk result (λ signal. signal ≡ self.now) }
    {
        let members = members_of(alloc, &self.words)?;
        Ok(signal_with(members, self.constant))
    }
}
