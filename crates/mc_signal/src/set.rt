//! Sets of qubits.

ghost use Rattle.std.specs.Prelude.{◌≡◌, ◌<◌, ◌≤◌, ◌↔◌, ℕ, Bool, [], ◌∷◌, ◌++◌, All, IfOk};
ghost use Rattle.std.specs.Prelude.{IsTrue};
ghost use Rattle.std.specs.Prelude.{MatchResult, Some, OnErr, OnOk, insert, length, nat_eq, remove};
ghost use Rattle.std.specs.Prelude.{slice_get};
ghost use Rattle.mc_model.specs.Numbers.{is_member};
ghost use Rattle.mc_model.specs.Bits.{◌⊻◌, Bits, parity, replaced};
ghost use Rattle.mc_model.specs.Signals.{IsRising, toggled, toggled_all};

use mc_model::Memory;
use smallvec::SmallVec;
use std::alloc::Global;
use std::cmp::Ordering;
use std::marker::Model;
use std::mem;

/// The members in rising order; up to 16 lie in the value itself.
type Members = SmallVec<u8, 16>;

/// A set of numbers below 256, listed in rising order.
#[derive(Drop)]
pub struct QSet {
    members: Members,
}

impl Model for QSet {
    ghost use Rattle.std.specs.Prelude.{List, ℕ};
    ghost use Rattle.mc_model.specs.Signals.{IsRising};

    ghost Value = { List ℕ };

    ghost view = { λ s. s.members.items };

    ghost invariant = { λ s. IsRising s.members.items };
}

fn is_listed(members: &[u8], q: u16) -> bool
    ensures { result ≡ is_member members.now q }
{
    members.iter().any(|member| *member as u16 == q)
}

/// Whether a number stands above each member, and so goes last.
fn goes_last(members: &[u8], q: u8) -> bool
    requires { IsRising members.now }
    ensures { IsTrue result → toggled q members.now ≡ insert members.now (length members.now) q }
{
    match members {
        [] => true,
        [.., last] => *last < q,
    }
}

/// Where a number stands, or where it goes.
fn place_of(members: &[u8], q: u8) -> Result<usize, usize>
    requires { IsRising members.now }
    ensures { MatchResult result
        (λ place. (place < length members.now) × (toggled q members.now ≡ remove members.now place))
        (λ place. (place ≤ length members.now)
        × (toggled q members.now ≡ insert members.now place q)) }
{
    if goes_last(members, q) {
        return Err(members.len());
    }
    members.binary_search(&q)
}

/// The numbers that stand in just one of two rising lists.
fn merged(alloc: Global, left: &[u8], right: &[u8]) -> Result<Members, Memory>
    requires left_rising { IsRising left.now }
    requires right_rising { IsRising right.now }
    ensures { IfOk result (λ sum. sum.items ≡ toggled_all left.now right.now) }
{
    let mut sum: Members = SmallVec::new(alloc);
    let mut i = 0;
    let mut j = 0;
    'merge: while i < left.len() && j < right.len() {
        match left[i].cmp(&right[j]) {
            Ordering::Less => {
                push(&mut sum, left[i])?;
                i += 1;
            }
            Ordering::Greater => {
                push(&mut sum, right[j])?;
                j += 1;
            }
            Ordering::Equal => {
                i += 1;
                j += 1;
            }
        }
    }
    extend(&mut sum, left.split_at(i).1)?;
    extend(&mut sum, right.split_at(j).1)?;
    Ok(sum)
}

fn push(members: &mut Members, q: u8) -> Result<(), Memory>
    ensures { OnOk result (members.new.items ≡ members.old.items ++ q ∷ []) }
{
    match members.push(q) {
        Ok(()) => Ok(()),
        Err(_) => Err(Memory),
    }
}

fn extend(members: &mut Members, more: &[u8]) -> Result<(), Memory>
    ensures { OnOk result (members.new.items ≡ members.old.items ++ more.now) }
{
    match members.extend_from_slice(more) {
        Ok(()) => Ok(()),
        Err(_) => Err(Memory),
    }
}

impl QSet {
    /// The empty set, which takes no memory.
    pub fn new(alloc: Global) -> QSet
        ensures { result ≡ [] }
    {
        QSet {
            members: SmallVec::new(alloc),
        }
    }

    /// The members in rising order.
    pub(crate) fn as_slice(&self) -> &[u8]
        ensures members { result.now ≡ self.now }
        ensures rising { IsRising self.now }
        ensures small { All (λ q. q < 256) self.now }
    {
        let members = self.members.as_slice();
        members
    }

    /// How many members there are.
    pub fn len(&self) -> usize
        ensures len { result ≡ length self.now }
        ensures rising { IsRising self.now }
        ensures small { All (λ q. q < 256) self.now }
    {
        self.as_slice().len()
    }

    /// Whether there are no members.
    pub fn is_empty(&self) -> bool
        ensures { IsTrue result ↔ (self.now ≡ []) }
    {
        self.members.is_empty()
    }

    /// Whether a number is a member.
    pub fn has(&self, q: u16) -> bool
        ensures member { result ≡ is_member self.now q }
        ensures small { IsTrue result → q < 256 }
    {
        is_listed(self.as_slice(), q)
    }

    /// The member at a place in rising order.
    pub fn get(&self, i: usize) -> u16
        requires { i < length self.now }
        ensures member { slice_get self.now i ≡ Some result }
        ensures small { result < 256 }
    {
        self.as_slice()[i] as u16
    }

    /// Adds a number, or takes it out where it is a member.
    pub fn toggle(&mut self, q: u16) -> Result<(), Memory>
        requires { q < 256 }
        ensures ok { OnOk result (self.new ≡ toggled q self.old) }
        ensures members { OnOk result ((p : ℕ) →
            is_member self.new p ≡ (is_member self.old p ⊻ nat_eq p q)) }
        ensures err { OnErr result (self.new ≡ self.old) }
    {
        let q = q as u8;
        match place_of(self.members.as_slice(), q) {
            Ok(place) => {
                let _ = self.members.remove(place);
                Ok(())
            }
            Err(place) => match self.members.insert(place, q) {
                Ok(()) => Ok(()),
                Err(_) => Err(Memory),
            },
        }
    }

    /// The numbers that are members of just one of two sets.
    pub(crate) fn sum(&self, other: &QSet) -> Result<QSet, Memory>
        ensures sum { IfOk result (λ sum. sum ≡ toggled_all self.now other.now) }
        ensures members { IfOk result (λ sum. (q : ℕ) →
            is_member sum q ≡ (is_member self.now q ⊻ is_member other.now q)) }
    {
        let alloc = *self.members.allocator();
        match merged(alloc, self.members.as_slice(), other.members.as_slice()) {
            Ok(members) => Ok(QSet { members }),
            Err(_) => Err(Memory),
        }
    }

    /// The set without its member `q`, with another set added.
    pub(crate) fn replaced(&self, q: u16, by: &QSet) -> Result<QSet, Memory>
        requires { IsTrue (is_member self.now q) × (q < 256) }
        ensures set { IfOk result (λ set. set ≡ toggled_all (toggled q self.now) by.now) }
        ensures parity { IfOk result (λ set. (o : Bits) (b : Bool) →
            (b ⊻ parity set o) ≡ parity self.now (replaced o q (b ⊻ parity by.now o))) }
    {
        // opens the set, whose members rise
        let _ = &self.members;
        let mut rest = self.copy()?;
        rest.toggle(q)?;
        let set = rest.sum(by)?;
        Ok(set)
    }

    /// Hands the set out and leaves the empty one, without memory.
    pub(crate) fn take(&mut self) -> QSet
        ensures taken { result ≡ self.old }
        ensures left { self.new ≡ [] }
    {
        let alloc = *self.members.allocator();
        QSet {
            members: mem::replace(&mut self.members, SmallVec::new(alloc)),
        }
    }

    /// The same set.
    pub fn copy(&self) -> Result<QSet, Memory>
        ensures { IfOk result (λ set. set ≡ self.now) }
    {
        let alloc = *self.members.allocator();
        match SmallVec::from_slice(alloc, self.members.as_slice()) {
            Ok(members) => Ok(QSet { members }),
            Err(_) => Err(Memory),
        }
    }
}
