//! The rows of a change, as they are read.

ghost use Rattle.std.specs.Prelude.{◌≡◌, ℕ, [], OnOk, IfErr, nat_eq, ◌||◌};
ghost use Rattle.mc_model.specs.Numbers.{is_member};
ghost use Rattle.mc_change_text.specs.Kinds.{change_kind, change_shape, follows_in_change};
ghost use Rattle.mc_change_text.specs.Kept.{IsChangeSoFar};

use mc_pattern::Change;
use mc_rows::{Row, Rows, Shape};
use mc_signal::{QSet, Signal};
use mc_text::{Fault, Head, Stop};
use std::alloc::Global;

/// What is kept of the rows of a change behind a pattern: whether `!` may stand in them, the measured qubits of the pattern in
/// order, the change, and the qubits of its rows.
#[derive(Drop)]
pub(crate) struct KeptChange {
    second: bool,
    order: Vec<u16>,
    pub(crate) change: Change,
    done: QSet,
}

impl KeptChange {
    /// Before the first row.
    pub(crate) fn new(alloc: Global, second: bool, order: Vec<u16>) -> KeptChange
        ensures second { result.second ≡ second }
        ensures order { result.order.items ≡ order.items }
        ensures begins { IsChangeSoFar result.change result.done [] }
    {
        KeptChange {
            second,
            order,
            change: Change::new(alloc),
            done: QSet::new(alloc),
        }
    }
}

fn follows(last: Option<Head>, head: Option<Head>) -> bool
    ensures { result ≡ follows_in_change last head }
{
    match (last, head) {
        (None | Some(Head::O), Some(Head::O | Head::End)) => true,
        _ => false,
    }
}

fn shape(head: Option<Head>) -> Shape
    ensures { result ≡ change_shape head }
{
    match head {
        Some(Head::O) => Shape::Listed,
        _ => Shape::Bare,
    }
}

/// The signal with these members, and with the constant where that is said.
fn signal_of(members: QSet, constant: bool) -> Signal
    ensures { result ≡ record { members = members; constant = constant } }
{
    let mut signal = Signal::of(members);
    if constant {
        signal.flip();
    }
    signal
}

/// Puts a qubit into a set.
fn join(set: &mut QSet, q: u16) -> Result<(), Stop>
    ensures joined { OnOk result ((p : ℕ) →
        is_member set.new p ≡ (is_member set.old p || nat_eq p q)) }
    ensures err { IfErr result (λ stop. stop ≡ Stop.Memory) }
{
    // no qubit has a number above 255
    if q >= 256 {
        return Err(Stop::Memory);
    }
    if set.has(q) {
        return Ok(());
    }
    match set.toggle(q) {
        Ok(()) => Ok(()),
        Err(_) => Err(Stop::Memory),
    }
}

impl Rows for KeptChange {
    ghost use Rattle.mc_change_text.specs.Kinds.{change_kind};
    ghost use Rattle.mc_change_text.specs.Kept.{IsChangeSoFar};

    ghost kind = { λ k. change_kind k.second k.order.items };

    ghost holds = { λ k rows. IsChangeSoFar k.change k.done rows };

    fn follows(&self, last: Option<Head>, head: Option<Head>) -> bool {
        follows(last, head)
    }

    fn shape(&self, head: Option<Head>) -> Shape {
        shape(head)
    }

    fn second(&self) -> bool {
        self.second
    }

    fn bar_head(&self, head: Option<Head>) -> Result<(), Stop> {
        if matches!(head, Some(Head::End)) && self.change.len() < self.order.len() {
            return Err(Stop::Fault(Fault::OtherRow));
        }
        Ok(())
    }

    fn bar_named(&self, _head: Option<Head>, _number: u16, q: u16) -> Result<(), Stop> {
        match self.order.get(self.change.len()) {
            Some(due) => {
                if *due != q {
                    return Err(Stop::Fault(Fault::OtherRow));
                }
                Ok(())
            }
            None => Err(Stop::Fault(Fault::OtherRow)),
        }
    }

    fn bar_listed(&self, q: u16) -> Result<(), Stop> {
        if !self.done.has(q) {
            return Err(Stop::Fault(Fault::NotMeasured));
        }
        Ok(())
    }

    fn push(&mut self, row: Row) -> Result<(), Stop> {
        // the proof needs that the members are in order
        let _members = row.set.len();
        if let Err(stop) = join(&mut self.done, row.name) {
            return Err(stop);
        }
        match self.change.push(row.name, signal_of(row.set, row.constant)) {
            Ok(()) => Ok(()),
            Err(_) => Err(Stop::Memory),
        }
    }
}
