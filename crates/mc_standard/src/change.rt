//! Changes of a few commands.

use crate::rule::Rule;
use mc_pattern::Command;

/// What becomes of the commands at a place: one command, or two neighbours.
#[derive(Drop)]
pub enum Change<const H: usize> {
    /// The two change places.
    Exchange,
    /// The two change places, and this one goes behind them.
    Add(Command<H>),
    /// This one takes the place of the two.
    Merge(Command<H>),
    /// The two vanish.
    Cancel,
    /// This one takes the place of the one.
    Put(Command<H>),
    /// The one vanishes.
    Remove,
}

/// A rule, and what it makes of the commands that it is used on.
#[derive(Drop)]
pub(crate) struct Rewrite<const H: usize> {
    pub(crate) rule: Rule,
    pub(crate) change: Change<H>,
}
