//! Equal commands.

ghost use Rattle.std.specs.Prelude.{◌≡◌, map, MatchBool};
ghost use Rattle.mc_pattern.specs.Commands.{plain_command};

use mc_pattern::Command;
use mc_signal::{QSet, Signal};

/// Whether two sets are the same.
fn are_members(a: &QSet, b: &QSet) -> bool
    ensures { MatchBool result (a.now ≡ b.now) (a.now ≡ b.now → ⊥) }
{
    if a.len() != b.len() {
        return false;
    }
    'members: for i in 0..a.len() {
        if a.get(i) != b.get(i) {
            return false;
        }
    }
    true
}

/// Whether two signals have the same members and the same constant.
fn is_same_signal(s: &Signal, t: &Signal) -> bool
    ensures { MatchBool result (s.now ≡ t.now) (s.now ≡ t.now → ⊥) }
{
    s.constant() == t.constant() && are_members(s.members(), t.members())
}

/// Whether two signals are the two others.
fn are_same_signals(s: &Signal, t: &Signal, u: &Signal, v: &Signal) -> bool
    ensures { MatchBool result ((s.now ≡ u.now) × (t.now ≡ v.now))
        ((s.now ≡ u.now) × (t.now ≡ v.now) → ⊥) }
{
    is_same_signal(s, u) && is_same_signal(t, v)
}

/// Whether two commands are the same.
fn is_same<const H: usize>(c: &Command<H>, d: &Command<H>) -> bool
    ensures { MatchBool result (plain_command c.now ≡ plain_command d.now)
        (plain_command c.now ≡ plain_command d.now → ⊥) }
{
    match c {
        Command::Prep(q) => match d {
            Command::Prep(r) => *q == *r,
            _ => false,
        },
        Command::Ent(i, j) => match d {
            Command::Ent(q, r) => *i == *q && *j == *r,
            _ => false,
        },
        Command::Meas {
            q: i,
            angle: a,
            s,
            t,
        } => match d {
            Command::Meas {
                q,
                angle,
                s: u,
                t: v,
            } => { *i == *q && a.steps() == angle.steps() && are_same_signals(s, t, u, v) }
            _ => false,
        },
        Command::FixX { q: i, s } => match d {
            Command::FixX { q, s: u } => *i == *q && is_same_signal(s, u),
            _ => false,
        },
        Command::FixZ { q: i, s } => match d {
            Command::FixZ { q, s: u } => *i == *q && is_same_signal(s, u),
            _ => false,
        },
    }
}

/// Whether two lists of commands are the same.
pub(crate) fn are_same<const H: usize>(cs: &[Command<H>], ds: &[Command<H>]) -> bool
    ensures { MatchBool result (map plain_command cs.now ≡ map plain_command ds.now)
        (map plain_command cs.now ≡ map plain_command ds.now → ⊥) }
{
    if cs.len() != ds.len() {
        return false;
    }
    'commands: for i in 0..cs.len() {
        if !is_same(&cs[i], &ds[i]) {
            return false;
        }
    }
    true
}
