//! Whether commands are those of a rule's line, and what the rule makes of them.

ghost use Rattle.std.specs.Prelude.{◌≡◌, List, [], ◌∷◌, IfOk, MatchOption};
ghost use Rattle.mc_model.specs.Derivation.{Rewrites, Turn, DropEmpty, XE, XM, ZM, Join};
ghost use Rattle.mc_model.specs.Pattern.{Command as Plain};
ghost use Rattle.mc_model.specs.Signals.{signal_sum};
ghost use Rattle.mc_pattern.specs.Commands.{plain_command};
ghost use Rattle.mc_standard.specs.Uses.{plain_rule};
ghost use Rattle.mc_standard.specs.Changes.{reach, changed};
ghost use Rattle.mc_trace.specs.Fitting.{shape_of, names_it, uses_it, fits_line, made};

use mc_model::Memory;
use mc_pattern::{Command, Signal};
use mc_standard::{Change, Rule};

/// The kinds of command, by number.
const PREP: u8 = 0;

const ENT: u8 = 1;

const MEAS: u8 = 2;

const FIX_X: u8 = 3;

const FIX_Z: u8 = 4;

/// What a rule asks of a command, apart from its signals: its kind, and its operands, one of which may stand twice.
#[derive(Clone, Copy)]
pub(crate) struct Shape {
    pub(crate) kind: u8,
    pub(crate) a: u16,
    pub(crate) b: u16,
}

fn shape_of<const H: usize>(command: &Command<H>) -> Shape
    ensures { result ≡ shape_of (plain_command command.now) }
{
    match command {
        Command::Prep(q) => Shape {
            kind: PREP,
            a: *q,
            b: *q,
        },
        Command::Ent(q, r) => Shape {
            kind: ENT,
            a: *q,
            b: *r,
        },
        Command::Meas { q, .. } => Shape {
            kind: MEAS,
            a: *q,
            b: *q,
        },
        Command::FixX { q, .. } => Shape {
            kind: FIX_X,
            a: *q,
            b: *q,
        },
        Command::FixZ { q, .. } => Shape {
            kind: FIX_Z,
            a: *q,
            b: *q,
        },
    }
}

/// Whether the signals of a command name a qubit.
fn names<const H: usize>(command: &Command<H>, i: u16) -> bool
    ensures { result ≡ names_it i (plain_command command.now) }
{
    match command {
        Command::Prep(_) => false,
        Command::Ent(..) => false,
        Command::Meas { s, t, .. } => s.has(i) || t.has(i),
        Command::FixX { s, .. } => s.has(i),
        Command::FixZ { s, .. } => s.has(i),
    }
}

/// Whether the second command uses the outcome of the first.
fn uses<const H: usize>(c: &Command<H>, d: &Command<H>) -> bool
    ensures { result ≡ uses_it (plain_command c.now) (plain_command d.now) }
{
    match c {
        Command::Prep(_) => false,
        Command::Ent(..) => false,
        Command::Meas { q, .. } => names(d, *q),
        Command::FixX { .. } => false,
        Command::FixZ { .. } => false,
    }
}

/// Whether two commands of these shapes are those of the rule's line, where `used` says that the second uses the outcome of the
/// first.
fn fits(rule: Rule, c: Shape, d: Shape, used: bool) -> bool
    ensures { result ≡ fits_line (plain_rule rule) c d used }
{
    match rule {
        Rule::XE => c.kind == FIX_X && (d.kind == ENT && (c.a == d.a || c.a == d.b)),
        Rule::ZE => c.kind == FIX_Z && (d.kind == ENT && (c.a == d.a || c.a == d.b)),
        Rule::XM => c.kind == FIX_X && (d.kind == MEAS && (c.a == d.a || c.a == d.b)),
        Rule::ZM => c.kind == FIX_Z && (d.kind == MEAS && (c.a == d.a || c.a == d.b)),
        Rule::Swap => { !used && (c.a != d.a && (c.a != d.b && (c.b != d.a && c.b != d.b))) }
        Rule::Join => {
            ((c.kind == FIX_X && d.kind == FIX_X) || (c.kind == FIX_Z && d.kind == FIX_Z))
                && c.a == d.a
        }
        Rule::EE => c.kind == ENT && d.kind == ENT,
        Rule::Cancel => {
            c.kind == ENT
                && (d.kind == ENT && ((c.a == d.a && c.b == d.b) || (c.a == d.b && c.b == d.a)))
        }
        Rule::XZ => ((c.kind == FIX_X && d.kind == FIX_Z) || (c.kind == FIX_Z && d.kind == FIX_X))
            && c.a == d.a,
        Rule::Turn => false,
        Rule::DropEmpty => false,
    }
}

/// The sum of two signals.
fn sum(s: &Signal, t: &Signal) -> Result<Signal, Memory>
    ensures { IfOk result (λ sum. sum ≡ signal_sum s.now t.now) }
{
    let mut sum = s.copy()?;
    sum.add(t)?;
    Ok(sum)
}

/// An `X` that an entangling passes leaves a `Z` on the other operand.
fn leave_z<const H: usize>(c: &Command<H>, d: &Command<H>) -> Result<Change<H>, Memory>
    ensures reach { IfOk result (λ change. reach change ≡ 2) }
    ensures made { IfOk result (λ change.
        changed change (plain_command c.now ∷ plain_command d.now ∷ [])
        ≡ made XE (plain_command c.now) (plain_command d.now)) }
{
    match c {
        Command::FixX { q, s } => match d {
            Command::Ent(i, j) => Ok(Change::Add(Command::FixZ {
                q: if *i == *q { *j } else { *i },
                s: s.copy()?,
            })),
            _ => Ok(Change::Exchange),
        },
        _ => Ok(Change::Exchange),
    }
}

/// A measurement takes an `X` into its signal `s`.
fn take_x<const H: usize>(c: &Command<H>, d: &Command<H>) -> Result<Change<H>, Memory>
    ensures reach { IfOk result (λ change. reach change ≡ 2) }
    ensures made { IfOk result (λ change.
        changed change (plain_command c.now ∷ plain_command d.now ∷ [])
        ≡ made XM (plain_command c.now) (plain_command d.now)) }
{
    match c {
        Command::FixX { s: r, .. } => match d {
            Command::Meas { q, angle, s, t } => Ok(Change::Merge(Command::Meas {
                q: *q,
                angle: *angle,
                s: sum(s, r)?,
                t: t.copy()?,
            })),
            _ => Ok(Change::Exchange),
        },
        _ => Ok(Change::Exchange),
    }
}

/// A measurement takes a `Z` into its signal `t`.
fn take_z<const H: usize>(c: &Command<H>, d: &Command<H>) -> Result<Change<H>, Memory>
    ensures reach { IfOk result (λ change. reach change ≡ 2) }
    ensures made { IfOk result (λ change.
        changed change (plain_command c.now ∷ plain_command d.now ∷ [])
        ≡ made ZM (plain_command c.now) (plain_command d.now)) }
{
    match c {
        Command::FixZ { s: r, .. } => match d {
            Command::Meas { q, angle, s, t } => Ok(Change::Merge(Command::Meas {
                q: *q,
                angle: *angle,
                s: s.copy()?,
                t: sum(t, r)?,
            })),
            _ => Ok(Change::Exchange),
        },
        _ => Ok(Change::Exchange),
    }
}

/// Two corrections of one kind become one.
fn join<const H: usize>(c: &Command<H>, d: &Command<H>) -> Result<Change<H>, Memory>
    ensures reach { IfOk result (λ change. reach change ≡ 2) }
    ensures made { IfOk result (λ change.
        changed change (plain_command c.now ∷ plain_command d.now ∷ [])
        ≡ made Join (plain_command c.now) (plain_command d.now)) }
{
    match c {
        Command::FixX { q, s } => match d {
            Command::FixX { s: t, .. } => Ok(Change::Merge(Command::FixX {
                q: *q,
                s: sum(s, t)?,
            })),
            _ => Ok(Change::Exchange),
        },
        Command::FixZ { q, s } => match d {
            Command::FixZ { s: t, .. } => Ok(Change::Merge(Command::FixZ {
                q: *q,
                s: sum(s, t)?,
            })),
            _ => Ok(Change::Exchange),
        },
        _ => Ok(Change::Exchange),
    }
}

/// What a rule makes of two commands of its line.
fn change_of<const H: usize>(
    rule: Rule,
    c: &Command<H>,
    d: &Command<H>,
) -> Result<Change<H>, Memory>
    ensures reach { IfOk result (λ change. reach change ≡ 2) }
    ensures made { IfOk result (λ change.
        changed change (plain_command c.now ∷ plain_command d.now ∷ [])
        ≡ made (plain_rule rule) (plain_command c.now) (plain_command d.now)) }
{
    match rule {
        Rule::XE => leave_z(c, d),
        Rule::XM => take_x(c, d),
        Rule::ZM => take_z(c, d),
        Rule::Join => join(c, d),
        Rule::Cancel => Ok(Change::Cancel),
        _ => Ok(Change::Exchange),
    }
}

/// What a rule of two commands makes of these, if they are those of its line.
pub(crate) fn change_two<const H: usize>(
    rule: Rule,
    c: &Command<H>,
    d: &Command<H>,
) -> Result<Option<Change<H>>, Memory>
    ensures { IfOk result (λ found. MatchOption found
        ((new : List Plain) →
        Rewrites (plain_rule rule) (plain_command c.now ∷ plain_command d.now ∷ []) new → ⊥)
        (λ change. (reach change ≡ 2)
        × Rewrites (plain_rule rule) (plain_command c.now ∷ plain_command d.now ∷ [])
        (changed change (plain_command c.now ∷ plain_command d.now ∷ [])))) }
{
    if !fits(rule, shape_of(c), shape_of(d), uses(c, d)) {
        return Ok(None);
    }
    let change = change_of(rule, c, d)?;
    Ok(Some(change))
}

/// What turning makes of a command, if it is an entangling.
fn turn<const H: usize>(c: &Command<H>) -> Option<Change<H>>
    ensures { MatchOption result
        ((new : List Plain) → Rewrites Turn (plain_command c.now ∷ []) new → ⊥)
        (λ change. (reach change ≡ 1) × Rewrites Turn (plain_command c.now ∷ [])
        (changed change (plain_command c.now ∷ []))) }
{
    match c {
        Command::Ent(i, j) => Some(Change::Put(Command::Ent(*j, *i))),
        _ => None,
    }
}

/// What dropping makes of a command, if it is a correction that never acts.
fn drop_empty<const H: usize>(c: &Command<H>) -> Option<Change<H>>
    ensures { MatchOption result
        ((new : List Plain) → Rewrites DropEmpty (plain_command c.now ∷ []) new → ⊥)
        (λ change. (reach change ≡ 1) × Rewrites DropEmpty (plain_command c.now ∷ [])
        (changed change (plain_command c.now ∷ []))) }
{
    match c {
        Command::FixX { s, .. } => {
            if s.is_empty() {
                Some(Change::Remove)
            } else {
                None
            }
        }
        Command::FixZ { s, .. } => {
            if s.is_empty() {
                Some(Change::Remove)
            } else {
                None
            }
        }
        _ => None,
    }
}

/// What a rule of one command makes of this, if it is that of its line.
pub(crate) fn change_one<const H: usize>(rule: Rule, c: &Command<H>) -> Option<Change<H>>
    ensures { MatchOption result
        ((new : List Plain) → Rewrites (plain_rule rule) (plain_command c.now ∷ []) new → ⊥)
        (λ change. (reach change ≡ 1) × Rewrites (plain_rule rule) (plain_command c.now ∷ [])
        (changed change (plain_command c.now ∷ []))) }
{
    match rule {
        Rule::Turn => turn(c),
        Rule::DropEmpty => drop_empty(c),
        _ => None,
    }
}
