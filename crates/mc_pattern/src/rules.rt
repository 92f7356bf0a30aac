//! The rules that commands keep.

ghost use Rattle.std.specs.Prelude.{◌≡◌, ◌∷◌, [], nat_eq, false, IfNone};
ghost use Rattle.std.specs.List.{list_any};
ghost use Rattle.mc_model.specs.Bits.{bits_of};
ghost use Rattle.mc_pattern.specs.Commands.{plain_command};
ghost use Rattle.mc_pattern.specs.Rules.{command_rule, first_rule, is_stranger, is_undone};
ghost use Rattle.mc_pattern.specs.Typed.{IsSet, IsTyped};

use crate::command::Command;
use mc_signal::Signal;

/// Whether a mark stands at a number.
pub(crate) fn is_marked(marks: &[bool], q: u16) -> bool
    ensures { result ≡ bits_of marks.now q }
{
    marks.get(q as usize).copied().unwrap_or(false)
}

/// Whether one of the numbers is no qubit.
pub(crate) fn has_stranger(count: u16, qubits: &[u16]) -> bool
    ensures { result ≡ list_any (is_stranger count) qubits.now }
{
    qubits.iter().any(|q| *q >= count)
}

/// Whether one of the qubits was measured.
pub(crate) fn has_marked(marks: &[bool], qubits: &[u16]) -> bool
    ensures { result ≡ list_any (bits_of marks.now) qubits.now }
{
    qubits.iter().any(|q| is_marked(marks, *q))
}

/// Whether a member of the signal was not measured.
fn has_unmarked(marks: &[bool], signal: &Signal) -> bool
    ensures unmarked { result ≡ list_any (is_undone (bits_of marks.now)) signal.now.members }
    ensures rising { IsSet signal.now }
{
    let members = signal.members();
    'members: for i in 0..members.len() {
        if !is_marked(marks, members.get(i)) {
            return true;
        }
    }
    false
}

/// The least of the rules 1 and 2 that the operands break.
fn operand_rule(count: u16, marks: &[bool], operands: &[u16]) -> Option<u8>
    ensures { result ≡ first_rule count (bits_of marks.now) operands.now false [] }
{
    if has_stranger(count, operands) {
        Some(1)
    } else if has_marked(marks, operands) {
        Some(2)
    } else {
        None
    }
}

/// The least rule that entangling two qubits breaks.
fn pair_rule(count: u16, marks: &[bool], q: u16, r: u16) -> Option<u8>
    ensures { result ≡ first_rule count (bits_of marks.now) (q ∷ r ∷ []) (nat_eq q r) [] }
{
    if let Some(rule) = operand_rule(count, marks, &[q, r]) {
        Some(rule)
    } else if q == r {
        Some(3)
    } else {
        None
    }
}

/// The least rule that a command on one qubit with a signal breaks.
fn signal_rule(count: u16, marks: &[bool], q: u16, signal: &Signal) -> Option<u8>
    ensures rule { result ≡ first_rule count (bits_of marks.now) (q ∷ []) false signal.now.members }
    ensures rising { IfNone result (IsSet signal.now) }
{
    if let Some(rule) = operand_rule(count, marks, &[q]) {
        Some(rule)
    } else if has_unmarked(marks, signal) {
        Some(4)
    } else {
        None
    }
}

/// The least rule that a command breaks where there are so many qubits, and marks stand at the measured ones.
pub(crate) fn rule_of<const H: usize>(
    count: u16,
    marks: &[bool],
    command: &Command<H>,
) -> Option<u8>
    ensures rule { result ≡ command_rule count (bits_of marks.now) (plain_command command.now) }
    ensures typed { IfNone result (IsTyped H (plain_command command.now)) }
{
    match command {
        Command::Prep(_) => None,
        Command::Ent(q, r) => pair_rule(count, marks, *q, *r),
        Command::Meas { q, angle, s, t } => {
            // the proof needs that the angle is less than a turn
            let _steps = angle.steps();
            if let Some(rule) = signal_rule(count, marks, *q, s) {
                Some(rule)
            } else {
                signal_rule(count, marks, *q, t)
            }
        }
        Command::FixX { q, s } => signal_rule(count, marks, *q, s),
        Command::FixZ { q, s } => signal_rule(count, marks, *q, s),
    }
}
