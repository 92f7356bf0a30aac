//! The gates that stand for an operation.

ghost use Rattle.std.specs.Prelude.{◌≡◌, ◌<◌, ◌∷◌, [], OnOk, length, map};
ghost use Rattle.mc_model.specs.Pattern.{J, CZ};
ghost use Rattle.mc_circuit.specs.Gates.{plain_gate};
ghost use Rattle.mc_gates.specs.Gates.{OpFits};
ghost use Rattle.mc_gates.specs.Lowering.{toffoli, gates_of, wires_behind};
ghost use Rattle.mc_gates.specs.Ops.{plain_op};
ghost use Rattle.mc_gates.specs.Steps.{wire_at, with_gates};

use crate::op::Op;
use mc_angle::Angle;
use mc_circuit::{CircuitBuilder, Gate};
use mc_model::Memory;

/// The angle of so many eighths of a turn.
fn turn(steps: u8) -> Angle<4>
    requires { steps < 8 }
    ensures { result ≡ steps }
{
    Angle::of(steps as i64)
}

fn j(wire: u16, steps: u8) -> Gate<4>
    requires { steps < 8 }
    ensures { plain_gate result ≡ J wire steps }
{
    Gate::J {
        wire,
        angle: turn(steps),
    }
}

fn cz(a: u16, b: u16) -> Gate<4>
    ensures { plain_gate result ≡ CZ a b }
{
    Gate::Cz { a, b }
}

fn push(circuit: &mut CircuitBuilder<4>, gate: Gate<4>) -> Result<(), Memory>
    ensures { OnOk result (circuit.new ≡ with_gates circuit.old (plain_gate gate ∷ [])) }
{
    match circuit.push(gate) {
        Ok(()) => Ok(()),
        // the operands are distinct wires, and the gates were counted
        Err(_) => Err(Memory),
    }
}

fn push_all(circuit: &mut CircuitBuilder<4>, gates: &[Gate<4>]) -> Result<(), Memory>
    ensures { OnOk result (circuit.new ≡ with_gates circuit.old (map plain_gate gates.now)) }
{
    'gates: for gate in gates {
        push(circuit, *gate)?;
    }
    Ok(())
}

/// Adds two `J` gates on a wire.
fn push_pair(circuit: &mut CircuitBuilder<4>, q: u16, first: u8, second: u8) -> Result<(), Memory>
    requires { (first < 8) × (second < 8) }
    ensures { OnOk result (circuit.new ≡ with_gates circuit.old (J q first ∷ J q second ∷ [])) }
{
    push_all(circuit, &[j(q, first), j(q, second)])
}

/// Adds the gates of an X on `r` with the controls `p` and `q`.
fn push_toffoli(circuit: &mut CircuitBuilder<4>, p: u16, q: u16, r: u16) -> Result<(), Memory>
    ensures { OnOk result (circuit.new ≡ with_gates circuit.old (toffoli p q r)) }
{
    let on_target = [
        cz(q, r),
        j(r, 0),
        j(r, 7),
        cz(p, r),
        j(r, 0),
        j(r, 1),
        cz(q, r),
        j(r, 0),
        j(r, 7),
        cz(p, r),
        j(r, 0),
        j(r, 1),
    ];
    let on_controls = [
        j(q, 1),
        cz(p, q),
        j(q, 0),
        j(q, 7),
        cz(p, q),
        j(q, 0),
        j(p, 1),
        j(p, 0),
    ];
    push_all(circuit, &on_target)?;
    push_all(circuit, &on_controls)
}

pub(crate) fn wire(at: &[u16], v: u16) -> u16
    requires { v < length at.now }
    ensures { result ≡ wire_at at.now v }
{
    at[v as usize]
}

/// Adds the gates of an operation, where `at` has for each name the wire that it stands for.
#[tactic(auto, unfolding(crate::specs::Lowering::gates_of, crate::specs::Gates::OpFits))]
pub(crate) fn push_op(circuit: &mut CircuitBuilder<4>, at: &[u16], op: &Op) -> Result<(), Memory>
    requires { OpFits (length at.now) (plain_op op.now) }
    ensures { OnOk result (circuit.new ≡
        with_gates circuit.old (gates_of (wire_at at.now) (plain_op op.now))) }
{
    match *op {
        Op::H(q) => push(circuit, j(wire(at, q), 0)),
        Op::X(q) => push_pair(circuit, wire(at, q), 0, 4),
        Op::Z(q) => push_pair(circuit, wire(at, q), 4, 0),
        Op::S(q) => push_pair(circuit, wire(at, q), 2, 0),
        Op::Sdg(q) => push_pair(circuit, wire(at, q), 6, 0),
        Op::T(q) => push_pair(circuit, wire(at, q), 1, 0),
        Op::Tdg(q) => push_pair(circuit, wire(at, q), 7, 0),
        Op::Cx { control, target } => {
            let (p, q) = (wire(at, control), wire(at, target));
            push_all(circuit, &[j(q, 0), cz(p, q), j(q, 0)])
        }
        Op::Cz { a, b } => push(circuit, cz(wire(at, a), wire(at, b))),
        Op::Swap { .. } => Ok(()),
        Op::Ccx {
            first,
            second,
            target,
        } => push_toffoli(circuit, wire(at, first), wire(at, second), wire(at, target)),
    }
}

/// Exchanges what two names stand for, where the operation does so.
#[tactic(auto, unfolding(crate::specs::Lowering::wires_behind, crate::specs::Gates::OpFits))]
pub(crate) fn trade(at: &mut [u16], op: &Op)
    requires { OpFits (length at.old) (plain_op op.now) }
    ensures wires { wire_at at.new ≡ wires_behind (wire_at at.old) (plain_op op.now) }
    ensures long { length at.new ≡ length at.old }
{
    if let Op::Swap { a, b } = *op {
        let (first, second) = (at[a as usize], at[b as usize]);
        at[a as usize] = second;
        at[b as usize] = first;
    }
}
