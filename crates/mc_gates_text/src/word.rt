//! The table of gate words.

ghost use Rattle.std.specs.Prelude.{◌≡◌, ◌≤◌};
ghost use Rattle.std.specs.Option.{option_map};
ghost use Rattle.mc_gates.specs.Ops.{plain_op};
ghost use Rattle.mc_gates_text.specs.Words.{arity as count_of, is_gate as gate_word, op_on_one};
ghost use Rattle.mc_gates_text.specs.Words.{op_on_two, op_on_three, op_on, op_with};

use mc_gates::Op;
use mc_text::Head;

/// How many operands stand behind a record word; none where it is no gate word.
pub(crate) fn arity(head: Option<Head>) -> u8
    ensures count { result ≡ count_of head }
    ensures few { result ≤ 3 }
{
    match head {
        Some(Head::H | Head::X | Head::Z | Head::S | Head::Sdg | Head::T | Head::Tdg) => 1,
        Some(Head::Cx | Head::Cz | Head::Swap) => 2,
        Some(Head::Ccx) => 3,
        _ => 0,
    }
}

pub(crate) fn is_gate(head: Option<Head>) -> bool
    ensures { result ≡ gate_word head }
{
    arity(head) > 0
}

fn on_one(head: Head, q: u16) -> Option<Op>
    ensures { option_map plain_op result ≡ op_on_one head q }
{
    match head {
        Head::H => Some(Op::H(q)),
        Head::X => Some(Op::X(q)),
        Head::Z => Some(Op::Z(q)),
        Head::S => Some(Op::S(q)),
        Head::Sdg => Some(Op::Sdg(q)),
        Head::T => Some(Op::T(q)),
        Head::Tdg => Some(Op::Tdg(q)),
        _ => None,
    }
}

fn on_two(head: Head, p: u16, q: u16) -> Option<Op>
    ensures { option_map plain_op result ≡ op_on_two head p q }
{
    match head {
        Head::Cx => Some(Op::Cx {
            control: p,
            target: q,
        }),
        Head::Cz => Some(Op::Cz { a: p, b: q }),
        Head::Swap => Some(Op::Swap { a: p, b: q }),
        _ => None,
    }
}

fn on_three(head: Head, p: u16, q: u16, r: u16) -> Option<Op>
    ensures { option_map plain_op result ≡ op_on_three head p q r }
{
    match head {
        Head::Ccx => Some(Op::Ccx {
            first: p,
            second: q,
            target: r,
        }),
        _ => None,
    }
}

fn on(head: Head, operands: &[u16]) -> Option<Op>
    ensures { option_map plain_op result ≡ op_on head operands.now }
{
    match operands {
        [q] => on_one(head, *q),
        [p, q] => on_two(head, *p, *q),
        [p, q, r] => on_three(head, *p, *q, *r),
        _ => None,
    }
}

/// The operation that a gate word makes of its operands.
pub(crate) fn op_of(head: Option<Head>, operands: &[u16]) -> Option<Op>
    ensures { option_map plain_op result ≡ op_with head operands.now }
{
    match head {
        Some(head) => on(head, operands),
        None => None,
    }
}
