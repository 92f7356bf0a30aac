//! How many gates a gate list is lowered to.

ghost use Rattle.std.specs.Prelude.{◌≡◌, ◌≤◌, map, length};
ghost use Rattle.mc_gates.specs.Lowering.{gate_cost, lowered_count as count_of};
ghost use Rattle.mc_gates.specs.Ops.{plain_op};

use crate::op::Op;

/// How many gates stand for an operation.
#[tactic(auto, unfolding(crate::specs::Lowering::gate_cost))]
fn cost(op: &Op) -> u64
    ensures count { result ≡ gate_cost (plain_op op.now) }
    ensures few { result ≤ 20 }
{
    match *op {
        Op::Swap { .. } => 0,
        Op::H(_) | Op::Cz { .. } => 1,
        Op::X(_) | Op::Z(_) | Op::S(_) | Op::Sdg(_) | Op::T(_) | Op::Tdg(_) => 2,
        Op::Cx { .. } => 3,
        Op::Ccx { .. } => 20,
    }
}

/// How many gates stand for the operations of a list.
pub(crate) fn lowered_count(ops: &[Op]) -> u64
    requires { length ops.now ≤ 32_768 }
    ensures { result ≡ count_of (map plain_op ops.now) }
{
    let mut count = 0;
    'ops: for op in ops {
        count += cost(op);
    }
    count
}
