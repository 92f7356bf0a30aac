//! Translation.

ghost use Rattle.std.specs.Prelude.{◌≡◌, ◌↔◌, ℕ, ◌<◌, ◌≤◌, IfOk, Err, OnOk, length, map};
ghost use Rattle.mc_model.specs.Limits.{most_gates, most_qubits};
ghost use Rattle.mc_model.specs.Ring.{ring};
ghost use Rattle.mc_model.specs.Amplitude.{HasTableAtEachBranch, j_count};
ghost use Rattle.mc_model.specs.Translation.{translation, qubit_count};
ghost use Rattle.mc_circuit.specs.Gates.{plain_gate};
ghost use Rattle.mc_translate.specs.Qubits.{is_j};

use crate::gates::push_gate;
use crate::wires::{in_order, qubits_of, with_wires};
use mc_circuit::{Circuit, Gate};
use mc_model::Memory;
use mc_pattern::Pattern;
use std::alloc::Global;
use thiserror::Error;

/// The most qubits of a pattern.
const MOST_QUBITS: u32 = 256;

/// Why a circuit was not translated.
#[derive(Clone, Copy, Debug, PartialEq, Eq, Error)]
pub enum BuildEnd {
    /// The wires and the `J` gates together, which are the pattern's qubits, are more than 256.
    #[error("the pattern would have {qubits} qubits")]
    Limit { qubits: u32 },
    /// Memory ran out.
    #[error("no memory")]
    Memory,
}

fn is_j<const H: usize>(gate: &Gate<H>) -> bool
    ensures { result ≡ is_j (plain_gate gate.now) }
{
    matches!(gate, Gate::J { .. })
}

/// How many gates are `J`.
fn count_j<const H: usize>(gates: &[Gate<H>]) -> u32
    requires { length gates.now ≤ most_gates }
    ensures { result ≡ j_count (map plain_gate gates.now) }
{
    let mut count = 0;
    'gates: for gate in gates {
        if is_j(gate) {
            count += 1;
        }
    }
    count
}

/// The translation of a circuit whose qubits are few enough.
fn build<const H: usize>(alloc: Global, circuit: &Circuit<H>) -> Result<Pattern<H>, Memory>
    requires { qubit_count circuit.now ≤ most_qubits }
    ensures { IfOk result (λ pattern. pattern ≡ translation H circuit.now) }
{
    let mut builder = with_wires(alloc, circuit)?;
    let mut at = in_order(alloc, circuit.names().len())?;
    'gates: for gate in circuit.gates() {
        push_gate(alloc, &mut builder, &mut at, gate)?;
    }
    let outputs = qubits_of(alloc, &at, circuit.out())?;
    builder.finish_listing(&outputs)
}

/// The pattern that does what a circuit does: each `J` measures its wire's qubit and moves the wire
/// to a fresh qubit, each CZ entangles. Whatever the outcomes, its branch map is the circuit's
/// table. `Limit` comes exactly where wires and `J` gates together, which is its number, are more
/// than 256.
pub fn translate<const H: usize>(
    alloc: Global,
    circuit: &Circuit<H>,
) -> Result<Pattern<H>, BuildEnd>
    ensures pattern { IfOk result (λ pattern. pattern ≡ translation H circuit.now) }
    ensures table { IfOk result (λ pattern. HasTableAtEachBranch (ring H) circuit.now pattern) }
    ensures limit { (n : ℕ) → (result ≡ Err (BuildEnd.Limit n)) ↔
        ((most_qubits < qubit_count circuit.now) × (n ≡ qubit_count circuit.now)) }
    ensures few { OnOk result (qubit_count circuit.now ≤ most_qubits) }
    ensures memory_last { result ≡ Err BuildEnd.Memory → qubit_count circuit.now ≤ most_qubits }
{
    let qubits = circuit.names().len() as u32 + count_j(circuit.gates());
    if qubits > MOST_QUBITS {
        return Err(BuildEnd::Limit { qubits });
    }
    match build(alloc, circuit) {
        Ok(pattern) => Ok(pattern),
        Err(Memory) => Err(BuildEnd::Memory),
    }
}
