//! The wires of a circuit as the first qubits of its translation.

ghost use Rattle.std.specs.Prelude.{◌≡◌, ◌-◌, ◌<◌, ◌≤◌, All, IfOk, length, take, map};
ghost use Rattle.mc_model.specs.Limits.{most_qubits};
ghost use Rattle.mc_model.specs.Numbers.{numbers_from};
ghost use Rattle.mc_model.specs.Pattern.{wires};
ghost use Rattle.mc_model.specs.Translation.{preparations};
ghost use Rattle.mc_pattern.specs.Patterns.{begun};
ghost use Rattle.mc_translate.specs.Steps.{qubit_of};

use mc_circuit::Circuit;
use mc_model::Memory;
use mc_names::{Names, NamesEnd};
use mc_pattern::Builder;
use std::alloc::Global;

/// The first so many of the names.
fn first_names(alloc: Global, names: &Names, count: u16) -> Result<Names, Memory>
    requires { count ≤ length names.now }
    ensures { IfOk result (λ first. first ≡ take count names.now) }
{
    let _count = names.len();
    let mut first = Names::new(alloc);
    'names: for number in 0..count {
        match first.add(names.name(number)) {
            Ok(_) => {}
            Err(NamesEnd::Memory) => return Err(Memory),
            Err(NamesEnd::Twice(_)) => unreachable!(),
            Err(NamesEnd::Full) => unreachable!(),
        }
    }
    Ok(first)
}

/// A pattern of the wires, with those that are no inputs prepared.
pub(crate) fn with_wires<const H: usize>(
    alloc: Global,
    circuit: &Circuit<H>,
) -> Result<Builder<H>, Memory>
    requires { wires circuit.now ≤ most_qubits }
    ensures { IfOk result (λ builder. builder ≡ begun circuit.now.names circuit.now.inputs
        (preparations circuit.now.inputs (wires circuit.now - circuit.now.inputs))) }
{
    let names = circuit.names();
    let inputs = circuit.inputs();
    let mut builder = Builder::new(alloc, first_names(alloc, names, inputs)?)?;
    'wires: for v in inputs..names.len() {
        builder.prep_free(names.name(v))?;
    }
    Ok(builder)
}

/// The numbers below a bound, in order: each wire has the qubit of its own number.
pub(crate) fn in_order(alloc: Global, count: u16) -> Result<Vec<u16>, Memory>
    ensures { IfOk result (λ numbers. numbers.items ≡ numbers_from 0 count) }
{
    let mut numbers = Vec::new(alloc);
    'numbers: for number in 0..count {
        let Ok(()) = numbers.push(number) else {
            return Err(Memory);
        };
    }
    Ok(numbers)
}

/// The qubits that stand for the wires of a list.
pub(crate) fn qubits_of(alloc: Global, at: &[u16], wires: &[u16]) -> Result<Vec<u16>, Memory>
    requires { All (λ v. v < length at.now) wires.now }
    ensures { IfOk result (λ qubits. qubits.items ≡ map (qubit_of at.now) wires.now) }
{
    let mut qubits = Vec::new(alloc);
    'wires: for v in wires {
        let Ok(()) = qubits.push(at[*v as usize]) else {
            return Err(Memory);
        };
    }
    Ok(qubits)
}
