//! The outcomes of measured qubits, from a list in measuring order.

ghost use Rattle.std.specs.Prelude.{◌≡◌, ◌<◌, All, IfOk, length};
ghost use Rattle.mc_model.specs.Pattern.{measured_order};
ghost use Rattle.mc_model.specs.Bits.{all_zero, bits_of};
ghost use Rattle.mc_model.specs.Amplitude.{placed};
ghost use Rattle.mc_pattern.specs.Patterns.{measured_count};

use mc_model::Memory;
use mc_pattern::Pattern;
use mc_signal::Outcomes;
use std::alloc::Global;

/// Sets the outcomes of the listed qubits; where one is listed twice, the first counts.
fn set_outcomes(values: &mut Outcomes, qubits: &[u16], outcomes: &[bool])
    requires clear { bits_of values.old ≡ all_zero }
    requires below { All (λ q. q < length values.old) qubits.now }
    requires same { length qubits.now ≡ length outcomes.now }
    ensures bits { bits_of values.new ≡ placed qubits.now outcomes.now }
    ensures long { length values.new ≡ length values.old }
{
    let mut left = qubits.len();
    'qubits: while left > 0 {
        left -= 1;
        values.set(qubits[left], outcomes[left]);
    }
}

/// The outcomes of a pattern's qubits: those of the measured ones in measuring order, and 0 of the
/// others.
pub(crate) fn outcomes_in_order<const H: usize>(
    alloc: Global,
    pattern: &Pattern<H>,
    outcomes: &[bool],
) -> Result<Outcomes, Memory>
    requires { length outcomes.now ≡ measured_count pattern.now }
    ensures bits { IfOk result (λ values.
        bits_of values ≡ placed (measured_order pattern.now.commands) outcomes.now) }
    ensures long { IfOk result (λ values. length values ≡ length pattern.now.names) }
{
    let count = pattern.names().len();
    let order = pattern.measured_qubits(alloc)?;
    let mut values = Outcomes::new(alloc, count)?;
    set_outcomes(&mut values, &order, outcomes);
    Ok(values)
}
