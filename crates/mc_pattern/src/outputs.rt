//! The rules that outputs keep.

ghost use Rattle.std.specs.Prelude.{◌≡◌, ◌<◌, ◌≤◌, ◌&&◌, All};
ghost use Rattle.std.specs.List.{list_any};
ghost use Rattle.mc_model.specs.Bits.{bits_of};
ghost use Rattle.mc_model.specs.Numbers.{numbers_from, is_member};
ghost use Rattle.mc_pattern.specs.Rules.{output_rule, is_twice, is_missing};

use crate::rules::{has_marked, has_stranger, is_marked};

/// Whether one of the numbers stands in the list twice.
fn has_twice(qubits: &[u16]) -> bool
    requires { All (λ q. q < 256) qubits.now }
    ensures { result ≡ list_any (is_twice qubits.now) qubits.now }
{
    let mut seen = [false; 256];
    'qubits: for q in qubits {
        if seen[*q as usize] {
            return true;
        }
        seen[*q as usize] = true;
    }
    false
}

fn lists(qubits: &[u16], q: u16) -> bool
    ensures { result ≡ is_member qubits.now q }
{
    qubits.iter().any(|other| q == *other)
}

/// Whether a qubit without a mark is missing in the list.
fn has_missing(count: u16, marks: &[bool], qubits: &[u16]) -> bool
    ensures { result ≡ list_any (is_missing (bits_of marks.now) qubits.now) (numbers_from 0 count) }
{
    'qubits: for q in 0..count {
        if !is_marked(marks, q) && !lists(qubits, q) {
            return true;
        }
    }
    false
}

/// The least rule that outputs break where there are so many qubits, and marks stand at the measured ones.
pub(crate) fn rule_of_outputs(count: u16, marks: &[bool], outputs: &[u16]) -> Option<u8>
    requires { count ≤ 256 }
    ensures { result ≡ output_rule count (bits_of marks.now) outputs.now }
{
    if has_stranger(count, outputs) {
        Some(5)
    } else if has_marked(marks, outputs) {
        Some(6)
    } else if has_twice(outputs) {
        Some(7)
    } else if has_missing(count, marks, outputs) {
        Some(8)
    } else {
        None
    }
}
