//! Limits of composed patterns.

ghost use Rattle.std.specs.Prelude.{◌≡◌, ◌↔◌, ℕ, IfSome, MatchOption, Some, None};
ghost use Rattle.mc_compose.specs.Limits.{first_limit};

use thiserror::Error;

/// The most qubits of a pattern.
const MOST_QUBITS: u64 = 256;

/// The most commands of a pattern.
const MOST_COMMANDS: u64 = 262_144;

/// Why two patterns were not composed.
#[derive(Clone, Copy, Debug, PartialEq, Eq, Error)]
pub enum ComposeEnd {
    /// A number of the result is above its limit: 2, the qubits, at most 256; 3, the commands, at
    /// most 262,144.
    #[error("limit {which} is passed by {found}")]
    Limit { which: u8, found: u64 },
    /// Memory ran out.
    #[error("no memory")]
    Memory,
}

/// The first limit that is passed, where one is: by the qubits, or by the commands.
pub(crate) fn passed(qubits: u64, commands: u64) -> Option<ComposeEnd>
    ensures limit { MatchOption result (first_limit qubits commands ≡ None)
        (λ end. (which found : ℕ) → (end ≡ ComposeEnd.Limit which found) ↔
        (first_limit qubits commands ≡ Some (which, found))) }
    ensures told { IfSome result (λ end. end ≡ ComposeEnd.Memory → ⊥) }
{
    if qubits > MOST_QUBITS {
        Some(ComposeEnd::Limit {
            which: 2,
            found: qubits,
        })
    } else if commands > MOST_COMMANDS {
        Some(ComposeEnd::Limit {
            which: 3,
            found: commands,
        })
    } else {
        None
    }
}
