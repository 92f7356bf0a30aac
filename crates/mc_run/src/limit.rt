//! Limits of a run.

ghost use Rattle.std.specs.Prelude.{◌≡◌, ◌↔◌, ℕ, ◌<◌, IfSome, MatchOption, Some, None};
ghost use Rattle.mc_run.specs.Limits.{first_limit};

use mc_circuit::Gate;
use thiserror::Error;

/// The most qubits, inputs and outcomes of a run together.
const MOST_SIZE: u64 = 16;

/// Why there is no table.
#[derive(Clone, Copy, Debug, PartialEq, Eq, Error)]
pub enum RunEnd {
    /// A number is above its limit: 4, the size of the run, at most 16; 5, the commands of a
    /// pattern, at most 256, or the `J` gates of a circuit, at most 60.
    #[error("limit {which} is passed by {found}")]
    Limit { which: u8, found: u64 },
    /// Memory ran out.
    #[error("no memory")]
    Memory,
}

/// The first limit that is passed, where one is: by the size, or by the number of commands or
/// gates.
pub(crate) fn passed(size: u64, most: u64, count: u64) -> Option<RunEnd>
    ensures limit { MatchOption result (first_limit size most count ≡ None) (λ end. (which found : ℕ) →
        (end ≡ RunEnd.Limit which found) ↔ (first_limit size most count ≡ Some (which, found))) }
    ensures told { IfSome result (λ end. end ≡ RunEnd.Memory → ⊥) }
{
    if size > MOST_SIZE {
        Some(RunEnd::Limit {
            which: 4,
            found: size,
        })
    } else if count > most {
        Some(RunEnd::Limit {
            which: 5,
            found: count,
        })
    } else {
        None
    }
}
