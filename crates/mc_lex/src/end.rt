//! Why a text is not taken.

use mc_model::Memory;
use thiserror::Error;

/// Why a text is not what it is to be.
#[derive(Clone, Copy, Debug, PartialEq, Eq, Error)]
pub enum TextEnd {
    /// The first rule that is broken, by its code, and where.
    #[error("refused {code} at {line}:{column}")]
    Refused { code: u8, line: u32, column: u32 },
    /// The first limit that is passed, by its number, and what was found in its place.
    #[error("limit {which} found {found}")]
    Limit { which: u8, found: u64 },
    /// Memory ran out.
    #[error("no memory")]
    Memory,
}

impl From<Memory> for TextEnd {
    ghost use Rattle.std.specs.Prelude.{◌≡◌};
    ghost use Rattle.mc_lex.specs.declared.end.TextEnd.TheVariants as variants;

    ghost from_gives = { λ _ end. end ≡ variants.Memory };

    fn from(_: Memory) -> TextEnd {
        TextEnd::Memory
    }
}
