//! The one pattern that two make.

ghost use Rattle.std.specs.Prelude.{◌≡◌, ℕ, None, Some, Err, IfOk, OnOk};
ghost use Rattle.mc_model.specs.Pattern.{Pattern as PlainPattern};
ghost use Rattle.mc_compose.specs.Limits.{pattern_limit};
ghost use Rattle.mc_top.specs.Due.{Gives, Holds};
ghost use Rattle.mc_top.specs.TwoPatterns.{due_pattern};

use crate::answer::{Answer, told};
use mc_compose::ComposeEnd;
use mc_lex::TextEnd;
use mc_pattern::Pattern;
use mc_pattern_text::print_pattern;
use std::alloc::Global;

/// The answer with its text; or the limit that it passes, or want of memory.
pub(crate) fn composed<const H: usize>(
    alloc: Global,
    made: Result<Pattern<H>, ComposeEnd>,
) -> Result<Answer, TextEnd>
    ensures due { (whole : PlainPattern) → IfOk made.entry (λ pattern. pattern ≡ whole) →
        OnOk made.entry (pattern_limit whole ≡ None) →
        ((which found : ℕ) → made.entry ≡ Err (ComposeEnd.Limit which found) →
        pattern_limit whole ≡ Some (which, found)) →
        Gives result (due_pattern H whole) }
    ensures holds { IfOk result Holds }
{
    match made {
        Ok(pattern) => told(print_pattern(alloc, &pattern)),
        Err(ComposeEnd::Limit { which, found }) => Err(TextEnd::Limit { which, found }),
        Err(ComposeEnd::Memory) => Err(TextEnd::Memory),
    }
}
