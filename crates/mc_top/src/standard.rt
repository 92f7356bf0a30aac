//! `standard`: the standard form of a pattern.

ghost use Rattle.std.specs.Prelude.{◌≡◌, OnOk, IfOk, IsSomeAnd, IsTrue};
ghost use Rattle.mc_model.specs.Steps.{is_permitted};
ghost use Rattle.mc_model.specs.StandardForm.{standard_form};
ghost use Rattle.mc_pattern_text.specs.Canonical.{pattern_text};
ghost use Rattle.mc_document.specs.Documents.{plain_document};
ghost use Rattle.mc_document.specs.Documents.{IsTaken, circuits_and_patterns};
ghost use Rattle.mc_top.specs.Due.{Gives, Holds};
ghost use Rattle.mc_top.specs.Standard.{IsAlikeStandardised, MeansStandard, due_standard};

use crate::answer::{Answer, told};
use crate::source::source;
use mc_document::Document;
use mc_lex::TextEnd;
use mc_model::Memory;
use mc_pattern::Pattern;
use mc_pattern_text::print_pattern;
use mc_standard::standardise;
use std::alloc::Global;

/// The word that asks for it.
pub(crate) const WORD: &[u8] = b"standard";

/// The text of the standard form of a document's pattern.
pub(crate) fn answer_standard<const H: usize>(
    alloc: Global,
    document: Document<H>,
) -> Result<Answer, TextEnd>
    requires permitted { IsTrue (is_permitted H) }
    requires taken { IsTaken circuits_and_patterns (plain_document document) }
    ensures due { IsSomeAnd (due_standard H (plain_document document.entry)) (Gives result) }
    ensures meaning { OnOk result (MeansStandard H (plain_document document.entry)) }
    ensures holds { IfOk result Holds }
{
    match source(alloc, document) {
        Ok(source) => told(print_standard(alloc, &source)),
        Err(end) => Err(end),
    }
}

/// The text of a pattern's standard form.
fn print_standard<const H: usize>(alloc: Global, source: &Pattern<H>) -> Result<Vec<u8>, Memory>
    requires { IsTrue (is_permitted H) }
    ensures text { IfOk result (λ text. text.items ≡ pattern_text H (standard_form source.now)) }
    ensures meaning { OnOk result (IsAlikeStandardised H source.now) }
{
    let standard = standardise(alloc, source)?;
    let pattern = standard.as_pattern()?;
    print_pattern(alloc, &pattern)
}
