//! `shift`: the shifted form of a pattern's standard form, and the change of outcomes.

ghost use Rattle.std.specs.Prelude.{◌≡◌, OnOk, IfOk, IsSomeAnd, IsTrue};
ghost use Rattle.mc_model.specs.Steps.{is_permitted};
ghost use Rattle.mc_model.specs.StandardForm.{standard_form};
ghost use Rattle.mc_shift.specs.Shifted.{shifted_form};
ghost use Rattle.mc_document.specs.Documents.{plain_document};
ghost use Rattle.mc_document.specs.Documents.{IsTaken, circuits_and_patterns};
ghost use Rattle.mc_top.specs.Due.{Gives, Holds};
ghost use Rattle.mc_top.specs.Shift.{IsShiftedBy, MeansShift, due_shift, shifted_text};

use crate::answer::{Answer, told};
use crate::source::source;
use mc_document::{Document, print_with_change};
use mc_lex::TextEnd;
use mc_model::Memory;
use mc_pattern::Pattern;
use mc_shift::{has_one_shifted_form, shift};
use mc_standard::standardise;
use std::alloc::Global;

/// The word that asks for it.
pub(crate) const WORD: &[u8] = b"shift";

/// The text of the shifted form of a document's pattern, with the change of outcomes behind it.
pub(crate) fn answer_shift<const H: usize>(
    alloc: Global,
    document: Document<H>,
) -> Result<Answer, TextEnd>
    requires permitted { IsTrue (is_permitted H) }
    requires taken { IsTaken circuits_and_patterns (plain_document document) }
    ensures due { IsSomeAnd (due_shift H (plain_document document.entry)) (Gives result) }
    ensures meaning { OnOk result (MeansShift H (plain_document document.entry)) }
    ensures holds { IfOk result Holds }
{
    match source(alloc, document) {
        Ok(source) => told(print_shifted(alloc, &source)),
        Err(end) => Err(end),
    }
}

/// The text of a pattern's shifted form, with the change of its outcomes.
fn print_shifted<const H: usize>(alloc: Global, source: &Pattern<H>) -> Result<Vec<u8>, Memory>
    requires { IsTrue (is_permitted H) }
    ensures text { IfOk result (λ text. text.items ≡ shifted_text H (standard_form source.now)) }
    ensures meaning { OnOk result
        (IsShiftedBy H source.now (shifted_form (standard_form source.now))) }
{
    has_one_shifted_form();
    let standard = standardise(alloc, source)?;
    let (shifted, change) = shift(alloc, &standard)?;
    let pattern = shifted.as_pattern()?;
    print_with_change(alloc, &pattern, &change)
}
