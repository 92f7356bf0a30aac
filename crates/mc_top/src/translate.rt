//! `translate`: the pattern of a circuit.

ghost use Rattle.std.specs.Prelude.{OnOk, IfOk, IsSomeAnd, IsTrue};
ghost use Rattle.mc_model.specs.Amplitude.{HasTableAtEachBranch};
ghost use Rattle.mc_model.specs.Ring.{ring};
ghost use Rattle.mc_model.specs.Steps.{is_permitted};
ghost use Rattle.mc_model.specs.Translation.{translation};
ghost use Rattle.mc_document.specs.Documents.{plain_document};
ghost use Rattle.mc_document.specs.Documents.{IsTaken, only_circuits};
ghost use Rattle.mc_top.specs.Due.{Gives, Holds};
ghost use Rattle.mc_top.specs.Translate.{MeansTranslate, due_translate};
ghost use Rattle.mc_top.specs.Translate.{due_translation};

use crate::answer::{Answer, told};
use crate::source::translated;
use mc_circuit::Circuit;
use mc_document::{Document, taken_documents_are_seen};
use mc_lex::TextEnd;
use mc_pattern_text::print_pattern;
use std::alloc::Global;

/// The word that asks for it.
pub(crate) const WORD: &[u8] = b"translate";

/// The text of the translation of a circuit.
pub(crate) fn answer_translate<const H: usize>(
    alloc: Global,
    document: Document<H>,
) -> Result<Answer, TextEnd>
    requires permitted { IsTrue (is_permitted H) }
    requires taken { IsTaken only_circuits (plain_document document) }
    ensures due { IsSomeAnd (due_translate H (plain_document document.entry)) (Gives result) }
    ensures meaning { OnOk result (MeansTranslate H (plain_document document.entry)) }
    ensures holds { IfOk result Holds }
{
    taken_documents_are_seen();
    let circuit = document.into_circuit();
    answer_circuit(alloc, &circuit)
}

fn answer_circuit<const H: usize>(alloc: Global, circuit: &Circuit<H>) -> Result<Answer, TextEnd>
    requires { IsTrue (is_permitted H) }
    ensures due { Gives result (due_translation H circuit.now) }
    ensures meaning { OnOk result
        (HasTableAtEachBranch (ring H) circuit.now (translation H circuit.now)) }
    ensures holds { IfOk result Holds }
{
    match translated(alloc, circuit) {
        Ok(pattern) => told(print_pattern(alloc, &pattern)),
        Err(end) => Err(end),
    }
}
