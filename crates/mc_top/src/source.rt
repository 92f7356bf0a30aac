//! The pattern of a document.

ghost use Rattle.std.specs.Prelude.{◌≡◌, None, Some, OnOk, IfOk, IfErr, IsTrue, is_some};
ghost use Rattle.mc_model.specs.Amplitude.{HasTableAtEachBranch};
ghost use Rattle.mc_model.specs.Ring.{ring};
ghost use Rattle.mc_model.specs.Steps.{is_permitted};
ghost use Rattle.mc_model.specs.Translation.{translation};
ghost use Rattle.mc_document.specs.Documents.{plain_document};
ghost use Rattle.mc_document.specs.Documents.{IsTaken, circuits_and_patterns};
ghost use Rattle.mc_top.specs.Due.{IsLimit};
ghost use Rattle.mc_top.specs.Source.{source_in, source_limit, translation_limit};

use mc_circuit::Circuit;
use mc_document::{Document, taken_documents_are_seen};
use mc_lex::TextEnd;
use mc_pattern::Pattern;
use mc_translate::{BuildEnd, translate};
use std::alloc::Global;

/// The translation of a circuit, which has at most 256 qubits.
pub(crate) fn translated<const H: usize>(
    alloc: Global,
    circuit: &Circuit<H>,
) -> Result<Pattern<H>, TextEnd>
    requires { IsTrue (is_permitted H) }
    ensures pattern { IfOk result (λ p. p ≡ translation H circuit.now) }
    ensures few { OnOk result (translation_limit circuit.now ≡ None) }
    ensures table { OnOk result
        (HasTableAtEachBranch (ring H) circuit.now (translation H circuit.now)) }
    ensures err { IfErr result (λ end. IsLimit end (translation_limit circuit.now)) }
{
    match translate(alloc, circuit) {
        Ok(pattern) => Ok(pattern),
        Err(BuildEnd::Limit { qubits }) => Err(TextEnd::Limit {
            which: 2,
            found: qubits.into(),
        }),
        Err(BuildEnd::Memory) => Err(TextEnd::Memory),
    }
}

/// The pattern of a document, where a circuit counts as its translation.
pub(crate) fn source<const H: usize>(
    alloc: Global,
    document: Document<H>,
) -> Result<Pattern<H>, TextEnd>
    requires permitted { IsTrue (is_permitted H) }
    requires taken { IsTaken circuits_and_patterns (plain_document document) }
    ensures pattern { IfOk result (λ p. source_in H (plain_document document.entry) ≡ Some p) }
    ensures few { OnOk result (source_limit (plain_document document.entry) ≡ None) }
    ensures some { IsTrue (is_some (source_in H (plain_document document.entry))) }
    ensures err { IfErr result (λ end. IsLimit end (source_limit (plain_document document.entry))) }
{
    taken_documents_are_seen();
    if document.is_circuit() {
        let circuit = document.into_circuit();
        translated(alloc, &circuit)
    } else {
        Ok(document.into_pattern())
    }
}
