//! `compile`: the pattern that a circuit is compiled into.

ghost use Rattle.std.specs.Prelude.{◌≤◌, OnOk, IfOk, IsTrue};
ghost use Rattle.mc_model.specs.Limits.{most_qubits};
ghost use Rattle.mc_model.specs.Steps.{is_permitted};
ghost use Rattle.mc_model.specs.Translation.{qubit_count};
ghost use Rattle.mc_document.specs.Documents.{IsDocument, plain_document};
ghost use Rattle.mc_document.specs.Documents.{IsTaken, only_circuits};
ghost use Rattle.mc_top.specs.Compile.{IsDueCompile, IsDueCompiled, MeansCompile};
ghost use Rattle.mc_top.specs.Due.{GivesDue, Holds};

use crate::answer::{Answer, told};
use mc_circuit::Circuit;
use mc_compile::{compile, compiled_circuits};
use mc_document::{Document, taken_documents_are_seen};
use mc_lex::TextEnd;
use mc_pattern_text::print_pattern;
use mc_translate::BuildEnd;
use std::alloc::Global;

/// The word that asks for it.
pub(crate) const WORD: &[u8] = b"compile";

/// The text of the pattern that a circuit is compiled into.
pub(crate) fn answer_compile<const H: usize>(
    alloc: Global,
    document: Document<H>,
) -> Result<Answer, TextEnd>
    requires permitted { IsTrue (is_permitted H) }
    requires valid { IsDocument H (plain_document document) }
    requires taken { IsTaken only_circuits (plain_document document) }
    ensures due { GivesDue (IsDueCompile H (plain_document document.entry)) result }
    ensures meaning { OnOk result (MeansCompile H (plain_document document.entry)) }
    ensures holds { IfOk result Holds }
{
    compiled_circuits();
    taken_documents_are_seen();
    let circuit = document.into_circuit();
    answer_compiled(alloc, &circuit)
}

fn answer_compiled<const H: usize>(alloc: Global, circuit: &Circuit<H>) -> Result<Answer, TextEnd>
    requires { IsTrue (is_permitted H) }
    ensures due { GivesDue (IsDueCompiled H circuit.now) result }
    ensures few { OnOk result (qubit_count circuit.now ≤ most_qubits) }
    ensures holds { IfOk result Holds }
{
    match compile(alloc, circuit) {
        Ok(compiled) => told(print_pattern(alloc, &compiled.pattern)),
        Err(BuildEnd::Limit { qubits }) => Err(TextEnd::Limit {
            which: 2,
            found: qubits.into(),
        }),
        Err(BuildEnd::Memory) => Err(TextEnd::Memory),
    }
}
