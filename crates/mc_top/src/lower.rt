//! `lower`: the circuit of `J` and CZ gates of a list of gates.

ghost use Rattle.std.specs.Prelude.{◌≡◌, None, OnOk, IfOk, IfErr, IsSomeAnd};
ghost use Rattle.mc_document.specs.Documents.{plain_document};
ghost use Rattle.mc_document.specs.Documents.{IsTaken, only_gates};
ghost use Rattle.mc_gates.specs.Lowering.{lowered as lowering_of};
ghost use Rattle.mc_top.specs.Due.{Gives, Holds, IsLimit};
ghost use Rattle.mc_top.specs.Lower.{HasGateTable, MeansLower, due_lower, due_lowering};
ghost use Rattle.mc_top.specs.Lower.{lowering_limit};

use crate::answer::{Answer, told};
use mc_circuit::{Circuit, print_circuit};
use mc_document::{Document, taken_documents_are_seen};
use mc_gates::{
    GateList, LowerEnd, doublings_are_powers, lower, lowered_circuits_are_held,
    lowering_keeps_scale, lowering_keeps_table,
};
use mc_lex::TextEnd;
use std::alloc::Global;

/// The word that asks for it.
pub(crate) const WORD: &[u8] = b"lower";

/// The text of the circuit that a list of gates is lowered to.
pub(crate) fn answer_lower<const H: usize>(
    alloc: Global,
    document: Document<H>,
) -> Result<Answer, TextEnd>
    requires { IsTaken only_gates (plain_document document) }
    ensures due { IsSomeAnd (due_lower (plain_document document.entry)) (Gives result) }
    ensures meaning { OnOk result (MeansLower (plain_document document.entry)) }
    ensures holds { IfOk result Holds }
{
    taken_documents_are_seen();
    let gates = document.into_gates();
    answer_gates(alloc, &gates)
}

/// The lowered circuit, which has at most 32,768 gates.
fn lowered(alloc: Global, gates: &GateList) -> Result<Circuit<4>, TextEnd>
    ensures circuit { IfOk result (λ circuit. circuit ≡ lowering_of gates.now) }
    ensures few { OnOk result (lowering_limit gates.now ≡ None) }
    ensures err { IfErr result (λ end. IsLimit end (lowering_limit gates.now)) }
{
    match lower(alloc, gates) {
        Ok(circuit) => Ok(circuit),
        Err(LowerEnd::Limit { gates }) => Err(TextEnd::Limit {
            which: 3,
            found: gates,
        }),
        Err(LowerEnd::Memory) => Err(TextEnd::Memory),
    }
}

fn answer_gates(alloc: Global, gates: &GateList) -> Result<Answer, TextEnd>
    ensures due { Gives result (due_lowering gates.now) }
    ensures meaning { OnOk result (HasGateTable gates.now) }
    ensures holds { IfOk result Holds }
{
    lowering_keeps_table();
    doublings_are_powers();
    lowering_keeps_scale();
    lowered_circuits_are_held();
    let _list = gates.names();
    match lowered(alloc, gates) {
        Ok(circuit) => told(print_circuit(alloc, &circuit)),
        Err(end) => Err(end),
    }
}
