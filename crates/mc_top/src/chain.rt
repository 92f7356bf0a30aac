//! `chain`: two patterns as one, the second behind the first.

ghost use Rattle.std.specs.Prelude.{OnOk, IfOk, IsSomeAnd};
ghost use Rattle.mc_document.specs.Documents.{plain_document};
ghost use Rattle.mc_document.specs.Documents.{IsTaken, two_patterns};
ghost use Rattle.mc_top.specs.Chain.{MeansChain, MeansChained, due_chain, due_chained};
ghost use Rattle.mc_top.specs.Due.{Gives, Holds};

use crate::answer::Answer;
use crate::two_patterns::composed;
use mc_compose::{chain, chains_multiply, outcomes_join};
use mc_document::{Document, taken_documents_are_seen};
use mc_lex::TextEnd;
use mc_pattern::Pattern;
use mc_text::Fault;
use std::alloc::Global;

/// The word that asks for it.
pub(crate) const WORD: &[u8] = b"chain";

/// The text of the pattern that does the first of two and then the second. Where the first has not as many outputs as the
/// second has inputs, that is a fault at the word with which the second begins.
pub(crate) fn answer_chain<const H: usize>(
    alloc: Global,
    document: Document<H>,
) -> Result<Answer, TextEnd>
    requires { IsTaken two_patterns (plain_document document) }
    ensures due { IsSomeAnd (due_chain H (plain_document document.entry)) (Gives result) }
    ensures meaning { OnOk result (MeansChain H (plain_document document.entry)) }
    ensures holds { IfOk result Holds }
{
    taken_documents_are_seen();
    let (first, second, line, column) = document.into_two();
    answer_chained(alloc, &first, &second, line, column)
}

fn answer_chained<const H: usize>(
    alloc: Global,
    first: &Pattern<H>,
    second: &Pattern<H>,
    line: u32,
    column: u32,
) -> Result<Answer, TextEnd>
    ensures due { Gives result (due_chained H first.now second.now line column) }
    ensures meaning { OnOk result (MeansChained H first.now second.now) }
    ensures holds { IfOk result Holds }
{
    // the proof needs that both are valid
    let _first = first.names();
    let _second = second.names();
    outcomes_join();
    chains_multiply();
    if first.outputs().len() != second.inputs() as usize {
        return Err(Fault::SizesDiffer.at(line, column));
    }
    composed(alloc, chain(alloc, first, second))
}
