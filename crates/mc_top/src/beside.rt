//! `beside`: two patterns as one, side by side.

ghost use Rattle.std.specs.Prelude.{OnOk, IfOk, IsSomeAnd};
ghost use Rattle.mc_compose.specs.Composed.{side_by_side};
ghost use Rattle.mc_document.specs.Documents.{plain_document};
ghost use Rattle.mc_document.specs.Documents.{IsTaken, two_patterns};
ghost use Rattle.mc_top.specs.Beside.{MeansBeside, MeansSides, due_beside};
ghost use Rattle.mc_top.specs.Due.{Gives, Holds};
ghost use Rattle.mc_top.specs.TwoPatterns.{due_pattern};

use crate::answer::Answer;
use crate::two_patterns::composed;
use mc_compose::{beside, outcomes_join, sides_multiply};
use mc_document::{Document, taken_documents_are_seen};
use mc_lex::TextEnd;
use mc_pattern::Pattern;
use std::alloc::Global;

/// The word that asks for it.
pub(crate) const WORD: &[u8] = b"beside";

/// The text of the pattern that does two side by side.
pub(crate) fn answer_beside<const H: usize>(
    alloc: Global,
    document: Document<H>,
) -> Result<Answer, TextEnd>
    requires { IsTaken two_patterns (plain_document document) }
    ensures due { IsSomeAnd (due_beside H (plain_document document.entry)) (Gives result) }
    ensures meaning { OnOk result (MeansBeside H (plain_document document.entry)) }
    ensures holds { IfOk result Holds }
{
    taken_documents_are_seen();
    let (first, second, _, _) = document.into_two();
    answer_sides(alloc, &first, &second)
}

fn answer_sides<const H: usize>(
    alloc: Global,
    first: &Pattern<H>,
    second: &Pattern<H>,
) -> Result<Answer, TextEnd>
    ensures due { Gives result (due_pattern H (side_by_side first.now second.now)) }
    ensures meaning { OnOk result (MeansSides H first.now second.now) }
    ensures holds { IfOk result Holds }
{
    // the proof needs that both are valid
    let _first = first.names();
    let _second = second.names();
    outcomes_join();
    sides_multiply();
    composed(alloc, beside(alloc, first, second))
}
