//! `run` with outcomes: the table of one branch of a pattern or of a graph.

ghost use Rattle.std.specs.Prelude.{◌≡◌, OnOk, IfOk, IsSomeAnd, IsTrue, length, map};
ghost use Rattle.mc_model.specs.Bits.{Bits};
ghost use Rattle.mc_model.specs.Graph.{zero_pattern as bare_pattern};
ghost use Rattle.mc_model.specs.Pattern.{Pattern as PlainPattern};
ghost use Rattle.mc_model.specs.Steps.{is_permitted};
ghost use Rattle.mc_pattern.specs.Patterns.{measured_count};
ghost use Rattle.mc_run.specs.Limits.{branch_limit};
ghost use Rattle.mc_run_text.specs.Runs.{branch_run};
ghost use Rattle.mc_document.specs.Documents.{plain_document};
ghost use Rattle.mc_document.specs.Documents.{IsTaken, patterns_and_graphs};
ghost use Rattle.mc_top.specs.Branch.{MeansOutcomes, due_branch, due_outcomes};
ghost use Rattle.mc_top.specs.Commands.{is_one};
ghost use Rattle.mc_top.specs.Run.{MeansBranch};
ghost use Rattle.mc_top.specs.Due.{Gives, Holds, due_unless, holding, run_limit};

use crate::answer::{Answer, ran};
use mc_document::Document;
use mc_graph::{OpenGraph, zero_pattern};
use mc_lex::TextEnd;
use mc_model::Memory;
use mc_pattern::Pattern;
use mc_run_text::{amplitudes_are_reduced, run_branch_text};
use mc_text::Fault;
use std::alloc::Global;

/// The table of the branch of a pattern with these outcomes, a digit each; a graph counts as its pattern without a flow.
/// Where they are not as many as the measured qubits, that is a fault at the place of the text's first word.
pub(crate) fn answer_branch<const H: usize>(
    alloc: Global,
    place: (u32, u32),
    digits: &[u8],
    document: Document<H>,
) -> Result<Answer, TextEnd>
    requires permitted { IsTrue (is_permitted H) }
    requires taken { IsTaken patterns_and_graphs (plain_document document) }
    ensures due { IsSomeAnd (due_branch H place (map is_one digits.now) (plain_document document.entry)) (Gives result) }
    ensures meaning { OnOk result (MeansOutcomes H (map is_one digits.now) (plain_document document.entry)) }
    ensures holds { IfOk result Holds }
{
    branches_are_well_printed::<H>();
    match document {
        Document::Pattern(pattern, _) => answer_outcomes(alloc, place, digits, &pattern),
        Document::Traced(pattern, _) => answer_outcomes(alloc, place, digits, &pattern),
        Document::Graph(graph, _) => answer_graph_outcomes(alloc, place, digits, &graph),
        _ => unreachable!(),
    }
}

/// Whatever the branch, its amplitudes are printed with their values, over the least power of root two.
fn branches_are_well_printed<const H: usize>()
    requires { IsTrue (is_permitted H) }
    ensures { (p : PlainPattern) (o : Bits) → MeansBranch H p o }
{
    amplitudes_are_reduced::<H>();
}

/// The table of the branch of a graph's pattern without a flow.
fn answer_graph_outcomes<const H: usize>(
    alloc: Global,
    place: (u32, u32),
    digits: &[u8],
    graph: &OpenGraph<H>,
) -> Result<Answer, TextEnd>
    requires permitted { IsTrue (is_permitted H) }
    ensures due { Gives result (due_outcomes H place (map is_one digits.now) (bare_pattern graph.now)) }
    ensures holds { IfOk result Holds }
{
    match zero_pattern(alloc, graph) {
        Ok(pattern) => answer_outcomes(alloc, place, digits, &pattern),
        Err(_) => Err(TextEnd::Memory),
    }
}

fn answer_outcomes<const H: usize>(
    alloc: Global,
    place: (u32, u32),
    digits: &[u8],
    pattern: &Pattern<H>,
) -> Result<Answer, TextEnd>
    requires permitted { IsTrue (is_permitted H) }
    ensures due { Gives result (due_outcomes H place (map is_one digits.now) pattern.now) }
    ensures holds { IfOk result Holds }
{
    if digits.len() != pattern.measured() as usize {
        return Err(Fault::BitsDiffer.at(place.0, place.1));
    }
    let outcomes = match outcomes_of(alloc, digits) {
        Ok(outcomes) => outcomes,
        Err(_) => return Err(TextEnd::Memory),
    };
    answer_values(alloc, pattern, outcomes.as_slice())
}

fn answer_values<const H: usize>(
    alloc: Global,
    pattern: &Pattern<H>,
    outcomes: &[bool],
) -> Result<Answer, TextEnd>
    requires permitted { IsTrue (is_permitted H) }
    requires long { length outcomes.now ≡ measured_count pattern.now }
    ensures due { Gives result
        (due_unless (run_limit (branch_limit pattern.now)) (holding (branch_run H pattern.now outcomes.now))) }
    ensures holds { IfOk result Holds }
{
    ran(run_branch_text(alloc, pattern, outcomes))
}

/// The outcomes that digits spell.
fn outcomes_of(alloc: Global, digits: &[u8]) -> Result<Vec<bool>, Memory>
    ensures { IfOk result (λ outcomes. outcomes.items ≡ map is_one digits.now) }
{
    let mut outcomes = Vec::new(alloc);
    'digits: for digit in digits {
        match outcomes.push(*digit == b'1') {
            Ok(()) => {}
            Err(_) => return Err(Memory),
        }
    }
    Ok(outcomes)
}
