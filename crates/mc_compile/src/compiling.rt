//! Compiling.

ghost use Rattle.std.specs.Prelude.{◌≡◌, ◌↔◌, ℕ, ◌<◌, ◌≤◌, IfOk, OnOk, Err};
ghost use Rattle.mc_model.specs.Limits.{most_qubits};
ghost use Rattle.mc_model.specs.Translation.{qubit_count};
ghost use Rattle.mc_model.specs.Graph.{graph_of as plain_graph};
ghost use Rattle.mc_graph.specs.Flows.{IsChosenFlowOf};
ghost use Rattle.mc_gflow.specs.Answers.{HasNoFlow, IsChosen};
ghost use Rattle.mc_compile.specs.Laws.{IsCompiled};
ghost use Rattle.mc_compile.specs.Compilations.{IsRemade, IsCompilation};

use crate::laws::compiled_circuits;
use mc_bits::Steps;
use mc_circuit::Circuit;
use mc_gflow::{Found, find_flow};
use mc_graph::{GFlow, OpenGraph, graph_of};
use mc_make::make_pattern;
use mc_model::{Memory, chosen_flows_are_flows};
use mc_pattern::Pattern;
use mc_shift::shift;
use mc_standard::standardise;
use mc_translate::{BuildEnd, translate, translations_have_flows};
use std::alloc::Global;
use std::marker::Brand;
use std::sync::ledger::{Blank, Ledger};

/// What a circuit is compiled into: the pattern, the number of edges of the circuit's graph, and the depth of its chosen flow.
#[derive(Drop)]
pub struct Compiled<const H: usize> {
    pub pattern: Pattern<H>,
    pub edges: u32,
    pub depth: u32,
}

/// What is searched for a flow. A count that is made in a call has no place in a function with a const parameter.
trait Searched {
    ghost use Rattle.mc_model.specs.Graph.{OpenGraph as Plain};
    ghost use Rattle.mc_gflow.specs.Answers.{IsChosen};

    /// The graph that it is.
    ghost graph: { Self → Plain };

    /// What the finder finds in it.
    fn find<L: Ledger>(&self, alloc: Global, steps: &mut Steps<L>) -> Result<Found, Memory>
        ensures { IfOk result (IsChosen (graph self.now)) };
}

impl<const H: usize> Searched for OpenGraph<H> {
    ghost graph = { λ g. g };

    fn find<L: Ledger>(&self, alloc: Global, steps: &mut Steps<L>) -> Result<Found, Memory> {
        find_flow(alloc, self, steps)
    }
}

fn counted<G: Searched, L: Ledger>(alloc: Global, graph: &G, blank: Blank) -> Result<Found, Memory>
    requires name { blank.name ≡ L.name }
    requires parts { (blank.parts ≡ L.parts) × (L.parts ≡ 1) }
    ensures { IfOk result (IsChosen (G.graph graph.now)) }
{
    let mut steps = Steps::<L>::new(blank);
    graph.find(alloc, &mut steps)
}

/// What the finder finds; its steps are not told.
fn found<const H: usize>(alloc: Global, graph: &OpenGraph<H>) -> Result<Found, Memory>
    ensures { IfOk result (IsChosen graph.now) }
{
    counted::<OpenGraph<H>, Brand>(alloc, graph, Blank::new(1))
}

/// The chosen flow of a graph that has a flow.
fn flow_of<const H: usize>(alloc: Global, graph: &OpenGraph<H>) -> Result<GFlow, Memory>
    requires { HasNoFlow graph.now → ⊥ }
    ensures { IfOk result (λ flow. IsChosenFlowOf graph.now flow) }
{
    match found(alloc, graph) {
        Ok(Found::Flow(flow)) => Ok(flow),
        Ok(Found::Refuted(_)) => unreachable!(),
        Err(_) => Err(Memory),
    }
}

/// The shifted form of what is made from the chosen flow of a pattern's graph, which has a flow.
fn remade<const H: usize>(alloc: Global, p: &Pattern<H>) -> Result<Compiled<H>, Memory>
    requires { HasNoFlow (plain_graph H p.now) → ⊥ }
    ensures { IfOk result (λ compiled.
        IsRemade H p.now compiled.pattern compiled.edges compiled.depth) }
{
    chosen_flows_are_flows();
    let graph = graph_of(alloc, p)?;
    let flow = flow_of(alloc, &graph)?;
    let made = make_pattern(alloc, &graph, &flow)?;
    let standard = standardise(alloc, &made)?;
    let (shifted, _change) = shift(alloc, &standard)?;
    let pattern = shifted.as_pattern()?;
    Ok(Compiled {
        pattern,
        edges: graph.edge_count(),
        depth: flow.depth(),
    })
}

/// Compiles a circuit: the standard form of the pattern that is made from the chosen flow of the graph of its translation
/// (Danos, Kashefi and Panangaden 2007; Browne, Kashefi, Mhalla and Perdrix 2007). Whatever the outcomes, its branch map is
/// the circuit's table up to one phase, and it is no deeper than any flow. `Limit` comes exactly where wires and `J` gates
/// together, which is its number, are more than 256.
pub fn compile<const H: usize>(alloc: Global, circuit: &Circuit<H>) -> Result<Compiled<H>, BuildEnd>
    ensures made { IfOk result (λ compiled.
        IsCompilation H circuit.now compiled.pattern compiled.edges compiled.depth) }
    ensures meant { IfOk result (λ compiled. IsCompiled H circuit.now compiled.pattern) }
    ensures limit { (n : ℕ) → (result ≡ Err (BuildEnd.Limit n)) ↔
        ((most_qubits < qubit_count circuit.now) × (n ≡ qubit_count circuit.now)) }
    ensures few { OnOk result (qubit_count circuit.now ≤ most_qubits) }
    ensures memory_last { result ≡ Err BuildEnd.Memory → qubit_count circuit.now ≤ most_qubits }
{
    // the proof needs that the circuit is valid
    let _names = circuit.names();
    translations_have_flows();
    compiled_circuits();
    match translate(alloc, circuit) {
        Ok(translated) => match remade(alloc, &translated) {
            Ok(compiled) => Ok(compiled),
            Err(Memory) => Err(BuildEnd::Memory),
        },
        Err(end) => Err(end),
    }
}
