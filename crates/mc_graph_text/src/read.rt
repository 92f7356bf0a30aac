//! Reading a graph.

ghost use Rattle.std.specs.Prelude.{◌≡◌, [], None, OnOk, OnErr, IfOk, IfErr, IsTrue, Err};
ghost use Rattle.mc_lex.specs.Left.{IsFurther};
ghost use Rattle.mc_model.specs.Steps.{is_permitted};
ghost use Rattle.mc_text.specs.Judged.{first_in_section, section_lines, behind_section};
ghost use Rattle.mc_text.specs.Stops.{IsEnd};
ghost use Rattle.mc_graph.specs.Building.{with_outputs};
ghost use Rattle.mc_graph.specs.Rules.{output_rule};
ghost use Rattle.mc_graph_text.specs.Judge.{graph_rules};
ghost use Rattle.mc_graph_text.specs.Value.{graph_in};

use crate::reader::Reader;
use mc_graph::{GraphBuilder, OpenGraph};
use mc_lex::{TextEnd, Words};
use mc_text::read_section;
use std::alloc::Global;

/// The graph with outputs that break no rule.
fn finished<const H: usize>(
    graph: GraphBuilder<H>,
    outputs: &[u16],
) -> Result<OpenGraph<H>, TextEnd>
    requires { output_rule graph outputs.now ≡ None }
    ensures graph { IfOk result (λ built. built ≡ with_outputs graph.entry outputs.now) }
    ensures memory { OnErr result (result ≡ Err TextEnd.Memory) }
{
    match graph.finish(outputs) {
        Ok(graph) => Ok(graph),
        Err(_) => Err(TextEnd::Memory),
    }
}

/// Reads the lines of a graph behind its header, through its `end`; a section of version 2 may have fixed corrections. `Refused`
/// is the first fault and `Limit` the first passed limit, whichever stands first; the words then stand somewhere in the text.
pub fn read_graph<const H: usize>(
    alloc: Global,
    words: &mut Words<'_>,
    version: u8,
) -> Result<OpenGraph<H>, TextEnd>
    requires { IsTrue (is_permitted H) }
    ensures clean { OnOk result
        (first_in_section (graph_rules version) [] words.old.later words.old.last ≡ None) }
    ensures value { IfOk result (λ graph. graph ≡ graph_in H (section_lines words.old.later)) }
    ensures behind { OnOk result (words.new.later ≡ behind_section words.old.later) }
    ensures whole { OnOk result (words.new.here ≡ []) }
    ensures further { IsFurther words.old words.new }
    ensures err { IfErr result (λ end.
        IsEnd end (first_in_section (graph_rules version) [] words.old.later words.old.last)) }
{
    let mut reader = match Reader::new(alloc, version) {
        Ok(reader) => reader,
        Err(_) => return Err(TextEnd::Memory),
    };
    if let Err(end) = read_section(words, &mut reader) {
        return Err(end);
    }
    let mut graph = reader.graph;
    // the proof needs that the names are distinct
    let _count = graph.names().len();
    graph.set_inputs(reader.inputs);
    finished(graph, reader.outputs.as_slice())
}
