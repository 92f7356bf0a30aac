//! What the words and the ends of the lines of a graph do.

ghost use Rattle.std.specs.Prelude.{◌≡◌, ◌↔◌, ℕ, ◌<◌, List, Option, true, ◌||◌, OnOk, IfErr, IsTrue};
ghost use Rattle.std.specs.Prelude.{None};
ghost use Rattle.std.specs.List.{list_all};
ghost use Rattle.mc_model.specs.Graph.{size};
ghost use Rattle.mc_model.specs.Numbers.{is_member};
ghost use Rattle.mc_text.specs.Rules.{AreNumbers};
ghost use Rattle.mc_text.specs.Stops.{IsStop};
ghost use Rattle.mc_graph.specs.Rules.{has_angle as is_measured};
ghost use Rattle.mc_graph_text.specs.Roles.{role_of, may_follow, is_inner as inner_word};
ghost use Rattle.mc_graph_text.specs.Roles.{is_late as late_word};
ghost use Rattle.mc_graph_text.specs.Value.{Spelled};
ghost use Rattle.mc_graph_text.specs.Judge.{judge_by, lacks_by, next_record, is_settled};
ghost use Rattle.mc_graph_text.specs.Kept.{graph_so_far, Stands, Moves};

use crate::reader::Reader;
use crate::words::{
    has, take_angle, take_end, take_fixed_x, take_fixed_z, take_measured, take_other_end,
    take_output, take_vertex,
};
use mc_graph::GraphBuilder;
use mc_text::{Fault, Head, Point, Stop};

fn is_inner(head: Option<Head>) -> bool
    ensures { result ≡ inner_word head }
{
    match head {
        Some(Head::N | Head::E | Head::M | Head::Out) => true,
        _ => false,
    }
}

fn is_late(fixes: bool, head: Option<Head>) -> bool
    ensures { result ≡ late_word fixes head }
{
    match head {
        Some(Head::End) => true,
        Some(Head::X | Head::Z) => fixes,
        _ => false,
    }
}

fn follows(fixes: bool, last: Option<Head>, head: Option<Head>) -> bool
    ensures { result ≡ may_follow fixes last head }
{
    match last {
        None => match head {
            Some(Head::In) => true,
            _ => false,
        },
        Some(Head::In | Head::N | Head::E | Head::M) => is_inner(head),
        Some(Head::Out | Head::X | Head::Z) => is_late(fixes, head),
        _ => false,
    }
}

/// Judges a record word.
fn take_record(fixes: bool, last: Option<Head>, word: &[u8]) -> Result<(), Stop>
    ensures clean { OnOk result (next_record fixes last word.now ≡ None) }
    ensures err { IfErr result (λ stop. IsStop stop (next_record fixes last word.now)) }
{
    if follows(fixes, last, Head::read(word)) {
        Ok(())
    } else {
        Err(Stop::Fault(Fault::NotFixed))
    }
}

/// Judges a word and takes it.
pub(crate) fn take<const H: usize>(
    kept: &mut Reader<H>,
    point: Point,
    word: &[u8],
) -> Result<(), Stop>
    ensures ok { OnOk result (Moves kept.old kept.new point word.now) }
    ensures err { IfErr result (λ stop. (s : Spelled) (first : Option (List ℕ))
        → Stands kept.old point s first
        → IsStop stop (judge_by kept.old.fixes s first point.last (role_of point) word.now)) }
{
    // the proof needs that the names are distinct
    let _count = kept.graph.names().len();
    match (point.head, point.count) {
        (_, 0) => take_record(kept.fixes, point.last, word),
        (Some(Head::In), _) => {
            if let Err(stop) = take_vertex(&mut kept.graph, word) {
                return Err(stop);
            }
            kept.inputs += 1;
            Ok(())
        }
        (Some(Head::N), 1) => take_vertex(&mut kept.graph, word),
        (Some(Head::E), 1) => take_end(&kept.graph, &mut kept.first, word),
        (Some(Head::E), 2) => take_other_end(&mut kept.graph, kept.first, word),
        (Some(Head::M), 1) => take_measured(&kept.graph, &mut kept.first, word),
        (Some(Head::M), 2) => take_angle(&mut kept.graph, kept.first, word),
        (Some(Head::Out), _) => take_output(&kept.graph, &mut kept.outputs, word),
        (Some(Head::X), 1) => take_fixed_x(&mut kept.graph, word),
        (Some(Head::Z), 1) => take_fixed_z(&mut kept.graph, word),
        _ => Err(Stop::Fault(Fault::Surplus)),
    }
}

fn is_settled_at<const H: usize>(graph: &GraphBuilder<H>, numbers: &[u16], v: u16) -> bool
    requires { v < size graph.now }
    ensures { result ≡ is_measured graph.now v || is_member numbers.now v }
{
    graph.has_angle(v) || has(numbers, v)
}

/// Whether each vertex has an angle or is listed.
fn settles<const H: usize>(graph: &GraphBuilder<H>, numbers: &[u16]) -> bool
    ensures { IsTrue result ↔ ((v : ℕ) → v < size graph.now
        → is_measured graph.now v || is_member numbers.now v ≡ true) }
{
    'vertices: for v in 0..graph.len() {
        if !is_settled_at(graph, numbers, v) {
            return false;
        }
    }
    true
}

/// Whether each name has an angle or is listed.
fn settles_each<const H: usize>(graph: &GraphBuilder<H>, numbers: &[u16]) -> bool
    ensures { (s : Spelled) → graph.now ≡ graph_so_far H s → AreNumbers s.names s.outputs numbers.now
        → result ≡ list_all (is_settled s) s.names }
{
    // the proof needs that the names are distinct
    let _count = graph.names().len();
    settles(graph, numbers)
}

/// Judges the end of a line.
pub(crate) fn end_words<const H: usize>(
    graph: &GraphBuilder<H>,
    outputs: &[u16],
    point: Point,
) -> Result<(), Stop>
    ensures clean { OnOk result ((s : Spelled) → graph.now ≡ graph_so_far H s
        → AreNumbers s.names s.outputs outputs.now → lacks_by s (role_of point) ≡ None) }
    ensures err { IfErr result (λ stop. (s : Spelled) → graph.now ≡ graph_so_far H s
        → AreNumbers s.names s.outputs outputs.now
        → IsStop stop (lacks_by s (role_of point))) }
{
    match (point.head, point.count) {
        (_, 0) => Err(Stop::Fault(Fault::LineEnds)),
        (Some(Head::N | Head::X | Head::Z), 1) => Err(Stop::Fault(Fault::LineEnds)),
        (Some(Head::E | Head::M), 1 | 2) => Err(Stop::Fault(Fault::LineEnds)),
        (Some(Head::Out), _) => {
            if settles_each(graph, outputs) {
                Ok(())
            } else {
                Err(Stop::Fault(Fault::OutputsLack))
            }
        }
        _ => Ok(()),
    }
}
