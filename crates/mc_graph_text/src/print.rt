//! Printing an open graph.

ghost use Rattle.std.specs.Prelude.{◌≡◌, ◌++◌, ◌∷◌, [], ◌<◌, ◌≤◌, All, IfOk, OnOk, length, map};
ghost use Rattle.std.specs.Prelude.{codes, cond, take, drop, Some};
ghost use Rattle.std.specs.List.{flat_map};
ghost use Rattle.mc_model.specs.Numbers.{numbers_from};
ghost use Rattle.mc_model.specs.Graph.{size, edge, base_angle, fixed_at};
ghost use Rattle.mc_write.specs.Text.{line_text, text_of};
ghost use Rattle.mc_write.specs.Named.{name_at};
ghost use Rattle.mc_graph.specs.Graphs.{plain_fixed};
ghost use Rattle.mc_graph_text.specs.Canonical.{has_fixed as holds_fixed, graph_version as version};
ghost use Rattle.mc_graph_text.specs.Canonical.{vertex_line, edge_line, angle_lines, fixed_lines};
ghost use Rattle.mc_graph_text.specs.Canonical.{graph_text};
ghost use Rattle.mc_graph_text.specs.Rows.{edges_to};

use mc_angle::Angle;
use mc_graph::{Fixed, OpenGraph};
use mc_lex::Kind;
use mc_model::Memory;
use mc_names::Names;
use mc_text::print_header;
use mc_write::{add_name, add_names, add_names_between, add_number, end_line, start_line};
use std::alloc::Global;

/// Whether a vertex has a fixed correction.
fn has_fixed<const H: usize>(graph: &OpenGraph<H>) -> bool
    ensures { result ≡ holds_fixed graph.now }
{
    'vertices: for v in 0..graph.len() {
        let fixed = graph.fixed(v);
        if fixed.x || fixed.z {
            return true;
        }
    }
    false
}

/// The version of a graph's text.
fn graph_version<const H: usize>(graph: &OpenGraph<H>) -> u8
    ensures { result ≡ version graph.now }
{
    if has_fixed(graph) { 2 } else { 1 }
}

fn print_inputs(text: &mut Vec<u8>, names: &Names, inputs: u16) -> Result<(), Memory>
    requires { inputs ≤ length names.now }
    ensures { OnOk result (text.new.items ≡ text.old.items ++ line_text (codes "in" ∷ take inputs names.now)) }
{
    start_line(text, b"in")?;
    add_names_between(text, names, 0, inputs)?;
    end_line(text)
}

/// A line that has a record word and the name of one vertex.
fn print_vertex(text: &mut Vec<u8>, head: &[u8], names: &Names, v: u16) -> Result<(), Memory>
    requires { v < length names.now }
    ensures { OnOk result (text.new.items ≡ text.old.items ++ line_text (head.now ∷ name_at names.now v ∷ [])) }
{
    start_line(text, head)?;
    add_name(text, names, v)?;
    end_line(text)
}

/// The lines of the vertices that are no inputs.
fn print_vertices(text: &mut Vec<u8>, names: &Names, inputs: u16) -> Result<(), Memory>
    requires { inputs ≤ length names.now }
    ensures { OnOk result (text.new.items ≡
        text.old.items ++ text_of (map vertex_line (drop inputs names.now))) }
{
    'vertices: for v in inputs..names.len() {
        print_vertex(text, b"n", names, v)?;
    }
    Ok(())
}

fn print_edge(text: &mut Vec<u8>, names: &Names, v: u16, w: u16) -> Result<(), Memory>
    requires first { v < length names.now }
    requires second { w < length names.now }
    ensures { OnOk result (text.new.items ≡ text.old.items ++ line_text (edge_line names.now (edge v w))) }
{
    start_line(text, b"e")?;
    add_name(text, names, v)?;
    add_name(text, names, w)?;
    end_line(text)
}

/// The line of the edge to a neighbour, where that is the higher one.
fn print_edge_up(text: &mut Vec<u8>, names: &Names, v: u16, w: u16) -> Result<(), Memory>
    requires first { v < length names.now }
    requires second { w < length names.now }
    ensures { OnOk result (text.new.items ≡
        text.old.items ++ text_of (map (edge_line names.now) (edges_to v (w ∷ [])))) }
{
    if w <= v {
        return Ok(());
    }
    print_edge(text, names, v, w)
}

/// The lines of the edges of a vertex to its higher neighbours.
fn print_edges_up(
    text: &mut Vec<u8>,
    names: &Names,
    v: u16,
    neighbours: &[u16],
) -> Result<(), Memory>
    requires vertex { v < length names.now }
    requires neighbours { All (λ w. w < length names.now) neighbours.now }
    ensures { OnOk result (text.new.items ≡
        text.old.items ++ text_of (map (edge_line names.now) (edges_to v neighbours.now))) }
{
    'neighbours: for w in neighbours {
        print_edge_up(text, names, v, *w)?;
    }
    Ok(())
}

fn print_edges<const H: usize>(text: &mut Vec<u8>, graph: &OpenGraph<H>) -> Result<(), Memory>
    ensures { OnOk result (text.new.items ≡
        text.old.items ++ text_of (map (edge_line graph.now.names) graph.now.edges)) }
{
    'vertices: for v in 0..graph.len() {
        print_edges_up(text, graph.names(), v, graph.neighbours(v))?;
    }
    Ok(())
}

fn print_measured<const H: usize>(
    text: &mut Vec<u8>,
    names: &Names,
    v: u16,
    angle: &Angle<H>,
) -> Result<(), Memory>
    requires { v < length names.now }
    ensures { OnOk result (text.new.items ≡
        text.old.items ++ text_of (angle_lines names.now v (Some angle.now))) }
{
    start_line(text, b"m")?;
    add_name(text, names, v)?;
    add_number(text, angle.steps() as u32)?;
    end_line(text)
}

/// The line of a vertex with a base angle.
fn print_angle<const H: usize>(
    text: &mut Vec<u8>,
    names: &Names,
    v: u16,
    angle: &Option<Angle<H>>,
) -> Result<(), Memory>
    requires { v < length names.now }
    ensures { OnOk result (text.new.items ≡ text.old.items ++ text_of (angle_lines names.now v angle.now)) }
{
    match angle {
        Some(angle) => print_measured(text, names, v, angle),
        None => Ok(()),
    }
}

fn print_angles<const H: usize>(text: &mut Vec<u8>, graph: &OpenGraph<H>) -> Result<(), Memory>
    ensures { OnOk result (text.new.items ≡ text.old.items ++ text_of
        (flat_map (λ v. angle_lines graph.now.names v (base_angle graph.now v))
        (numbers_from 0 (size graph.now)))) }
{
    'vertices: for v in 0..graph.len() {
        print_angle(text, graph.names(), v, &graph.angle_of(v))?;
    }
    Ok(())
}

fn print_outputs(text: &mut Vec<u8>, names: &Names, outputs: &[u16]) -> Result<(), Memory>
    requires { All (λ v. v < length names.now) outputs.now }
    ensures { OnOk result (text.new.items ≡
        text.old.items ++ line_text (codes "out" ∷ map (name_at names.now) outputs.now)) }
{
    start_line(text, b"out")?;
    add_names(text, names, outputs)?;
    end_line(text)
}

/// The line of a fixed correction, where there is one.
fn print_correction(
    text: &mut Vec<u8>,
    head: &[u8],
    names: &Names,
    v: u16,
    stands: bool,
) -> Result<(), Memory>
    requires { v < length names.now }
    ensures { OnOk result (text.new.items ≡
        text.old.items ++ text_of (cond stands ((head.now ∷ name_at names.now v ∷ []) ∷ []) [])) }
{
    if !stands {
        return Ok(());
    }
    print_vertex(text, head, names, v)
}

/// The lines of the fixed corrections of a vertex.
fn print_fixed(text: &mut Vec<u8>, names: &Names, v: u16, fixed: Fixed) -> Result<(), Memory>
    requires { v < length names.now }
    ensures { OnOk result (text.new.items ≡
        text.old.items ++ text_of (fixed_lines names.now v (plain_fixed fixed))) }
{
    print_correction(text, b"x", names, v, fixed.x)?;
    print_correction(text, b"z", names, v, fixed.z)
}

fn print_corrections<const H: usize>(text: &mut Vec<u8>, graph: &OpenGraph<H>) -> Result<(), Memory>
    ensures { OnOk result (text.new.items ≡ text.old.items ++ text_of
        (flat_map (λ v. fixed_lines graph.now.names v (fixed_at graph.now v))
        (numbers_from 0 (size graph.now)))) }
{
    'vertices: for v in 0..graph.len() {
        print_fixed(text, graph.names(), v, graph.fixed(v))?;
    }
    Ok(())
}

fn print_end(text: &mut Vec<u8>) -> Result<(), Memory>
    ensures { OnOk result (text.new.items ≡ text.old.items ++ line_text (codes "end" ∷ [])) }
{
    start_line(text, b"end")?;
    end_line(text)
}

/// The canonical text of an open graph. It is of the second version exactly where a vertex has a fixed correction.
pub fn print_graph<const H: usize>(alloc: Global, graph: &OpenGraph<H>) -> Result<Vec<u8>, Memory>
    ensures { IfOk result (λ text. text.items ≡ graph_text H graph.now) }
{
    let mut text = Vec::new(alloc);
    let names = graph.names();
    print_header(&mut text, Kind::Graph, graph_version(graph), H)?;
    print_inputs(&mut text, names, graph.inputs())?;
    print_vertices(&mut text, names, graph.inputs())?;
    print_edges(&mut text, graph)?;
    print_angles(&mut text, graph)?;
    print_outputs(&mut text, names, graph.outputs())?;
    print_corrections(&mut text, graph)?;
    print_end(&mut text)?;
    Ok(text)
}
