//! Open graphs.

ghost use Rattle.std.specs.Prelude.{◌≡◌, ◌*◌, ◌<◌, ◌≤◌, All, IfSome, is_none, flat_map, length};
ghost use Rattle.std.specs.Prelude.{count_by, nat_lt};
ghost use Rattle.mc_model.specs.Numbers.{numbers_from};
ghost use Rattle.mc_model.specs.Signals.{IsRising};
ghost use Rattle.mc_model.specs.Graph.{size, is_output as gives_out, base_angle, fixed_at};
ghost use Rattle.mc_graph.specs.Neighbours.{neighbours as row, edges_up};
ghost use Rattle.mc_graph.specs.Graphs.{plain_fixed};

use crate::fixed::Fixed;
use crate::label::Label;
use mc_angle::Angle;
use mc_names::Names;
use std::marker::Model;

/// An open graph (Danos and Kashefi 2006): named vertices, of which the first are inputs, edges without loops or repeats,
/// outputs, each listed once, a base angle for each other vertex, and fixed corrections of outputs.
#[derive(Drop)]
pub struct OpenGraph<const H: usize> {
    pub(crate) names: Names,
    pub(crate) inputs: u16,
    pub(crate) outs: Vec<u16>,
    pub(crate) rows: Vec<Vec<u16>>,
    pub(crate) labels: Vec<Label<H>>,
}

impl<const H: usize> Model for OpenGraph<H> {
    ghost use Rattle.std.specs.Prelude.{map};
    ghost use Rattle.mc_model.specs.Graph.{OpenGraph as Plain};
    ghost use Rattle.mc_graph.specs.Graphs.{graph_by, IsStored};

    ghost Value = { Plain };

    ghost view = { λ g.
        graph_by g.names g.inputs g.outs.items (map (λ r. r.items) g.rows.items) g.labels.items };

    ghost invariant = { λ g. IsStored H
        (graph_by g.names g.inputs g.outs.items (map (λ r. r.items) g.rows.items) g.labels.items)
        (map (λ r. r.items) g.rows.items) };
}

/// How many numbers are greater than another.
fn count_above(v: u16, numbers: &[u16]) -> u32
    requires { length numbers.now ≤ 256 }
    ensures { result ≡ count_by (nat_lt v) numbers.now }
{
    let mut count = 0;
    'numbers: for number in numbers {
        if v < *number {
            count += 1;
        }
    }
    count
}

impl<const H: usize> OpenGraph<H> {
    ghost use Rattle.mc_graph.specs.Graphs.{IsGraph};

    /// The names of the vertices.
    pub fn names(&self) -> &Names
        ensures names { result.now ≡ self.now.names }
        ensures valid { IsGraph H self.now }
    {
        &self.names
    }

    /// How many of the vertices are inputs.
    pub fn inputs(&self) -> u16
        ensures { result ≡ self.now.inputs }
    {
        self.inputs
    }

    /// The vertices that are not measured, in the order of output.
    pub fn outputs(&self) -> &[u16]
        ensures { result.now ≡ self.now.outputs }
    {
        self.outs.as_slice()
    }

    /// How many vertices there are.
    pub fn len(&self) -> u16
        ensures len { result ≡ size self.now }
        ensures valid { IsGraph H self.now }
    {
        self.names.len()
    }

    /// The base angle at which a vertex is measured; `None` exactly for an output.
    pub fn angle_of(&self, v: u16) -> Option<Angle<H>>
        requires { v < size self.now }
        ensures angle { result ≡ base_angle self.now v }
        ensures output { is_none result ≡ gives_out self.now v }
        ensures within { IfSome result (λ angle. angle < 2 * H) }
    {
        self.labels[v as usize].angle
    }

    /// Whether a vertex is an output.
    pub fn is_output(&self, v: u16) -> bool
        requires { v < size self.now }
        ensures { result ≡ gives_out self.now v }
    {
        self.angle_of(v).is_none()
    }

    /// The neighbours of a vertex, rising.
    pub fn neighbours(&self, v: u16) -> &[u16]
        requires { v < size self.now }
        ensures row { result.now ≡ row self.now v }
        ensures rising { IsRising result.now }
        ensures below { All (λ w. w < size self.now) result.now }
    {
        self.rows[v as usize].as_slice()
    }

    /// The fixed corrections of a vertex.
    pub fn fixed(&self, v: u16) -> Fixed
        requires { v < size self.now }
        ensures { plain_fixed result ≡ fixed_at self.now v }
    {
        self.labels[v as usize].fixed
    }

    /// How many edges there are.
    pub fn edge_count(&self) -> u32
        ensures count { result ≡ length self.now.edges }
        ensures up { flat_map (edges_up self.now) (numbers_from 0 (size self.now)) ≡ self.now.edges }
    {
        // the proof needs how the edges are kept
        let _rows = self.rows.len();
        let mut count = 0;
        'vertices: for v in 0..self.len() {
            count += count_above(v, self.neighbours(v));
        }
        count
    }
}
