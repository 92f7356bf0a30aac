//! Building open graphs.

ghost use Rattle.std.specs.Prelude.{◌≡◌, ◌↔◌, ℕ, ◌<◌, ◌≤◌, All, Err, Some};
ghost use Rattle.std.specs.Prelude.{None, OnOk, IfOk, OnErr, IfErr, IsErrAnd, IsTrue, true};
ghost use Rattle.std.specs.List.{list_any};
ghost use Rattle.mc_model.specs.Names.{place_of};
ghost use Rattle.mc_model.specs.Numbers.{numbers_from};
ghost use Rattle.mc_model.specs.Steps.{is_permitted};
ghost use Rattle.mc_model.specs.Graph.{size, fixed_at};
ghost use Rattle.mc_graph.specs.Rules.{has_angle as is_measured, edge_rule as broken_edge};
ghost use Rattle.mc_graph.specs.Rules.{angle_rule as broken_angle, fix_rule as broken_fix};
ghost use Rattle.mc_graph.specs.Rules.{output_rule as broken_outputs};
ghost use Rattle.mc_graph.specs.Rules.{is_missing, is_fixed_inside};
ghost use Rattle.mc_graph.specs.Building.{begun, with_inputs, with_vertex, with_edge, with_angle};
ghost use Rattle.mc_graph.specs.Building.{with_fixed, with_outputs, IsFree};

use crate::fixed::Fixed;
use crate::graph::OpenGraph;
use crate::label::Label;
use crate::links::{Links, MOST_VERTICES};
use crate::outputs::{has_stranger, has_twice, lists};
use mc_angle::Angle;
use mc_model::Memory;
use mc_names::{Name, Names};
use std::alloc::Global;
use std::marker::Model;
use thiserror::Error;

/// Why a call of a builder was refused.
#[derive(Clone, Copy, Debug, PartialEq, Eq, Error)]
pub enum GraphEnd {
    /// The vertex with this number has the name already.
    #[error("the name stands at {0}")]
    Twice(u16),
    /// The graph has 256 vertices.
    #[error("there are 256 vertices")]
    Full,
    /// The least rule that is broken.
    #[error("rule {0} is broken")]
    Rule(u8),
    /// Memory ran out.
    #[error("no memory")]
    Memory,
}

/// An open graph that is being built. A contract sees the graph so far, without outputs.
#[derive(Drop)]
pub struct GraphBuilder<const H: usize> {
    names: Names,
    inputs: u16,
    labels: Vec<Label<H>>,
    links: Links,
}

impl<const H: usize> Model for GraphBuilder<H> {
    ghost use Rattle.mc_model.specs.Graph.{OpenGraph as Plain};
    ghost use Rattle.mc_graph.specs.Building.{graph_so_far, IsBuilt};

    ghost Value = { Plain };

    ghost view = { λ b. graph_so_far b.names b.inputs b.links b.labels.items };

    ghost invariant = { λ b. IsBuilt H (graph_so_far b.names b.inputs b.links b.labels.items) b.links };
}

impl<const H: usize> GraphBuilder<H> {
    ghost use Rattle.mc_graph.specs.Building.{IsBegun};

    /// A graph of the inputs alone.
    pub fn new(alloc: Global, inputs: Names) -> Result<GraphBuilder<H>, Memory>
        requires { IsTrue (is_permitted H) }
        ensures { IfOk result (λ builder. builder ≡ begun inputs) }
    {
        let count = inputs.len();
        let links = Links::new(alloc)?;
        let blank = Label {
            angle: None,
            fixed: Fixed { x: false, z: false },
        };
        match vec![in alloc; blank; count as usize] {
            Ok(labels) => Ok(GraphBuilder {
                names: inputs,
                inputs: count,
                labels,
                links,
            }),
            Err(_) => Err(Memory),
        }
    }

    /// The names of the vertices so far.
    pub fn names(&self) -> &Names
        ensures names { result.now ≡ self.now.names }
        ensures valid { IsBegun H self.now }
    {
        &self.names
    }

    /// How many vertices there are so far.
    pub fn len(&self) -> u16
        ensures { result ≡ size self.now }
    {
        self.names.len()
    }

    /// Makes the first `count` vertices the inputs, and no others.
    pub fn set_inputs(&mut self, count: u16)
        requires { count ≤ size self.old }
        ensures { self.new ≡ with_inputs self.old count }
    {
        self.inputs = count;
    }

    /// Adds a vertex that is no input, and gives its number. Refusals come in the order of `GraphEnd`, and leave the builder as
    /// it was: `Twice` where the name is held, `Full` where there are 256 vertices.
    pub fn vertex(&mut self, name: Name) -> Result<u16, GraphEnd>
        ensures number { IfOk result (λ v. v ≡ size self.old) }
        ensures added { OnOk result (self.new ≡ with_vertex self.old name) }
        ensures allowed { OnOk result (IsFree self.old name) }
        ensures twice { (v : ℕ) →
            (result ≡ Err (GraphEnd.Twice v)) ↔ (place_of self.old.names name ≡ Some v) }
        ensures full { (result ≡ Err GraphEnd.Full) ↔
            ((place_of self.old.names name ≡ None) × (size self.old ≡ 256)) }
        ensures no_rule { (n : ℕ) → result ≡ Err (GraphEnd.Rule n) → ⊥ }
        ensures memory_last { IfErr result (λ end. (end ≡ GraphEnd.Memory) ↔ IsFree self.old name) }
        ensures err { OnErr result (self.new ≡ self.old) }
    {
        if let Some(v) = self.names.find(&name) {
            return Err(GraphEnd::Twice(v));
        }
        let number = self.names.len();
        if number >= MOST_VERTICES {
            return Err(GraphEnd::Full);
        }
        let blank = Label {
            angle: None,
            fixed: Fixed { x: false, z: false },
        };
        let Ok(()) = self.labels.push(blank) else {
            return Err(GraphEnd::Memory);
        };
        match self.names.add(name) {
            Ok(number) => {
                // the proof needs that the names are distinct
                let _count = self.names.len();
                Ok(number)
            }
            Err(_) => {
                self.labels.truncate(number as usize);
                Err(GraphEnd::Memory)
            }
        }
    }

    /// The least rule that an edge breaks.
    fn edge_rule(&self, a: u16, b: u16) -> Option<u8>
        ensures { result ≡ broken_edge self.now a b }
    {
        let count = self.names.len();
        if a >= count || b >= count {
            Some(1)
        } else if a == b {
            Some(2)
        } else if self.links.has(a, b) {
            Some(3)
        } else {
            None
        }
    }

    /// Adds an edge. `Rule` gives the least rule that it breaks: 1, an end is no vertex; 2, both ends are one vertex; 3, the edge
    /// is there. A refusal leaves the builder as it was. No memory is taken.
    pub fn edge(&mut self, a: u16, b: u16) -> Result<(), GraphEnd>
        ensures added { OnOk result (self.new ≡ with_edge self.old a b) }
        ensures allowed { OnOk result (broken_edge self.old a b ≡ None) }
        ensures rule { (n : ℕ) →
            (result ≡ Err (GraphEnd.Rule n)) ↔ (broken_edge self.old a b ≡ Some n) }
        ensures rules_only { IfErr result (λ end. (n : ℕ) × (end ≡ GraphEnd.Rule n)) }
        ensures err { OnErr result (self.new ≡ self.old) }
    {
        if let Some(rule) = self.edge_rule(a, b) {
            return Err(GraphEnd::Rule(rule));
        }
        self.links.toggle(a, b);
        Ok(())
    }

    /// Whether a vertex has an angle.
    pub fn has_angle(&self, v: u16) -> bool
        requires { v < size self.now }
        ensures { result ≡ is_measured self.now v }
    {
        self.labels[v as usize].angle.is_some()
    }

    fn fixed(&self, v: u16) -> Fixed
        requires { v < size self.now }
        ensures x { result.x ≡ (fixed_at self.now v).x }
        ensures z { result.z ≡ (fixed_at self.now v).z }
    {
        self.labels[v as usize].fixed
    }

    /// The least rule that an angle of a vertex breaks.
    fn angle_rule(&self, v: u16) -> Option<u8>
        ensures { result ≡ broken_angle self.now v }
    {
        if v >= self.names.len() {
            Some(1)
        } else if self.has_angle(v) {
            Some(4)
        } else {
            None
        }
    }

    /// Gives a vertex its base angle. `Rule` gives the least rule that this breaks: 1, the number is no vertex; 4, the vertex has
    /// an angle. A refusal leaves the builder as it was. No memory is taken.
    pub fn angle(&mut self, v: u16, angle: Angle<H>) -> Result<(), GraphEnd>
        ensures added { OnOk result (self.new ≡ with_angle self.old v angle.entry) }
        ensures allowed { OnOk result (broken_angle self.old v ≡ None) }
        ensures rule { (n : ℕ) →
            (result ≡ Err (GraphEnd.Rule n)) ↔ (broken_angle self.old v ≡ Some n) }
        ensures rules_only { IfErr result (λ end. (n : ℕ) × (end ≡ GraphEnd.Rule n)) }
        ensures err { OnErr result (self.new ≡ self.old) }
    {
        if let Some(rule) = self.angle_rule(v) {
            return Err(GraphEnd::Rule(rule));
        }
        // the proof needs that the angle is less than a turn
        let _steps = angle.steps();
        self.labels[v as usize].angle = Some(angle);
        Ok(())
    }

    /// The least rule that a fixed `X` of a vertex breaks.
    fn fix_x_rule(&self, v: u16) -> Option<u8>
        ensures { result ≡ broken_fix self.now (λ f. f.x) v }
    {
        if v >= self.names.len() {
            Some(1)
        } else if self.fixed(v).x {
            Some(7)
        } else {
            None
        }
    }

    /// The least rule that a fixed `Z` of a vertex breaks.
    fn fix_z_rule(&self, v: u16) -> Option<u8>
        ensures { result ≡ broken_fix self.now (λ f. f.z) v }
    {
        if v >= self.names.len() {
            Some(1)
        } else if self.fixed(v).z {
            Some(7)
        } else {
            None
        }
    }

    /// Gives a vertex its fixed `X`. `Rule` gives the least rule that this breaks: 1, the number is no vertex; 7, the vertex has
    /// a fixed `X`. A refusal leaves the builder as it was. No memory is taken.
    pub fn fix_x(&mut self, v: u16) -> Result<(), GraphEnd>
        ensures added { OnOk result (self.new ≡
            with_fixed self.old v (record (fixed_at self.old v) { x = true })) }
        ensures allowed { OnOk result (broken_fix self.old (λ f. f.x) v ≡ None) }
        ensures rule { (n : ℕ) →
            (result ≡ Err (GraphEnd.Rule n)) ↔ (broken_fix self.old (λ f. f.x) v ≡ Some n) }
        ensures rules_only { IfErr result (λ end. (n : ℕ) × (end ≡ GraphEnd.Rule n)) }
        ensures err { OnErr result (self.new ≡ self.old) }
    {
        if let Some(rule) = self.fix_x_rule(v) {
            return Err(GraphEnd::Rule(rule));
        }
        self.labels[v as usize].fixed.x = true;
        Ok(())
    }

    /// Gives a vertex its fixed `Z`. `Rule` gives the least rule that this breaks: 1, the number is no vertex; 7, the vertex has
    /// a fixed `Z`. A refusal leaves the builder as it was. No memory is taken.
    pub fn fix_z(&mut self, v: u16) -> Result<(), GraphEnd>
        ensures added { OnOk result (self.new ≡
            with_fixed self.old v (record (fixed_at self.old v) { z = true })) }
        ensures allowed { OnOk result (broken_fix self.old (λ f. f.z) v ≡ None) }
        ensures rule { (n : ℕ) →
            (result ≡ Err (GraphEnd.Rule n)) ↔ (broken_fix self.old (λ f. f.z) v ≡ Some n) }
        ensures rules_only { IfErr result (λ end. (n : ℕ) × (end ≡ GraphEnd.Rule n)) }
        ensures err { OnErr result (self.new ≡ self.old) }
    {
        if let Some(rule) = self.fix_z_rule(v) {
            return Err(GraphEnd::Rule(rule));
        }
        self.labels[v as usize].fixed.z = true;
        Ok(())
    }

    /// Whether one of the listed vertices has an angle.
    fn has_angled(&self, outputs: &[u16]) -> bool
        requires { All (λ v. v < size self.now) outputs.now }
        ensures { result ≡ list_any (is_measured self.now) outputs.now }
    {
        'outputs: for v in outputs {
            if self.has_angle(*v) {
                return true;
            }
        }
        false
    }

    fn is_missing(&self, outputs: &[u16], v: u16) -> bool
        requires { v < size self.now }
        ensures { result ≡ is_missing self.now outputs.now v }
    {
        !self.has_angle(v) && !lists(outputs, v)
    }

    /// Whether a vertex without an angle is not listed.
    fn has_missing(&self, outputs: &[u16]) -> bool
        ensures { result ≡ list_any (is_missing self.now outputs.now) (numbers_from 0 (size self.now)) }
    {
        'vertices: for v in 0..self.len() {
            if self.is_missing(outputs, v) {
                return true;
            }
        }
        false
    }

    fn is_fixed_inside(&self, v: u16) -> bool
        requires { v < size self.now }
        ensures { result ≡ is_fixed_inside self.now v }
    {
        let fixed = self.fixed(v);
        self.has_angle(v) && (fixed.x || fixed.z)
    }

    /// Whether a vertex with an angle has a fixed correction.
    fn has_fixed_inside(&self) -> bool
        ensures { result ≡ list_any (is_fixed_inside self.now) (numbers_from 0 (size self.now)) }
    {
        'vertices: for v in 0..self.len() {
            if self.is_fixed_inside(v) {
                return true;
            }
        }
        false
    }

    /// The least rule that outputs break.
    fn output_rule(&self, outputs: &[u16]) -> Option<u8>
        ensures { result ≡ broken_outputs self.now outputs.now }
    {
        if has_stranger(self.names.len(), outputs) {
            Some(1)
        } else if self.has_angled(outputs) {
            Some(4)
        } else if has_twice(outputs) {
            Some(5)
        } else if self.has_missing(outputs) {
            Some(6)
        } else if self.has_fixed_inside() {
            Some(8)
        } else {
            None
        }
    }

    /// The graph with these outputs. `Rule` gives the least rule that they break: 1, an output is no vertex; 4, an output has an
    /// angle; 5, an output is listed twice; 6, a vertex without an angle is not listed; 8, a vertex with an angle has a fixed
    /// correction. A refusal, `Memory` last, hands the builder back as it was.
    pub fn finish(self, outputs: &[u16]) -> Result<OpenGraph<H>, (GraphBuilder<H>, GraphEnd)>
        ensures graph { IfOk result (λ graph. graph ≡ with_outputs self.entry outputs.now) }
        ensures allowed { OnOk result (broken_outputs self.entry outputs.now ≡ None) }
        ensures rule { (n : ℕ) → IsErrAnd result (λ refused. refused.1 ≡ GraphEnd.Rule n) ↔
            (broken_outputs self.entry outputs.now ≡ Some n) }
        ensures memory_last { IfErr result (λ refused. (refused.1 ≡ GraphEnd.Memory) ↔
            (broken_outputs self.entry outputs.now ≡ None)) }
        ensures kept { IfErr result (λ refused. refused.0 ≡ self.entry) }
    {
        if let Some(rule) = self.output_rule(outputs) {
            return Err((self, GraphEnd::Rule(rule)));
        }
        let alloc = *self.labels.allocator();
        let Ok(outs) = outputs.to_vec(alloc) else {
            return Err((self, GraphEnd::Memory));
        };
        match self.links.rows(alloc, self.names.len()) {
            Ok(rows) => Ok(OpenGraph {
                names: self.names,
                inputs: self.inputs,
                outs,
                rows,
                labels: self.labels,
            }),
            Err(_) => Err((self, GraphEnd::Memory)),
        }
    }
}
