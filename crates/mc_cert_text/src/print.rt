//! Printing a certificate.

ghost use Rattle.std.specs.Prelude.{◌≡◌, ◌++◌, ◌<◌, ◌≤◌, All, OnOk, IfOk, length, map};
ghost use Rattle.mc_model.specs.Signals.{IsRising};
ghost use Rattle.mc_write.specs.Text.{line_text, text_of};
ghost use Rattle.mc_graph.specs.RowLists.{AreRowsOf, HaveOwnVertices};
ghost use Rattle.mc_cert.specs.BoundRules.{AreApart};
ghost use Rattle.mc_rows.specs.Written.{row_line};
ghost use Rattle.mc_cert_text.specs.Certs.{HasShortNumbers, HasShortBound, HasOwnRows, IsCertIn};
ghost use Rattle.mc_cert_text.specs.Certs.{IsCertOf, plain_cert, flow, noflow, nocausal, least};
ghost use Rattle.mc_cert_text.specs.Tables.{flow_shape, refuter_shape, stuck_shape, least_shape};
ghost use Rattle.mc_cert_text.specs.Canonical.{cert_text, depth_row, flow_row, refuter_row};
ghost use Rattle.mc_cert_text.specs.Canonical.{stuck_row, layer_row, bound_row};

use crate::cert::Cert;
use mc_cert::Bound;
use mc_graph::{GFlow, OpenGraph, Refuter, Stuck};
use mc_lex::Kind;
use mc_model::Memory;
use mc_names::Names;
use mc_rows::{Parts, Shape, print_end, print_row};
use mc_signal::QSet;
use mc_text::{Head, print_header};
use std::alloc::Global;

/// The canonical text of a certificate, with its header. Numbers of at most four digits can be read.
pub fn print_cert<const H: usize>(
    alloc: Global,
    g: &OpenGraph<H>,
    cert: &Cert,
) -> Result<Vec<u8>, Memory>
    requires inside { IsCertIn g.now (plain_cert cert.now) }
    requires numbers { HasShortNumbers (plain_cert cert.now) }
    ensures text { IfOk result (λ text. text.items ≡ cert_text g.now.names (plain_cert cert.now)) }
    ensures fits { OnOk result (IsCertOf g.now (plain_cert cert.now)) }
{
    match cert {
        Cert::Flow(flow) => print_flow(alloc, g.names(), flow),
        Cert::NoFlow(refuter) => print_refuter(alloc, g.names(), refuter),
        Cert::NoCausal(stuck) => print_stuck(alloc, g.names(), stuck),
        Cert::Least(bound) => print_least(alloc, g.names(), bound),
    }
}

fn print_flow(alloc: Global, names: &Names, f: &GFlow) -> Result<Vec<u8>, Memory>
    requires inside { AreRowsOf (length names.now) (λ r. r.vertex) (λ r. r.set) f.now.rows }
    requires numbers { HasShortNumbers (flow f.now) }
    ensures text { IfOk result (λ text. text.items ≡ cert_text names.now (flow f.now)) }
    ensures own { OnOk result (HasOwnRows (flow f.now)) }
{
    let mut text = Vec::new(alloc);
    print_header(&mut text, Kind::Flow, 1, 4)?;
    print_depth(alloc, &mut text, names, f.depth())?;
    print_flow_rows(&mut text, names, f)?;
    print_end(&mut text)?;
    Ok(text)
}

/// Writes the row of the depth.
fn print_depth(alloc: Global, text: &mut Vec<u8>, names: &Names, depth: u32) -> Result<(), Memory>
    requires { depth ≤ 9999 }
    ensures { OnOk result (text.new.items ≡ text.old.items
        ++ line_text (row_line flow_shape names.now (depth_row depth))) }
{
    let none = QSet::new(alloc);
    let row = Parts {
        head: Head::Depth,
        number: depth as u16,
        name: 0,
        set: &none,
        constant: false,
    };
    print_row(text, names, Shape::Numbered, row)
}

/// Writes the rows of a flow behind its depth.
fn print_flow_rows(text: &mut Vec<u8>, names: &Names, f: &GFlow) -> Result<(), Memory>
    requires inside { AreRowsOf (length names.now) (λ r. r.vertex) (λ r. r.set) f.now.rows }
    requires numbers { All (λ r. r.layer ≤ 9999) f.now.rows }
    ensures text { OnOk result (text.new.items ≡ text.old.items
        ++ text_of (map (λ r. row_line flow_shape names.now (flow_row r)) f.now.rows)) }
    ensures own { OnOk result (HasOwnRows (flow f.now)) }
{
    'rows: for i in 0..f.len() {
        let row = f.row(i);
        // the proof needs that the set is in order
        let _members = row.set.len();
        let parts = Parts {
            head: Head::G,
            number: row.layer as u16,
            name: row.vertex,
            set: row.set,
            constant: false,
        };
        print_row(text, names, Shape::RankedSet, parts)?;
    }
    Ok(())
}

fn print_refuter(alloc: Global, names: &Names, refuter: &Refuter) -> Result<Vec<u8>, Memory>
    requires { AreRowsOf (length names.now) (λ r. r.vertex) (λ r. r.set) refuter.now }
    ensures text { IfOk result (λ text. text.items ≡ cert_text names.now (noflow refuter.now)) }
    ensures own { OnOk result (HasOwnRows (noflow refuter.now)) }
{
    let mut text = Vec::new(alloc);
    print_header(&mut text, Kind::NoFlow, 1, 4)?;
    print_refuter_rows(&mut text, names, refuter)?;
    print_end(&mut text)?;
    Ok(text)
}

fn print_refuter_rows(text: &mut Vec<u8>, names: &Names, refuter: &Refuter) -> Result<(), Memory>
    requires { AreRowsOf (length names.now) (λ r. r.vertex) (λ r. r.set) refuter.now }
    ensures text { OnOk result (text.new.items ≡ text.old.items
        ++ text_of (map (λ r. row_line refuter_shape names.now (refuter_row r)) refuter.now)) }
    ensures own { OnOk result (HasOwnRows (noflow refuter.now)) }
{
    'rows: for i in 0..refuter.len() {
        let (vertex, set) = refuter.row(i);
        // the proof needs that the set is in order
        let _members = set.len();
        let parts = Parts {
            head: Head::Y,
            number: 0,
            name: vertex,
            set,
            constant: false,
        };
        print_row(text, names, Shape::NamedSet, parts)?;
    }
    Ok(())
}

fn print_stuck(alloc: Global, names: &Names, stuck: &Stuck) -> Result<Vec<u8>, Memory>
    requires { All (λ v. v < length names.now) stuck.now }
    ensures text { IfOk result (λ text. text.items ≡ cert_text names.now (nocausal stuck.now)) }
    ensures own { OnOk result (HasOwnRows (nocausal stuck.now)) }
{
    let mut text = Vec::new(alloc);
    print_header(&mut text, Kind::NoCausal, 1, 4)?;
    print_stuck_row(&mut text, names, stuck.set())?;
    print_end(&mut text)?;
    Ok(text)
}

fn print_stuck_row(text: &mut Vec<u8>, names: &Names, set: &QSet) -> Result<(), Memory>
    requires { All (λ v. v < length names.now) set.now }
    ensures text { OnOk result (text.new.items ≡ text.old.items
        ++ line_text (row_line stuck_shape names.now (stuck_row set.now))) }
    ensures rising { IsRising set.now }
{
    // the proof needs that the set is in order
    let _members = set.len();
    let row = Parts {
        head: Head::B,
        number: 0,
        name: 0,
        set,
        constant: false,
    };
    print_row(text, names, Shape::Set, row)
}

fn print_least(alloc: Global, names: &Names, b: &Bound) -> Result<Vec<u8>, Memory>
    requires vertices { All (λ r. r.vertex < length names.now) b.now.layers }
    requires sets { AreRowsOf (length names.now) (λ r. r.vertex) (λ r. r.set) b.now.rows }
    requires numbers { HasShortBound b.now }
    ensures text { IfOk result (λ text. text.items ≡ cert_text names.now (least b.now)) }
    ensures own { OnOk result (HasOwnRows (least b.now)) }
{
    let mut text = Vec::new(alloc);
    print_header(&mut text, Kind::Least, 1, 4)?;
    print_depth(alloc, &mut text, names, b.depth())?;
    print_layers(alloc, &mut text, names, b)?;
    print_sets(&mut text, names, b)?;
    print_end(&mut text)?;
    Ok(text)
}

/// Writes the layers of a bound.
fn print_layers(alloc: Global, text: &mut Vec<u8>, names: &Names, b: &Bound) -> Result<(), Memory>
    requires vertices { All (λ r. r.vertex < length names.now) b.now.layers }
    requires numbers { All (λ r. r.layer ≤ 9999) b.now.layers }
    ensures text { OnOk result (text.new.items ≡ text.old.items
        ++ text_of (map (λ r. row_line least_shape names.now (layer_row r)) b.now.layers)) }
    ensures own { OnOk result (HaveOwnVertices (λ r. r.vertex) b.now.layers) }
{
    let none = QSet::new(alloc);
    'rows: for i in 0..b.layers() {
        let (vertex, layer) = b.layer_row(i);
        let parts = Parts {
            head: Head::L,
            number: layer as u16,
            name: vertex,
            set: &none,
            constant: false,
        };
        print_row(text, names, Shape::Ranked, parts)?;
    }
    Ok(())
}

/// Writes the sets of a bound.
fn print_sets(text: &mut Vec<u8>, names: &Names, b: &Bound) -> Result<(), Memory>
    requires sets { AreRowsOf (length names.now) (λ r. r.vertex) (λ r. r.set) b.now.rows }
    requires numbers { All (λ r. r.k ≤ 9999) b.now.rows }
    ensures text { OnOk result (text.new.items ≡ text.old.items
        ++ text_of (map (λ r. row_line least_shape names.now (bound_row r)) b.now.rows)) }
    ensures apart { OnOk result (AreApart b.now.rows) }
    ensures rising { OnOk result (All (λ r. IsRising r.set) b.now.rows) }
{
    'rows: for i in 0..b.len() {
        let (k, vertex, set) = b.row(i);
        // the proof needs that the set is in order
        let _members = set.len();
        let parts = Parts {
            head: Head::Y,
            number: k as u16,
            name: vertex,
            set,
            constant: false,
        };
        print_row(text, names, Shape::RankedSet, parts)?;
    }
    Ok(())
}
