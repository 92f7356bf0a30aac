//! The gates of an extracted circuit.

ghost use Rattle.std.specs.Prelude.{◌≡◌, ◌<◌, ◌∷◌, [], ◌&&◌};
ghost use Rattle.std.specs.Prelude.{OnOk, cond, false, true, flat_map, length};
ghost use Rattle.std.specs.Prelude.{nat_le, slice_set, unwrap_or};
ghost use Rattle.mc_model.specs.Numbers.{numbers_from};
ghost use Rattle.mc_model.specs.Phase.{negated};
ghost use Rattle.mc_model.specs.Pattern.{J};
ghost use Rattle.mc_model.specs.Graph.{size, base_angle};
ghost use Rattle.mc_model.specs.Made.{extracted_gates};
ghost use Rattle.mc_circuit.specs.Gates.{plain_gate};
ghost use Rattle.mc_extract.specs.Chains.{number_at};
ghost use Rattle.mc_extract.specs.Written.{with_gates, bit_at, cz_by, row_gates, first_row};
ghost use Rattle.mc_extract.specs.Written.{fixed_row, gates_of, IsPlan};

use mc_angle::Angle;
use mc_circuit::{CircuitBuilder, Gate};
use mc_graph::OpenGraph;
use mc_model::Memory;

fn number_of(numbers: &[u16], i: u16) -> u16
    requires { i < length numbers.now }
    ensures { result ≡ number_at numbers.now i }
{
    numbers[i as usize]
}

fn push<const H: usize>(circuit: &mut CircuitBuilder<H>, gate: Gate<H>) -> Result<(), Memory>
    ensures { OnOk result (circuit.new ≡ with_gates circuit.old (plain_gate gate.entry ∷ [])) }
{
    match circuit.push(gate) {
        Ok(()) => Ok(()),
        // each operand is a wire, and there is room
        Err(_) => Err(Memory),
    }
}

fn push_if<const H: usize>(
    circuit: &mut CircuitBuilder<H>,
    told: bool,
    gate: Gate<H>,
) -> Result<(), Memory>
    ensures { OnOk result (circuit.new ≡ with_gates circuit.old (cond told (plain_gate gate.entry ∷ []) [])) }
{
    if !told {
        return Ok(());
    }
    push(circuit, gate)
}

/// The CZ of the wires of two vertices, that of the lower-numbered vertex first.
fn cz_of<const H: usize>(wires: &[u16], v: u16, w: u16) -> Gate<H>
    requires { (v < length wires.now) × (w < length wires.now) }
    ensures { plain_gate result ≡ cz_by wires.now v w }
{
    if w < v {
        Gate::Cz {
            a: wires[w as usize],
            b: wires[v as usize],
        }
    } else {
        Gate::Cz {
            a: wires[v as usize],
            b: wires[w as usize],
        }
    }
}

fn is_met(current: &[bool], from: u16, w: u16) -> bool
    requires { w < length current.now }
    ensures { result ≡ (nat_le from w && bit_at current.now w) }
{
    from <= w && current[w as usize]
}

/// Adds the CZ gates of a vertex with its current neighbours from a number on.
fn push_row<const H: usize>(
    g: &OpenGraph<H>,
    wires: &[u16],
    current: &[bool],
    from: u16,
    v: u16,
    circuit: &mut CircuitBuilder<H>,
) -> Result<(), Memory>
    requires vertex { v < size g.now }
    requires long { (length wires.now ≡ size g.now) × (length current.now ≡ size g.now) }
    ensures { OnOk result (circuit.new ≡
        with_gates circuit.old (row_gates g.now wires.now current.now from v)) }
{
    let row = g.neighbours(v);
    'row: for w in row {
        push_if(circuit, is_met(current, from, *w), cz_of(wires, v, *w))?;
    }
    Ok(())
}

fn push_row_if_first<const H: usize>(
    g: &OpenGraph<H>,
    wires: &[u16],
    first: &[bool],
    v: u16,
    circuit: &mut CircuitBuilder<H>,
) -> Result<(), Memory>
    requires vertex { v < size g.now }
    requires long { (length wires.now ≡ size g.now) × (length first.now ≡ size g.now) }
    ensures { OnOk result (circuit.new ≡
        with_gates circuit.old (first_row g.now wires.now first.now v)) }
{
    let _count = g.len();
    if !first[v as usize] {
        return Ok(());
    }
    push_row(g, wires, first, v + 1, v, circuit)
}

/// Adds the CZ gates of the edges between first vertices.
fn push_first<const H: usize>(
    g: &OpenGraph<H>,
    wires: &[u16],
    first: &[bool],
    circuit: &mut CircuitBuilder<H>,
) -> Result<(), Memory>
    requires { (length wires.now ≡ size g.now) × (length first.now ≡ size g.now) }
    ensures { OnOk result (circuit.new ≡ with_gates circuit.old
        (flat_map (first_row g.now wires.now first.now) (numbers_from 0 (size g.now)))) }
{
    'vertices: for v in 0..g.len() {
        push_row_if_first(g, wires, first, v, circuit)?;
    }
    Ok(())
}

/// The angle of the gate for a vertex.
fn angle_for<const H: usize>(g: &OpenGraph<H>, v: u16) -> Angle<H>
    requires { v < size g.now }
    ensures { result ≡ negated H (unwrap_or (base_angle g.now v) 0) }
{
    let _count = g.len();
    let angle = match g.angle_of(v) {
        Some(angle) => angle,
        None => Angle::of(0),
    };
    angle.neg()
}

/// Puts the next of a vertex in its place among the current ones.
fn move_on(next: u16, i: u16, current: &mut [bool])
    requires { (i < length current.old) × (next < length current.old) }
    ensures { current.new ≡ slice_set (slice_set current.old i false) next true }
{
    current[i as usize] = false;
    current[next as usize] = true;
}

/// Adds `J` on the wire of a vertex, and the CZ gates of its next with the vertices that are current then.
fn push_measured<const H: usize>(
    g: &OpenGraph<H>,
    wires: &[u16],
    next: u16,
    i: u16,
    current: &mut [bool],
    circuit: &mut CircuitBuilder<H>,
) -> Result<(), Memory>
    requires vertex { (i < size g.now) × (next < size g.now) }
    requires long { (length wires.now ≡ size g.now) × (length current.old ≡ size g.now) }
    ensures gates { OnOk result (circuit.new ≡ with_gates circuit.old
        (J (number_at wires.now i) (negated H (unwrap_or (base_angle g.now i) 0))
        ∷ row_gates g.now wires.now current.new 0 next)) }
    ensures current { OnOk result (current.new ≡ slice_set (slice_set current.old i false) next true) }
{
    let gate = Gate::J {
        wire: number_of(wires, i),
        angle: angle_for(g, i),
    };
    push(circuit, gate)?;
    move_on(next, i, current);
    push_row(g, wires, current, 0, next, circuit)
}

/// Adds the gates of the vertices in measuring order.
fn push_all_measured<const H: usize>(
    g: &OpenGraph<H>,
    next: &[u16],
    order: &[u16],
    wires: &[u16],
    current: &mut [bool],
    circuit: &mut CircuitBuilder<H>,
) -> Result<(), Memory>
    requires { IsPlan g.now next.now order.now wires.now current.old }
    ensures { OnOk result (circuit.new ≡ with_gates circuit.old
        (extracted_gates g.now (number_at next.now) H [] order.now)) }
{
    let _count = g.len();
    'order: for i in order {
        push_measured(g, wires, number_of(next, *i), *i, current, circuit)?;
    }
    Ok(())
}

/// Adds two gates `J` on a wire, if told to.
fn push_two_if<const H: usize>(
    circuit: &mut CircuitBuilder<H>,
    told: bool,
    wire: u16,
    one: Angle<H>,
    other: Angle<H>,
) -> Result<(), Memory>
    ensures { OnOk result (circuit.new ≡ with_gates circuit.old
        (cond told (J wire one.entry ∷ J wire other.entry ∷ []) [])) }
{
    if !told {
        return Ok(());
    }
    push(circuit, Gate::J { wire, angle: one })?;
    push(circuit, Gate::J { wire, angle: other })
}

/// Adds the gates of the fixed corrections of a vertex.
fn push_fixed_row<const H: usize>(
    g: &OpenGraph<H>,
    wires: &[u16],
    v: u16,
    circuit: &mut CircuitBuilder<H>,
) -> Result<(), Memory>
    requires { (v < size g.now) × (length wires.now ≡ size g.now) }
    ensures { OnOk result (circuit.new ≡ with_gates circuit.old (fixed_row H g.now wires.now v)) }
{
    let _count = g.len();
    let fixed = g.fixed(v);
    let wire = number_of(wires, v);
    let none = Angle::of(0);
    let half = none.half_turn();
    push_two_if(circuit, fixed.x, wire, none, half)?;
    push_two_if(circuit, fixed.z, wire, half, none)
}

/// Adds the gates of the fixed corrections, by rising vertex.
fn push_fixed<const H: usize>(
    g: &OpenGraph<H>,
    wires: &[u16],
    circuit: &mut CircuitBuilder<H>,
) -> Result<(), Memory>
    requires { length wires.now ≡ size g.now }
    ensures { OnOk result (circuit.new ≡ with_gates circuit.old
        (flat_map (fixed_row H g.now wires.now) (numbers_from 0 (size g.now)))) }
{
    'vertices: for v in 0..g.len() {
        push_fixed_row(g, wires, v, circuit)?;
    }
    Ok(())
}

/// Adds the gates of the edges between first vertices, of the vertices in measuring order, and of the fixed corrections.
pub(crate) fn push_gates<const H: usize>(
    g: &OpenGraph<H>,
    next: &[u16],
    order: &[u16],
    wires: &[u16],
    first: &mut [bool],
    circuit: &mut CircuitBuilder<H>,
) -> Result<(), Memory>
    requires { IsPlan g.now next.now order.now wires.now first.old }
    ensures { OnOk result (circuit.new ≡ with_gates circuit.old
        (gates_of H g.now (number_at next.now) order.now)) }
{
    let _count = g.len();
    push_first(g, wires, first, circuit)?;
    push_all_measured(g, next, order, wires, first, circuit)?;
    push_fixed(g, wires, circuit)?;
    Ok(())
}
