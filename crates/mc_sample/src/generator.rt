//! Making sample circuits.

ghost use Rattle.std.specs.Prelude.{◌≡◌, ◌<◌, ◌≤◌, [], ◌∷◌, ◌++◌, map, IfOk, OnOk};
ghost use Rattle.mc_model.specs.Numbers.{numbers_from};
ghost use Rattle.mc_sample.specs.Generator.{next_number as following, wire_by as wire_of};
ghost use Rattle.mc_sample.specs.Generator.{angle_by as angle_of, other_by as other_of, gates_by};
ghost use Rattle.mc_sample.specs.Generator.{wire_name as name_of, sample_circuit};
ghost use Rattle.mc_circuit.specs.Gates.{plain_gate};
ghost use Rattle.mc_sample.specs.Parts.{wired};

use mc_angle::Angle;
use mc_circuit::{Circuit, CircuitBuilder, Gate};
use mc_model::Memory;
use mc_names::{Name, Names};
use std::alloc::Global;

/// How many wires of a sample are inputs.
const INPUTS: u8 = 4;

/// How many wires a sample has.
const WIRES: u8 = 8;

/// The number behind a number.
fn next_number(x: u32) -> u32
    ensures { result ≡ following x }
{
    ((x as u64 * 1_103_515_245 + 12_345) % 2_147_483_648) as u32
}

/// The wire of the `J` gate.
fn wire_by(x: u32) -> u16
    ensures wire { result ≡ wire_of x }
    ensures within { result < 8 }
{
    (x / 65_536 % 8) as u16
}

/// The angle of the `J` gate.
fn angle_by(x: u32) -> Angle<4>
    ensures { result ≡ angle_of x }
{
    Angle::of((x / 524_288 % 8) as i64)
}

/// The other wire of the CZ gate.
fn other_by(x: u32) -> u16
    ensures { result ≡ other_of x }
{
    (wire_by(x) + 1 + (x / 4_194_304 % 7) as u16) % 8
}

fn wire_name(v: u8) -> Name
    requires { v < 8 }
    ensures { result ≡ name_of v }
{
    match Name::read(&[b'w', b'0' + v]) {
        Some(name) => name,
        None => unreachable!(),
    }
}

/// The names of the inputs.
fn input_names(alloc: Global) -> Result<Names, Memory>
    ensures { IfOk result (λ names. names ≡ map name_of (numbers_from 0 4)) }
{
    let mut names = Names::new(alloc);
    'inputs: for v in 0..INPUTS {
        let Ok(_) = names.add(wire_name(v)) else {
            return Err(Memory);
        };
    }
    Ok(names)
}

/// The wires, without gates.
fn all_wires(alloc: Global) -> Result<CircuitBuilder<4>, Memory>
    ensures { IfOk result (λ builder. builder ≡ wired 8 []) }
{
    let names = input_names(alloc)?;
    let mut builder = CircuitBuilder::new(alloc, names);
    'wires: for v in INPUTS..WIRES {
        let Ok(_) = builder.plus(wire_name(v)) else {
            return Err(Memory);
        };
    }
    Ok(builder)
}

fn push(builder: &mut CircuitBuilder<4>, gate: Gate<4>) -> Result<(), Memory>
    ensures { OnOk result (builder.new ≡
        record builder.old { gates = builder.old.gates ++ plain_gate gate ∷ [] }) }
{
    match builder.push(gate) {
        Ok(()) => Ok(()),
        Err(_) => Err(Memory),
    }
}

/// Adds the gates by a number.
fn push_gates(builder: &mut CircuitBuilder<4>, x: u32) -> Result<(), Memory>
    ensures { OnOk result (builder.new ≡
        record builder.old { gates = builder.old.gates ++ gates_by x }) }
{
    let wire = wire_by(x);
    let j = Gate::J {
        wire,
        angle: angle_by(x),
    };
    push(builder, j)?;
    let cz = Gate::Cz {
        a: wire,
        b: other_by(x),
    };
    push(builder, cz)
}

fn finish(builder: CircuitBuilder<4>) -> Result<Circuit<4>, Memory>
    ensures { IfOk result (λ circuit. circuit ≡
        record builder { outputs = numbers_from 0 8 }) }
{
    match builder.finish(&[0, 1, 2, 3, 4, 5, 6, 7]) {
        Ok(circuit) => Ok(circuit),
        Err(_) => Err(Memory),
    }
}

/// The sample circuit of a number from 1 to 200: on eight wires, of which four are inputs, that many
/// `J` gates, each with a CZ behind it.
pub fn sample(alloc: Global, n: u32) -> Result<Circuit<4>, Memory>
    requires { (1 ≤ n) × (n ≤ 200) }
    ensures { IfOk result (λ circuit. circuit ≡ sample_circuit n) }
{
    let mut builder = all_wires(alloc)?;
    let mut x = n;
    'gates: for _step in 0..n {
        x = next_number(x);
        push_gates(&mut builder, x)?;
    }
    finish(builder)
}
