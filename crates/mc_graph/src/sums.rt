//! What the commands of a pattern make of its graph.

ghost use Rattle.std.specs.Prelude.{◌≡◌, ℕ, ◌*◌, ◌%◌, ◌<◌, [], ◌∷◌, All, IfOk};
ghost use Rattle.std.specs.Prelude.{cond, false, length, map};
ghost use Rattle.mc_model.specs.Bits.{◌⊻◌};
ghost use Rattle.mc_model.specs.Phase.{negated, measured_angle};
ghost use Rattle.mc_model.specs.StandardForm.{is_edge};
ghost use Rattle.mc_pattern.specs.Commands.{plain_command};
ghost use Rattle.mc_pattern.specs.Rules.{operands, is_loop};
ghost use Rattle.mc_graph.specs.Links.{linked, AreLinks};
ghost use Rattle.mc_graph.specs.Sums.{label_at, with_constants, with_base, taken_labels, settled};
ghost use Rattle.mc_graph.specs.Sums.{AreSums, AreSettled};

use crate::fixed::Fixed;
use crate::label::Label;
use crate::links::Links;
use mc_angle::Angle;
use mc_model::Memory;
use mc_pattern::{Command, Pattern};
use std::alloc::Global;

/// Adds to the constants of a qubit's sums.
fn add_constants<const H: usize>(labels: &mut [Label<H>], q: u16, x: bool, z: bool)
    requires { q < length labels.old }
    ensures { labels.new ≡ with_constants labels.old q x z }
{
    let label = labels[q as usize];
    labels[q as usize] = Label {
        angle: label.angle,
        fixed: Fixed {
            x: label.fixed.x ^ x,
            z: label.fixed.z ^ z,
        },
    };
}

/// Sets the base angle of a qubit.
fn set_base<const H: usize>(labels: &mut [Label<H>], q: u16, angle: Angle<H>)
    requires { q < length labels.old }
    ensures { labels.new ≡ with_base labels.old q angle.entry }
{
    let label = labels[q as usize];
    labels[q as usize] = Label {
        angle: Some(angle),
        fixed: label.fixed,
    };
}

/// Hands the constant of the `X` sum of each of two qubits to the `Z` sum of the other.
fn entangle<const H: usize>(labels: &mut [Label<H>], q: u16, r: u16)
    requires { (q < length labels.old) × (r < length labels.old) }
    ensures { labels.new ≡ with_constants
        (with_constants labels.old q false (label_at labels.old r).fixed.x)
        r false (label_at labels.old q).fixed.x }
{
    let of_q = labels[q as usize].fixed.x;
    let of_r = labels[r as usize].fixed.x;
    add_constants(labels, q, false, of_r);
    add_constants(labels, r, false, of_q);
}

/// What a command adds to the base angles and to the constants of the sums so far.
fn take<const H: usize>(labels: &mut [Label<H>], command: &Command<H>)
    requires { All (λ q. q < length labels.old) (operands (plain_command command.now)) }
    ensures { labels.new ≡ taken_labels (plain_command command.now) labels.old }
{
    match command {
        Command::Prep(_) => {}
        Command::Ent(q, r) => entangle(labels, *q, *r),
        Command::Meas { q, angle, s, t } => {
            set_base(labels, *q, *angle);
            add_constants(labels, *q, s.constant(), t.constant());
        }
        Command::FixX { q, s } => add_constants(labels, *q, s.constant(), false),
        Command::FixZ { q, s } => add_constants(labels, *q, false, s.constant()),
    }
}

/// What all commands of a pattern add.
fn take_all<const H: usize>(labels: &mut [Label<H>], p: &Pattern<H>)
    requires { AreSums (length p.now.names) [] labels.old }
    ensures { AreSums (length p.now.names) p.now.commands labels.new }
{
    let _count = p.names().len();
    'commands: for command in p.commands() {
        take(labels, command);
    }
}

fn signed<const H: usize>(angle: Angle<H>, s: bool) -> Angle<H>
    ensures { result ≡ cond s (negated H angle.entry) angle.entry }
{
    if s { angle.neg() } else { angle }
}

/// The angle of a measurement, by the values of its signals.
fn measured_at<const H: usize>(angle: Angle<H>, s: bool, t: bool) -> Angle<H>
    ensures { result ≡ measured_angle H angle.entry s t % (2 * H) }
{
    let signed = signed(angle, s);
    let _steps = signed.steps();
    if t { signed.half_turn() } else { signed }
}

/// The label of a vertex, by the base angle and the constants of its qubit.
fn settle<const H: usize>(label: Label<H>) -> Label<H>
    ensures { result ≡ settled label.entry }
{
    match label.angle {
        Some(angle) => Label {
            angle: Some(measured_at(angle, label.fixed.x, label.fixed.z)),
            fixed: Fixed { x: false, z: false },
        },
        None => label,
    }
}

fn settle_all<const H: usize>(alloc: Global, sums: &[Label<H>]) -> Result<Vec<Label<H>>, Memory>
    ensures { IfOk result (λ labels. labels.items ≡ map settled sums.now) }
{
    let mut labels = Vec::new(alloc);
    'sums: for label in sums {
        let Ok(()) = labels.push(settle(*label)) else {
            return Err(Memory);
        };
    }
    Ok(labels)
}

/// The labels of the vertices of a pattern's graph.
pub(crate) fn labels_of<const H: usize>(
    alloc: Global,
    p: &Pattern<H>,
) -> Result<Vec<Label<H>>, Memory>
    ensures { IfOk result (λ labels. AreSettled (length p.now.names) p.now.commands labels.items) }
{
    let blank = Label {
        angle: None,
        fixed: Fixed { x: false, z: false },
    };
    let Ok(mut sums) = vec![in alloc; blank; p.names().len() as usize] else {
        return Err(Memory);
    };
    take_all(&mut sums, p);
    let labels = settle_all(alloc, &sums)?;
    Ok(labels)
}

/// Joins the two qubits that a command entangles, or parts them where they are joined.
fn toggle<const H: usize>(links: &mut Links, command: &Command<H>)
    requires small { All (λ q. q < 256) (operands (plain_command command.now)) }
    requires apart { is_loop (plain_command command.now) ≡ false }
    ensures pairs { (i j : ℕ) →
        linked links.new i j ≡ (is_edge (plain_command command.now ∷ []) i j ⊻ linked links.old i j) }
    ensures valid { AreLinks links.old → AreLinks links.new }
{
    if let Command::Ent(q, r) = command {
        links.toggle(*q, *r);
    }
}

/// The pairs of qubits that a pattern entangles an odd number of times.
pub(crate) fn links_of<const H: usize>(alloc: Global, p: &Pattern<H>) -> Result<Links, Memory>
    ensures pairs { IfOk result (λ links. (i j : ℕ) →
        linked links i j ≡ is_edge p.now.commands i j) }
    ensures valid { IfOk result (λ links. AreLinks links) }
{
    let _count = p.names().len();
    let mut links = Links::new(alloc)?;
    'commands: for command in p.commands() {
        toggle(&mut links, command);
    }
    Ok(links)
}
