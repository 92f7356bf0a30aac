//! Standardisation.

ghost use Rattle.std.specs.Prelude.{◌≡◌, ℕ, ◌<◌, IfOk};
ghost use Rattle.mc_model.specs.Bits.{Bits};
ghost use Rattle.mc_model.specs.Ring.{ring};
ghost use Rattle.mc_model.specs.Alike.{AlikeBranches};
ghost use Rattle.mc_model.specs.StandardForm.{standard_form};

use crate::listing::copied;
use crate::pairs::edges_of;
use crate::pass::{Pass, pass_over};
use crate::signals::fixes_of;
use crate::standard::Standard;
use mc_model::Memory;
use mc_pattern::Pattern;
use mc_rules::{one_pass, standard_is_alike, standard_is_standard};
use std::alloc::Global;

/// The standard form of a pattern, in one pass over its commands: the same names and outputs, and
/// of the commands the closed sums (Danos, Kashefi and Panangaden 2007). At every outcome list its
/// branch map is that of the pattern, up to one phase.
pub fn standardise<const H: usize>(alloc: Global, p: &Pattern<H>) -> Result<Standard<H>, Memory>
    ensures form { IfOk result (λ standard. standard ≡ standard_form p.now) }
    ensures alike { IfOk result (λ standard. (half : ℕ) → 0 < half → (o : Bits) →
        AlikeBranches (ring half) p.now o standard o) }
{
    one_pass();
    standard_is_standard();
    standard_is_alike();
    let names = p.names().copy()?;
    let qubits = names.len();
    let Pass {
        preps,
        odd,
        measures,
        xs,
        zs,
    } = pass_over(alloc, p.commands())?;
    Ok(Standard {
        names,
        inputs: p.inputs(),
        outs: copied(alloc, p.outputs())?,
        preps,
        edges: edges_of(alloc, odd.as_slice(), qubits)?,
        measures,
        fixes: fixes_of(alloc, xs.as_slice(), zs.as_slice(), qubits)?,
    })
}
