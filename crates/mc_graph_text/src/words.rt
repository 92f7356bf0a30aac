//! What the words of a graph's lines do.

ghost use Rattle.std.specs.Prelude.{◌≡◌, ℕ, ◌<◌, ◌≤◌, List, Option, ◌∷◌, []};
ghost use Rattle.std.specs.Prelude.{OnOk, IfOk, IfErr, IsTrue, Some, None};
ghost use Rattle.mc_angle.specs.Angle.{angle_of};
ghost use Rattle.mc_model.specs.Graph.{size};
ghost use Rattle.mc_model.specs.Names.{place_of};
ghost use Rattle.mc_model.specs.Numbers.{is_member};
ghost use Rattle.mc_model.specs.Steps.{is_permitted};
ghost use Rattle.mc_text.specs.Rules.{new_name, known_name, angle_word, number_in, AreNumbers};
ghost use Rattle.mc_text.specs.Stops.{IsStop};
ghost use Rattle.mc_graph.specs.Building.{with_vertex, with_edge, with_angle};
ghost use Rattle.mc_graph.specs.Rules.{angle_rule};
ghost use Rattle.mc_graph_text.specs.Value.{Spelled};
ghost use Rattle.mc_graph_text.specs.Judge.{still_name, other_name, output_name, fixed_name};
ghost use Rattle.mc_graph_text.specs.Kept.{graph_so_far, IsFirst, Lists, with_x, with_z};

use mc_graph::{GraphBuilder, GraphEnd};
use mc_names::Name;
use mc_text::{Fault, Stop, angle, known};

/// The number of the limit on the names of a text.
const NAMES: u8 = 2;

/// One more than the names that a text may define.
const TOO_MANY: u64 = 257;

/// Defines a vertex.
pub(crate) fn take_vertex<const H: usize>(
    graph: &mut GraphBuilder<H>,
    word: &[u8],
) -> Result<(), Stop>
    ensures clean { OnOk result (new_name graph.old.names word.now ≡ None) }
    ensures added { OnOk result (graph.new ≡ with_vertex graph.old word.now) }
    ensures few { OnOk result (size graph.old < 256) }
    ensures longer { size graph.old ≤ size graph.new }
    ensures err { IfErr result (λ stop. IsStop stop (new_name graph.old.names word.now)) }
{
    let Some(name) = Name::read(word) else {
        return Err(Stop::Fault(Fault::NotName));
    };
    match graph.vertex(name) {
        Ok(_) => Ok(()),
        Err(GraphEnd::Twice(_)) => Err(Stop::Fault(Fault::DefinedTwice)),
        Err(GraphEnd::Full) => Err(Stop::Limit {
            which: NAMES,
            found: TOO_MANY,
        }),
        Err(GraphEnd::Rule(_) | GraphEnd::Memory) => Err(Stop::Memory),
    }
}

/// Takes the first end of an edge.
pub(crate) fn take_end<const H: usize>(
    graph: &GraphBuilder<H>,
    first: &mut u16,
    word: &[u8],
) -> Result<(), Stop>
    ensures clean { OnOk result (known_name graph.now.names word.now ≡ None) }
    ensures place { OnOk result (place_of graph.now.names word.now ≡ Some first.new) }
    ensures err { IfErr result (λ stop. IsStop stop (known_name graph.now.names word.now)) }
{
    match known(graph.names(), word) {
        Ok(number) => {
            *first = number;
            Ok(())
        }
        Err(stop) => Err(stop),
    }
}

/// Takes the other end of an edge, whose first has a number, and joins the two.
pub(crate) fn take_other_end<const H: usize>(
    graph: &mut GraphBuilder<H>,
    first: u16,
    word: &[u8],
) -> Result<(), Stop>
    ensures clean { OnOk result ((s : Spelled) (name : Option (List ℕ))
        → graph.old ≡ graph_so_far H s → IsFirst s.names name first
        → other_name s name word.now ≡ None) }
    ensures joined { OnOk result
        (graph.new ≡ with_edge graph.old first (number_in graph.old.names word.now)) }
    ensures longer { size graph.old ≤ size graph.new }
    ensures err { IfErr result (λ stop. (s : Spelled) (name : Option (List ℕ))
        → graph.old ≡ graph_so_far H s → IsFirst s.names name first
        → IsStop stop (other_name s name word.now)) }
{
    let number = match known(graph.names(), word) {
        Ok(number) => number,
        Err(stop) => return Err(stop),
    };
    if first == number {
        return Err(Stop::Fault(Fault::SameOperand));
    }
    match graph.edge(first, number) {
        Ok(()) => Ok(()),
        Err(_) => Err(Stop::Fault(Fault::EdgeTwice)),
    }
}

/// The number of a vertex that has no angle.
fn still<const H: usize>(graph: &GraphBuilder<H>, word: &[u8]) -> Result<u16, Stop>
    ensures clean { OnOk result ((s : Spelled) → graph.now ≡ graph_so_far H s
        → still_name s word.now ≡ None) }
    ensures place { IfOk result (λ q. place_of graph.now.names word.now ≡ Some q) }
    ensures free { IfOk result (λ q. angle_rule graph.now q ≡ None) }
    ensures err { IfErr result (λ stop. (s : Spelled) → graph.now ≡ graph_so_far H s
        → IsStop stop (still_name s word.now)) }
{
    match known(graph.names(), word) {
        Ok(number) => {
            if graph.has_angle(number) {
                return Err(Stop::Fault(Fault::Measured));
            }
            Ok(number)
        }
        Err(stop) => Err(stop),
    }
}

/// Takes a vertex that gets an angle.
pub(crate) fn take_measured<const H: usize>(
    graph: &GraphBuilder<H>,
    first: &mut u16,
    word: &[u8],
) -> Result<(), Stop>
    ensures clean { OnOk result ((s : Spelled) → graph.now ≡ graph_so_far H s
        → still_name s word.now ≡ None) }
    ensures place { OnOk result (place_of graph.now.names word.now ≡ Some first.new) }
    ensures free { OnOk result (angle_rule graph.now first.new ≡ None) }
    ensures err { IfErr result (λ stop. (s : Spelled) → graph.now ≡ graph_so_far H s
        → IsStop stop (still_name s word.now)) }
{
    match still(graph, word) {
        Ok(number) => {
            *first = number;
            Ok(())
        }
        Err(stop) => Err(stop),
    }
}

/// Takes the angle of a vertex that has none.
pub(crate) fn take_angle<const H: usize>(
    graph: &mut GraphBuilder<H>,
    first: u16,
    word: &[u8],
) -> Result<(), Stop>
    requires { IsTrue (is_permitted H) }
    ensures clean { OnOk result (angle_word word.now ≡ None) }
    ensures angle { OnOk result (graph.new ≡ with_angle graph.old first (angle_of H word.now)) }
    ensures longer { size graph.old ≤ size graph.new }
    ensures err { IfErr result (λ stop. angle_rule graph.old first ≡ None
        → IsStop stop (angle_word word.now)) }
{
    let angle = match angle(word) {
        Ok(angle) => angle,
        Err(stop) => return Err(stop),
    };
    match graph.angle(first, angle) {
        Ok(()) => Ok(()),
        Err(_) => Err(Stop::Fault(Fault::Measured)),
    }
}

pub(crate) fn has(numbers: &[u16], number: u16) -> bool
    ensures { result ≡ is_member numbers.now number }
{
    numbers.iter().any(|other| number == *other)
}

/// Takes a vertex that is listed as an output.
pub(crate) fn take_output<const H: usize>(
    graph: &GraphBuilder<H>,
    outputs: &mut Vec<u16>,
    word: &[u8],
) -> Result<(), Stop>
    ensures clean { OnOk result ((s : Spelled) → graph.now ≡ graph_so_far H s
        → AreNumbers s.names s.outputs outputs.old.items → output_name s word.now ≡ None) }
    ensures lists { OnOk result
        (Lists graph.now.names outputs.old.items outputs.new.items (word.now ∷ [])) }
    ensures err { IfErr result (λ stop. (s : Spelled) → graph.now ≡ graph_so_far H s
        → AreNumbers s.names s.outputs outputs.old.items
        → IsStop stop (output_name s word.now)) }
{
    let number = match still(graph, word) {
        Ok(number) => number,
        Err(stop) => return Err(stop),
    };
    if has(outputs.as_slice(), number) {
        return Err(Stop::Fault(Fault::ListedTwice));
    }
    match outputs.push(number) {
        Ok(_) => Ok(()),
        Err(_) => Err(Stop::Memory),
    }
}

/// Takes a vertex that gets a fixed `X`.
pub(crate) fn take_fixed_x<const H: usize>(
    graph: &mut GraphBuilder<H>,
    word: &[u8],
) -> Result<(), Stop>
    ensures clean { OnOk result ((s : Spelled) → graph.old ≡ graph_so_far H s
        → fixed_name s s.xs word.now ≡ None) }
    ensures fixed { OnOk result
        (graph.new ≡ with_x graph.old (number_in graph.old.names word.now)) }
    ensures longer { size graph.old ≤ size graph.new }
    ensures err { IfErr result (λ stop. (s : Spelled) → graph.old ≡ graph_so_far H s
        → IsStop stop (fixed_name s s.xs word.now)) }
{
    let number = match still(graph, word) {
        Ok(number) => number,
        Err(stop) => return Err(stop),
    };
    match graph.fix_x(number) {
        Ok(()) => Ok(()),
        Err(_) => Err(Stop::Fault(Fault::FixedTwice)),
    }
}

/// Takes a vertex that gets a fixed `Z`.
pub(crate) fn take_fixed_z<const H: usize>(
    graph: &mut GraphBuilder<H>,
    word: &[u8],
) -> Result<(), Stop>
    ensures clean { OnOk result ((s : Spelled) → graph.old ≡ graph_so_far H s
        → fixed_name s s.zs word.now ≡ None) }
    ensures fixed { OnOk result
        (graph.new ≡ with_z graph.old (number_in graph.old.names word.now)) }
    ensures longer { size graph.old ≤ size graph.new }
    ensures err { IfErr result (λ stop. (s : Spelled) → graph.old ≡ graph_so_far H s
        → IsStop stop (fixed_name s s.zs word.now)) }
{
    let number = match still(graph, word) {
        Ok(number) => number,
        Err(stop) => return Err(stop),
    };
    match graph.fix_z(number) {
        Ok(()) => Ok(()),
        Err(_) => Err(Stop::Fault(Fault::FixedTwice)),
    }
}
