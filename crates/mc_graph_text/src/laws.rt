//! What the canonical texts of open graphs are, each law on the contract of a function that does nothing.

ghost use Rattle.std.specs.Prelude.{◌≡◌, [], ◌∷◌, None, IsTrue, map, take};
ghost use Rattle.mc_lex.specs.declared.kind.Kind.TheVariants as kind;
ghost use Rattle.mc_lex.specs.Lines.{lines_of, end_of};
ghost use Rattle.mc_model.specs.Graph.{OpenGraph};
ghost use Rattle.mc_model.specs.Steps.{is_permitted};
ghost use Rattle.mc_text.specs.Headers.{header_words};
ghost use Rattle.mc_text.specs.Judged.{first_in_section, section_lines, behind_section, words_of};
ghost use Rattle.mc_graph.specs.Graphs.{IsGraph};
ghost use Rattle.mc_graph_text.specs.Judge.{graph_rules};
ghost use Rattle.mc_graph_text.specs.Value.{graph_in};
ghost use Rattle.mc_graph_text.specs.Canonical.{graph_version, graph_text, behind_header};

/// Reading takes the whole canonical text of an open graph, by the rules of its version, and gives the graph back. The first
/// line is the header; what that says of the kind, the version and the step is a law of `mc_text`.
pub fn canonical_texts_are_read<const H: usize>()
    requires { IsTrue (is_permitted H) }
    ensures header { (g : OpenGraph) → map (λ line. words_of line.items) (take 1 (lines_of (graph_text H g)))
        ≡ header_words kind.Graph (graph_version g) H ∷ [] }
    ensures clean { (g : OpenGraph) → IsGraph H g → first_in_section (graph_rules (graph_version g)) []
        (behind_header (graph_text H g)) (end_of (graph_text H g)) ≡ None }
    ensures whole { (g : OpenGraph) → IsGraph H g → behind_section (behind_header (graph_text H g)) ≡ [] }
    ensures same { (g : OpenGraph) → IsGraph H g
        → graph_in H (section_lines (behind_header (graph_text H g))) ≡ g }
{}

/// Two open graphs have two canonical texts.
pub fn canonical_texts_differ<const H: usize>()
    requires { IsTrue (is_permitted H) }
    ensures { (g k : OpenGraph) → IsGraph H g → IsGraph H k → graph_text H g ≡ graph_text H k → g ≡ k }
{}
