//! What a section without a fault spells.

ghost use Rattle.std.specs.Prelude.{◌≡◌, ℕ, List, [], None, IsTrue};
ghost use Rattle.mc_lex.specs.Lines.{Line};
ghost use Rattle.mc_model.specs.Steps.{is_permitted};
ghost use Rattle.mc_text.specs.Judged.{Place, first_in_section, section_lines};
ghost use Rattle.mc_graph.specs.Graphs.{IsGraph};
ghost use Rattle.mc_graph_text.specs.Judge.{graph_rules};
ghost use Rattle.mc_graph_text.specs.Value.{graph_in};

/// Lines without a fault and a passed limit spell an open graph.
pub fn clean_texts_spell_graphs<const H: usize>()
    requires { IsTrue (is_permitted H) }
    ensures { (version : ℕ) (lines : List Line) (end : Place)
        → first_in_section (graph_rules version) [] lines end ≡ None
        → IsGraph H (graph_in H (section_lines lines)) }
{}
