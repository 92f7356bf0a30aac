//! What a circuit's section without a fault spells.

ghost use Rattle.std.specs.Prelude.{◌≡◌, List, [], None, IsTrue};
ghost use Rattle.mc_lex.specs.Lines.{Line};
ghost use Rattle.mc_model.specs.Steps.{is_permitted};
ghost use Rattle.mc_text.specs.Judged.{Place, first_in_section, section_lines};
ghost use Rattle.mc_circuit.specs.Circuits.{IsCircuit};
ghost use Rattle.mc_circuit.specs.Judge.{circuit_rules};
ghost use Rattle.mc_circuit.specs.Value.{circuit_of};

/// Lines without a fault and a passed limit spell a circuit.
pub fn clean_texts_spell_circuits<const H: usize>()
    requires { IsTrue (is_permitted H) }
    ensures { (lines : List Line) (last : Place)
        → first_in_section circuit_rules [] lines last ≡ None
        → IsCircuit H (circuit_of H (section_lines lines)) }
{}
