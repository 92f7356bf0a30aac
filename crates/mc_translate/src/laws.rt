//! What is proved of translations (Danos, Kashefi and Panangaden 2007).

ghost use Rattle.mc_translate.specs.Laws.{TranslationCounts, TranslationKeepsTable};
ghost use Rattle.mc_translate.specs.Laws.{TranslationScale};
ghost use Rattle.mc_translate.specs.Laws.{TranslationsAreValid, TranslationsHaveCausalFlows};
ghost use Rattle.mc_translate.specs.Laws.{TranslationsHaveFlows, TranslationsHaveNoConstants};

/// Whatever the outcomes, the branch map of a translated circuit is the circuit's table.
pub fn translation_keeps_table()
    ensures { TranslationKeepsTable }
{}

/// The graph of every translation has a causal flow.
pub fn translations_have_causal_flows()
    ensures { TranslationsHaveCausalFlows }
{}

/// So it has a generalised flow.
pub fn translations_have_flows()
    ensures { TranslationsHaveFlows }
{}

/// Within 256 qubits a translation is a valid pattern.
pub fn translations_are_valid()
    ensures { TranslationsAreValid }
{}

/// No signal of a translation has the constant.
pub fn translations_have_no_constants()
    ensures { TranslationsHaveNoConstants }
{}

/// A translation has the preparations and `J` gates of the circuit, and a measurement for each `J`.
pub fn translation_has_scale()
    ensures { TranslationScale }
{}

/// A translation prepares a qubit for each wire that is no input and for each `J`, and measures one
/// for each `J`.
pub fn translation_has_counts()
    ensures { TranslationCounts }
{}
