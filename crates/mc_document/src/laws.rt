//! What is proved of texts and documents, each law on the contract of a function that does nothing.

ghost use Rattle.std.specs.Prelude.{◌≡◌, ℕ, List, None, Some, IsSomeAnd, IsTrue, false, is_some};
ghost use Rattle.mc_model.specs.Steps.{is_permitted};
ghost use Rattle.mc_text.specs.Judged.{Place};
ghost use Rattle.mc_document.specs.declared.takes.Takes.{Takes};
ghost use Rattle.mc_document.specs.Documents.{IsDocument, IsTaken, PlainDocument, cert_in, certified_graphs};
ghost use Rattle.mc_document.specs.Documents.{certified_kinds, circuit_in, circuits_and_patterns, document_text};
ghost use Rattle.mc_document.specs.Documents.{every_kind, every_source, gates_in, graph_in, only_circuits};
ghost use Rattle.mc_document.specs.Documents.{only_gates, pattern_in, patterns_and_graphs, traced_in, two};
ghost use Rattle.mc_document.specs.Documents.{two_in, two_patterns};
ghost use Rattle.mc_document.specs.Sections.{first_in_text, spelled};
ghost use Rattle.mc_document.specs.Turns.{half_of};
ghost use Rattle.mc_model.specs.Pattern.{Pattern};

use mc_cert::short_bounds_are_few;
use mc_cert_text::cert_texts_are_read;
use mc_change_text::change_texts_are_read;
use mc_gates_text::gate_texts_are_read;
use mc_trace_text::trace_texts_are_read;

/// A text without fault and passed limit spells a document, of a kind that is taken, and in a permitted step a valid one, with
/// what stands behind its first section.
pub fn clean_texts_spell_documents()
    ensures taken { (half : ℕ) (takes : Takes) (text : List ℕ) →
        first_in_text half takes text ≡ None → IsSomeAnd (spelled half text) (IsTaken takes) }
    ensures valid { (half : ℕ) → IsTrue (is_permitted half) → (takes : Takes) (text : List ℕ) →
        first_in_text half takes text ≡ None → IsSomeAnd (spelled half text) (IsDocument half) }
{
    short_bounds_are_few();
}

/// A document of a kind that is taken is seen as one of the kinds that are taken.
#[tactic(auto, using(crate::proofs::ByKind::documents_seen))]
pub fn taken_documents_are_seen()
    ensures circuit { (d : PlainDocument) → IsTaken only_circuits d → IsTrue (is_some (circuit_in d)) }
    ensures other { (d : PlainDocument) → IsTaken circuits_and_patterns d → is_some (circuit_in d) ≡ false →
        IsTrue (is_some (pattern_in d)) }
    ensures branch { (d : PlainDocument) → IsTaken patterns_and_graphs d → is_some (pattern_in d) ≡ false →
        IsTrue (is_some (graph_in d)) }
    ensures source { (d : PlainDocument) → IsTaken every_source d → is_some (circuit_in d) ≡ false →
        is_some (pattern_in d) ≡ false → IsTrue (is_some (graph_in d)) }
    ensures graphs { (d : PlainDocument) → IsTaken certified_graphs d → IsTrue (is_some (cert_in d)) }
    ensures certified { (d : PlainDocument) → IsTaken certified_kinds d → is_some (traced_in d) ≡ false →
        IsTrue (is_some (cert_in d)) }
    ensures two { (d : PlainDocument) → IsTaken two_patterns d → IsTrue (is_some (two_in d)) }
    ensures gates { (d : PlainDocument) → IsTaken only_gates d → IsTrue (is_some (gates_in d)) }
    ensures one { (d : PlainDocument) → IsTaken every_kind d → two_in d ≡ None }
{}

/// The canonical text of a document, its headers and its second section included, has no fault where its kind is taken, says
/// the step, and spells the document. A list of gates says no step, and its phases are in eighths. Where there are two
/// patterns, the text says at which place the second begins.
pub fn canonical_texts_are_read<const H: usize>()
    requires { IsTrue (is_permitted H) }
    ensures clean { (takes : Takes) (d : PlainDocument) → IsDocument H d → IsTaken takes d →
        first_in_text H takes (document_text H d) ≡ None }
    ensures same { (d : PlainDocument) → IsDocument H d → two_in d ≡ None → spelled H (document_text H d) ≡ Some d }
    ensures two { (p q : Pattern) (line column : ℕ) → IsDocument H (two p q line column) →
        (place : Place) × (spelled H (document_text H (two p q line column)) ≡ Some (two p q place.0 place.1)) }
    ensures step { (d : PlainDocument) → IsDocument H d → gates_in d ≡ None → half_of (document_text H d) ≡ H }
    ensures eighths { (d : PlainDocument) → IsTrue (is_some (gates_in d)) → half_of (document_text H d) ≡ 4 }
{
    mc_circuit::canonical_texts_are_read::<H>();
    mc_pattern_text::canonical_texts_are_read::<H>();
    change_texts_are_read();
    trace_texts_are_read();
    mc_graph_text::canonical_texts_are_read::<H>();
    cert_texts_are_read();
    gate_texts_are_read();
}

/// Two documents have two canonical texts, the place of a second pattern aside.
pub fn canonical_texts_differ<const H: usize>()
    requires { IsTrue (is_permitted H) }
    ensures { (d e : PlainDocument) → IsDocument H d → IsDocument H e → two_in d ≡ None → two_in e ≡ None →
        document_text H d ≡ document_text H e → d ≡ e }
{
    canonical_texts_are_read::<H>();
}
