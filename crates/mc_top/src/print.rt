//! `print`: a document in canonical spelling.

ghost use Rattle.std.specs.Prelude.{OnOk, IfOk, IsSomeAnd, IsTrue};
ghost use Rattle.mc_model.specs.Steps.{is_permitted};
ghost use Rattle.mc_document.specs.Documents.{IsDocument, plain_document};
ghost use Rattle.mc_document.specs.Documents.{IsTaken, every_kind};
ghost use Rattle.mc_top.specs.Due.{Gives, Holds};
ghost use Rattle.mc_top.specs.Print.{IsReadBack, due_print};

use crate::answer::{Answer, told};
use mc_document::{Document, canonical_texts_are_read, print_document, taken_documents_are_seen};
use mc_lex::TextEnd;
use std::alloc::Global;

/// The word that asks for it.
pub(crate) const WORD: &[u8] = b"print";

/// The canonical text of a document, with its second section where there is one.
pub(crate) fn answer_print<const H: usize>(
    alloc: Global,
    document: Document<H>,
) -> Result<Answer, TextEnd>
    requires permitted { IsTrue (is_permitted H) }
    requires valid { IsDocument H (plain_document document) }
    requires taken { IsTaken every_kind (plain_document document) }
    ensures due { IsSomeAnd (due_print H (plain_document document.entry)) (Gives result) }
    ensures meaning { OnOk result (IsReadBack H (plain_document document.entry)) }
    ensures holds { IfOk result Holds }
{
    canonical_texts_are_read::<H>();
    taken_documents_are_seen();
    told(print_document(alloc, &document))
}
