//! The header of a section.

ghost use Rattle.std.specs.Prelude.{◌≡◌, [], None, OnOk, IfOk, IfErr};
ghost use Rattle.mc_lex.specs.Left.{IsFurther};
ghost use Rattle.mc_text.specs.Judged.{words_of, first_in_line};
ghost use Rattle.mc_text.specs.Headers.{form_rules, version_behind, half_behind};
ghost use Rattle.mc_text.specs.Headers.{first_in_header, IsHeader, version_in, half_in};
ghost use Rattle.mc_text.specs.Stops.{IsEnd};

use crate::fault::Fault;
use crate::form::{Behind, Form};
use crate::line::read_line;
use mc_lex::{Kind, TextEnd, Token, Words};

/// Which kinds of section a header may name, and what it may say of them.
pub trait Kinds {
    ghost use Rattle.std.specs.Prelude.{Option};
    ghost use Rattle.mc_lex.specs.declared.kind.Kind.{Kind};
    ghost use Rattle.mc_text.specs.declared.fault.Fault.{Fault};
    ghost use Rattle.mc_text.specs.declared.form.Form.{Form};

    /// The fault of a header that names this kind, if it may not stand here.
    ghost refused: { Self → Kind → Option Fault };

    /// The fault of a header whose first word names no kind.
    ghost unknown: { Self → Fault };

    /// What a header of this kind may say behind its kind.
    ghost form: { Self → Kind → Form };

    /// The fault of a header that names this kind, if it may not stand here.
    fn refused(&self, kind: Kind) -> Option<Fault>
        ensures { result ≡ refused self.now kind };

    /// The fault of a header whose first word names no kind.
    fn unknown(&self) -> Fault
        ensures { result ≡ unknown self.now };

    /// What a header of this kind may say behind its kind.
    fn form(&self, kind: Kind) -> Form
        ensures { result ≡ form self.now kind };
}

/// What a header says: the kind, with the place of the word that names it, the version, which is
/// 1 or 2, and how many steps half a turn has, which is 4 where the header says nothing of it.
#[derive(Clone, Copy, Debug, PartialEq, Eq)]
pub struct Header {
    pub kind: Kind,
    pub line: u32,
    pub column: u32,
    pub version: u8,
    pub half: usize,
}

/// Reads the current line as the header of a section: a kind that may stand here, and the words
/// behind it that its form permits. The answer is the first fault of the line, if there is one.
#[tactic(auto, using(crate::proofs::Heading::of_first))]
pub fn read_header<K: Kinds>(kinds: &K, words: &mut Words<'_>) -> Result<Header, TextEnd>
    ensures clean { OnOk result (first_in_header (K.refused kinds.now) (K.unknown kinds.now)
        (K.form kinds.now) words.old.here words.old.lack ≡ None) }
    ensures header { IfOk result (λ header.
        IsHeader header.kind (header.line, header.column) words.old.here) }
    ensures version { IfOk result (λ header.
        header.version ≡ version_in (words_of words.old.here)) }
    ensures half { IfOk result (λ header. header.half ≡ half_in (words_of words.old.here)) }
    ensures later { words.new.later ≡ words.old.later }
    ensures end { words.new.last ≡ words.old.last }
    ensures further { IsFurther words.old words.new }
    ensures err { IfErr result (λ end. IsEnd end (first_in_header (K.refused kinds.now)
        (K.unknown kinds.now) (K.form kinds.now) words.old.here words.old.lack)) }
{
    match words.next() {
        Token::Word(word) => {
            let (line, column) = (word.line, word.column);
            let Some(kind) = Kind::read(word.bytes) else {
                return Err(kinds.unknown().at(line, column));
            };
            if let Some(fault) = kinds.refused(kind) {
                return Err(fault.at(line, column));
            }
            match read_behind(kinds.form(kind), words) {
                Ok(behind) => Ok(Header {
                    kind,
                    line,
                    column,
                    version: behind.version,
                    half: behind.half,
                }),
                Err(end) => Err(end),
            }
        }
        Token::Bad { line, column } => Err(Fault::StrayByte.at(line, column)),
        Token::End { line, column } => Err(kinds.unknown().at(line, column)),
    }
}

/// Reads the words behind the kind.
fn read_behind(form: Form, words: &mut Words<'_>) -> Result<Behind, TextEnd>
    ensures clean { OnOk result
        (first_in_line (form_rules form) [] [] words.old.here words.old.lack ≡ None) }
    ensures version { IfOk result (λ behind.
        behind.version ≡ version_behind (words_of words.old.here)) }
    ensures half { IfOk result (λ behind.
        behind.half ≡ half_behind (words_of words.old.here)) }
    ensures later { words.new.later ≡ words.old.later }
    ensures end { words.new.last ≡ words.old.last }
    ensures further { IsFurther words.old words.new }
    ensures err { IfErr result (λ end.
        IsEnd end (first_in_line (form_rules form) [] [] words.old.here words.old.lack)) }
{
    let mut behind = Behind {
        form,
        version: 1,
        half: 4,
    };
    match read_line(words, None, &mut behind) {
        Ok(_) => Ok(behind),
        Err(end) => Err(end),
    }
}
