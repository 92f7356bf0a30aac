//! A kind of section, and how a section is read.

ghost use Rattle.std.specs.Prelude.{◌≡◌, [], None, OnOk, IfErr};
ghost use Rattle.mc_lex.specs.Left.{IsFurther};
ghost use Rattle.mc_text.specs.Judged.{first_in_section, section_lines, behind_section};
ghost use Rattle.mc_text.specs.Stops.{IsEnd};
ghost use Rattle.mc_text.specs.Takes.{TakesWord, TakesEnd, StopsAtWord, StopsAtEnd};

use crate::fault::{Fault, Stop};
use crate::head::is_end;
use crate::line::read_line;
use crate::point::Point;
use mc_lex::{TextEnd, Words};

/// What a kind of section adds: its rules, and what is kept of its words.
pub trait Section {
    ghost use Rattle.std.specs.Prelude.{List, [], ℕ};
    ghost use Rattle.mc_text.specs.Judged.{Rules};

    /// What is judged with a word and at the end of a line, by the lines and the words before.
    ghost rules: { Self → Rules };

    /// That this is what is kept of the lines before and of the words of the line.
    ghost means: { Self → List (List (List ℕ)) → List (List ℕ) → Type 0 };

    /// What stands before the section and is kept as it is; nothing, where the section begins its document.
    ghost given: { Self → List (List (List ℕ)) } = { λ _. [] };

    /// Judges a word and takes it.
    fn word(&mut self, point: Point, word: &[u8]) -> Result<(), Stop>
        ensures ok { OnOk result (TakesWord rules means self.old self.new point word.now) }
        ensures given { OnOk result (given self.new ≡ given self.old) }
        ensures err { IfErr result (StopsAtWord rules means self.old point word.now) };

    /// Judges the end of a line and takes the line.
    fn end_line(&mut self, point: Point) -> Result<(), Stop>
        ensures ok { OnOk result (TakesEnd rules means self.old self.new point) }
        ensures given { OnOk result (given self.new ≡ given self.old) }
        ensures err { IfErr result (StopsAtEnd rules means self.old point) };
}

/// Reads the lines of a section through its `end`, behind which the words stand then. The answer is
/// the first fault or limit of the section, if there is one; the words then stand somewhere in the
/// text.
pub fn read_section<S: Section>(words: &mut Words<'_>, section: &mut S) -> Result<(), TextEnd>
    requires { S.means section.old [] [] }
    ensures clean { OnOk result
        (first_in_section (S.rules section.old) [] words.old.later words.old.last ≡ None) }
    ensures read { OnOk result (S.means section.new (section_lines words.old.later) []) }
    ensures same { OnOk result (S.rules section.new ≡ S.rules section.old) }
    ensures given { OnOk result (S.given section.new ≡ S.given section.old) }
    ensures behind { OnOk result (words.new.later ≡ behind_section words.old.later) }
    ensures whole { OnOk result (words.new.here ≡ []) }
    ensures further { IsFurther words.old words.new }
    ensures err { IfErr result (λ end.
        IsEnd end (first_in_section (S.rules section.old) [] words.old.later words.old.last)) }
{
    let mut last = None;
    'lines: while words.next_line() {
        match read_line(words, last, section) {
            Ok(head) => {
                if is_end(head) {
                    return Ok(());
                }
                last = head;
            }
            Err(end) => return Err(end),
        }
    }
    let (line, column) = words.end_place();
    Err(Fault::TextEnds.at(line, column))
}
