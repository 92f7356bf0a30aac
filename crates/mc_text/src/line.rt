//! A line of a section.

ghost use Rattle.std.specs.Prelude.{◌≡◌, [], OnOk, IfOk, IfErr};
ghost use Rattle.mc_lex.specs.Left.{IsFurther};
ghost use Rattle.mc_text.specs.Takes.{TakesLine, StopsInLine};

use crate::fault::Fault;
use crate::head::Head;
use crate::point::Point;
use crate::section::Section;
use mc_lex::{TextEnd, Token, Words};

/// Reads the words of the current line, behind a line with the record word `last`, and gives its
/// record word.
pub(crate) fn read_line<S: Section>(
    words: &mut Words<'_>,
    last: Option<Head>,
    section: &mut S,
) -> Result<Option<Head>, TextEnd>
    ensures ok { IfOk result (TakesLine S.rules S.means section.old section.new last words.old) }
    ensures given { OnOk result (S.given section.new ≡ S.given section.old) }
    ensures whole { OnOk result (words.new.here ≡ []) }
    ensures err { IfErr result (StopsInLine S.rules S.means section.old last words.old) }
    ensures later { words.new.later ≡ words.old.later }
    ensures end { words.new.last ≡ words.old.last }
    ensures further { IsFurther words.old words.new }
{
    let mut point = Point::at_start(last);
    'tokens: loop {
        match words.next() {
            Token::Word(word) => {
                if let Err(stop) = section.word(point, word.bytes) {
                    return Err(stop.at(word.line, word.column));
                }
                point = point.behind(word.bytes);
            }
            Token::Bad { line, column } => {
                return Err(Fault::StrayByte.at(line, column));
            }
            Token::End { line, column } => {
                return match section.end_line(point) {
                    Ok(()) => Ok(point.head),
                    Err(stop) => Err(stop.at(line, column)),
                };
            }
        }
    }
}
