//! Printing the header of a section.

ghost use Rattle.std.specs.Prelude.{◌≡◌, ◌++◌, ℕ, OnOk, Some};
ghost use Rattle.mc_lex.specs.declared.kind.Kind.{Kind as PlainKind};
ghost use Rattle.mc_write.specs.Text.{line_text, words_behind};
ghost use Rattle.mc_text.specs.Headers.{header_words, version_word, turn_words, kind_in};
ghost use Rattle.mc_text.specs.Headers.{version_in, half_in, IsVersion, IsHalf};

use mc_lex::Kind;
use mc_model::Memory;
use mc_write::{add_word, end_line, start_line};

/// Writes the header of a section: its kind, its version, which is 2 or else 1, and the words
/// `turn 16` where half a turn has 8 steps.
pub fn print_header(text: &mut Vec<u8>, kind: Kind, version: u8, half: usize) -> Result<(), Memory>
    ensures { OnOk result (text.new.items ≡
        text.old.items ++ line_text (header_words kind version half)) }
{
    start_line(text, kind.word())?;
    add_word(text, version_of(version))?;
    add_turn(text, half)?;
    end_line(text)
}

/// The word for a version.
fn version_of(version: u8) -> &'static [u8]
    ensures { result.now ≡ version_word version }
{
    if version == 2 { b"2" } else { b"1" }
}

/// Writes the words for sixteenths of a turn, where half a turn has 8 steps.
fn add_turn(text: &mut Vec<u8>, half: usize) -> Result<(), Memory>
    ensures { OnOk result (text.new.items ≡ text.old.items ++ words_behind (turn_words half)) }
{
    if half != 8 {
        return Ok(());
    }
    add_word(text, b"turn")?;
    add_word(text, b"16")
}

/// A header that is printed says its kind, its version and its step.
pub fn headers_are_read()
    ensures kind { (kind : PlainKind) (version half : ℕ)
        → kind_in (header_words kind version half) ≡ Some kind }
    ensures version { (kind : PlainKind) (version half : ℕ) → IsVersion version
        → version_in (header_words kind version half) ≡ version }
    ensures half { (kind : PlainKind) (version half : ℕ) → IsHalf half
        → half_in (header_words kind version half) ≡ half }
{}
