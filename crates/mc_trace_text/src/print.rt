//! Printing a trace.

ghost use Rattle.std.specs.Prelude.{◌≡◌, ◌++◌, ◌≤◌, All, IfOk, OnOk, codes, map, [], ◌∷◌};
ghost use Rattle.mc_write.specs.Text.{line_text, text_of};
ghost use Rattle.mc_standard.specs.Uses.{plain_use};
ghost use Rattle.mc_trace_text.specs.Traces.{CanBeWritten};
ghost use Rattle.mc_trace_text.specs.Canonical.{use_line, trace_text};

use crate::rule::rule_word;
use mc_lex::Kind;
use mc_model::Memory;
use mc_text::print_header;
use mc_trace::{Derivation, Use};
use mc_write::{add_number, add_word, end_line, start_line};
use std::alloc::Global;

/// Writes the line of a use.
fn print_use(text: &mut Vec<u8>, u: Use) -> Result<(), Memory>
    requires { u.place ≤ 9999 }
    ensures { OnOk result (text.new.items ≡ text.old.items ++ line_text (use_line (plain_use u))) }
{
    start_line(text, b"u")?;
    add_number(text, u.place as u32)?;
    add_word(text, rule_word(u.rule))?;
    end_line(text)
}

/// Writes the lines of the uses.
fn print_uses(text: &mut Vec<u8>, d: &Derivation) -> Result<(), Memory>
    requires { All (λ u. u.place ≤ 9999) d.now }
    ensures { OnOk result (text.new.items ≡ text.old.items ++ text_of (map use_line d.now)) }
{
    'uses: for i in 0..d.len() {
        print_use(text, d.get(i))?;
    }
    Ok(())
}

/// Writes the line `end`.
fn print_end(text: &mut Vec<u8>) -> Result<(), Memory>
    ensures { OnOk result (text.new.items ≡ text.old.items ++ line_text (codes "end" ∷ [])) }
{
    start_line(text, b"end")?;
    end_line(text)
}

/// The canonical text of a derivation, with its header.
pub fn print_trace(alloc: Global, d: &Derivation) -> Result<Vec<u8>, Memory>
    requires { CanBeWritten d.now }
    ensures { IfOk result (λ text. text.items ≡ trace_text d.now) }
{
    let mut text = Vec::new(alloc);
    print_header(&mut text, Kind::Trace, 1, 4)?;
    print_uses(&mut text, d)?;
    print_end(&mut text)?;
    Ok(text)
}
